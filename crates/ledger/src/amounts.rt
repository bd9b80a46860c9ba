// The sums of a ledger's joining releases, over a lent table of values.
ghost use Rattle.std.specs.Prelude.{◌≡◌};

mod answering;

use distances::Distances;
use kinds::Kind;

// The part of a ledger that holds values. Only a query changes it, and `close` alone lets it go.
pub struct Amounts<'a, K> {
    pub(crate) distances: Distances<'a, K>,
}

impl<'a, K: Kind> Amounts<'a, K> {
    // Gives the table back as it stands.
    pub fn close(self) -> &'a mut [K]
        ensures value { result.now ≡ self.entry.distances.table.now }
        ensures named { result.ghost_name ≡ self.entry.distances.table.ghost_name }
    {
        let Amounts { distances } = self;
        distances.close()
    }
}
