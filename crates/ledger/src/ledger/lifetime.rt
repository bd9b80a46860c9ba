// How a ledger begins and ends.
ghost use Rattle.std.specs.Prelude.{◌≡◌, ℕ, [], map, length};
ghost use Rattle.distances.specs.Distance.{entry};
ghost use Rattle.stores.specs.Log.{Log};
ghost use Rattle.ledger.specs.Machine.{opened};
ghost use Rattle.ledger.specs.Rules.{Rule};
ghost use Rattle.ledger.specs.State.{state_of, releases_of};
ghost use Rattle.ledger.specs.Truth.{TrueTo};
ghost use Rattle.links.specs.Joined.{joined};

use super::Ledger;
use crate::amounts::Amounts;
use crate::answer::Counts;
use crate::token::NewLog;
use distances::Distances;
use kinds::Kind;
use links::Links;

// A ledger with nothing released and nothing counted, over a table of which every value is made zero.
pub fn open<K: Kind>(log: NewLog, table: &mut [K]) -> (Ledger, Amounts<'_, K>)
    ensures opened { state_of K.Kind.group result.0.links (map K.Kind.meaning result.1.distances.table.now) result.0.counts ≡ opened (length table.old) }
    ensures zeros { (i : ℕ) → entry K.Kind.group (map K.Kind.meaning result.1.distances.table.now) i ≡ K.Kind.group.zero }
    ensures faithful { (log : Log K.Kind.Value) (rule : Rule) → TrueTo K.Kind.group log rule (releases_of K.Kind.group result.0.links (map K.Kind.meaning result.1.distances.table.now)) }
    ensures named { result.1.distances.table.ghost_name ≡ table.entry.ghost_name }
{
    let distances = Distances::open(table);
    (Ledger::new(log), Amounts { distances })
}

impl Ledger {
    fn new(log: NewLog) -> Ledger
        ensures joined { joined result.links ≡ [] }
        ensures counts { result.counts ≡ record { released = 0; withheld = 0; lost = 0; malformed = 0 } }
    {
        Ledger {
            links: Links::new(),
            counts: Counts::default(),
            log,
        }
    }

    // The counts so far.
    pub fn counts(&self) -> Counts
        ensures { result ≡ self.now.counts }
    {
        self.counts
    }

    // Ends the ledger, and gives its counts.
    pub fn close(self) -> Counts
        ensures { result ≡ self.counts }
    {
        let Ledger { links, counts, log } = self;
        links.close();
        log.spend();
        counts
    }
}
