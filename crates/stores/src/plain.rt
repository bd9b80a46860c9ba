// The plain store: a list of values and a list of mark bytes.
ghost use Rattle.std.specs.Prelude.{◌≡◌, min, length};
ghost use Rattle.stores.specs.Log.{answer, valued, meant};
ghost use Rattle.stores.specs.Stores.{plain_log};

use crate::store::{Mark, Reading, Store};
use kinds::Kind;

// Stays: two lists side by side are what the plain store is, by a rule of the project.
#[derive(Clone, Copy, Debug)]
pub struct Plain<'a, K> {
    pub(crate) values: &'a [K],
    pub(crate) marks: &'a [u8],
}

impl<K: Kind> Store<K> for Plain<'_, K> {
    ghost log = { λ s. plain_log (K.Kind.held K.Kind.group.zero) s.values.now s.marks.now };

    fn slots(&self) -> usize
        ensures { result ≡ min (length self.now.values.now) (length self.now.marks.now) }
    {
        self.values.len().min(self.marks.len())
    }

    fn read(&self, slot: usize) -> Reading<K>
        ensures { valued K.Kind.meaning result ≡ answer (meant K.Kind.meaning (plain_log (K.Kind.held K.Kind.group.zero) self.now.values.now self.now.marks.now)) slot }
    {
        let (Some(value), Some(mark)) = (self.values.get(slot), self.marks.get(slot)) else {
            return Reading::Outside;
        };
        Reading::told(Mark::from(*mark), *value)
    }
}
