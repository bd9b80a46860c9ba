// The window: a part of any store, from a start and as long as it may be.
ghost use Rattle.std.specs.Prelude.{◌≡◌, ◌-◌, min};
ghost use Rattle.stores.specs.Log.{answer, valued, meant};
ghost use Rattle.stores.specs.Stores.{window_log};

use crate::store::{Reading, Store};
use kinds::Kind;

#[derive(Clone, Copy, Debug, Drop)]
pub struct Window<S> {
    below: S,
    start: usize,
    length: usize,
}

impl<S> Window<S> {
    pub fn new(below: S, start: usize, length: usize) -> Window<S>
        ensures { result ≡ record { below = below; start = start; length = length } }
    {
        Window {
            below,
            start,
            length,
        }
    }
}

// How many of `below` slots a window has from its start on.
fn reach(below: usize, start: usize, length: usize) -> usize
    ensures { result ≡ min length (below - start) }
{
    length.min(below.saturating_sub(start))
}

impl<K: Kind, S: Store<K>> Store<K> for Window<S> {
    ghost log = { λ s. window_log (S.Store.log s.below) s.start s.length };

    fn slots(&self) -> usize
        ensures { result ≡ (window_log (S.Store.log self.now.below) self.now.start self.now.length).slots }
    {
        reach(self.below.slots(), self.start, self.length)
    }

    fn read(&self, slot: usize) -> Reading<K>
        ensures { valued K.Kind.meaning result ≡ answer (meant K.Kind.meaning (window_log (S.Store.log self.now.below) self.now.start self.now.length)) slot }
    {
        if slot >= reach(self.below.slots(), self.start, self.length) {
            return Reading::Outside;
        }
        self.below.read(self.start + slot)
    }
}
