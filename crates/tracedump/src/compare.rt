// Whether two stores answer alike.
ghost use Rattle.stores.specs.Log.{meant};
ghost use Rattle.tracedump.specs.Compare.{Difference};

use kinds::Kind;
use stores::Store;

// A slot of `part` that does not answer as the slot `start` further on of `whole`, if there is one.
pub fn difference<K: Kind, S: Store<K>, T: Store<K>>(
    whole: &S,
    start: usize,
    part: &T,
) -> Option<usize>
    ensures { Difference (meant K.Kind.meaning (S.Store.log whole.now)) start (meant K.Kind.meaning (T.Store.log part.now)) result }
{
    for slot in 0..part.slots() {
        let Some(at) = start.checked_add(slot) else {
            return Some(slot);
        };
        if whole.read(at) != part.read(slot) {
            return Some(slot);
        }
    }
    None
}
