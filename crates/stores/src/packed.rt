// The packed store: a record for each slot, a mark byte and then the value's bytes.
ghost use Rattle.std.specs.Prelude.{◌≡◌, ◌+◌, ◌*◌, ◌/◌, ◌<◌, ◌≤◌, length, if◌then◌else◌, Some, None, MatchOption, nat_lt};
ghost use Rattle.stores.specs.Log.{answer, told, valued, meant};
ghost use Rattle.stores.specs.Stores.{packed_log, width, record_mark, record_reading};

use crate::store::{Mark, Reading, Store};
use kinds::Kind;
use std::marker::PhantomData;

#[derive(Clone, Copy, Debug)]
pub struct Packed<'a, K> {
    pub(crate) bytes: &'a [u8],
    pub(crate) kind: PhantomData<K>,
}

// How many bytes a record has: a mark byte and the value's.
pub fn width<K: Kind>() -> usize
    ensures value { result ≡ width K.Kind.bytes }
    ensures some { 0 < result }
{
    1 + usize::from(K::BYTES)
}

// Where the record of a slot begins, if it lies whole within `len` bytes.
pub(crate) fn record_at<K: Kind>(len: usize, slot: usize) -> Option<usize>
    ensures value { result ≡ (if nat_lt slot (len / width K.Kind.bytes) then Some (slot * width K.Kind.bytes) else None) }
    ensures within { MatchOption result (len / width K.Kind.bytes ≤ slot) (λ at. (at + width K.Kind.bytes ≤ len) × (slot < len / width K.Kind.bytes)) }
{
    let width = width::<K>();
    if slot >= len / width {
        return None;
    }
    Some(slot * width)
}

// What the record of a slot answers. A row with no mark byte is lost.
fn read_record<K: Kind>(row: &[u8]) -> Reading<K>
    ensures { valued K.Kind.meaning result ≡ told (record_mark K.Kind.bytes row.now) (record_reading K.Kind.group K.Kind.bytes row.now) }
{
    let [mark, bytes @ ..] = row else {
        return Reading::Missing;
    };
    let Some(value) = K::read_bytes(bytes) else {
        return Reading::Missing;
    };
    Reading::told(Mark::from(*mark), value)
}

impl<K: Kind> Store<K> for Packed<'_, K> {
    ghost log = { λ s. meant K.Kind.held (packed_log K.Kind.group K.Kind.bytes s.bytes.now) };

    fn slots(&self) -> usize
        ensures { result ≡ length self.now.bytes.now / width K.Kind.bytes }
    {
        self.bytes.len() / width::<K>()
    }

    fn read(&self, slot: usize) -> Reading<K>
        ensures meant { valued K.Kind.meaning result ≡ answer (meant K.Kind.meaning (meant K.Kind.held (packed_log K.Kind.group K.Kind.bytes self.now.bytes.now))) slot }
        ensures value { valued K.Kind.meaning result ≡ answer (packed_log K.Kind.group K.Kind.bytes self.now.bytes.now) slot }
    {
        let Some(at) = record_at::<K>(self.bytes.len(), slot) else {
            return Reading::Outside;
        };
        read_record(&self.bytes[at..at + width::<K>()])
    }
}
