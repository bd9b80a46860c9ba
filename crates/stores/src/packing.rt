// Packing: writing the record of one slot into the bytes of a packed store.
ghost use Rattle.std.specs.Prelude.{◌≡◌, ◌/◌, ◌<◌, length, is_ok, MatchResult, ◌≢◌};
ghost use Rattle.std.specs.Option.{option_map};
ghost use Rattle.stores.specs.Packing.{packed, packed_record, has_record, ReadsBack, Repacked};
ghost use Rattle.stores.specs.Stores.{packed_log, width};

use crate::packed::{Packed, record_at, width};
use crate::store::Store;
use kinds::{Kind, WrongLength};

// The slot has no record within the bytes.
#[derive(Clone, Copy, Debug, PartialEq, Eq)]
pub struct BeyondBytes;

impl BeyondBytes {
    pub fn number(self) -> u8
        ensures { result ≡ 32 }
    {
        32
    }
}

// Writes a record into a row of just its width.
fn write_record<K: Kind>(row: &mut [u8], what: Option<K>)
    ensures { length row.old ≡ width K.Kind.bytes → row.new ≡ packed_record K.Kind.bytes (option_map K.Kind.meaning what) }
{
    match what {
        Some(value) => {
            // Stays: behind a pattern `[mark, bytes @ ..]` no name reaches what the row is after the loan.
            if row.is_empty() {
                return;
            }
            row[0] = 1;
            let _ = value.write_bytes(&mut row[1..]);
        }
        None => row.fill(0),
    }
}

// Writes the record of one slot, kept with a value or lost; where it has none within the bytes, all stays as it was.
pub fn pack<K: Kind>(bytes: &mut [u8], slot: usize, what: Option<K>) -> Result<(), BeyondBytes>
    ensures test { is_ok result ≡ has_record K.Kind.bytes bytes.old slot }
    ensures after { bytes.new ≡ packed K.Kind.bytes bytes.old slot (option_map K.Kind.meaning what) }
    ensures back { MatchResult result (λ _. ReadsBack (packed_log K.Kind.group K.Kind.bytes bytes.old) (packed_log K.Kind.group K.Kind.bytes bytes.new) slot (option_map K.Kind.meaning what)) (λ _. bytes.new ≡ bytes.old) }
{
    // Stays: no plainer than `ok_or(BeyondBytes)?`, behind which the record's place has a longer name in the proof.
    let Some(at) = record_at::<K>(bytes.len(), slot) else {
        return Err(BeyondBytes);
    };
    write_record(&mut bytes[at..at + width::<K>()], what);
    Ok(())
}

// Reads each slot of `from` and packs it into `to`, which has as many bytes; otherwise `to` is left as it was.
pub fn repack<K: Kind>(from: &[u8], to: &mut [u8]) -> Result<(), WrongLength>
    ensures { MatchResult result (λ _. Repacked K.Kind.group K.Kind.bytes from.now to.old to.new) (λ _. (length to.old ≢ length from.now) × (to.new ≡ to.old)) }
{
    if to.len() != from.len() {
        return Err(WrongLength);
    }
    let packed: Packed<K> = Packed::new(from);
    for slot in 0..packed.slots() {
        let _ = pack(to, slot, packed.read(slot).as_read());
    }
    Ok(())
}
