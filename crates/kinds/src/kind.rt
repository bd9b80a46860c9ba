// The interface of a kind of reading. Its meaning is a commutative group; code above it rests on that alone.
ghost use Rattle.std.specs.Prelude.{◌≡◌, ℕ, ◌^◌, ◌==◌, ◌↔◌, length, is_ok, if◌then◌else◌, IsTrue};
ghost use Rattle.std.specs.Option.{option_map};
ghost use Rattle.kinds.specs.declared.names.KindName.{KindName};
ghost use Rattle.kinds.specs.Group.{Group};
ghost use Rattle.kinds.specs.Codec.{Codec, fitted, filled};

use crate::names::KindName;

// A buffer that has not as many places as a value has bytes, or numbers.
#[derive(Clone, Copy, Debug, PartialEq, Eq)]
pub struct WrongLength;

// Copies a row into a buffer of just its length; any other buffer is left as it was.
pub(crate) fn fill<T: Copy>(out: &mut [T], row: &[T]) -> Result<(), WrongLength>
    ensures test { is_ok result ≡ (length out.old == length row.now) }
    ensures after { out.new ≡ (if length out.old == length row.now then row.now else out.old) }
{
    if out.len() != row.len() {
        return Err(WrongLength);
    }
    out.copy_from_slice(row);
    Ok(())
}

// Two readings are equal just where they mean the same value.
pub trait Kind: Copy + Eq {
    // The values of the kind.
    ghost Value: { Type 0 };

    ghost group: { Group Value };

    // The value that a held reading means: several readings may mean one value.
    ghost meaning: { Self → Value };

    // A reading that means a given value: every value of the kind can be held.
    ghost held: { Value → Self };

    ghost bytes: { Codec 256 Value };

    ghost numbers: { Codec (2 ^ 32) Value };

    // How many bytes a value has, and how many numbers.
    ghost BYTES: { ℕ };

    const BYTES: u8;

    ghost NUMBERS: { ℕ };

    const NUMBERS: u8;

    fn zero() -> Self
        ensures { meaning result ≡ group.zero };

    fn plus(self, other: Self) -> Self
        ensures { meaning result ≡ group.plus (meaning self) (meaning other) };

    fn inverse(self) -> Self
        ensures { meaning result ≡ group.inverse (meaning self) };

    // Writes the value's bytes into a buffer of just their number; any other buffer is left as it was.
    fn write_bytes(self, out: &mut [u8]) -> Result<(), WrongLength>
        ensures test { is_ok result ≡ fitted bytes out.old }
        ensures after { out.new ≡ filled bytes (meaning self) out.old };

    // The value that these bytes are, or none.
    fn read_bytes(row: &[u8]) -> Option<Self>
        ensures { option_map meaning result ≡ bytes.read row.now };

    fn write_numbers(self, out: &mut [u32]) -> Result<(), WrongLength>
        ensures test { is_ok result ≡ fitted numbers out.old }
        ensures after { out.new ≡ filled numbers (meaning self) out.old };

    fn read_numbers(row: &[u32]) -> Option<Self>
        ensures { option_map meaning result ≡ numbers.read row.now };

    ghost means: { (v : Value) → meaning (held v) ≡ v };

    ghost equal: { (a b : Self) → IsTrue (Self.eq a b) ↔ (meaning a ≡ meaning b) };

    ghost bytes_long: { bytes.size ≡ BYTES };

    ghost numbers_long: { numbers.size ≡ NUMBERS };
}

// A kind that has a name of its own, by which it is printed and asked for.
pub trait NamedKind: Kind {
    ghost NAME: { KindName };

    const NAME: KindName;
}
