// A number in base ten.
ghost use Rattle.std.specs.Prelude.{decimal};
ghost use Rattle.lines.specs.Text.{Wrote};
ghost use Rattle.lines.specs.Digits.{ReadAs};

use crate::piece::{Digits, Piece};

// Writes a number in base ten, with no leading zero.
pub fn write_number(out: &mut [u8], n: u64) -> Option<usize>
    ensures text { Wrote (decimal n) out.old out.new result }
    ensures back { ReadAs n (decimal n) }
{
    Digits(n).put(out)
}
