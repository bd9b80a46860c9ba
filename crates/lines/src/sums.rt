// The line of a released sum: the kind's word, and the numbers that the kind writes of the value.
ghost use Rattle.std.specs.Prelude.{◌≤◌};
ghost use Rattle.lines.specs.Text.{Wrote};
ghost use Rattle.lines.specs.Lines.{sum_line};

use crate::piece::{Each, Piece, Text};
use kinds::{Kind, KindName};
use ranges::Range;

// A value has at most 255 numbers, as many as a byte counts.
pub(crate) fn sum_line<K: Kind>(
    out: &mut [u8],
    kind: KindName,
    range: Range<u32>,
    value: K,
) -> Option<usize>
    ensures text { Wrote (sum_line kind K.Kind.numbers range.low range.high (K.Kind.meaning value)) out.old out.new result }
    ensures few { K.Kind.numbers.size ≤ 255 }
{
    let mut table = [0; 255];
    let row = &mut table[..usize::from(K::NUMBERS)];
    let _ = value.write_numbers(row);
    Text(b"(sum")
        .then(range)
        .then(Text(b" ("))
        .then(kind)
        .then(Each(row))
        .then(Text(b"))\n"))
        .put(out)
}
