// A range that would give a pair of boundaries away, with that pair.
ghost use Rattle.lines.specs.Lines.{pair_text};

use crate::piece::{Each, Piece, Text};
use ranges::Range;

// An opening, the range, the pair in brackets, and a closing.
#[derive(Clone, Copy)]
pub(crate) struct Pair<'a> {
    pub(crate) opening: &'a [u8],
    pub(crate) range: Range<u32>,
    pub(crate) pair: Range<u16>,
    pub(crate) closing: &'a [u8],
}

impl Piece for Pair<'_> {
    ghost text = { λ it. pair_text it.opening.now it.range.low it.range.high it.pair it.closing.now };

    fn put(&self, out: &mut [u8]) -> Option<usize> {
        Text(self.opening)
            .then(self.range)
            .then(Text(b" (range"))
            .then(Each(&[u32::from(self.pair.low), u32::from(self.pair.high)]))
            .then(Text(self.closing))
            .put(out)
    }
}
