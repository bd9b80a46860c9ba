// The line of a rehearsal: an opening, one try after another, and an end.
ghost use Rattle.std.specs.Prelude.{◌≤◌, ◌++◌, length, codes};
ghost use Rattle.lines.specs.Text.{Wrote};
ghost use Rattle.lines.specs.Lines.{trial_text};
ghost use Rattle.lines.specs.Fits.{RehearsalsFit};

use crate::pairs::Pair;
use crate::piece::{Each, Piece, Text};
use ledger::Trial;
use ranges::Range;

const OPENING: &[u8] = b"(rehearsed";

const END: &[u8] = b")\n";

// The line, round the pieces of its tries.
#[derive(Clone, Copy)]
pub struct Rehearsed<P>(pub P);

impl<P: Piece> Piece for Rehearsed<P> {
    ghost text = { λ it. codes "(rehearsed" ++ P.Piece.text it.0 ++ codes ")\n" };

    fn put(&self, out: &mut [u8]) -> Option<usize> {
        Text(OPENING).then(&self.0).then(Text(END)).put(out)
    }
}

// Begins the line.
pub fn begin_rehearsed(out: &mut [u8]) -> Option<usize>
    ensures { Wrote (codes "(rehearsed") out.old out.new result }
{
    Text(OPENING).put(out)
}

// Writes a try and what was answered, after a blank, into the rest of the line.
#[tactic(auto, using(crate::proofs::Lengths::trial_long))]
pub fn write_trial(out: &mut [u8], range: Range<u32>, trial: Trial) -> Option<usize>
    ensures text { Wrote (trial_text range.low range.high trial) out.old out.new result }
    ensures short { length (trial_text range.low range.high trial) ≤ 279 }
{
    match trial {
        Trial::Free => Text(b" (free").then(range).then(Text(b")")).put(out),
        Trial::Withheld(pair) => Pair {
            opening: b" (withheld",
            range,
            pair,
            closing: b"))",
        }
        .put(out),
        Trial::Refused(fault) => Text(b" (refused")
            .then(Each(&[range.low, range.high, u32::from(fault.number())]))
            .then(Text(b")"))
            .put(out),
    }
}

// Ends the line.
pub fn end_rehearsed(out: &mut [u8]) -> Option<usize>
    ensures text { Wrote (codes ")\n") out.old out.new result }
    ensures whole { RehearsalsFit }
{
    Text(END).put(out)
}
