// The steps of a chain, each written after what the line already holds.
ghost use Rattle.std.specs.List.{flat_map};
ghost use Rattle.lines.specs.Text.{Wrote};
ghost use Rattle.lines.specs.Words.{sign_word, origin_word};
ghost use Rattle.lines.specs.Lines.{step_text};

use crate::piece::{Each, Piece, Text};
use links::{Origin, Sign, Step};

impl Piece for Sign {
    ghost text = { sign_word };

    fn put(&self, out: &mut [u8]) -> Option<usize> {
        match self {
            Sign::Plus => Text(b"+").put(out),
            Sign::Minus => Text(b"-").put(out),
        }
    }
}

impl Piece for Origin {
    ghost text = { origin_word };

    fn put(&self, out: &mut [u8]) -> Option<usize> {
        match self {
            Origin::Released => Text(b"").put(out),
            Origin::New => Text(b" new").put(out),
        }
    }
}

impl Piece for Step {
    ghost text = { step_text };

    fn put(&self, out: &mut [u8]) -> Option<usize> {
        let ends = [u32::from(self.low), u32::from(self.high)];
        Text(b" (")
            .then(self.sign)
            .then(Each(&ends))
            .then(self.origin)
            .then(Text(b")"))
            .put(out)
    }
}

// Writes a step, after a blank, into the rest of a line.
pub fn write_step(out: &mut [u8], step: Step) -> Option<usize>
    ensures { Wrote (step_text step) out.old out.new result }
{
    step.put(out)
}

// Writes the steps one after the other: the rest of the buffer, from the filled length on, is lent for each.
pub fn write_chain(out: &mut [u8], steps: &[Step]) -> Option<usize>
    ensures { Wrote (flat_map step_text steps.now) out.old out.new result }
{
    Each(steps).put(out)
}
