// What is printed of a rehearsal: its tries with their answers, in one line.
ghost use Rattle.std.specs.Prelude.{◌≡◌, ◌≤◌, map, length};
ghost use Rattle.std.specs.List.{flat_map};
ghost use Rattle.lines.specs.Text.{Wrote};
ghost use Rattle.lines.specs.Lines.{tried_text, rehearsed_line};
ghost use Rattle.script.specs.Session.{answered};
ghost use Rattle.script.specs.Printed.{ends_of};

use crate::print::Line;
use ledger::{Trial, Try};
use lines::{Piece, Rehearsed, write_trial};

// Each try with its answer.
#[derive(Drop)]
pub(crate) struct Trials<'a, R> {
    pub(crate) tries: &'a [Try<R>],
    pub(crate) trials: &'a [Trial],
}

impl<R> Piece for Trials<'_, R> {
    ghost text = { λ it. flat_map tried_text (answered (map ends_of it.tries.now) it.trials.now) };

    fn put(&self, out: &mut [u8]) -> Option<usize> {
        // Stays: a loop beside that of `Each`, which goes over one slice; the items of an iterator are no value that `text` could name.
        let mut len = 0;
        for (tried, trial) in self.tries.iter().zip(self.trials) {
            len += write_trial(&mut out[len..], tried.range, *trial)?;
        }
        Some(len)
    }
}

// The line of a rehearsal.
impl<R> Line for Trials<'_, R> {
    ghost text = { λ it. rehearsed_line (answered (map ends_of it.tries.now) it.trials.now) };

    ghost modest = { λ it. length it.tries.now ≤ 32 };

    fn write(&self, out: &mut [u8]) -> Option<usize> {
        Rehearsed(self).put(out)
    }
}
