// The lines of the four counts.
ghost use Rattle.std.specs.Prelude.{codes};
ghost use Rattle.lines.specs.Text.{Wrote, form_text};
ghost use Rattle.lines.specs.Lines.{in_order, tally_line, closed_line};
ghost use Rattle.lines.specs.Fits.{Whole};

use crate::piece::{Each, Piece, Text};
use ledger::Counts;

fn put_counts(out: &mut [u8], opening: &[u8], counts: Counts) -> Option<usize>
    ensures { Wrote (form_text opening.now (in_order counts) (codes ")\n")) out.old out.new result }
{
    let numbers = [
        u32::from(counts.released),
        u32::from(counts.withheld),
        u32::from(counts.lost),
        u32::from(counts.malformed),
    ];
    Text(opening)
        .then(Each(&numbers))
        .then(Text(b")\n"))
        .put(out)
}

// Stays: two lines over one function, for two words of the format.
// The line of the counts so far.
pub fn tally_line(out: &mut [u8], counts: Counts) -> Option<usize>
    ensures text { Wrote (tally_line counts) out.old out.new result }
    ensures whole { Whole (tally_line counts) out.old result }
{
    put_counts(out, b"(tally", counts)
}

// The line of the counts at the close.
pub fn closed_line(out: &mut [u8], counts: Counts) -> Option<usize>
    ensures text { Wrote (closed_line counts) out.old out.new result }
    ensures whole { Whole (closed_line counts) out.old result }
{
    put_counts(out, b"(closed", counts)
}
