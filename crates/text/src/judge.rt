// The judgement of a line's text, before any token of it is handed out.
ghost use Rattle.std.specs.Prelude.{◌≡◌, ◌+◌, ◌^◌, ◌<◌};
ghost use Rattle.text.specs.Judging.{depth_after, judged};
ghost use Rattle.text.specs.Runs.{runs};

use crate::alphabet::Class;
use crate::fault::Fault;
use crate::number::number;
use crate::run::{Line, Run};

// How many brackets are open after a run, or the fault of the run.
fn depth_after(depth: u32, run: Run<'_>) -> Result<u32, Fault>
    requires { depth + 1 < 2 ^ 32 }
    ensures { result ≡ depth_after run.entry.place depth run.entry.class run.entry.bytes.now }
{
    match run.class {
        Class::Open => Ok(depth + 1),
        Class::Close => depth.checked_sub(1).ok_or(Fault::Bracket(run.place)),
        Class::Blank | Class::Letter => Ok(depth),
        Class::Digit => number(run.bytes)
            .map(|_| depth)
            .ok_or(Fault::Number(run.place)),
        Class::Outside => Err(Fault::Outside(run.place)),
    }
}

// The leftmost fault of a line's text, if it has one.
pub fn judge(line: Line<'_>) -> Result<(), Fault>
    ensures { result ≡ judged line.entry.place 0 (runs line.entry.rest.now) }
{
    let mut left = line;
    let mut depth: u32 = 0;
    // Stays: behind a `for run in left.by_ref()` no fact says where the line ends, and the last fault stands there.
    while let Some(run) = left.next() {
        depth = depth_after(depth, run)?;
    }
    if depth == 0 {
        Ok(())
    } else {
        Err(Fault::Bracket(left.place))
    }
}
