// A ledger: the links of the released ranges, and how many queries came out which way.
ghost use Rattle.std.specs.Prelude.{◌≤◌};
ghost use Rattle.ledger.specs.Answers.{counted};

mod lifetime;
mod query;
mod rehearsal;

use crate::answer::Counts;
use crate::token::NewLog;
pub use lifetime::open;
use links::Links;

// It can't be copied, and is let go by `close` alone. The distances of its boundaries stand beside it, over a lent table.
pub struct Ledger {
    links: Links,
    counts: Counts,
    log: NewLog,
    ghost within: { counted counts ≤ 65535 },
}
