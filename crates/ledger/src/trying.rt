// A range to try in a rehearsal.

use ranges::Range;

// The range with the rule and the slot count that it is judged by.
#[derive(Clone, Copy, Debug, PartialEq, Eq)]
pub struct Try<R> {
    pub range: Range<u32>,
    pub rule: R,
    pub slots: usize,
}
