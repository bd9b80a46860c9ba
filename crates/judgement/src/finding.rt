// What is found of a range.
use ranges::Range;

// `Linked`: the joined ranges link its ends already. `Withheld`: with them it would give away the named pair, which the rule protects.
// `Free`: neither.
#[derive(Clone, Copy, Debug, PartialEq, Eq)]
pub enum Finding {
    Linked,
    Withheld(Range<u16>),
    Free,
}
