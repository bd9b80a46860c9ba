// A range by its two ends: of slots, of boundaries, or of any other numbers.
#![tactic(auto)]

// What lies from `low` up to `high`. Any two ends may be held; where they are not in order, the range is none.
#[derive(Clone, Copy, Debug, PartialEq, Eq)]
pub struct Range<N> {
    pub low: N,
    pub high: N,
}
