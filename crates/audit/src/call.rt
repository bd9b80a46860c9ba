// One call of a list of calls on a ledger.
use ledger::Try;
use ranges::Range;

// A query for the sum of a range, or a rehearsal of ranges.
#[derive(Clone, Copy)]
pub enum Call<'c, R> {
    Query(Range<u32>),
    Rehearsal(&'c [Try<R>]),
}
