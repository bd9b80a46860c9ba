// The boundaries of a range that is asked for, or the first fault that it meets.
ghost use Rattle.std.specs.Prelude.{◌≡◌, ◌<◌, ◌≤◌, Some, None, MatchResult, OnOk, OnErr, ◌≢◌};
ghost use Rattle.ledger.specs.Machine.{ends_fault, range_fault, try_fault};
ghost use Rattle.ledger.specs.Tries.{try_of};

use crate::answer::Fault;
use crate::trying::Try;
use links::Boundary;
use ranges::Range;
use rules::Rule;

// The most slots that a log may have.
const LONGEST: usize = 1023;

// The ends of a range within a log of so many slots.
fn ends_within(slots: usize, range: Range<u32>) -> Result<Range<Boundary>, Fault>
    requires { slots ≤ 1023 }
    ensures fault { MatchResult result (λ ends. (ends_fault slots range.low range.high ≡ None) × (ends.low.index ≡ range.low) × (ends.high.index ≡ range.high)) (λ fault. ends_fault slots range.low range.high ≡ Some fault) }
    ensures sound { MatchResult result (λ _. (range.low < range.high) × (range.high ≤ slots)) (λ fault. fault ≢ Fault.Full) }
{
    // Stays: `usize` has no `From<u32>`.
    if range.high as usize > slots {
        return Err(Fault::Beyond);
    }
    if range.low >= range.high {
        return Err(Fault::Backward);
    }
    Ok(Range {
        low: Boundary::try_from(range.low).unwrap(),
        high: Boundary::try_from(range.high).unwrap(),
    })
}

// The ends of a query's range, where the tables that come with it have room, on a ledger that is not full.
pub(crate) fn ends_asked(
    slots: usize,
    distances: usize,
    steps: usize,
    range: Range<u32>,
) -> Result<Range<Boundary>, Fault>
    ensures fault { MatchResult result (λ ends. (range_fault slots distances steps range.low range.high ≡ None) × (ends.low.index ≡ range.low) × (ends.high.index ≡ range.high)) (λ fault. range_fault slots distances steps range.low range.high ≡ Some fault) }
    ensures sound { MatchResult result (λ _. (range.low < range.high) × (range.high ≤ slots) × (1024 ≤ distances) × (1023 ≤ steps)) (λ fault. fault ≢ Fault.Full) }
{
    if slots > LONGEST {
        return Err(Fault::LongLog);
    }
    if distances < 1024 {
        return Err(Fault::FewDistances);
    }
    if steps < 1023 {
        return Err(Fault::FewSteps);
    }
    ends_within(slots, range)
}

// The ends of a try's range.
pub(crate) fn ends_tried<R: Rule>(tried: &Try<R>) -> Result<Range<Boundary>, Fault>
    ensures fault { MatchResult result (λ ends. (try_fault (try_of R.Rule.protects R.Rule.ordered tried.now) ≡ None) × (ends.low.index ≡ tried.now.range.low) × (ends.high.index ≡ tried.now.range.high)) (λ fault. try_fault (try_of R.Rule.protects R.Rule.ordered tried.now) ≡ Some fault) }
    ensures ordered { OnOk result (tried.now.range.low < tried.now.range.high) }
{
    if tried.slots > LONGEST {
        return Err(Fault::LongLog);
    }
    ends_within(tried.slots, tried.range)
}
