// The search for the first protected pair that lies across two sets of boundaries.
ghost use Rattle.std.specs.Prelude.{◌≡◌, ◌≤◌, length, ◌≢◌, find};
ghost use Rattle.judgement.specs.Search.{places, pair_across};

use arrayvec::ArrayVec;
use links::BOUNDARIES;
use ranges::Range;
use rules::Rule;

// The boundaries that `leader` leads, in ascending order.
fn members(leaders: &[u16], leader: u16) -> ArrayVec<u16, BOUNDARIES>
    requires { length leaders.now ≤ 1024 }
    ensures { result.items ≡ places leader leaders.now 0 }
{
    let mut members = ArrayVec::new();
    for (i, other) in leaders.iter().enumerate() {
        if *other == leader {
            // Stays: here and below the check proves that the place fits.
            members.push(i as u16);
        }
    }
    members
}

// The first of the listed boundaries whose pair with `i` is protected.
fn first<R: Rule>(rule: &R, i: u16, others: &[u16]) -> Option<u16>
    ensures { result ≡ find (R.Rule.protects rule.now i) others.now }
{
    others.iter().copied().find(|j| rule.protects(Range {
        low: u32::from(i),
        high: u32::from(*j),
    }))
}

// The protected pair across the sets of the leaders `x` and `y` that has the smallest low end, and of those the smallest high end.
pub fn across<R: Rule>(rule: &R, leaders: &[u16], x: u16, y: u16) -> Option<Range<u16>>
    requires long { length leaders.now ≡ 1024 }
    requires apart { x ≢ y }
    ensures { result ≡ pair_across (R.Rule.protects rule.now) x y leaders.now 0 }
{
    let ours = members(leaders, x);
    let theirs = members(leaders, y);
    let mut ours = ours.as_slice();
    let mut theirs = theirs.as_slice();
    for (i, leader) in leaders.iter().enumerate() {
        let low = i as u16;
        if *leader == x {
            ours = &ours[1..];
            if let Some(high) = first(rule, low, theirs) {
                return Some(Range { low, high });
            }
        } else if *leader == y {
            theirs = &theirs[1..];
            if let Some(high) = first(rule, low, ours) {
                return Some(Range { low, high });
            }
        }
    }
    None
}
