// The judgement of a range.
ghost use Rattle.std.specs.Prelude.{◌≡◌, ◌<◌, ◌≢◌};
ghost use Rattle.links.specs.Joined.{joined, leader_of};
ghost use Rattle.judgement.specs.Judgement.{Found};

use crate::finding::Finding;
use crate::search::across;
use links::{Boundary, Links};
use ranges::Range;
use rules::Rule;

// Stays apart from `judge`, at the price of five parameters: tables are paid for where a function begins, and a linked range needs none.
// What is found on a range whose ends are not linked, but led by `x` and `y`.
fn search<R: Rule>(links: &Links, rule: &R, ends: Range<Boundary>, x: u16, y: u16) -> Finding
    requires low { x ≡ leader_of links.now ends.low.index }
    requires high { y ≡ leader_of links.now ends.high.index }
    requires inside { (x < 1024) × (y < 1024) }
    requires apart { x ≢ y }
    ensures { Found (joined links.now) (R.Rule.protects rule.now) (record { low = ends.low.index; high = ends.high.index }) result }
{
    match across(rule, &links.leaders(), x, y) {
        Some(pair) => Finding::Withheld(pair),
        None => Finding::Free,
    }
}

// What the joined ranges and the rule say of a range, whose ends need not be in order.
pub fn judge<R: Rule>(links: &Links, rule: &R, ends: Range<Boundary>) -> Finding
    ensures { Found (joined links.now) (R.Rule.protects rule.now) (record { low = ends.low.index; high = ends.high.index }) result }
{
    let x = links.leader(ends.low).index();
    let y = links.leader(ends.high).index();
    if x == y {
        return Finding::Linked;
    }
    search(links, rule, ends, x, y)
}
