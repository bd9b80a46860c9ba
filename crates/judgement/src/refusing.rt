// The chain of a refusal: from one end of the named pair to the other, over the judged range and the joined ones.
ghost use Rattle.std.specs.Prelude.{◌≡◌, MatchOption};
ghost use Rattle.links.specs.Joined.{joined};
ghost use Rattle.judgement.specs.Refusal.{Explained, Unexplained, NewStep, Crossed, Uncrossed};

use links::{Boundary, Links, Origin, Sign, Step};
use ranges::Range;

// The judged range as a step from one of its ends to the other.
#[derive(Clone, Copy)]
struct Crossing {
    near: Boundary,
    step: Step,
    far: Boundary,
}

// Stays: five parameters, of which `from` and `to` are the pair's ends, and never the judged range's.
// Writes the chain from `from` to the near end, the step to the far end, and the chain from there to `to`.
fn cross(
    links: &Links,
    from: Boundary,
    crossing: Crossing,
    to: Boundary,
    table: &mut [Step],
) -> Option<usize>
    requires { NewStep (joined links.now) crossing.near.index crossing.far.index crossing.step }
    ensures { MatchOption result (Uncrossed (joined links.now) crossing.near.index crossing.far.index from.index to.index table.old table.new) (λ n. Crossed (joined links.now) crossing.near.index crossing.far.index crossing.step from.index to.index n table.old table.new) }
{
    // Stays: a table of its own for what is found first and written last, since a refusal asks for no memory.
    let mut rest = [crossing.step; 1023];
    let after = links.chain(crossing.far, to, &mut rest)?;
    let before = links.chain(from, crossing.near, table)?;
    table[before] = crossing.step;
    let place = before + 1;
    table[place..place + after].copy_from_slice(&rest[..after]);
    Some(place + after)
}

// Writes the chain from the pair's low to its high end, over the joined ranges and once over the judged range, into
// the table's first steps, and answers how many it has. A table of fewer than 1,023 steps, or a pair that the range does not link anew,
// leaves it as it was.
pub fn refusal(
    links: &Links,
    ends: Range<Boundary>,
    pair: Range<u16>,
    table: &mut [Step],
) -> Option<usize>
    ensures { MatchOption result (Unexplained (joined links.now) (record { low = ends.low.index; high = ends.high.index }) pair table.old table.new) (λ n. Explained (joined links.now) (record { low = ends.low.index; high = ends.high.index }) pair n table.old table.new) }
{
    let from = Boundary::try_from(u32::from(pair.low)).ok()?;
    let to = Boundary::try_from(u32::from(pair.high)).ok()?;
    if links.linked(ends.low, ends.high) {
        return None;
    }
    let step = Step {
        low: ends.low.index(),
        high: ends.high.index(),
        sign: Sign::Plus,
        origin: Origin::New,
    };
    if links.linked(from, ends.low) {
        let up = Crossing {
            near: ends.low,
            step,
            far: ends.high,
        };
        cross(links, from, up, to, table)
    } else {
        let down = Crossing {
            near: ends.high,
            step: step.reversed(),
            far: ends.low,
        };
        cross(links, from, down, to, table)
    }
}
