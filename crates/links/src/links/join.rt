// A join: the leader of one set is hung under the leader of another.
ghost use Rattle.std.specs.Prelude.{◌≡◌, ◌+◌, ◌<◌, MatchBool, MatchOption, ◌≢◌};
ghost use Rattle.links.specs.Join.{Yields, Joins, Hangs, Made, Declined};
ghost use Rattle.links.specs.Rows.{row_at};

use super::Links;
use crate::boundary::Boundary;
use crate::row::{Edge, Row};
use crate::step::Sign;
use ranges::Range;

// `leader` was hung under `under`.
#[derive(Clone, Copy)]
pub struct Hung {
    pub leader: Boundary,
    pub under: Boundary,
}

impl Links {
    // What the links keep of `b`.
    pub(super) fn row(&self, b: Boundary) -> Row
        ensures { result ≡ row_at self.now.rows b.index }
    {
        // Stays: a widening `as` at an index here and below; `usize::from` is as long, and one call more in each proof.
        self.rows[b.index() as usize]
    }

    // Whether the leader `x` goes under the leader `y`, or else `y` under `x`.
    fn yields(&self, x: Boundary, y: Boundary) -> bool
        requires { x.index ≢ y.index }
        ensures { MatchBool result (Yields self.now x.index y.index) (Yields self.now y.index x.index) }
    {
        let own = self.row(x).size;
        let other = self.row(y).size;
        if own == other {
            // Stays: an order of boundaries for this one place is no plainer.
            y.index() < x.index()
        } else {
            own < other
        }
    }

    // The whole join, once it is known which leader goes under which: one row is lent to be hung, one to grow.
    fn hang(&mut self, leader: Boundary, under: Boundary, edge: Edge)
        requires { Joins self.old.rows self.old.joins leader.index under.index edge }
        ensures rows { Hangs self.old.rows self.new.rows leader.index under.index edge }
        ensures joins { self.new.joins ≡ self.old.joins + 1 }
    {
        let size = self.row(leader).size;
        self.rows[leader.index() as usize].hang(under.index(), edge);
        self.rows[under.index() as usize].grow(size);
        self.joins += 1;
    }

    // Joins the sets of the range's ends by it: the leader of the smaller set is hung under the other, at equal sizes the higher
    // number under the lower. A pair that is no range, or whose ends are linked already, joins nothing.
    pub fn join(&mut self, range: Range<Boundary>) -> Option<Hung>
        ensures { MatchOption result (Declined self.old self.new range.low.index range.high.index) (λ h. Made self.old self.new range.low.index range.high.index h.leader.index h.under.index) }
    {
        let low = range.low.index();
        let high = range.high.index();
        if high <= low {
            return None;
        }
        let x = self.leader(range.low);
        let y = self.leader(range.high);
        if x == y {
            return None;
        }
        let number = self.joins;
        // Stays: the two arms differ in order and sign, and each is proved of its own sets.
        if self.yields(x, y) {
            self.hang(
                x,
                y,
                Edge {
                    low,
                    high,
                    sign: Sign::Plus,
                    number,
                },
            );
            Some(Hung {
                leader: x,
                under: y,
            })
        } else {
            self.hang(
                y,
                x,
                Edge {
                    low,
                    high,
                    sign: Sign::Minus,
                    number,
                },
            );
            Some(Hung {
                leader: y,
                under: x,
            })
        }
    }
}
