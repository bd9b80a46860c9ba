// Walks from a boundary to its leader. They move no row.
ghost use Rattle.std.specs.Prelude.{◌≡◌, Decides, MatchOption};
ghost use Rattle.links.specs.Linked.{Linked};
ghost use Rattle.links.specs.Rows.{parent_at, number_at};
ghost use Rattle.links.specs.Joined.{joined, leader_of, IsLeader, Above, LeadersTell};

use super::Links;
use crate::boundary::Boundary;

impl Links {
    // How many joins came before the one that hung the boundary's row, and 1,024 for a leader.
    pub(super) fn number(&self, b: Boundary) -> u16
        ensures { result ≡ number_at self.now.rows b.index }
    {
        // Stays: no `None`, since `newest` compares two numbers, and a leader counts as newer than all.
        self.row(b).edge.map_or(1024, |edge| edge.number)
    }

    // The boundary that the row of `b` hangs from.
    pub(super) fn parent(&self, b: Boundary) -> Boundary
        ensures { result.index ≡ parent_at self.now.rows b.index }
    {
        Boundary::at(self.row(b).parent)
    }

    // One step up from `b`, or none where `b` is a leader.
    pub fn above(&self, b: Boundary) -> Option<Boundary>
        ensures { MatchOption result (IsLeader self.now b.index) (λ p. Above self.now b.index p.index) }
    {
        if self.number(b) < 1024 {
            Some(self.parent(b))
        } else {
            None
        }
    }

    // The boundary that stands for the whole set of `b`.
    pub fn leader(&self, b: Boundary) -> Boundary
        ensures value { result.index ≡ leader_of self.now b.index }
        ensures tells { LeadersTell self.now }
    {
        let mut at = b;
        // Stays: a walk up by links of the forest, with no index and no list to go over.
        while let Some(up) = self.above(at) {
            at = up;
        }
        at
    }

    // Whether the joined ranges lead from one boundary to the other.
    pub fn linked(&self, a: Boundary, b: Boundary) -> bool
        ensures { Decides result (Linked (joined self.now) a.index b.index) }
    {
        self.leader(a) == self.leader(b)
    }
}
