// One row of the forest: the boundary above, the set's size, and the range that hung the row.
ghost use Rattle.std.specs.Prelude.{◌≡◌, ◌+◌, ◌^◌, ◌<◌, Some};

use crate::step::{Origin, Sign, Step};

// The range of a join, as the row that it hung keeps it: `sign` is that of the step over the range which leaves the row's own set, and
// `number` says how many joins came before.
#[derive(Clone, Copy)]
pub struct Edge {
    pub low: u16,
    pub high: u16,
    pub sign: Sign,
    pub number: u16,
}

// A leader has no edge, is its own parent, and knows the size of its set.
#[derive(Clone, Copy)]
pub struct Row {
    pub parent: u16,
    pub size: u16,
    pub edge: Option<Edge>,
}

// The step over an edge's range that leaves the row's own set.
impl From<Edge> for Step {
    ghost use Rattle.links.specs.Rows.{step_by};

    ghost from_gives = { λ edge step. step ≡ step_by (Some edge) };

    fn from(edge: Edge) -> Step {
        Step {
            low: edge.low,
            high: edge.high,
            sign: edge.sign,
            origin: Origin::Released,
        }
    }
}

impl Row {
    // A leader no longer: the row hangs from `under`, by the range of `edge`.
    pub fn hang(&mut self, under: u16, edge: Edge)
        ensures { self.new ≡ record { parent = under; size = self.old.size; edge = Some edge } }
    {
        self.parent = under;
        self.edge = Some(edge);
    }

    // The set of the leader takes in `by` more boundaries.
    pub fn grow(&mut self, by: u16)
        requires { self.old.size + by < 2 ^ 16 }
        ensures { self.new ≡ record { parent = self.old.parent; size = self.old.size + by; edge = self.old.edge } }
    {
        self.size += by;
    }
}
