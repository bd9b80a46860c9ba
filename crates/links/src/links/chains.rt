// The chain between two linked boundaries, found from the newest join on the way.
ghost use Rattle.std.specs.Prelude.{◌≡◌, ◌+◌, ◌<◌, ◌≤◌, length, if◌then◌else◌, MatchOption, ◌≢◌};
ghost use Rattle.links.specs.Chains.{start, end};
ghost use Rattle.links.specs.Rows.{row_at, step_by, leader_at, way_at};
ghost use Rattle.links.specs.Newest.{IsNewest, Cut};
ghost use Rattle.links.specs.Rings.{Acyclic};
ghost use Rattle.links.specs.Written.{put, Written, Unwritten};
ghost use Rattle.links.specs.Joined.{joined, leader_of};

use super::Links;
use crate::boundary::Boundary;
use crate::step::Step;

// The row that a join hung, by which way a walk goes over the join's range: it leaves the hung set, or enters it.
#[derive(Clone, Copy)]
enum Newest {
    Leaves(Boundary),
    Enters(Boundary),
}

// A step over a joined range, from `near` to `far`, and how many joins are older.
#[derive(Clone, Copy)]
struct Crossing {
    older: u16,
    step: Step,
    near: Boundary,
    far: Boundary,
}

impl Crossing {
    fn over(step: Step, older: u16) -> Crossing
        requires near { start step < 1024 }
        requires far { end step < 1024 }
        ensures older { result.older ≡ older }
        ensures step { result.step ≡ step }
        ensures near { result.near.index ≡ start step }
        ensures far { result.far.index ≡ end step }
    {
        Crossing {
            older,
            step,
            near: Boundary::at(step.start()),
            far: Boundary::at(step.end()),
        }
    }
}

impl Links {
    // The newest join that the way from `x` to `y` goes over: of the two climbs, the lower join number goes first, until they meet.
    fn newest(&self, x: Boundary, y: Boundary) -> Newest
        requires apart { x.index ≢ y.index }
        requires one { leader_of self.now x.index ≡ leader_of self.now y.index }
        ensures { IsNewest self.now.rows self.now.joins x.index y.index result }
    {
        let mut p = x;
        let mut q = y;
        loop {
            if self.number(p) < self.number(q) {
                let up = self.parent(p);
                if up == q {
                    return Newest::Leaves(p);
                }
                p = up;
            } else {
                let up = self.parent(q);
                if up == p {
                    return Newest::Enters(q);
                }
                q = up;
            }
        }
    }

    // The step over the range that hung a row, out of the hung set.
    fn out(&self, b: Boundary) -> Step
        ensures { result ≡ step_by (row_at self.now.rows b.index).edge }
    {
        self.row(b).edge.map_or(Step::default(), Step::from)
    }

    // The step over the newest join on the way from `x` to `y` over the first `below` joins.
    fn crossing(&self, x: Boundary, y: Boundary, below: u16) -> Crossing
        requires apart { x.index ≢ y.index }
        requires older { below ≤ self.now.joins }
        requires one { leader_at self.now.rows below x.index ≡ leader_at self.now.rows below y.index }
        ensures { Cut self.now.rows below x.index y.index result.older result.near.index result.far.index result.step }
    {
        match self.newest(x, y) {
            Newest::Leaves(at) => Crossing::over(self.out(at), self.number(at)),
            Newest::Enters(at) => Crossing::over(self.out(at).reversed(), self.number(at)),
        }
    }

    // Stays: the six are what the recursion changes, or lends on; a struct of them would be built anew at each call.
    // Writes the way from `x` to `y` over the first `below` joins into the table from place `from` on, and answers where it ends.
    fn fill(&self, x: Boundary, y: Boundary, below: u16, table: &mut [Step], from: usize) -> usize
        requires older { below ≤ self.now.joins }
        requires one { leader_at self.now.rows below x.index ≡ leader_at self.now.rows below y.index }
        requires room { 1023 ≤ length table.old }
        requires fits { from + length (way_at self.now.rows below x.index y.index) ≤ 1023 }
        ensures value { result ≡ from + length (way_at self.now.rows below x.index y.index) }
        ensures after { table.new ≡ put table.old from (way_at self.now.rows below x.index y.index) }
    {
        if x == y {
            return from;
        }
        let join = self.crossing(x, y, below);
        let at = self.fill(x, join.near, join.older, table, from);
        table[at] = join.step;
        self.fill(join.far, y, join.older, table, at + 1)
    }

    // Writes the chain from `from` to `to` into the table's first steps, and answers how many it has. A table of 1,023 steps has room for
    // every chain; a shorter one, or boundaries that are not linked, leave it as it was.
    pub fn chain(&self, from: Boundary, to: Boundary, table: &mut [Step]) -> Option<usize>
        ensures cases { MatchOption result (Unwritten (joined self.now) from.index to.index table.old table.new) (λ n. Written (joined self.now) from.index to.index n table.old table.new) }
        ensures acyclic { Acyclic (joined self.now) }
    {
        if table.len() < 1023 {
            return None;
        }
        if !self.linked(from, to) {
            return None;
        }
        Some(self.fill(from, to, self.joins, table, 0))
    }
}
