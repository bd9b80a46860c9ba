// The distances of a ledger, over a lent table: how far each boundary lies from its leader.
ghost use Rattle.std.specs.Prelude.{◌≡◌, ℕ, map, length, MatchOption};
ghost use Rattle.links.specs.Linked.{Linked};
ghost use Rattle.links.specs.Joined.{joined, leader_of};
ghost use Rattle.distances.specs.Distance.{entry, distance, Between};
ghost use Rattle.distances.specs.Kept.{Laid, Untouched};

use crate::table;
use kinds::Kind;
use links::{BOUNDARIES, Boundary, Hung, Links};
use ranges::Range;

// One value of the kind for each boundary. Distances can't be copied, and are taken apart by `close` alone.
pub struct Distances<'a, K> {
    table: &'a mut [K],
}

impl<'a, K: Kind> Distances<'a, K> {
    // Distances that are all zero, whatever the table held.
    pub fn open(table: &'a mut [K]) -> Distances<'a, K>
        ensures zeros { (i : ℕ) → entry K.group (map K.meaning result.table.now) i ≡ K.group.zero }
        ensures len { length result.table.now ≡ length table.old }
        ensures named { result.table.ghost_name ≡ table.entry.ghost_name }
    {
        table::clear(table);
        Distances { table }
    }

    pub fn len(&self) -> usize
        ensures { result ≡ length self.now.table.now }
    {
        self.table.len()
    }

    // The entry of a boundary, zero where the table is too short.
    fn at(&self, b: Boundary) -> K
        ensures { K.meaning result ≡ entry K.group (map K.meaning self.now.table.now) b.index }
    {
        // Stays: a widening `as` at an index, here and below; `usize::from` is as long.
        table::at(self.table, b.index() as usize)
    }

    // The leader of `b`, and what to add there to be at `b`.
    pub fn find(&self, links: &Links, b: Boundary) -> (Boundary, K)
        ensures leader { result.0.index ≡ leader_of links.now b.index }
        ensures value { K.meaning result.1 ≡ distance K.group links.now (map K.meaning self.now.table.now) b.index }
    {
        let mut at = b;
        let mut far = K::zero();
        // Stays: a walk up by links of the forest, with no index and no list to go over.
        while let Some(up) = links.above(at) {
            far = far.plus(self.at(at));
            at = up;
        }
        (at, far)
    }

    // What lies between two linked boundaries: the sum of every chain from `a` to `b`. None where they are not linked.
    pub fn between(&self, links: &Links, a: Boundary, b: Boundary) -> Option<K>
        ensures { MatchOption result (Linked (joined links.now) a.index b.index → ⊥) (λ v. Between K.group links.now (map K.meaning self.now.table.now) a.index b.index (K.meaning v)) }
    {
        let (low, near) = self.find(links, a);
        let (high, far) = self.find(links, b);
        if low != high {
            return None;
        }
        Some(far.plus(near.inverse()))
    }

    // Joins a range with its sum: the links join it, and the entry of the leader that was hung is set. A table of fewer than 1,024 entries,
    // a pair that is no range, or one whose ends are linked already joins nothing.
    pub fn join(&mut self, links: &mut Links, range: Range<Boundary>, sum: K) -> Option<Hung>
        ensures cases { MatchOption result (Untouched links.old links.new self.old.table.now self.new.table.now range.low.index range.high.index) (λ h. Laid K.group K.meaning links.old links.new self.old.table.now self.new.table.now range.low.index range.high.index h.leader.index h.under.index (K.meaning sum)) }
        ensures stays { self.new.table.ghost_name ≡ self.old.table.ghost_name }
    {
        if self.len() < BOUNDARIES {
            return None;
        }
        let (low, near) = self.find(links, range.low);
        let (_, far) = self.find(links, range.high);
        let hung = links.join(range)?;
        let rise = sum.plus(near).plus(far.inverse());
        let entry = if hung.leader == low {
            rise.inverse()
        } else {
            rise
        };
        table::put(self.table, hung.leader.index() as usize, entry);
        Some(hung)
    }

    // Gives the table back as it stands.
    pub fn close(self) -> &'a mut [K]
        ensures value { result.now ≡ self.entry.table.now }
        ensures named { result.ghost_name ≡ self.entry.table.ghost_name }
    {
        let Distances { table } = self;
        table
    }
}
