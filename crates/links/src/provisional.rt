// Joins that do not last: a guard over borrowed links that puts them back as they were.
ghost use Rattle.std.specs.Prelude.{◌≡◌, MatchOption};
ghost use Rattle.links.specs.Join.{Made, Declined};

use crate::boundary::Boundary;
use crate::links::{Hung, Links};
use ranges::Range;
use std::mem::replace;

// The links that it borrows may be joined further. When it ends, by whatever way out, they hold what they held before.
pub struct Provisional<'a> {
    links: &'a mut Links,
    saved: Links,
}

impl<'a> Provisional<'a> {
    pub fn over(links: &'a mut Links) -> Provisional<'a>
        ensures named { result.links.ghost_name ≡ links.entry.ghost_name }
        ensures same { result.links.now ≡ links.old }
        ensures saved { result.saved ≡ links.old }
    {
        let saved = links.saved();
        Provisional { links, saved }
    }

    // The links with the provisional joins.
    pub fn links(&self) -> &Links
        ensures { result.now ≡ self.now.links.now }
    {
        self.links
    }

    // Joins as the links themselves do, until the guard ends.
    pub fn join(&mut self, range: Range<Boundary>) -> Option<Hung>
        ensures cases { MatchOption result (Declined self.old.links.now self.new.links.now range.low.index range.high.index) (λ h. Made self.old.links.now self.new.links.now range.low.index range.high.index h.leader.index h.under.index) }
        ensures stays { self.new.links.ghost_name ≡ self.old.links.ghost_name }
        ensures saved { self.new.saved ≡ self.old.saved }
    {
        self.links.join(range)
    }
}

impl Drop for Provisional<'_> {
    fn drop(self)
        ensures { self.exit.0.now ≡ self.entry.saved }
    {
        let Provisional { links, saved } = self;
        replace(links, saved).close();
    }
}
