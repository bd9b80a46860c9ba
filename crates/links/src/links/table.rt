// The leaders of all boundaries at once, in time linear in their number. No row is moved.
ghost use Rattle.std.specs.Prelude.{◌≡◌, ℕ, ◌<◌, length, slice_index};
ghost use Rattle.links.specs.Rows.{hung};
ghost use Rattle.links.specs.Joined.{leader_of};

use super::Links;
use crate::boundary::BOUNDARIES;
use std::array::from_fn;

// Each boundary under its own number.
fn alone() -> [u16; BOUNDARIES]
    ensures long { length result ≡ 1024 }
    ensures each { (i : ℕ) → i < 1024 → slice_index result i ≡ i }
{
    // Stays: here and below the check proves that each number fits.
    from_fn(|i| i as u16)
}

impl Links {
    // The boundary that each join hung, oldest join first.
    fn hangings(&self) -> [u16; BOUNDARIES]
        ensures long { length result ≡ 1024 }
        ensures each { (t : ℕ) → t < self.now.joins → slice_index result t ≡ hung self.now.rows t }
    {
        let mut boundaries = [0; BOUNDARIES];
        for (i, row) in self.rows.iter().enumerate() {
            if let Some(edge) = row.edge {
                boundaries[edge.number as usize] = i as u16;
            }
        }
        boundaries
    }

    // The leader of each boundary. The joins are gone through from the newest on, so that a parent's leader is known before it is asked for.
    pub fn leaders(&self) -> [u16; BOUNDARIES]
        ensures long { length result ≡ 1024 }
        ensures each { (i : ℕ) → i < 1024 → slice_index result i ≡ leader_of self.now i }
    {
        let boundaries = self.hangings();
        let mut leaders = alone();
        for b in boundaries[..self.joins as usize].iter().rev() {
            leaders[*b as usize] = leaders[self.rows[*b as usize].parent as usize];
        }
        leaders
    }
}
