// The links of a ledger: a forest of sets of boundaries that keeps the range of each join.
ghost use Rattle.std.specs.Prelude.{◌≡◌, ℕ, ◌<◌, ◌≤◌, false, length, is_some};
ghost use Rattle.links.specs.Chains.{start, end};
ghost use Rattle.links.specs.Rows.{row_at, parent_at, size_at, number_at, hung, over, out, leader_at, members_at};

mod chains;
mod join;
mod leaders;
mod open;
mod table;

use crate::boundary::BOUNDARIES;
use crate::row::Row;
pub use join::Hung;

// Which boundaries are linked, and by which ranges. Links can't be copied, and are taken apart by `close` alone.
pub struct Links {
    // Stays: rows in a plain array inside the links, by a rule of the project.
    rows: [Row; BOUNDARIES],
    joins: u16,
    // each boundary has a row, and its parent is a boundary
    ghost long: { length rows ≡ 1024 },
    ghost inside: { (i : ℕ) → parent_at rows i < 1024 },
    // rows run in no ring: join numbers rise towards the leader, who has no edge and is its own parent
    ghost few: { joins < 1024 },
    ghost numbered: { (i : ℕ) → number_at rows i < 1024 → number_at rows i < joins },
    ghost rising: { (i : ℕ) → number_at rows i < joins → number_at rows i < number_at rows (parent_at rows i) },
    ghost bare: { (i : ℕ) → 1024 ≤ number_at rows i → is_some (row_at rows i).edge ≡ false },
    ghost own: { (i : ℕ) → i < 1024 → 1024 ≤ number_at rows i → parent_at rows i ≡ i },
    // each join hung just one row
    ghost found: { (t : ℕ) → t < joins → number_at rows (hung rows t) ≡ t },
    ghost once: { (i : ℕ) → number_at rows i < joins → hung rows (number_at rows i) ≡ i },
    // a join's range goes from the set that was hung to the set that took it
    ghost near: { (t : ℕ) → t < joins → leader_at rows t (start (out rows t)) ≡ hung rows t },
    ghost far: { (t : ℕ) → t < joins → leader_at rows t (end (out rows t)) ≡ over rows t },
    ghost ordered: { (t : ℕ) → t < joins → (out rows t).low < (out rows t).high },
    ghost ended: { (t : ℕ) → t < joins → (out rows t).high < 1024 },
    // a leader's size is the count of its members
    ghost sized: { (i : ℕ) → i < 1024 → 1024 ≤ number_at rows i → size_at rows i ≡ members_at rows joins i },
}
