// The links of a ledger: which boundaries the released ranges join, and by which chains.
#![tactic(auto)]

mod boundary;
mod links;
mod provisional;
mod row;
mod step;
#[cfg(test)]
mod tests;

pub use boundary::{BOUNDARIES, Boundary, NoBoundary};
pub use links::{Hung, Links};
pub use provisional::Provisional;
pub use step::{Origin, Sign, Step};
