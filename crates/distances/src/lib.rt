// Distances: one value of the kind for each boundary, from which the sums of linked ranges come.
#![tactic(auto)]

mod distances;
mod table;
#[cfg(test)]
mod tests;

pub use distances::Distances;
