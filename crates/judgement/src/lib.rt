// How a range is judged by the ranges joined so far and a rule, and the chain that a refusal shows. No reading is looked at.
#![tactic(auto)]

mod finding;
mod judging;
mod refusing;
mod search;
#[cfg(test)]
mod tests;

pub use finding::Finding;
pub use judging::judge;
pub use refusing::refusal;
