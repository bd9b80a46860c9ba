// Parts of a script run: a query that is asked and printed, and what is printed of rehearsals, counts and faults.
#![tactic(auto)]

mod asking;
mod print;
mod rehearsing;
mod sink;

pub use sink::Sink;
