// The text layer of a script: its lines, their tokens, and the faults of the text.
#![tactic(auto)]

mod alphabet;
mod fault;
mod judge;
mod number;
mod reader;
mod run;
mod script;
mod token;

pub use alphabet::{Class, classify};
pub use fault::{Fault, Place};
pub use reader::Reader;
pub use script::sized;
pub use token::{Placed, Token};
