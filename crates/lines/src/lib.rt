// How answers are printed: each as one line of bytes, in a lent buffer.
#![tactic(auto)]

mod answers;
mod buffer;
mod counts;
mod faults;
mod numbers;
mod pairs;
mod piece;
mod steps;
mod sums;
mod trials;
mod words;

pub use answers::{answer_line, named_answer_line};
pub use buffer::{ROOM, Short, has_room};
pub use counts::{closed_line, tally_line};
pub use faults::{ScriptFault, fault_line};
pub use numbers::write_number;
pub use piece::{Each, Piece, Text, Then};
pub use steps::{write_chain, write_step};
pub use trials::{Rehearsed, begin_rehearsed, end_rehearsed, write_trial};
pub use words::Layer;
