// Stores of readings: what each slot of a log holds, kept or lost.
#![tactic(auto)]

mod lists;
mod make;
mod packed;
mod packing;
mod plain;
mod store;
mod sums;
mod window;

pub use lists::{Lists, list};
pub use make::windowed;
pub use packed::{Packed, width};
pub use packing::{BeyondBytes, pack, repack};
pub use plain::Plain;
pub use store::{Mark, Reading, Store};
pub use sums::{RangeFault, SumFault, sum};
pub use window::Window;
