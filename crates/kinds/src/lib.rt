// Kinds of reading: what a value of each is, how values add, and how they stand as bytes and as numbers.
#![tactic(auto)]

mod dials;
mod kind;
mod names;
mod toggles;
mod wh;

pub use dials::Dials;
pub use kind::{Kind, NamedKind, WrongLength};
pub use names::{KindName, UnknownKind};
pub use toggles::Toggles;
pub use wh::Wh;
