// The ledger: which sums of a log are told, and why others are not.
#![tactic(auto)]

mod amounts;
mod answer;
mod ends;
mod ledger;
mod token;
mod told;
mod trying;

pub use amounts::Amounts;
pub use answer::{Answer, Counts, Fault, Trial};
pub use ledger::{Ledger, open};
pub use token::NewLog;
pub use told::Told;
pub use trying::Try;
