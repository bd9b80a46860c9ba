// Lists of calls on a ledger, from its opening to its close, and what holds of every such list.
#![tactic(auto)]

mod call;
mod course;
mod examples;
mod listener;

pub use call::Call;
pub use course::run;
pub use examples::examples_hold;
pub use listener::Listener;
