//! The command `exercise`: the events of a run that is made up, and counts of what it would write.
#![tactic(auto)]

pub mod examples;
mod rounds;
mod running;
mod session;
mod tally;
mod targets;

pub use rounds::Rounds;
pub use running::exercise;
