//! How the program begins and ends: its words, how a text is written whole, and the statuses.
pub mod examples;
mod exit;
pub mod laws;
mod output;
mod status;
mod words;

pub use exit::exit_of;
pub use output::send;
pub use status::{Status, Stop, status_of};
pub use words::{CommandLine, HeldLine, HeldWord, RuntimeLine, words_of};
