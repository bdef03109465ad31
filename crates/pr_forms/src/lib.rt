//! Grammars as data: what they read, what is a beginning of them, the first bad place of a text,
//! and the laws that every reader of a format stands on. `docs/READERS.md` says how a format is
//! specified and read with them.
#![tactic(auto)]

pub mod laws;
mod reader;

pub use reader::{Fault, place_of, take};
