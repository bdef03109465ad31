//! Laws of the query language on which no other crate stands: its grammar as a person reads it, its
//! names, and its printed texts.
#![tactic(auto)]

pub mod laws;
pub mod names_laws;
pub mod print_laws;
