//! Which words of an expression are names: the kind of a fault tells them from the tokens alone,
//! and so the grammar reads them.
pub mod examples;
pub mod laws;
