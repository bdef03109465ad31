//! Rows of what ranges answer that go on, beside those that are read anew.
mod both;
mod row;

pub use row::tell_ranges;
