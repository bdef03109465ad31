//! Rows of what tests come to over rule files that are handed over.
mod row;
mod tested;

pub(crate) use row::tell_tests;
