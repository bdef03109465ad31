//! Rows of what an engine answers over a store that refuses commits.
mod asked;
mod row;

pub(crate) use row::tell_engines;
