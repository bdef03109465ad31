//! Rows of what the receivers of notices are given.
mod receivers;
mod row;

pub use row::tell_queues;
