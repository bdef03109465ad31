//! Rows of what becomes of the records of an alerting rule.
mod row;
mod rule;

pub use row::tell_alerts;
