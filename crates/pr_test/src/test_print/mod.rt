//! The texts of failures: what is told of a check whose expectation differs.
mod failure;
mod labels;
mod shown;
mod times;

pub use failure::write_failure;
