//! What is expected of a check, beside what it gives.
mod alerts;
mod compare;
mod expressions;
mod firing;

pub use alerts::alert_failure;
pub use expressions::{expr_failure, given};
pub use firing::push_firing;
