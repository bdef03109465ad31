//! What happens in a test, place by place and round by round: the model again, in the form in which
//! a test is run.
mod laws;

pub use laws::{groups_are_told_apart, what_has_come_is_what_happens};
