//! Numbers as people read them: what is written of a value.
mod digits;
mod examples;
mod humanize;

pub use digits::push_byte;
pub use examples::values_are_written_so;
pub use humanize::{push_duration, push_fixed, push_humanize, push_percentage, push_shown};
