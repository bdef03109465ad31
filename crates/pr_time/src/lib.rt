//! Times and spans in whole milliseconds, and the texts of spans.
#![tactic(auto)]

pub mod examples;
pub mod laws;
mod print;
mod text;
mod value;

// What crates above name of those below.
pub mod forms {
    pub use pr_forms::{Fault, place_of, take};
}

pub use print::write_span;
pub use text::{SpanFault, read_span, span_end};
pub use value::{Ms, Span};
