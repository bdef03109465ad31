//! Small types that contracts see as plain values, and words on lists of bytes that several crates
//! share; the strings of the query language.
#![tactic(auto)]

mod appending;
mod decimal;
mod fields;
mod items;
pub mod laws;
mod lines;
mod part;
mod steps;
pub mod strings;
mod text;

// What crates above name of those below.
pub mod forms {
    pub use pr_forms::{Fault, place_of, take};
}

pub use appending::{push_number, push_number_after, whole_or_none};
pub use decimal::{is_plain_decimal, plain_decimal};
pub use fields::{field_len, is_blank, split_first, split_last, without_leading, without_trailing};
pub use items::Items;
pub use lines::{first_feed, line_len, without_return};
pub use steps::Steps;
pub use text::Text;
