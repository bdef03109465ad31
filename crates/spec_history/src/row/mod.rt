//! Entries of the history as rows that are kept.
mod decoding;
mod encoding;
pub mod examples;
pub mod laws;
mod points;

pub use crate::Entry as Stored;
pub use decoding::{RowFault, decode};
pub use encoding::encode;
pub use points::{read_point, write_point};
use pr_labels::words_crate::Text;

/// A kept row: the text of a series, a time in milliseconds, and the text of a point.
#[derive(Debug, Drop, PartialEq, Eq)]
pub struct Row {
    pub series: Text,
    pub time: u64,
    pub point: Text,
}
