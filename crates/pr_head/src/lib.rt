//! The samples that are held: series in order of arrival, each with its newest samples in order of
//! time; and entries that are put among them.
#![tactic(auto)]

mod by_label;
mod head;
mod index;
pub mod intake;
mod laws;
mod listing;
mod packed;
mod series;
mod timed;

// What crates above name of those below.
pub mod words_crate {
    pub use pr_labels::words_crate::Steps;
}

pub mod history {
    pub use spec_history::{Append, Entry, Spot};
}

pub use head::Head;
pub use laws::{places_are_those_of_the_history, the_newest_sample_is_what_is_shown};
pub use spec_history::Append;
pub use timed::Timed;
