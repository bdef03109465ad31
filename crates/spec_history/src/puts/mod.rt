//! Entries that are put into the history one after another: what is answered to each, which are
//! added, and markers for series that are gone.
mod examples;
mod laws;

pub use examples::{a_series_that_is_gone_is_marked, entries_are_admitted_in_their_turn};
pub use laws::what_is_admitted_comes_behind;
