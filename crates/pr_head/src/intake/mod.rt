//! Entries that are taken into a head, one after another, with those that were added told as rows;
//! and the stale markers of series that are gone.
mod marked;
mod marking;
mod same;
mod taking;
mod untold;

pub use marked::{mark, mark_if};
pub use marking::{add_labels, put_markers, set_of};
pub use taking::{is_shown, marker, put, put_if};
