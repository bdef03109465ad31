//! Functions of the values of a series in a range, asked of a head, and what may be kept from one
//! question to the next.
#![tactic(auto)]

mod fault;
mod finishes;
mod lines;
mod over;
mod plain;
mod ranges;
mod read;
mod steps;
mod values;

// What crates above name of those below.
pub mod history {
    pub use pr_head::history::Spot;
}

pub mod vectors_crate {
    pub use spec_vectors::{Ask, RangeFn};
}

pub mod window_crate {
    pub use pr_window::{Fold, Window, fold_items, folds};
}

pub mod head {
    pub use pr_head::{Head, Timed, intake};
}

pub use fault::RangeFault;
pub use finishes::{answer_from_extreme, answer_from_neighbours, answer_from_total};
pub use over::over_list;
pub use plain::PlainRanges;
pub use pr_head::history::Spot;
pub use ranges::Ranges;
pub use spec_vectors::{Ask, RangeFn};
pub use values::last_of;
