//! Ranges that go on: for each range selector and series the values of the last range are kept, and
//! the next ask reads only what came after them.
#![tactic(auto)]

mod kept;
mod laws;
mod listed;
mod newer;
mod node;
mod places;
mod sliding;
mod spots;
mod successive;
mod window;

// What crates above name of those below.
pub mod window_crate {
    pub use pr_range::window_crate::{Fold, fold_items};
}

pub mod head {
    pub use pr_head::{Append, Head};
}

pub mod range {
    pub use pr_range::{Ask, PlainRanges, RangeFault, RangeFn, Ranges};
}

pub use laws::what_was_passed_is_no_more_than_the_range;
pub use sliding::SlidingRanges;
