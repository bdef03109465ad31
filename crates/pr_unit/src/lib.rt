//! The tests of a test file, run over rule files: the checks whose expectation differs.
#![tactic(auto)]

mod checks;
pub mod expected;
pub mod feeding;
mod firing;
mod groups;
mod order;
mod round;
mod rules;
mod run;
mod slots;
mod test;
mod tests;
mod times;

// What crates above name of those below.
pub mod tests_crate {
    pub use spec_tests::{Failure, Shown};
}

pub mod range {
    pub use pr_slide::range::Ranges;
}

pub mod slide {
    pub use pr_slide::SlidingRanges;
}

pub use rules::RuleGroups;
pub use tests::{run_tests, run_tests_over};
