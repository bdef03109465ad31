//! The command `test rules`: what it tells of test files.
#![tactic(auto)]

mod check;
mod names;
mod reading;
pub mod test_print;
pub mod test_texts;

// What crates above name of those below.
pub mod rulefile {
    pub use pr_testfile::rulefile::read;
}

pub mod range {
    pub use pr_unit::range::Ranges;
}

pub mod slide {
    pub use pr_unit::slide::SlidingRanges;
}

pub mod checks {
    pub use pr_checks::push_lines;
}

pub mod testfile {
    pub use pr_testfile::{TestError, TestFile, read};
}

pub mod unit {
    pub use pr_unit::run_tests;
    pub use pr_unit::tests_crate::Failure;
}

pub mod world {
    pub use pr_text::world::NamedFile;
}

pub use check::{RuleTests, test_rules};
