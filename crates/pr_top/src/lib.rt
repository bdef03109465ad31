//! The program as one call.
#![tactic(auto)]

mod command;
mod over;
pub mod program;
mod run_engine;
mod top;

// What crates above name of those below.
pub mod engine {
    pub use pr_engine::{ApplyError, Cause, Engine};
}

pub mod text {
    pub use pr_run::text::push_report;
}

pub mod script {
    pub use pr_run::script::{Order, Started, read_order};
}

pub mod world {
    pub use pr_run::world::{Event, Report};
    pub use pr_test::world::NamedFile;
}

pub mod slide {
    pub use pr_test::slide::SlidingRanges;
}

pub mod tmpl {
    pub use pr_backfill::tmpl::{External, Template};
}

pub mod rules_crate {
    pub use pr_backfill::rules_crate::RuleDef;
}

pub mod test {
    pub use pr_test::test_print::write_failure;
    pub use pr_test::test_texts::success_is_told_exactly_where_all_is_met;
}

pub mod checks {
    pub use pr_test::checks::push_lines;
}

pub mod testfile {
    pub use pr_test::testfile::{TestError, TestFile, read};
}

pub mod unit {
    pub use pr_test::unit::{Failure, run_tests};
}

pub mod range {
    pub use pr_test::range::Ranges;
}

pub mod rulefile {
    pub use pr_test::rulefile::read;
}

pub use over::promtool_over;
pub use pr_outside::status::Status;
pub use top::promtool;
