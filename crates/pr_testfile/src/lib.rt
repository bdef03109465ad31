//! Test files: the tests of a text, or all that is wrong with it.
#![tactic(auto)]

mod alerts;
mod checks;
mod examples;
mod fault;
mod fields;
mod file;
pub mod inputs;
mod labels;
mod laws;
mod reader;
mod repeats;
mod samples;
mod scalars;
mod series;
mod test;
mod tests;
mod words;

// What crates above name of those below.
pub mod words_crate {
    pub use pr_words::Items;
}

pub mod rulefile {
    pub use pr_rulefile::{RuleError, read};
}

pub use alerts::founds_in_order;
pub use examples::{checks_have_these_fields, empty_labels_are_none, files_have_these_problems};
pub use fault::TestError;
pub use laws::{a_refused_file_has_a_problem, intervals_are_above_0};
pub use pr_rulefile::alerts_crate::RuleElement;
pub use pr_rulefile::fields::{Problem, ProblemKind};
pub use reader::read;
pub use tests::{AlertCheck, ExprCheck, Test, TestFile};
