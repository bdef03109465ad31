//! What the tests of a test file come to: the model, of types and definitions without bodies.
#![tactic(auto)]

mod examples;
mod failure;
pub mod test_rounds;

// What crates above name of those below.
pub mod types {
    pub use spec_world::types::Checked;
}

pub mod rulefile {
    pub use pr_testfile::rulefile::{RuleError, read};
}

pub mod world {
    pub use spec_world::NamedFile;
}

pub mod testfile {
    pub use pr_testfile::{AlertCheck, ExprCheck, Test, TestFile, founds_in_order, inputs};
}

pub use examples::{
    a_fault_is_never_as_expected, a_sample_is_as_expected_or_not,
    alerts_are_compared_with_their_annotations, alerts_of_all_rules_of_a_name_are_told,
    an_alert_is_as_expected_or_not, groups_that_are_named_come_first, no_group_waits,
    rule_files_stand_beside, samples_come_before_evaluations, templates_see_what_is_external,
};
pub use failure::{Failure, Shown};
