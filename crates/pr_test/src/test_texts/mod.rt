//! What `test rules` prints: the model, of definitions without bodies.
mod examples;
mod laws;

pub use examples::{
    a_file_that_is_missing_is_told, a_test_file_is_told, each_bad_rule_file_is_told,
    failures_are_printed_so,
};
pub use laws::{nothing_is_told_of_rule_files_that_read, success_is_told_exactly_where_all_is_met};
