//! What an expression of the query language gives at a moment, over a history: the model, of
//! definitions alone.
#![tactic(auto)]

mod call_examples;
mod cost_examples;
mod examples;
mod fault;
mod laws;
mod range_examples;
mod row_examples;
mod value;

// What crates above name of those below.
pub mod types {
    pub use pr_types::{Checked, SelectorCounts, compares, content, content_at, counts_in};
}

pub use call_examples::{
    dates_are_told, elements_are_counted, functions_are_called, labels_are_joined,
    ranges_are_taken, vectors_are_aggregated,
};
pub use cost_examples::reads_are_counted;
pub use examples::{
    first_faults_have_their_places, operators_work_on_two_values, sets_are_joined_by_key,
    signs_and_filters_of_vectors, vectors_are_matched, what_a_selector_shows,
};
pub use fault::{Fault, FaultKind};
pub use laws::{
    answers_are_vectors, chosen_series_are_in_label_order, equalities_choose_series_with_pairs,
};
pub use range_examples::{each_function_of_a_range_has_its_row, ranges_have_offsets_and_faults};
pub use row_examples::{
    each_aggregation_has_its_row, each_function_of_values_has_its_row,
    each_part_of_a_date_has_its_row, each_sign_has_its_operator,
    labels_and_buckets_have_their_rows, matchers_tell_what_is_absent,
};
pub use value::Value;
