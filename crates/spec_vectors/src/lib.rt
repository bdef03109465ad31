//! The meaning of PromQL: what operators between two vectors, aggregations, functions of vectors
//! and functions over ranges give.
#![tactic(auto)]

mod aggregation_examples;
mod aggregation_laws;
mod bucket;
mod examples;
mod function_examples;
mod function_fault;
mod function_laws;
mod laws;
mod match_fault;
mod operator_examples;
mod part;
mod range;
mod range_examples;

// What crates above name of those below.
pub mod words_crate {
    pub use spec_history::words_crate::{Items, Steps};
}

pub mod num {
    pub use pr_num::{Num, TooWide, Total, half, half_product, muldiv_units, quantile};
}

pub mod labels {
    pub use spec_history::labels::{Card, Grouping, Item, Labels, METRIC_LABEL, Matching, ordered};
}

pub mod history {
    pub use spec_history::{Append, Entry, Spot, row};
}

pub use aggregation_examples::{
    aggregations_of_one_and_three, first_elements_of_each_group, groups_have_their_labels,
    quantiles_of_each_group, special_and_wide_values, values_are_counted,
};
pub use aggregation_laws::{aggregations_are_vectors, each_group_has_a_value};
pub use bucket::Bucket;
pub use examples::{
    a_filter_keeps_the_left_value, a_label_is_taken_from_the_one_side,
    a_pair_has_the_labels_of_its_key, faults_come_in_order, keys_are_on_or_ignoring_names,
    one_side_has_a_key_once, sets_go_by_key,
};
pub use function_examples::{
    buckets_are_made_right, days_go_by, equal_labels_are_a_fault, histograms_have_quantiles,
    instants_have_fields, labels_are_set, one_element_is_a_scalar, values_are_clamped,
    values_are_worked_one_by_one,
};
pub use function_fault::FunctionFault;
pub use function_laws::function_answers_are_vectors;
pub use laws::answers_are_vectors;
pub use match_fault::MatchFault;
pub use operator_examples::{
    comparisons_are_of_lesser_equal_and_greater_values, comparisons_work_on_two_values,
};
pub use part::Part;
pub use range::{Ask, AskFault, RangeFn};
pub use range_examples::{
    a_line_goes_on, a_quantile_is_of_values_in_order, a_range_begins_after_its_start,
    a_rate_is_of_the_rounded_increase, gains_are_extrapolated, neighbours_differ_or_fall,
    ranges_have_counts, the_last_two_values_count, two_finite_values_are_needed,
    values_are_summed_and_compared,
};
