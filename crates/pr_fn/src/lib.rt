//! Functions of instant vectors: of each value, of labels, of a whole vector, and the calendar. A
//! call equals its definition in `spec_vectors`, faults included.
#![tactic(auto)]

mod bound;
mod fn_fault;
mod histograms;
mod instants;
mod label_functions;
mod laws;
mod quantiles;
mod rows;
mod values;

// What crates above name of those below.
pub mod matching {
    pub use pr_match::{Matcher, Pattern, Selection};
}

pub use fn_fault::FnFault;
pub use histograms::histogram_quantile;
pub use instants::calendar;
pub use label_functions::{label_join, label_replace};
pub use laws::dates_by_example;
pub use rows::keep_least;
pub use spec_vectors::Part;
pub use values::{at_least, at_most, clamp, map_values, scalar, sign, within, without_metrics};
