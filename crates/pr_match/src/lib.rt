//! Patterns and matchers: which texts and which label sets a selector's tests let through.
#![tactic(auto)]

mod condition;
mod fault;
mod laws;
mod matcher;
mod op;
mod pattern;
mod selection;

// What crates above name of those below.
pub mod words_crate {
    pub use pr_labels::words_crate::{Items, Text};
}

pub mod labels {
    pub use pr_labels::{Item, Labels, METRIC_LABEL, ordered};
}

pub use fault::MatchError;
pub use laws::{
    an_absent_label_is_empty, equalities_ask_for_pairs, operators_are_opposite,
    patterns_by_example, selected_sets_meet_all,
};
pub use matcher::{LabelSearcher, Matcher};
pub use op::MatchOp;
pub use pattern::{Expander, Pattern, Searcher};
pub use selection::{Selection, select};
