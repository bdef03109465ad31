//! The types of expressions: which a tree has, or the first place that has none, and what is built
//! for an expression that has one.
#![tactic(auto)]

mod building;
mod checking;
mod counting;
mod examples;
mod kind;
mod laws;
mod operation;
mod selection;
mod signature;
mod texts;
mod typing;

pub use checking::{Checked, check};
pub use counting::{SelectorCounts, counts_in};
pub use examples::{
    calls_have_these_types, faults_come_in_order, operations_have_these_types,
    reach_ends_at_45_days, selectors_have_these_types,
};
pub use kind::{TypeError, TypeFault, TypeKind, ValueType};
pub use laws::{
    checked_expressions_are_typed_and_reach_kept_samples, counts_are_exact_below_2_64,
    outermost_nodes_tell_types, parts_of_typed_expressions_have_types,
    texts_of_typed_expressions_are_good,
};
pub use operation::compares;
pub use signature::Signature;
pub use texts::{content, content_at};
