//! Operators between two vectors: arithmetic, comparisons and set operators by matching keys. A
//! call equals its definition in `spec_vectors`; keys are looked up by a hash of the labels that
//! stand there, so that the work grows with the elements and not with their pairs.
#![tactic(auto)]

mod join_fault;
mod joins;
mod labels;
mod places;
mod rows;
mod sets;

// What crates above name of those below.
pub mod agg {
    pub use pr_agg::{
        AggFault, avg, bottomk, count, count_values, group, max, min, quantile, sum, topk,
    };
}

pub use join_fault::JoinFault;
pub use joins::join;
pub use sets::{and, or, unless};
