//! The evaluator: what an expression gives at a moment, worked out over a head.
#![tactic(auto)]

mod aggregate;
mod call;
mod evaluate;
mod operators;
mod parts;
mod range_call;
pub mod range_calls;
mod scope;
mod select;
mod selected;
mod subquery;
pub mod values;

// What crates above name of those below.
pub mod head {
    pub use pr_range::head::{Head, Timed, intake};
}

pub mod functions {
    pub use pr_fn::keep_least;
}

pub mod range {
    pub use pr_range::{PlainRanges, Ranges};
}

pub use crate::values::EvalError;
pub use evaluate::eval;
pub use spec_meaning::{FaultKind, Value};
