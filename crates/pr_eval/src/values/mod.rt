//! What the nodes of an expression give of the values of their operands.
mod absence;
mod aggregations;
mod arguments;
mod calls;
mod each_value;
mod error;
mod labelled;
mod operators;
mod texts;
mod times;
mod vectors;

pub use absence::{absent_of, labels_of_argument};
pub use aggregations::aggregated;
pub use calls::value_of_call;
pub use error::EvalError;
pub use times::{seconds_of, stamped};
pub use vectors::{made_at, negated_value, operated, vector};
