//! Aggregations of a vector by labels. A call equals its definition in `spec_vectors`, which speaks
//! of the filters of the vector; the parts are gathered in a hash map and put in order once, so
//! that the work grows with the elements and not with the groups.
#![tactic(auto)]

mod chosen;
mod counts;
mod fault;
mod firsts;
mod folds;
mod laws;
mod lists;
mod numbers;
mod parts;
mod values;

pub use chosen::ChosenLabels;
pub use counts::count_values;
pub use fault::AggFault;
pub use firsts::{bottomk, topk};
pub use folds::group_fold;
pub use laws::folded_values_are_as_defined;
pub use lists::quantile;
pub use values::{CountFold, Greatest, Least, Presence, Totals, avg, count, group, max, min, sum};
