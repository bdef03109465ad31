//! The folds of the values of a range, and what functions of a range are of the summaries.
mod answers;
mod folds;
mod gains;
mod laws;
mod neighbours;
mod parts;
mod summarize;

pub use answers::{from_neighbours, from_total, is_of_neighbours, is_of_total, some_value};
pub use folds::{Greatest, Least, Sequence, Totals};
pub use gains::units_of;
pub use laws::{greatest_tells, least_tells, sequences_tell, totals_tell};
pub use neighbours::Neighbours;
pub use parts::{
    beside, beside_spot, differ, falls, greater, is_special, joined, lesser, one_if, spot_alone,
    total_alone, total_with, value_alone,
};
pub use summarize::Summarize;
