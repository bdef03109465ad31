//! Functions of ranges at a node of an expression: of the series that a range selector chooses,
//! asked of a head in order, and of the series of a subquery, gathered from the values of its
//! expression at each of its times.
mod asking;
mod call;
mod choose;
mod finishing;
mod gathering;
mod of_selector;
mod of_subquery;
mod times;

pub use call::{RangeAt, RangeCall};
pub use choose::{chosen_series, labels_of_series};
pub use gathering::{no_series, take_elements};
pub use of_selector::{absent_over_selector, over_selector};
pub use of_subquery::{SubqueryRange, absent_over_series, over_series};
pub use times::{SubqueryTimes, subquery_times};
