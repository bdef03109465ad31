//! The history of all samples as one list in order of arrival, the questions to it, each a filter of
//! that list, and the rows of its entries; nothing is kept from one question to the next.
#![tactic(auto)]

mod append;
mod entry;
mod examples;
mod laws;
pub mod puts;
pub mod row;
mod spot;

// What crates above name of those below.
pub mod words_crate {
    pub use pr_labels::words_crate::{Items, Steps, Text};
}

pub mod num {
    pub use pr_num::{Num, Point};
}

pub mod time {
    pub use pr_time::Ms;
}

pub mod labels {
    pub use pr_labels::{
        Card, Grouping, Item, Labels, METRIC_LABEL, Matching, Pair, copy_pairs, ordered,
    };
}

pub use append::Append;
pub use entry::Entry;
pub use examples::{
    a_marker_hides, a_range_is_open_below_and_closed_above, a_value_has_its_time,
    an_absent_label_is_the_empty_text, an_equal_point_is_the_same, an_older_point_is_out_of_order,
    lookback_is_five_minutes,
};
pub use laws::{
    chosen_are_those_that_pass, more_entries_keep_lawful, put_keeps_lawful, selected_series_rise,
    times_of_a_series_rise,
};
pub use spot::Spot;
