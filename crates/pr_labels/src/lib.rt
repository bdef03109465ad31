//! Label sets, the names with values by which series are told apart; series texts; and what is kept
//! in label order.
#![tactic(auto)]

mod examples;
mod fault;
mod grouping;
mod item;
mod labels;
mod laws;
mod matching;
mod names;
mod order_laws;
pub mod ordered;
mod pair;
mod print;
pub mod series;

// What crates above name of those below.
pub mod forms {
    pub use pr_words::forms::{Fault, place_of};
}

pub mod words_crate {
    pub use pr_words::{Items, Steps, Text, line_len, strings, without_return};
}

pub use examples::series_texts_by_example;
pub use fault::LabelFault;
pub use grouping::Grouping;
pub use item::Item;
pub use labels::{Labels, ListedNames, METRIC_LABEL, copy_pairs};
pub use laws::{
    from_pairs_takes_all, operations_give_label_sets, values_after_operations,
    values_tell_label_sets,
};
pub use matching::{Card, Matching};
pub use names::{is_label_name, is_metric_name};
pub use order_laws::{
    label_order_is_total, label_sets_are_put_in_order, rising_lists_are_told_by_their_label_sets,
};
pub use pair::Pair;
