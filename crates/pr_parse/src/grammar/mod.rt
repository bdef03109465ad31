//! The grammar of the query language: what its tokens are to it, its productions, and the readers
//! of single tokens, of labels and of matchers.
mod kind;
pub mod laws;
mod lists;
mod modifiers;
mod tokens;

pub use kind::{Before, Level, Lexed, TokenClass, place_of, through, with_kinds};
pub use lists::{braces_in, labels_in};
pub use modifiers::{Modifiers, modifiers_in};
pub use tokens::{
    Lasting, after, after_word, aggregate_in, function_in, grouping_in, label_in, match_in,
    matching_in, metric_in, minus_in, no_span, number_of, operator_in, shift_in, side_in, span_in,
    starts_argument, text_in, text_of,
};
