//! The fields of YAML maps: what stands under a name, and what is wrong with it.
mod access;
pub mod examples;
mod expressions;
mod found;
mod labels;
pub mod laws;
mod maps;
mod order;
mod print;
mod problem;
mod scalars;
mod templates;

pub use access::{
    field, fields_in, fields_of, fields_under, items_in, items_of, items_under, key_line_of,
    key_of, line_of, text_of, value_of, written, written_text,
};
pub use expressions::{
    expression_in, expression_under, expression_value_problems, typed_expression,
};
pub use found::{
    no_tree, push, push_bad_label, push_duplicate, push_missing, push_not_for_recording,
    push_unknown,
};
pub use labels::{label_value, labels_problems, pairs_of, put_labels};
pub use maps::{ItemForm, MapForm, list_problems, map_problems, require, texts_problems};
pub use order::in_order;
pub use print::push_problem_kind;
pub use problem::{Problem, ProblemKind};
pub use scalars::{
    limit_problems, limit_under, short_span, span_problems, span_under, text_problems,
};
