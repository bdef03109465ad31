//! Templates: texts with the labels and the value of an alert in them, and what they expand to.
#![tactic(auto)]

mod examples;
mod expand;
pub mod humanize;
mod kind;
mod laws;
mod letter;
mod parse;
mod pipe;
mod quoted;
mod template;
mod words;

pub use examples::small_templates_expand_so;
pub use expand::Argument;
pub use laws::{
    one_piece_decides_templates, parts_of_a_template_are_a_function, pieces_are_the_text,
};
pub use parse::TmplError;
pub use template::{Call, External, Format, Operand, Part, Places, Template, Verb};
