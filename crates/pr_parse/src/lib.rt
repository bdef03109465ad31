//! The parser of the query language, and the expression with its type that a text is.
#![tactic(auto)]

mod depth;
pub mod examples;
mod expression;
mod fault;
pub mod grammar;
mod kinds;
pub mod laws;
mod made;
mod parser;
mod parsing;
mod query_kind;
mod query_kind_examples;
mod query_kind_words;
mod selection;
mod suffix;
mod whole;

// What crates above name of those below.
pub mod types {
    pub use pr_types::Checked;
}

pub use expression::read_expression;
pub use fault::{ParseError, ParseKind};
pub use parsing::parse;
pub use query_kind::{QueryError, QueryKind};
pub use query_kind_examples::kinds_are_written_so;
pub use query_kind_words::push_query_kind;
