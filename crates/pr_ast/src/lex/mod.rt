//! The tokens of the query language: names, numbers, durations, strings and signs, each with its
//! place.
mod examples;
mod fault;
pub mod laws;
mod number;
mod part;
mod reader;
mod text_examples;
mod ties;
mod token;
mod words;

pub use examples::{signs_by_example, words_by_example};
pub use fault::{LexError, LexKind};
pub use reader::{first_tokens, tokens};
pub use text_examples::{texts_give_these_faults, texts_give_these_tokens};
pub use ties::{numbers_are_the_unsigned_forms, unit_letters_go_on};
pub use token::{Sign, Token, TokenKind};
pub use words::{Word, word_of};
