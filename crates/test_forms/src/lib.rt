//! A small language of sums, products, names and calls, read as every format of the product is: its
//! grammar is data, its parser is a plain recursive descent, and the public call says by that
//! grammar what it answers. Its tokens hold strings and places, and each node of its trees has a
//! place. A change of `pr_forms` is felt here first.
#![tactic(auto)]

mod depth;
mod fault;
mod glyph;
pub mod laws;
mod parser;
mod string;
mod tree;
mod words;
mod writer;

pub use depth::LIMIT;
pub use fault::{FaultKind, kind_at};
pub use parser::{ParseError, parse};
pub use tree::{Expr, ExprKind, Operator, Place, Sign, Token, TokenKind};
pub use words::{Word, WordsError, read_words};
pub use writer::write_words;
