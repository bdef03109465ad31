//! The tokens and the tree of the query language: expressions with their places, the names of
//! operators, aggregations and functions, the text of an expression, and how far back it reads.
#![tactic(auto)]

pub mod examples;
pub mod laws;
pub mod lex;
mod names;
mod place;
mod printing;
mod reaching;
mod selector;
mod tree;

// What crates above name of those below.
pub mod words_crate {
    pub use pr_labels::words_crate::{Items, Steps, Text, strings};
}

pub mod num {
    pub use pr_num::{Num, Point};
}

pub mod time {
    pub use pr_time::{Ms, Span, read_span};
}

pub mod labels {
    pub use pr_labels::{
        Card, Grouping, Item, LabelFault, Labels, METRIC_LABEL, Matching, Pair, copy_pairs,
        is_label_name, series,
    };
}

pub use names::{AggOp, BinOp, Func, func_of};
pub use place::Place;
pub use printing::print;
pub use reaching::reach;
pub use selector::{MatchSign, MatchText, Selector};
pub use tree::{Expr, ExprKind};
