//! Tables of rows, which programs go over: a row asks line by line, and says what is to be answered.
#![tactic(auto)]

pub mod alert_rows;
mod files;
mod lines;
pub mod queue_rows;
pub mod slide_rows;
pub mod store_lines;
mod table;

// What crates above name of those below.
pub mod parse {
    pub use pr_parse::parse;
}

pub mod window_crate {
    pub use pr_slide::window_crate::{Fold, fold_items};
}

pub use files::{bytes_of, text_of};
pub use lines::{counted, halves, joined};
pub use table::{Answers, tell_table};
