//! Commands that check: the whole input, or files one after another.
mod files;
mod input;
mod verdict;

pub use files::{FileCheck, check_files};
pub use input::{InputCheck, check_input};
pub use verdict::Verdict;
