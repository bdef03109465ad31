//! The tokens and the trees of YAML texts in the profile of rule and test files.
#![tactic(auto)]

pub mod examples;
mod fault;
mod found;
mod kinds;
pub mod laws;
mod made;
mod node;
mod reader;
mod tokens;
mod trees;
mod whole;
pub mod yaml_scan;

// What crates above name of those below.
pub mod words_crate {
    pub use pr_words::{Items, Text, push_number};
}

pub use fault::YamlError;
pub use node::{MapEntry, Node, NodeKind};
pub use reader::read;
