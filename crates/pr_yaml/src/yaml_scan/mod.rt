//! The tokens of a YAML text in the profile of rule and test files, and the first byte that begins none.
mod block;
mod bytes;
pub mod examples;
mod fault;
mod first;
pub mod laws;
mod line;
mod plain;
mod quoted;
mod reader;
mod scalar;
mod state;
mod token;

pub use bytes::without_mark;
pub use fault::{BadPlace, ScanFault, TokenStart, YamlKind};
pub use reader::{scan, scan_places};
pub use token::{Places, Scanned, Token, TokenKind};
