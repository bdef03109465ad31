use crate::yaml_scan::fault::{BadPlace, ScanFault};
use pr_words::Text;

/// A token of a text.
#[derive(Debug, Drop)]
pub struct Token {
    /// The line of its first byte, from 1.
    pub line: u32,
    /// The column of its first byte, in bytes from 0.
    pub column: u32,
    /// What it is.
    pub kind: TokenKind,
}

/// What a token is.
#[derive(Debug, Drop)]
pub enum TokenKind {
    /// The dash of an item of a list.
    Dash,
    /// A key with its colon.
    Key { text: Text },
    /// A scalar, which is quoted, or a block scalar, or neither.
    Text { text: Text, quoted: bool },
    /// `[`
    ListOpen,
    /// `]`
    ListClose,
    /// `{`
    MapOpen,
    /// `}`
    MapClose,
    /// `,`
    Comma,
}

/// The tokens of a text up to its fault, where it has one.
#[derive(Debug, Drop)]
pub struct Scanned {
    pub tokens: Vec<Token>,
    pub fault: Option<ScanFault>,
}

/// The tokens of a text up to its bad place, where it has one.
#[derive(Debug, Drop)]
pub struct Places {
    pub tokens: Vec<Token>,
    pub bad: Option<BadPlace>,
}
