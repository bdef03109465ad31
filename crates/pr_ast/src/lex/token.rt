use pr_labels::words_crate::Text;
use pr_num::Num;
use pr_time::Span;

/// A token of the query language.
#[derive(Debug, Drop)]
pub struct Token {
    /// The place of its first byte in the text.
    pub start: usize,
    /// The place after its last byte.
    pub end: usize,
    /// What it is.
    pub kind: TokenKind,
}

/// What a token is.
#[derive(Debug, Drop)]
pub enum TokenKind {
    /// A name as it is written, which may be one of the words of the language.
    Name { text: Text },
    /// A number without a sign.
    Number { value: Num },
    /// A duration, such as `5m`.
    Duration { span: Span },
    /// What a string means.
    Text { text: Text },
    /// One of the signs.
    Sign { sign: Sign },
}

/// The signs of the query language.
#[derive(Clone, Copy, Debug, PartialEq, Eq)]
pub enum Sign {
    /// `{`
    LeftBrace,
    /// `}`
    RightBrace,
    /// `(`
    LeftParen,
    /// `)`
    RightParen,
    /// `[`
    LeftBracket,
    /// `]`
    RightBracket,
    /// `,`
    Comma,
    /// `:`, which is a sign only between `[` and the next `]`.
    Colon,
    /// `=`
    Assign,
    /// `!=`
    NotEqual,
    /// `=~`
    Like,
    /// `!~`
    NotLike,
    /// `==`
    Equal,
    /// `<`
    Less,
    /// `<=`
    LessEqual,
    /// `>`
    Greater,
    /// `>=`
    GreaterEqual,
    /// `+`
    Plus,
    /// `-`
    Minus,
    /// `*`
    Star,
    /// `/`
    Slash,
    /// `%`
    Percent,
}
