//! Tokens and trees.

/// Where a text starts and ends, in bytes.
#[derive(Clone, Copy, PartialEq, Eq, Debug)]
pub struct Place {
    pub start: usize,
    pub end: usize,
}

/// The signs of the language: `+ - * ( ) ,`.
#[derive(Clone, Copy, PartialEq, Eq, Debug)]
pub enum Sign {
    Plus,
    Minus,
    Star,
    Open,
    Close,
    Comma,
}

/// What a token is: a number, a name with its text, or a sign.
#[derive(Drop, Debug)]
pub enum TokenKind {
    Number { value: u32 },
    Name { text: String },
    Sign { sign: Sign },
}

/// A token with the place of its text.
#[derive(Drop, Debug)]
pub struct Token {
    pub place: Place,
    pub kind: TokenKind,
}

/// The operators of two operands, each of which associates to the left.
#[derive(Clone, Copy, PartialEq, Eq, Debug)]
pub enum Operator {
    Add,
    Subtract,
    Multiply,
}

/// An expression with its place: that of its text without parentheses around it. An operation
/// begins where the text of its left operand does, parentheses included, and ends where that of its
/// right operand does.
#[cycle(tree)]
#[derive(Drop, Debug)]
pub struct Expr {
    pub place: Place,
    pub kind: ExprKind,
}

/// What an expression is. The arguments of a call stand in their order.
#[cycle(tree)]
#[derive(Drop, Debug)]
pub enum ExprKind {
    Number {
        value: u32,
    },
    Name {
        text: String,
    },
    Negated {
        inner: Box<Expr>,
    },
    Binary {
        operator: Operator,
        left: Box<Expr>,
        right: Box<Expr>,
    },
    Call {
        name: String,
        arguments: Vec<Expr>,
    },
}
