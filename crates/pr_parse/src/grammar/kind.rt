// What a token is to the grammar.
ghost use Rattle.std.specs.Prelude.{◌≡◌, ◌++◌, map, IfOk, option_map};
ghost use Rattle.pr_parse.specs.Seen.{kind_of, name_kind, other_name, has_colon, seen, seen_tokens, place_of};
ghost use Rattle.pr_parse.specs.Grammar.{through};

use pr_ast::labels::METRIC_LABEL;
use pr_ast::lex::{Sign, Token, TokenKind, Word, word_of};
use pr_ast::{Func, Place, func_of};
use std::alloc::{AllocError, Global};

/// The kinds of tokens that the grammar tells apart.
#[derive(Clone, Copy, PartialEq, Eq, Debug)]
pub enum TokenClass {
    Number,
    Text,
    Span,
    /// A duration of no length.
    ZeroSpan,
    /// One of the words of the language, in any case.
    Word(Word),
    /// The name of a function.
    Function(Func),
    /// `__name__`
    OwnName,
    /// Another name, with a colon.
    WithColon,
    /// Any other name.
    Plain,
    Sign(Sign),
}

/// The levels of the operators of two operands, the loosest first.
#[derive(Clone, Copy, PartialEq, Eq, Debug)]
pub enum Level {
    Or,
    And,
    Comparison,
    Sum,
    Product,
}

/// What brackets or an offset may follow.
#[derive(Clone, Copy, PartialEq, Eq, Debug)]
pub enum Before {
    Selector,
    /// A range selector or a subquery without offset.
    Range,
    Other,
}

/// A token with its kind.
#[derive(Drop, Debug)]
pub struct Lexed {
    pub kind: TokenClass,
    pub token: Token,
}

fn has_colon(text: &[u8]) -> bool
    ensures { result ≡ has_colon text.now }
{
    text.iter().any(|b| *b == b':')
}

fn other_name(text: &str) -> TokenClass
    ensures { result ≡ other_name text.now }
{
    if text == METRIC_LABEL {
        TokenClass::OwnName
    } else if has_colon(text.as_bytes()) {
        TokenClass::WithColon
    } else {
        TokenClass::Plain
    }
}

fn name_kind(text: &str) -> TokenClass
    ensures { result ≡ name_kind text.now }
{
    match word_of(text) {
        Some(word) => TokenClass::Word(word),
        None => match func_of(text) {
            Some(func) => TokenClass::Function(func),
            None => other_name(text),
        },
    }
}

fn kind_of(token: &TokenKind) -> TokenClass
    ensures { result ≡ kind_of token.now }
{
    match token {
        TokenKind::Name { text } => name_kind(text.as_str()),
        TokenKind::Number { .. } => TokenClass::Number,
        TokenKind::Duration { span } => {
            if span.get() == 0 {
                TokenClass::ZeroSpan
            } else {
                TokenClass::Span
            }
        }
        TokenKind::Text { .. } => TokenClass::Text,
        TokenKind::Sign { sign } => TokenClass::Sign(*sign),
    }
}

/// The place of a token.
pub fn place_of(token: &Token) -> Place
    ensures { result ≡ place_of token.now }
{
    Place {
        start: token.start,
        end: token.end,
    }
}

/// From the start of one place to the end of another.
pub fn through(start: Place, end: Place) -> Place
    ensures { result ≡ through start end }
{
    Place {
        start: start.start,
        end: end.end,
    }
}

/// The tokens with their kinds.
///
/// # Errors
/// Memory ran out.
pub fn with_kinds(alloc: Global, tokens: Vec<Token>) -> Result<Vec<Lexed>, AllocError>
    ensures { IfOk result (λ all. seen all.items ≡ seen_tokens tokens.items) }
{
    let mut all = Vec::new(alloc);
    for token in tokens {
        let kind = kind_of(&token.kind);
        all.push(Lexed { kind, token })?;
    }
    Ok(all)
}
