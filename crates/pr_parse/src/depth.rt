// How deep a text is, by its tokens alone: so that no text makes the parser call itself too often.
ghost use Rattle.std.specs.Prelude.{◌≡◌, ◌≤◌, ◌<◌, ◌+◌, [], ◌∷◌, false, length, max, nat_lt, IfOk, MatchOption};
ghost use Rattle.pr_parse.specs.Seen.{kinds_of};
ghost use Rattle.pr_parse.specs.Deep.{is_counted, fresh, height, counting, around, grown, close, close_and_open, count, after_kind, in_braces, greatest_from, greatest_height, operators, depth_now, depth, IsTooDeep};
ghost use Rattle.pr_parse.specs.private.DeepReader.{parts_of};

use crate::grammar::{Lexed, TokenClass};
use pr_ast::lex::{Sign, Word};
use std::alloc::{AllocError, Global};

/// A part of a text that is open.
#[derive(Clone, Copy, PartialEq, Eq, Debug)]
struct OpenPart {
    /// Whether it stands in braces.
    braces: bool,
    /// How many operators it has.
    operators: u64,
    /// The greatest height of a closed part inside it.
    closed: u64,
}

/// The open parts, the innermost first. The last is the whole text.
#[derive(Drop, Debug)]
enum Parts {
    Whole { part: OpenPart },
    Inside { part: OpenPart, around: Box<Parts> },
}

fn fresh(braces: bool) -> OpenPart
    ensures { result ≡ fresh braces }
{
    OpenPart {
        braces,
        operators: 0,
        closed: 0,
    }
}

fn whole_text() -> Parts
    ensures { parts_of result ≡ fresh false ∷ [] }
{
    Parts::Whole { part: fresh(false) }
}

fn height(part: OpenPart) -> u64
    requires { height part ≤ 100 }
    ensures { result ≡ height part }
{
    1 + part.operators + part.closed
}

fn counting(part: OpenPart) -> OpenPart
    requires { height part ≤ 100 }
    ensures { result ≡ counting part }
{
    if part.braces {
        part
    } else {
        OpenPart {
            braces: part.braces,
            operators: part.operators + 1,
            closed: part.closed,
        }
    }
}

fn around(inner: u64, part: OpenPart) -> OpenPart
    ensures { result ≡ around inner part }
{
    OpenPart {
        braces: part.braces,
        operators: part.operators,
        closed: part.closed.max(inner),
    }
}

/// Whether an operator is counted.
fn is_counted(kind: TokenClass) -> bool
    ensures { result ≡ is_counted kind }
{
    match kind {
        TokenClass::Sign(sign) => !matches!(
            sign,
            Sign::LeftBrace
                | Sign::RightBrace
                | Sign::LeftParen
                | Sign::RightParen
                | Sign::LeftBracket
                | Sign::RightBracket
                | Sign::Comma
                | Sign::Assign
                | Sign::Like
                | Sign::NotLike
        ),
        TokenClass::Word(word) => matches!(word, Word::And | Word::Or | Word::Unless),
        _ => false,
    }
}

fn count(parts: Parts) -> Parts
    requires { greatest_height (parts_of parts) ≤ 100 }
    ensures { parts_of result ≡ count (parts_of parts) }
{
    match parts {
        Parts::Whole { part } => Parts::Whole {
            part: counting(part),
        },
        Parts::Inside { part, around } => Parts::Inside {
            part: counting(part),
            around,
        },
    }
}

/// The part around the innermost one grows by it.
fn grown(inner: u64, parts: Parts) -> Parts
    ensures { parts_of result ≡ grown inner (parts_of parts) }
{
    match parts {
        Parts::Whole { part } => Parts::Whole {
            part: around(inner, part),
        },
        Parts::Inside { part, around: rest } => Parts::Inside {
            part: around(inner, part),
            around: rest,
        },
    }
}

fn close(parts: Parts) -> Parts
    requires { greatest_height (parts_of parts) ≤ 100 }
    ensures { parts_of result ≡ close (parts_of parts) }
{
    match parts {
        Parts::Whole { part } => Parts::Whole { part },
        Parts::Inside { part, around } => grown(height(part), Box::into_inner(around)),
    }
}

/// Whether the innermost part stands in braces.
fn in_braces(parts: &Parts) -> bool
    ensures { result ≡ in_braces (parts_of parts.now) }
{
    match parts {
        Parts::Whole { part } => part.braces,
        Parts::Inside { part, .. } => part.braces,
    }
}

fn inside(alloc: Global, braces: bool, parts: Parts) -> Result<Parts, AllocError>
    ensures { IfOk result (λ x. parts_of x ≡ fresh braces ∷ parts_of parts) }
{
    Ok(Parts::Inside {
        part: fresh(braces),
        around: Box::new(alloc, parts)?,
    })
}

fn close_and_open(alloc: Global, parts: Parts) -> Result<Parts, AllocError>
    requires { greatest_height (parts_of parts) ≤ 100 }
    ensures { IfOk result (λ x. parts_of x ≡ close_and_open (parts_of parts)) }
{
    match parts {
        Parts::Whole { part } => Ok(Parts::Whole { part }),
        Parts::Inside { part, around } => {
            inside(
                alloc,
                part.braces,
                grown(height(part), Box::into_inner(around)),
            )
        }
    }
}

/// The open parts after a token.
fn after_kind(alloc: Global, parts: Parts, kind: TokenClass) -> Result<Parts, AllocError>
    requires { greatest_height (parts_of parts) ≤ 100 }
    ensures { IfOk result (λ x. parts_of x ≡ after_kind (parts_of parts) kind) }
{
    match kind {
        TokenClass::Sign(Sign::LeftParen) => inside(alloc, in_braces(&parts), parts),
        TokenClass::Sign(Sign::LeftBrace) => inside(alloc, true, parts),
        TokenClass::Sign(Sign::RightParen) => Ok(close(parts)),
        TokenClass::Sign(Sign::RightBrace) => Ok(close(parts)),
        TokenClass::Sign(Sign::Comma) => close_and_open(alloc, parts),
        _ => {
            if is_counted(kind) {
                Ok(count(parts))
            } else {
                Ok(parts)
            }
        }
    }
}

fn is_high(inner: u64, part: OpenPart) -> bool
    ensures { result ≡ nat_lt 100 (1 + part.operators + max inner part.closed) }
{
    part.operators >= 100 || inner.max(part.closed) >= 100 - part.operators
}

/// Whether a part is more than 100 high, where so much was closed in the parts inside these.
fn are_high(inner: u64, parts: &Parts) -> bool
    ensures { result ≡ nat_lt 100 (greatest_from inner (parts_of parts.now)) }
{
    match parts {
        Parts::Whole { part } => is_high(inner, *part),
        Parts::Inside { part, around } => {
            is_high(inner, *part) || are_high(inner.max(part.closed), around)
        }
    }
}

/// Whether the open parts and their operators are more than a limit.
fn are_more(parts: &Parts, limit: u64) -> bool
    ensures { result ≡ nat_lt limit (length (parts_of parts.now) + operators (parts_of parts.now)) }
{
    match parts {
        Parts::Whole { part } => part.operators >= limit,
        Parts::Inside { part, around } => {
            part.operators >= limit || are_more(around, limit - part.operators - 1)
        }
    }
}

/// Whether the text is more than 100 deep at this moment.
fn is_deep(parts: &Parts) -> bool
    ensures { result ≡ nat_lt 100 (depth_now (parts_of parts.now)) }
{
    are_high(0, parts) || are_more(parts, 101)
}

/// The place of the first token that brings the depth above 100.
pub(crate) fn too_deep_at(alloc: Global, tokens: &[Lexed]) -> Result<Option<usize>, AllocError>
    ensures { IfOk result (λ o. MatchOption o (depth (kinds_of tokens.now) ≤ 100) (IsTooDeep (kinds_of tokens.now))) }
{
    let mut parts = whole_text();
    let mut at = 0;
    while at < tokens.len() {
        parts = after_kind(alloc, parts, tokens[at].kind)?;
        if is_deep(&parts) {
            return Ok(Some(at));
        }
        at += 1;
    }
    Ok(None)
}
