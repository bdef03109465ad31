// The kind of a fault.
ghost use Rattle.std.specs.Prelude.{◌≡◌, ◌+◌, ◌<◌, ◌^◌, ◌++◌, ◌∷◌, [], false, length, count_by, take, IfOk, OnOk};
ghost use Rattle.pr_yaml.specs.Grammar.{letters, letter_of};
ghost use Rattle.pr_yaml.specs.Trees.{levels, goes_on};
ghost use Rattle.pr_yaml.specs.Faults.{opens_flow, closes_flow, is_inside, from_line, is_first_of_line, place_kind, token_kind, may_begin, scan_kind, end_line_of};

use crate::whole::goes_on;
use crate::yaml_scan::{BadPlace, Token, TokenKind, TokenStart, YamlKind, without_mark};
use pr_words::{Text, is_blank};
use std::alloc::{AllocError, Global};

/// How many maps and lists may stand in one another.
pub(crate) const LEVELS: u32 = 64;

fn opens_flow(kind: &TokenKind) -> bool
    ensures { result ≡ opens_flow kind.now }
{
    matches!(kind, TokenKind::ListOpen | TokenKind::MapOpen)
}

fn closes_flow(kind: &TokenKind) -> bool
    ensures { result ≡ closes_flow kind.now }
{
    matches!(kind, TokenKind::ListClose | TokenKind::MapClose)
}

/// How many flows tokens open.
fn opened_in(tokens: &[Token]) -> usize
    ensures { result ≡ count_by (λ t. opens_flow t.kind) tokens.now }
{
    tokens.iter().filter(|t| opens_flow(&t.kind)).count()
}

/// How many flows tokens close.
fn closed_in(tokens: &[Token]) -> usize
    ensures { result ≡ count_by (λ t. closes_flow t.kind) tokens.now }
{
    tokens.iter().filter(|t| closes_flow(&t.kind)).count()
}

/// Whether the place after tokens is inside flows.
fn is_inside(before: &[Token]) -> bool
    ensures { result ≡ is_inside before.now }
{
    closed_in(before) < opened_in(before)
}

/// The text from the start of a line on that stands so many lines below.
fn from_line(lines: u32, text: &[u8]) -> &[u8]
    ensures { result.now ≡ from_line lines text.now }
{
    let mut left = lines;
    let mut rest = text;
    'lines: while left > 0 {
        let Some((first, after)) = rest.split_first() else {
            return rest;
        };
        if *first == b'\n' {
            left -= 1;
        }
        rest = after;
    }
    rest
}

/// Whether nothing but blanks stands before a column of a line.
#[tactic(auto, unfolding(crate::specs::Faults::is_first_of_line))]
fn is_first_of_line(text: &[u8], line: u32, column: u32) -> bool
    ensures { result ≡ is_first_of_line text.now line column }
{
    let rest = from_line(line.saturating_sub(1), without_mark(text));
    rest.iter().take(column as usize).all(|b| is_blank(*b))
}

fn place_kind(inside: bool, first: bool) -> YamlKind
    ensures { result ≡ place_kind inside first }
{
    match (inside, first) {
        (true, _) => YamlKind::Flow,
        (false, true) => YamlKind::Indent,
        (false, false) => YamlKind::Extra,
    }
}

/// The kind of the first token up to which the tokens cannot go on.
#[tactic(auto, unfolding(crate::specs::Faults::token_kind))]
pub(crate) fn token_kind(
    alloc: Global,
    text: &[u8],
    tokens: &[Token],
    place: usize,
    token: &Token,
) -> Result<YamlKind, AllocError>
    requires { place < length tokens.now }
    ensures { IfOk result (λ k. k ≡ token_kind text.now tokens.now place token.now) }
{
    let front = &tokens[..place + 1];
    if goes_on(alloc, false, LEVELS, front)? {
        return Ok(YamlKind::DuplicateKey);
    }
    if goes_on(alloc, true, LEVELS + 1, front)? {
        return Ok(YamlKind::TooDeep);
    }
    let inside = is_inside(&tokens[..place]);
    Ok(place_kind(inside, is_first_of_line(text, token.line, token.column)))
}

/// Whether tokens with one more can go on, where keys may stand twice and there is room for one
/// level more.
fn goes_on_with(alloc: Global, tokens: &mut Vec<Token>, token: Token) -> Result<bool, AllocError>
    ensures answer { IfOk result (λ b. b ≡ goes_on false (levels + 1) (letters tokens.old.items ++ letter_of token ∷ [])) }
    ensures tokens { OnOk result (tokens.new.items ≡ tokens.old.items) }
{
    tokens.push(token)?;
    let answer = goes_on(alloc, false, LEVELS + 1, tokens.as_slice());
    let _token = tokens.pop();
    answer
}

/// Whether a scalar could go on after the tokens, or a key where one may stand.
#[tactic(auto, unfolding(crate::specs::Faults::may_begin))]
fn may_begin(
    alloc: Global,
    tokens: &mut Vec<Token>,
    line: u32,
    start: TokenStart,
) -> Result<bool, AllocError>
    ensures answer { IfOk result (λ b. b ≡ may_begin tokens.old.items line start) }
    ensures tokens { OnOk result (tokens.new.items ≡ tokens.old.items) }
{
    let column = start.column;
    let text = Token {
        line,
        column,
        kind: TokenKind::Text {
            text: Text::new(String::new(alloc)),
            quoted: false,
        },
    };
    if goes_on_with(alloc, tokens, text)? {
        return Ok(true);
    }
    if !start.key {
        return Ok(false);
    }
    let key = Token {
        line,
        column,
        kind: TokenKind::Key {
            text: Text::new(String::new(alloc)),
        },
    };
    goes_on_with(alloc, tokens, key)
}

/// The kind of a bad place of the text after all tokens.
#[tactic(auto, unfolding(crate::specs::Faults::scan_kind_by))]
pub(crate) fn scan_kind(
    alloc: Global,
    mut tokens: Vec<Token>,
    bad: BadPlace,
) -> Result<YamlKind, AllocError>
    ensures { IfOk result (λ k. k ≡ scan_kind tokens.items bad) }
{
    let Some(start) = bad.start else {
        return Ok(bad.fault.kind);
    };
    if may_begin(alloc, &mut tokens, bad.fault.line, start)? {
        return Ok(bad.fault.kind);
    }
    Ok(place_kind(is_inside(tokens.as_slice()), false))
}

/// The line of the last byte of a text.
#[tactic(auto, unfolding(crate::specs::Faults::end_line_of))]
pub(crate) fn end_line_of(text: &[u8]) -> u32
    requires { length text.now < 2 ^ 32 }
    ensures { result ≡ end_line_of text.now }
{
    let before = &text[..text.len().saturating_sub(1)];
    let feeds = before.iter().filter(|b| **b == b'\n').count();
    feeds as u32 + 1
}
