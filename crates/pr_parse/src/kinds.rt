// The kind of the first bad place.
ghost use Rattle.std.specs.Prelude.{◌≡◌, ◌≤◌, length, None, slice_get, if◌then◌else◌};
ghost use Rattle.pr_parse.specs.declared.fault.Names.TheVariants.{Elsewhere};
ghost use Rattle.pr_parse.specs.declared.fault.ParseKind.TheVariants.{Unexpected};
ghost use Rattle.pr_parse.specs.Seen.{kinds_of};
ghost use Rattle.pr_parse.specs.Faults.{begins_labels, names_after, names_from, is_called, begins_matcher, begins_span, ends_range, kind_by, kind_before, second_before, kind_at};

use crate::fault::{Names, ParseKind};
use crate::grammar::{Lexed, TokenClass};
use pr_ast::lex::{Sign, Word};

fn begins_labels(before: Option<TokenClass>) -> bool
    ensures { result ≡ begins_labels before }
{
    match before {
        Some(TokenClass::Word(word)) => matches!(
            word,
            Word::On
                | Word::Ignoring
                | Word::GroupLeft
                | Word::GroupRight
                | Word::By
                | Word::Without
        ),
        _ => false,
    }
}

fn names_after(names: Names, before: Option<TokenClass>, kind: TokenClass) -> Names
    ensures { result ≡ names_after names before kind }
{
    match kind {
        TokenClass::Sign(Sign::LeftBrace) => Names::InBraces,
        TokenClass::Sign(Sign::RightBrace | Sign::RightParen) => Names::Elsewhere,
        TokenClass::Sign(Sign::LeftParen) => {
            if begins_labels(before) {
                Names::InLabels
            } else {
                Names::Elsewhere
            }
        }
        _ => names,
    }
}

/// Whether names are labels after these tokens.
fn names_in(tokens: &[Lexed]) -> Names
    ensures { result ≡ names_from Elsewhere None (kinds_of tokens.now) }
{
    let mut names = Names::Elsewhere;
    let mut before = None;
    for next in tokens {
        names = names_after(names, before, next.kind);
        before = Some(next.kind);
    }
    names
}

fn is_called(names: Names, before: Option<TokenClass>) -> bool
    ensures { result ≡ is_called names before }
{
    match before {
        Some(TokenClass::Word(_)) => !matches!(names, Names::Elsewhere),
        Some(kind) => matches!(
            kind,
            TokenClass::Plain | TokenClass::WithColon | TokenClass::OwnName
        ),
        None => false,
    }
}

fn begins_matcher(names: Names, before: Option<TokenClass>) -> bool
    ensures { result ≡ begins_matcher names before }
{
    match (names, before) {
        (Names::InBraces, Some(TokenClass::Sign(sign))) => {
            matches!(sign, Sign::LeftBrace | Sign::Comma)
        }
        _ => false,
    }
}

fn begins_span(before: Option<TokenClass>) -> bool
    ensures { result ≡ begins_span before }
{
    match before {
        Some(TokenClass::Sign(sign)) => matches!(sign, Sign::LeftBracket | Sign::Colon),
        _ => false,
    }
}

fn ends_range(before: Option<TokenClass>, second: Option<TokenClass>) -> bool
    ensures { result ≡ ends_range before second }
{
    match (before, second) {
        (Some(TokenClass::Span), Some(TokenClass::Sign(sign))) => matches!(sign, Sign::LeftBracket),
        _ => false,
    }
}

/// A kind where the test holds, else Unexpected.
fn kind_where(test: bool, kind: ParseKind) -> ParseKind
    ensures { result ≡ if test then kind else Unexpected }
{
    if test { kind } else { ParseKind::Unexpected }
}

/// The kind of a bad token, by the names around it, the token before it, and the one before that.
fn kind_by(
    names: Names,
    before: Option<TokenClass>,
    second: Option<TokenClass>,
    bad: Option<TokenClass>,
) -> ParseKind
    ensures { result ≡ kind_by names before second bad }
{
    let Some(kind) = bad else {
        return ParseKind::End;
    };
    match kind {
        TokenClass::Sign(Sign::LeftParen) => {
            kind_where(is_called(names, before), ParseKind::UnknownFunction)
        }
        TokenClass::Sign(Sign::LeftBracket) | TokenClass::Word(Word::Offset) =>
            ParseKind::Misplaced,
        TokenClass::Sign(Sign::RightBracket) => {
            kind_where(ends_range(before, second), ParseKind::Misplaced)
        }
        TokenClass::OwnName => kind_where(begins_matcher(names, before), ParseKind::TwoNames),
        TokenClass::ZeroSpan => kind_where(begins_span(before), ParseKind::ZeroSpan),
        _ => ParseKind::Unexpected,
    }
}

fn kind_in(tokens: &[Lexed], place: usize) -> Option<TokenClass>
    ensures { result ≡ slice_get (kinds_of tokens.now) place }
{
    match tokens.get(place) {
        Some(next) => Some(next.kind),
        None => None,
    }
}

fn kind_before(tokens: &[Lexed], place: usize) -> Option<TokenClass>
    ensures { result ≡ kind_before (kinds_of tokens.now) place }
{
    if place == 0 {
        None
    } else {
        kind_in(tokens, place - 1)
    }
}

fn second_before(tokens: &[Lexed], place: usize) -> Option<TokenClass>
    ensures { result ≡ second_before (kinds_of tokens.now) place }
{
    if place == 0 {
        None
    } else {
        kind_before(tokens, place - 1)
    }
}

/// The kind of the first bad place of the tokens.
pub(crate) fn kind_at(tokens: &[Lexed], place: usize) -> ParseKind
    requires { place ≤ length tokens.now }
    ensures { result ≡ kind_at (kinds_of tokens.now) place }
{
    kind_by(
        names_in(&tokens[..place]),
        kind_before(tokens, place),
        second_before(tokens, place),
        kind_in(tokens, place),
    )
}
