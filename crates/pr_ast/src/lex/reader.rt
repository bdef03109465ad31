//! Reading the tokens of a text.
ghost use Rattle.std.specs.Prelude.{◌≡◌, List, [], ◌∷◌, ◌++◌, false, ◌-◌, ◌<◌, ◌≤◌, length, take, IfOk, IfErr, IfSome, MatchResult};
ghost use Rattle.pr_ast.specs.declared.lex.token.Token.{Token as TokenValue};
ghost use Rattle.pr_ast.specs.declared.lex.fault.LexError.TheVariants.{Memory};
ghost use Rattle.pr_ast.specs.declared.lex.part.Lexeme.TheVariants.{Name, Number, Duration, Text as TextLexeme, Sign as SignLexeme};
ghost use Rattle.pr_ast.specs.declared.lex.part.Part.TheVariants.{Token as TokenPart};
ghost use Rattle.pr_ast.specs.Bytes.{part_at};
ghost use Rattle.pr_ast.specs.Tokens.{inside_after, HasTokens, HasFirst};
ghost use Rattle.pr_ast.specs.SignAt.{two_byte_sign, one_byte_sign, mark_sign, bracket_sign, arithmetic_sign, longer_sign, sign_at};
ghost use Rattle.pr_ast.specs.private.Reader.{IsRead, Refuses, Misses, HasText, IsFaulty, IsWithin, Fits, moved, kept, HasKept, is_full};
ghost use Rattle.std.specs.Str.{IsUtf8};

use crate::lex::fault::{LexError, LexKind};
use crate::lex::number::number_end;
use crate::lex::part::{Lexeme, Part, front_len, name_class, part_at};
use crate::lex::token::{Sign, Token, TokenKind};
use pr_labels::words_crate::Text;
use pr_labels::words_crate::strings::{is_open_at, read_string};
use pr_num::NumFault;
use pr_time::forms::{Fault, place_of};
use pr_time::{SpanFault, read_span, span_end};
use std::alloc::Global;

/// The name at the front, and its length.
fn name_in(alloc: Global, inside: bool, text: &[u8]) -> Result<(TokenKind, usize), LexError>
    requires { part_at inside text.now ≡ TokenPart Name }
    ensures read { IsRead Name inside text.now result }
    ensures long { IfOk result (λ x. 0 < x.1) }
    ensures within { MatchResult result (λ x. x.1 ≤ length text.now) (IsWithin text.now) }
{
    let length = front_len(name_class(inside), text);
    let name = str::from_utf8(&text[..length]).unwrap();
    let text = Text::from_str(alloc, name)?;
    Ok((TokenKind::Name { text }, length))
}

/// The number at the front, and its length.
fn number_in(text: &[u8]) -> Result<(TokenKind, usize), LexError>
    ensures read { IsRead Number false text.now result }
    ensures long { IfOk result (λ x. 0 < x.1) }
    ensures within { MatchResult result (λ x. x.1 ≤ length text.now) (IsWithin text.now) }
{
    let end = number_end(text);
    match pr_num::read(&text[..end]) {
        Ok(value) => Ok((TokenKind::Number { value }, end)),
        Err(NumFault::NotNumber) => Err(LexError::Fault {
            at: end,
            kind: LexKind::BadNumber,
        }),
        Err(NumFault::TooWide) => Err(LexError::Fault {
            at: 0,
            kind: LexKind::TooWide,
        }),
    }
}

/// The duration at the front, and its length.
fn duration_in(text: &[u8]) -> Result<(TokenKind, usize), LexError>
    ensures read { IsRead Duration false text.now result }
    ensures long { IfOk result (λ x. 0 < x.1) }
    ensures within { MatchResult result (λ x. x.1 ≤ length text.now) (IsWithin text.now) }
{
    let end = span_end(text);
    match read_span(&text[..end]) {
        Ok(span) => Ok((TokenKind::Duration { span }, end)),
        Err(SpanFault::BadSpan { .. }) => Err(LexError::Fault {
            at: end,
            kind: LexKind::BadSpan,
        }),
        Err(SpanFault::SpanTooLong) => Err(LexError::Fault {
            at: 0,
            kind: LexKind::SpanTooLong,
        }),
    }
}

/// Why a string is none that goes on up to the rest.
fn text_fault(text: &[u8], rest: &[u8]) -> LexError
    requires { length rest.now ≤ length text.now }
    ensures { IsFaulty text.now (length text.now - length rest.now) result }
{
    let end = place_of(text, rest);
    let (at, kind) = if rest.is_empty() || is_open_at(text, end) {
        (0, LexKind::OpenText)
    } else {
        (end, LexKind::BadEscape)
    };
    LexError::Fault { at, kind }
}

/// What the string at the front means, and its length.
fn text_in(alloc: Global, text: &[u8]) -> Result<(TokenKind, usize), LexError>
    requires { IsUtf8 text.now }
    ensures read { IsRead TextLexeme false text.now result }
    ensures long { IfOk result (λ x. 0 < x.1) }
    ensures within { MatchResult result (λ x. x.1 ≤ length text.now) (IsWithin text.now) }
{
    match read_string(alloc, text) {
        Ok((bytes, rest)) => {
            let content = Text::new(String::from_utf8(bytes).unwrap());
            Ok((TokenKind::Text { text: content }, place_of(text, rest)))
        }
        Err(Fault::Bad(rest)) => Err(text_fault(text, rest)),
        Err(Fault::Memory) => Err(LexError::Memory),
    }
}

/// The sign of these two bytes.
fn two_byte_sign(first: u8, second: u8) -> Option<Sign>
    ensures { result ≡ two_byte_sign first second }
{
    match (first, second) {
        (b'!', b'=') => Some(Sign::NotEqual),
        (b'!', b'~') => Some(Sign::NotLike),
        (b'=', b'=') => Some(Sign::Equal),
        (b'=', b'~') => Some(Sign::Like),
        (b'<', b'=') => Some(Sign::LessEqual),
        (b'>', b'=') => Some(Sign::GreaterEqual),
        _ => None,
    }
}

/// The sign of this byte alone.
fn one_byte_sign(byte: u8) -> Option<Sign>
    ensures { result ≡ one_byte_sign byte }
{
    match byte {
        b'{' => Some(Sign::LeftBrace),
        b'}' => Some(Sign::RightBrace),
        b'(' => Some(Sign::LeftParen),
        b')' => Some(Sign::RightParen),
        b'[' => Some(Sign::LeftBracket),
        b']' => Some(Sign::RightBracket),
        b',' => Some(Sign::Comma),
        b':' => Some(Sign::Colon),
        b'=' => Some(Sign::Assign),
        b'<' => Some(Sign::Less),
        b'>' => Some(Sign::Greater),
        b'+' => Some(Sign::Plus),
        b'-' => Some(Sign::Minus),
        b'*' => Some(Sign::Star),
        b'/' => Some(Sign::Slash),
        b'%' => Some(Sign::Percent),
        _ => None,
    }
}

/// The sign of the first byte and the next one, where there is one.
fn longer_sign(first: u8, rest: &[u8]) -> Option<Sign>
    ensures value { result ≡ longer_sign first rest.now }
    ensures within { IfSome result (λ s. 1 ≤ length rest.now) }
{
    match rest.split_first() {
        Some((second, _)) => two_byte_sign(first, *second),
        None => None,
    }
}

/// The longest sign at the front with its length, or the place of the byte that is bad.
fn sign_at(text: &[u8]) -> Result<(Sign, usize), usize>
    ensures value { result ≡ sign_at text.now }
    ensures long { IfOk result (λ x. 0 < x.1) }
    ensures within { MatchResult result (λ x. x.1 ≤ length text.now) (λ at. at ≤ length text.now) }
{
    let Some((first, rest)) = text.split_first() else {
        return Err(0);
    };
    if let Some(sign) = longer_sign(*first, rest) {
        return Ok((sign, 2));
    }
    match one_byte_sign(*first) {
        Some(sign) => Ok((sign, 1)),
        None if *first == b'!' => Err(1),
        None => Err(0),
    }
}

/// The sign at the front, and its length.
#[tactic(auto, using(crate::proofs::TakenSigns::sign_is, crate::proofs::TakenSigns::fault_is))]
fn sign_in(text: &[u8]) -> Result<(TokenKind, usize), LexError>
    ensures read { IsRead SignLexeme false text.now result }
    ensures long { IfOk result (λ x. 0 < x.1) }
    ensures within { MatchResult result (λ x. x.1 ≤ length text.now) (IsWithin text.now) }
{
    match sign_at(text) {
        Ok((sign, length)) => Ok((TokenKind::Sign { sign }, length)),
        Err(at) => Err(LexError::Fault {
            at,
            kind: LexKind::BadChar,
        }),
    }
}

/// The token at the front, which is of the lexeme, and its length.
fn token_in(
    alloc: Global,
    inside: bool,
    lexeme: Lexeme,
    text: &[u8],
) -> Result<(TokenKind, usize), LexError>
    requires part { part_at inside text.now ≡ TokenPart lexeme }
    requires text { HasText lexeme text.now }
    ensures read { IsRead lexeme inside text.now result }
    ensures long { IfOk result (λ x. 0 < x.1) }
    ensures within { MatchResult result (λ x. x.1 ≤ length text.now) (IsWithin text.now) }
{
    match lexeme {
        Lexeme::Name => name_in(alloc, inside, text),
        Lexeme::Number => number_in(text),
        Lexeme::Duration => duration_in(text),
        Lexeme::Text => text_in(alloc, text),
        Lexeme::Sign => sign_in(text),
    }
}

/// Whether what follows a token stands between brackets.
fn inside_after(inside: bool, token: &TokenKind) -> bool
    ensures { result ≡ inside_after inside token.now }
{
    match token {
        TokenKind::Sign {
            sign: Sign::LeftBracket,
        } => true,
        TokenKind::Sign {
            sign: Sign::RightBracket,
        } => false,
        _ => inside,
    }
}

/// The fault of a text that stands at a place of another one, as a fault of that one.
fn moved(place: usize, fault: LexError) -> LexError
    requires { Fits place fault }
    ensures { result ≡ moved place fault }
{
    match fault {
        LexError::Fault { at, kind } => LexError::Fault {
            at: place + at,
            kind,
        },
        LexError::Memory => LexError::Memory,
    }
}

/// Whether as many tokens are there as are kept.
fn is_full(most: Option<usize>, found: usize) -> bool
    ensures { result ≡ is_full most found }
{
    match most {
        Some(most) => most <= found,
        None => false,
    }
}

/// Puts a token behind those found, unless as many stand there as are kept.
fn keep(found: &mut Vec<Token>, most: Option<usize>, token: Token) -> Result<(), LexError>
    ensures kept { (all : List TokenValue) → found.old.items ≡ kept most all → IfOk result (λ _. found.new.items ≡ kept most (all ++ token ∷ [])) }
    ensures memory { IfErr result (λ e. e ≡ Memory) }
{
    if is_full(most, found.len()) {
        return Ok(());
    }
    found.push(token)?;
    Ok(())
}

/// Reads all tokens of a text, and keeps the first so many, or all.
fn read_tokens(alloc: Global, text: &str, most: Option<usize>) -> Result<Vec<Token>, LexError>
    ensures tree { IfOk result (λ found. HasKept text.now most found.items) }
    ensures only { (tokens : List TokenValue) → HasTokens text.now tokens → MatchResult result (λ found. found.items ≡ kept most tokens) Misses }
    ensures fault { IfErr result (Refuses text.now) }
{
    let bytes = text.as_bytes();
    let mut found = Vec::new(alloc);
    let mut inside = false;
    let mut place = 0;
    while place < bytes.len() {
        let rest = &bytes[place..];
        match part_at(inside, rest) {
            Part::End => return Ok(found),
            Part::Gap(length) => place += length,
            Part::Token(lexeme) => match token_in(alloc, inside, lexeme, rest) {
                Ok((kind, length)) => {
                    let end = place + length;
                    inside = inside_after(inside, &kind);
                    let token = Token {
                        start: place,
                        end,
                        kind,
                    };
                    keep(&mut found, most, token)?;
                    place = end;
                }
                Err(fault) => return Err(moved(place, fault)),
            },
        }
    }
    Ok(found)
}

/// The tokens of a text of the query language, in their order, each the longest one where it
/// begins. Between them stand whitespace (spaces, tabs, line feeds and carriage returns) and
/// comments, from `#` up to the end of the line.
pub fn tokens(alloc: Global, text: &str) -> Result<Vec<Token>, LexError>
    // What is answered are the tokens of the text.
    ensures tree { IfOk result (λ tokens. HasTokens text.now tokens.items) }
    // A text that has tokens is answered with them, unless memory runs out.
    ensures only { (tokens : List TokenValue) → HasTokens text.now tokens → MatchResult result (λ found. found.items ≡ tokens) Misses }
    // Else the fault is the first one of the text.
    ensures fault { IfErr result (Refuses text.now) }
{
    read_tokens(alloc, text, None)
}

/// The same, of which the first so many alone are kept: so a text that is judged by its first
/// tokens takes memory for these, and for one more at a time. The faults are those of the whole
/// text.
pub fn first_tokens(alloc: Global, text: &str, most: usize) -> Result<Vec<Token>, LexError>
    // What is answered are the first tokens of the text.
    ensures tree { IfOk result (λ found. HasFirst text.now most found.items) }
    // A text that has tokens is answered with the first of them, unless memory runs out.
    ensures only { (tokens : List TokenValue) → HasTokens text.now tokens → MatchResult result (λ found. found.items ≡ take most tokens) Misses }
    // Else the fault is the first one of the text.
    ensures fault { IfErr result (Refuses text.now) }
{
    read_tokens(alloc, text, Some(most))
}
