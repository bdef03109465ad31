//! The pieces of a text, one after the other.
ghost use Rattle.std.specs.Prelude.{◌≡◌, List, ◌<◌, ◌≤◌, [], drop, length, IfOk, IfErr, IfSome, MatchOption, MatchResult, string_bytes};
ghost use Rattle.pr_labels.specs.pr_words.private.Reader.{IsMemory, KeepsText};
ghost use Rattle.pr_tmpl.specs.private.Reader.{KeepsTextBy};
ghost use Rattle.pr_tmpl.specs.Pieces.{escape_length, escape_bytes, escape_quoted, ascii_front};
ghost use Rattle.pr_tmpl.specs.private.Letters.{IsPlain, HasNoPlain, IsAscii, HasNoAscii, IsString, IsNoString, FollowsBackslash, IsLetter, MeansText, LetterText};

use crate::kind::{TemplateByte, kind_of, kind_of_all};
use pr_labels::forms::Fault;
use pr_labels::words_crate::strings::read_string;
use std::alloc::{AllocError, Global};

/// What stands at the front of a text.
#[derive(Debug, Drop)]
pub(crate) enum Letter {
    /// A byte that begins no escape.
    Plain(TemplateByte, u8),
    /// An escape: the bytes that it means, and their kind.
    Escape(TemplateByte, Vec<u8>),
    /// An escape that breaks off.
    Broken,
}

/// The byte at the front with its kind, where it begins no escape, and what follows it.
pub(crate) fn front(text: &[u8]) -> Option<(TemplateByte, u8, &[u8])>
    ensures read { MatchOption result (HasNoPlain text.now) (λ x. IsPlain text.now x.0 x.1 x.2.now) }
    ensures shorter { IfSome result (λ x. length x.2.now < length text.now) }
    ensures text { IfSome result (λ x. KeepsTextBy x.0 text.now x.2.now) }
{
    let Some((byte, rest)) = text.split_first() else {
        return None;
    };
    if *byte == b'\\' {
        None
    } else {
        Some((kind_of(*byte), *byte, rest))
    }
}

/// How many bytes follow a backslash, by the first of them.
fn escape_length(text: &[u8]) -> usize
    ensures value { result ≡ escape_length text.now }
    ensures few { result ≤ 9 }
{
    match text.first() {
        Some(b'x') => 3,
        Some(b'u') => 5,
        Some(b'U') => 9,
        Some(_) => 1,
        None => 0,
    }
}

/// The byte at the front, where it is one of so many and ASCII, and what follows it.
fn ascii_in(left: usize, text: &[u8]) -> Option<(u8, &[u8])>
    ensures { MatchOption result (HasNoAscii left text.now) (λ x. IsAscii left text.now x.0 x.1.now) }
{
    if left == 0 {
        return None;
    }
    let Some((byte, rest)) = text.split_first() else {
        return None;
    };
    if *byte < 128 {
        Some((*byte, rest))
    } else {
        None
    }
}

/// The bytes after a backslash that may be an escape, with the backslash in double quotes.
fn quoted_escape(alloc: Global, text: &[u8]) -> Result<Vec<u8>, AllocError>
    ensures { IfOk result (λ quoted. quoted.items ≡ escape_quoted (escape_bytes text.now)) }
{
    let mut quoted = Vec::new(alloc);
    quoted.extend_from_slice(b"\"\\")?;
    let mut left = escape_length(text);
    let mut rest = text;
    while let Some((byte, after)) = ascii_in(left, rest) {
        quoted.push(byte)?;
        left -= 1;
        rest = after;
    }
    quoted.push(b'"')?;
    Ok(quoted)
}

/// The bytes that a string means, or the first place with which it can not go on.
fn string_in(alloc: Global, text: &[u8]) -> Result<Result<Vec<u8>, usize>, AllocError>
    ensures read { IfOk result (λ r. MatchResult r (λ bytes. IsString text.now bytes.items) (IsNoString text.now)) }
    ensures text { IfOk result (λ r. IfOk r (λ bytes. KeepsText text.now bytes.items)) }
{
    match read_string(alloc, text) {
        Ok((bytes, rest)) => {
            if rest.is_empty() {
                Ok(Ok(bytes))
            } else {
                Ok(Err(text.len() - rest.len()))
            }
        }
        Err(Fault::Bad(rest)) => Ok(Err(text.len() - rest.len())),
        Err(Fault::Memory) => Err(AllocError),
    }
}

/// What follows so many bytes; nothing, where there are fewer.
fn skip(text: &[u8], count: usize) -> &[u8]
    ensures { result.now ≡ drop count text.now }
{
    if count <= text.len() {
        &text[count..]
    } else {
        &[]
    }
}

/// What stands after a backslash: an escape, or what can go on of one that breaks off.
fn escape_in(alloc: Global, text: &[u8]) -> Result<(Letter, &[u8]), Fault<'_, u8>>
    ensures read { IfOk result (λ x. FollowsBackslash text.now x.0 x.1.now) }
    ensures memory { IfErr result IsMemory }
    ensures text { IfOk result (λ x. MeansText text.now x.0 x.1.now) }
{
    let quoted = quoted_escape(alloc, text)?;
    let taken = quoted.len() - 3;
    match string_in(alloc, &quoted) {
        Ok(Ok(means)) => Ok((
            Letter::Escape(kind_of_all(&means), means),
            skip(text, taken),
        )),
        Ok(Err(place)) => Ok((
            Letter::Broken,
            skip(text, place.saturating_sub(2).min(taken)),
        )),
        Err(_) => Err(Fault::Memory),
    }
}

/// The letter at the front, and what follows it; none at the end.
pub(crate) fn letter_in(
    alloc: Global,
    text: &[u8],
) -> Result<Option<(Letter, &[u8])>, Fault<'_, u8>>
    ensures read { IfOk result (λ o. MatchOption o (text.now ≡ []) (λ x. IsLetter text.now x.0 x.1.now)) }
    ensures memory { IfErr result IsMemory }
    ensures shorter { IfOk result (λ o. IfSome o (λ x. length x.1.now < length text.now)) }
    ensures text { IfOk result (λ o. IfSome o (λ x. LetterText text.now x.0 x.1.now)) }
{
    let Some((byte, rest)) = text.split_first() else {
        return Ok(None);
    };
    if *byte == b'\\' {
        Ok(Some(escape_in(alloc, rest)?))
    } else {
        Ok(Some((Letter::Plain(kind_of(*byte), *byte), rest)))
    }
}
