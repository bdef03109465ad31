//! Strings.
ghost use Rattle.std.specs.Prelude.{◌≡◌, ◌<◌, ◌≤◌, [], length, IfOk, IfSome, MatchOption, MatchResult, option_map};
ghost use Rattle.pr_forms.specs.Form.{token, turns, rule};
ghost use Rattle.pr_forms.specs.Run.{good};
ghost use Rattle.pr_forms.specs.Language.{seen, Gives, Takes, Lacks, FailsAt};
ghost use Rattle.test_forms.specs.private.Glyphs.{part_of};
ghost use Rattle.test_forms.specs.private.Quoted.{strings, content, mark, byte_value, Text, quote_at, backslash_at, plain_at, any_at, joined, piece};
ghost use Rattle.test_forms.specs.private.TextReader.{HasPiece, BreaksOff};

use crate::glyph::{Sort, sort_of};
use pr_forms::{Fault, take};
use std::alloc::Global;

/// What follows the quote at the front.
fn after_quote(text: &[u8]) -> Option<((), &[u8])>
    ensures read { MatchOption result (Lacks strings (token quote_at) text.now) (λ x. Takes strings (token quote_at) text.now mark x.1.now) }
    ensures shorter { IfSome result (λ x. length x.1.now < length text.now) }
{
    take(
        text,
        |byte: &u8| -> Option<()>
            ensures { option_map (λ _. mark) result ≡ quote_at (part_of byte.now) }
        {
            match sort_of(*byte) {
                Sort::Quote => Some(()),
                _ => None,
            }
        },
    )
}

/// What follows the backslash at the front.
fn after_backslash(text: &[u8]) -> Option<((), &[u8])>
    ensures read { MatchOption result (Lacks strings (token backslash_at) text.now) (λ x. Takes strings (token backslash_at) text.now mark x.1.now) }
    ensures shorter { IfSome result (λ x. length x.1.now < length text.now) }
{
    take(
        text,
        |byte: &u8| -> Option<()>
            ensures { option_map (λ _. mark) result ≡ backslash_at (part_of byte.now) }
        {
            match sort_of(*byte) {
                Sort::Backslash => Some(()),
                _ => None,
            }
        },
    )
}

/// The plain byte at the front, and what follows it.
fn plain_in(text: &[u8]) -> Option<(u8, &[u8])>
    ensures read { MatchOption result (Lacks strings (token plain_at) text.now) (λ x. Takes strings (token plain_at) text.now (byte_value x.0) x.1.now) }
    ensures shorter { IfSome result (λ x. length x.1.now < length text.now) }
{
    take(
        text,
        |byte: &u8| -> Option<u8>
            ensures { option_map byte_value result ≡ plain_at (part_of byte.now) }
        {
            match sort_of(*byte) {
                Sort::Plain => Some(*byte),
                _ => None,
            }
        },
    )
}

/// The byte at the front, whichever it is, and what follows it.
fn any_in(text: &[u8]) -> Option<(u8, &[u8])>
    ensures read { MatchOption result (Lacks strings (token any_at) text.now) (λ x. Takes strings (token any_at) text.now (byte_value x.0) x.1.now) }
    ensures shorter { IfSome result (λ x. length x.1.now < length text.now) }
{
    take(
        text,
        |byte: &u8| -> Option<u8>
            ensures { option_map byte_value result ≡ any_at (part_of byte.now) }
        { Some(*byte) },
    )
}

/// The byte that the piece at the front means, and what follows it, or nothing where the string has
/// no more pieces; the text from the first bad byte on, where a backslash is the last one.
fn piece_in(text: &[u8]) -> Result<Option<(u8, &[u8])>, &[u8]>
    ensures read { MatchResult result (HasPiece text.now) (λ rest. BreaksOff text.now rest.now) }
    ensures shorter { IfOk result (λ o. IfSome o (λ x. length x.1.now < length text.now)) }
{
    if let Some((_, escaped)) = after_backslash(text) {
        return match any_in(escaped) {
            Some((byte, rest)) => Ok(Some((byte, rest))),
            None => Err(escaped),
        };
    }
    Ok(plain_in(text))
}

/// The pieces at the front, as the bytes that they mean, and what follows them.
fn pieces_in(alloc: Global, text: &[u8]) -> Result<(Vec<u8>, &[u8]), Fault<'_, u8>>
    ensures { MatchResult result (λ x. Gives strings (turns joined (content []) piece) text.now (good (content x.0.items) (seen strings x.1.now)))
        (FailsAt strings (turns joined (content []) piece) text.now) }
{
    let mut bytes = Vec::new(alloc);
    let mut rest = text;
    loop {
        match piece_in(rest) {
            Ok(Some((byte, after))) => {
                bytes.push(byte)?;
                rest = after;
            }
            Ok(None) => return Ok((bytes, rest)),
            Err(left) => return Err(Fault::Bad(left)),
        }
    }
}

/// The string at the front, as the bytes that it means, and what follows it.
pub fn string_in(alloc: Global, text: &[u8]) -> Result<(Vec<u8>, &[u8]), Fault<'_, u8>>
    ensures { MatchResult result (λ x. Gives strings (rule Text) text.now (good (content x.0.items) (seen strings x.1.now)))
        (FailsAt strings (rule Text) text.now) }
{
    let Some((_, body)) = after_quote(text) else {
        return Err(Fault::Bad(text));
    };
    let (bytes, rest) = pieces_in(alloc, body)?;
    match after_quote(rest) {
        Some((_, left)) => Ok((bytes, left)),
        None => Err(Fault::Bad(rest)),
    }
}
