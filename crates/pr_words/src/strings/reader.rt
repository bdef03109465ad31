//! Reading a string at the front of a text.
ghost use Rattle.std.specs.Prelude.{◌≡◌, ℕ, suc, ◌-◌, List, [], ◌++◌, ◌<◌, ◌≤◌, ◌^◌, true, length, IfOk, IfErr, IfSome, OnOk, MatchBool, MatchOption, MatchResult, option_map, encode_utf8};
ghost use Rattle.pr_forms.specs.Form.{rule, Reads, token, chosen};
ghost use Rattle.pr_forms.specs.Run.{good, bad};
ghost use Rattle.pr_forms.specs.Language.{Gives, Takes, Lacks, Leads, FailsAt};
ghost use Rattle.pr_words.specs.private.Language.{text_strings};
ghost use Rattle.pr_words.specs.Strings.{letter_of, seen, same_mark, quote_at, plain_at, escape_at, named_byte, is_plain, byte_value, named_at, as_content, digit_of, fits, piece, content, mark as mark_value, Letter, Rule, StringValue, Text, Quoted, Escape, Digits, production, IsString, IsBadPlace, IsOpening, IsOpenAt, numbering, numbered_by, numbered, nothing_follows};
ghost use Rattle.pr_words.specs.private.Reader.{HasNoOpening, BreaksAt, IsNumbering, bytes_of, Refuses, IsMemory, IsNoLonger, IsOnly, KeepsText, KeepsFront, SplitsText};
ghost use Rattle.std.specs.Char.{IsScalar};

use crate::strings::kind::{Mark, StringByte, kind_of};
use pr_forms::{Fault, take};
use std::alloc::{AllocError, Global};

/// What a piece of a string means: a byte that stands for itself, or the character of an escape.
#[derive(Clone, Copy, PartialEq, Eq, Debug)]
enum Piece {
    Byte(u8),
    Character(char),
}

fn is_mark(wanted: Mark, mark: Mark) -> bool
    ensures { result ≡ same_mark wanted mark }
{
    matches!(
        (wanted, mark),
        (Mark::Double, Mark::Double) | (Mark::Single, Mark::Single) | (Mark::Back, Mark::Back)
    )
}

/// The quote at the front, where it is this one, and what follows it.
fn quote_in(mark: Mark, text: &[u8]) -> Option<((), &[u8])>
    ensures read { MatchOption result (Lacks text_strings (token (quote_at mark)) text.now) (λ x. Takes text_strings (token (quote_at mark)) text.now mark_value x.1.now) }
    ensures shorter { IfSome result (λ x. length x.1.now < length text.now) }
{
    take(
        text,
        |byte: &u8| -> Option<()>
            ensures { option_map (λ _. mark_value) result ≡ quote_at mark (letter_of byte.now) }
        {
            match kind_of(*byte) {
                StringByte::Quote(found) if is_mark(mark, found) => Some(()),
                _ => None,
            }
        },
    )
}

/// Whether a byte of this kind stands for itself in a string.
pub(super) fn is_plain(mark: Mark, kind: StringByte) -> bool
    ensures { result ≡ is_plain mark kind }
{
    match kind {
        StringByte::Quote(found) => !is_mark(mark, found),
        StringByte::Backslash | StringByte::Feed => is_mark(mark, Mark::Back),
        _ => true,
    }
}

/// The byte at the front, where it stands for itself, and what follows it.
fn plain_in(mark: Mark, text: &[u8]) -> Option<(u8, &[u8])>
    ensures read { MatchOption result (Lacks text_strings (token (plain_at mark)) text.now) (λ x. Takes text_strings (token (plain_at mark)) text.now (byte_value x.0) x.1.now) }
    ensures shorter { IfSome result (λ x. length x.1.now < length text.now) }
{
    take(
        text,
        |byte: &u8| -> Option<u8>
            ensures { option_map byte_value result ≡ plain_at mark (letter_of byte.now) }
        {
            if is_plain(mark, kind_of(*byte)) {
                Some(*byte)
            } else {
                None
            }
        },
    )
}

/// What follows a backslash at the front, where one begins an escape.
fn backslash_in(mark: Mark, text: &[u8]) -> Option<((), &[u8])>
    ensures read { MatchOption result (Lacks text_strings (token (escape_at mark)) text.now) (λ x. Takes text_strings (token (escape_at mark)) text.now mark_value x.1.now) }
    ensures shorter { IfSome result (λ x. length x.1.now < length text.now) }
{
    take(
        text,
        |byte: &u8| -> Option<()>
            ensures { option_map (λ _. mark_value) result ≡ escape_at mark (letter_of byte.now) }
        {
            match kind_of(*byte) {
                StringByte::Backslash if !is_mark(mark, Mark::Back) => Some(()),
                _ => None,
            }
        },
    )
}

/// The byte that a letter after a backslash stands for.
fn named_byte(mark: Mark, kind: StringByte) -> Option<u8>
    ensures { result ≡ named_byte mark kind }
{
    match kind {
        StringByte::Quote(found) if is_mark(mark, found) => Some(match mark {
            Mark::Double => b'"',
            Mark::Single => b'\'',
            Mark::Back => b'`',
        }),
        StringByte::Backslash => Some(b'\\'),
        StringByte::A => Some(7),
        StringByte::B => Some(8),
        StringByte::F => Some(12),
        StringByte::N => Some(b'\n'),
        StringByte::R => Some(b'\r'),
        StringByte::T => Some(b'\t'),
        StringByte::V => Some(11),
        _ => None,
    }
}

/// The byte that the letter at the front stands for after a backslash, and what follows the letter.
fn named_in(mark: Mark, text: &[u8]) -> Option<(u8, &[u8])>
    ensures read { MatchOption result (Lacks text_strings (token (named_at mark)) text.now) (λ x. Takes text_strings (token (named_at mark)) text.now (byte_value x.0) x.1.now) }
    ensures shorter { IfSome result (λ x. length x.1.now < length text.now) }
{
    take(
        text,
        |byte: &u8| -> Option<u8>
            ensures { option_map byte_value result ≡ named_at mark (letter_of byte.now) }
        { named_byte(mark, kind_of(*byte)) },
    )
}

/// The value of a digit of base 16.
fn digit_of(byte: u8) -> Option<u32>
    ensures value { result ≡ digit_of (letter_of byte) }
    ensures small { IfSome result (λ d. d < 16) }
{
    match byte {
        b'0'..=b'9' => Some(u32::from(byte - b'0')),
        b'A'..=b'F' => Some(u32::from(byte - b'A') + 10),
        b'a'..=b'f' => Some(u32::from(byte - b'a') + 10),
        _ => None,
    }
}

/// Whether a number can become that of a character up to the limit with `left` digits more.
fn fits(limit: u32, left: u32, number: u32) -> bool
    requires { left ≤ 7 }
    ensures { result ≡ fits limit left number }
{
    let width = 16u64.pow(left);
    let least = u64::from(number) * width;
    least <= u64::from(limit) && !(0xD800 <= least && least + width <= 0xE000)
}

/// The limit of the characters of an escape by digits, and the number of its digits, by the letter
/// after the backslash.
fn numbering_of(kind: StringByte) -> Option<(u32, u32)>
    ensures value { option_map (λ x. numbering x.0 x.1) result ≡ numbered_by kind }
    ensures known { IfSome result (λ x. IsNumbering x.0 x.1) }
{
    match kind {
        StringByte::X => Some((0x7F, 2)),
        StringByte::Short => Some((0x10_FFFF, 4)),
        StringByte::Long => Some((0x10_FFFF, 8)),
        _ => None,
    }
}

/// The limit and the number of digits that the letter at the front tells, and what follows it.
fn numbering_in(text: &[u8]) -> Option<((u32, u32), &[u8])>
    ensures read { MatchOption result (Gives text_strings (chosen numbered nothing_follows) text.now (bad (seen text.now)))
        (λ x. Leads text_strings (chosen numbered nothing_follows) text.now (rule (Digits x.0.0 x.0.1 0)) x.1.now) }
    ensures known { IfSome result (λ x. IsNumbering x.0.0 x.0.1) }
    ensures shorter { IfSome result (λ x. length x.1.now < length text.now) }
    ensures text { IfSome result (λ x. KeepsText text.now x.1.now) }
{
    let Some((first, rest)) = text.split_first() else {
        return None;
    };
    match numbering_of(kind_of(*first)) {
        Some(numbering) => Some((numbering, rest)),
        None => None,
    }
}

/// The number with the digit at the front after it, where a character can still come with `left`
/// digits more, and what follows the digit.
fn digit_in(limit: u32, left: u32, number: u32, text: &[u8]) -> Option<(u32, &[u8])>
    requires limited { limit ≤ 0x10FFFF }
    requires few { left ≤ 7 }
    requires able { number ≤ limit }
    ensures read { MatchOption result (Gives text_strings (rule (Digits limit (suc left) number)) text.now (bad (seen text.now)))
        (λ x. Leads text_strings (rule (Digits limit (suc left) number)) text.now (rule (Digits limit left x.0)) x.1.now) }
    ensures able { IfSome result (λ x. fits limit left x.0 ≡ true) }
    ensures shorter { IfSome result (λ x. length x.1.now < length text.now) }
    ensures text { IfSome result (λ x. KeepsText text.now x.1.now) }
{
    let Some((first, rest)) = text.split_first() else {
        return None;
    };
    let Some(digit) = digit_of(*first) else {
        return None;
    };
    let next = number * 16 + digit;
    if fits(limit, left, next) {
        Some((next, rest))
    } else {
        None
    }
}

/// The character that the digits at the front write, and what follows them.
fn digits_in(limit: u32, digits: u32, text: &[u8]) -> Result<(char, &[u8]), &[u8]>
    requires { IsNumbering limit digits }
    ensures read { MatchResult result (λ x. Gives text_strings (rule (Digits limit digits 0)) text.now (good (content (encode_utf8 x.0)) (seen x.1.now)))
        (λ rest. Gives text_strings (rule (Digits limit digits 0)) text.now (bad (seen rest.now))) }
    ensures shorter { IfOk result (λ x. length x.1.now ≤ length text.now) }
    ensures scalar { IfOk result (λ x. IsScalar x.0) }
    ensures text { IfOk result (λ x. KeepsText text.now x.1.now) }
{
    let mut number = 0;
    let mut left = digits;
    let mut rest = text;
    while left > 0 {
        let Some((next, after)) = digit_in(limit, left - 1, number, rest) else {
            return Err(rest);
        };
        number = next;
        left -= 1;
        rest = after;
    }
    match char::from_u32(number) {
        Some(character) => Ok((character, rest)),
        None => Err(rest),
    }
}

/// What the escape at the front means, after its backslash, and what follows it.
fn escape_in(mark: Mark, text: &[u8]) -> Result<(Piece, &[u8]), &[u8]>
    ensures read { MatchResult result (λ x. Gives text_strings (rule (Escape mark)) text.now (good (content (bytes_of x.0)) (seen x.1.now)))
        (λ rest. Gives text_strings (rule (Escape mark)) text.now (bad (seen rest.now))) }
    ensures shorter { IfOk result (λ x. length x.1.now < length text.now) }
    ensures text { IfOk result (λ x. KeepsText text.now (bytes_of x.0 ++ x.1.now)) }
{
    if let Some((byte, rest)) = named_in(mark, text) {
        return Ok((Piece::Byte(byte), rest));
    }
    let Some(((limit, digits), after)) = numbering_in(text) else {
        return Err(text);
    };
    match digits_in(limit, digits, after) {
        Ok((character, rest)) => Ok((Piece::Character(character), rest)),
        Err(rest) => Err(rest),
    }
}

/// The piece at the front, and what follows it.
fn piece_in(mark: Mark, text: &[u8]) -> Result<Option<(Piece, &[u8])>, Fault<'_, u8>>
    ensures read { MatchResult result (λ o. MatchOption o (Lacks text_strings (piece mark) text.now) (λ x. Takes text_strings (piece mark) text.now (content (bytes_of x.0)) x.1.now))
        (BreaksAt (piece mark) text.now) }
    ensures shorter { IfOk result (λ o. IfSome o (λ x. length x.1.now < length text.now)) }
    ensures text { IfOk result (λ o. IfSome o (λ x. KeepsFront text.now (bytes_of x.0) x.1.now)) }
{
    if let Some((byte, rest)) = plain_in(mark, text) {
        return Ok(Some((Piece::Byte(byte), rest)));
    }
    let Some((_backslash, after)) = backslash_in(mark, text) else {
        return Ok(None);
    };
    match escape_in(mark, after) {
        Ok((piece, rest)) => Ok(Some((piece, rest))),
        Err(rest) => Err(Fault::Bad(rest)),
    }
}

/// Puts what a piece means at the end.
fn push_piece(bytes: &mut Vec<u8>, piece: Piece) -> Result<(), AllocError>
    ensures { OnOk result (bytes.new.items ≡ bytes.old.items ++ bytes_of piece) }
{
    match piece {
        Piece::Byte(byte) => {
            bytes.push(byte)?;
            Ok(())
        }
        Piece::Character(character) => {
            let mut room = [0; 4];
            bytes.extend_from_slice(character.encode_utf8(&mut room).as_bytes())
        }
    }
}

/// What a string means from its first quote on, and what follows it.
fn quoted_in(alloc: Global, mark: Mark, text: &[u8]) -> Result<(Vec<u8>, &[u8]), Fault<'_, u8>>
    ensures read { MatchResult result (λ x. Gives text_strings (rule (Quoted mark)) text.now (good (content x.0.items) (seen x.1.now))) (FailsAt text_strings (rule (Quoted mark)) text.now) }
    ensures shorter { IfOk result (λ x. length x.1.now < length text.now) }
    ensures text { IfOk result (λ x. SplitsText text.now x.0.items x.1.now) }
{
    let mut bytes = Vec::new(alloc);
    let mut rest = text;
    while let Some((piece, after)) = piece_in(mark, rest)? {
        push_piece(&mut bytes, piece)?;
        rest = after;
    }
    match quote_in(mark, rest) {
        Some((_quote, after)) => Ok((bytes, after)),
        None => Err(Fault::Bad(rest)),
    }
}

/// The quote at the front, and what follows it.
fn opening_in(text: &[u8]) -> Option<(Mark, &[u8])>
    ensures opens { MatchOption result (HasNoOpening text.now) (λ x. IsOpening text.now x.0 x.1.now) }
    ensures read { MatchOption result (Gives text_strings (rule Text) text.now (bad (seen text.now))) (λ x. Leads text_strings (rule Text) text.now (rule (Quoted x.0)) x.1.now) }
    ensures shorter { IfSome result (λ x. length x.1.now < length text.now) }
    ensures text { IfSome result (λ x. KeepsText text.now x.1.now) }
{
    let Some((first, rest)) = text.split_first() else {
        return None;
    };
    match kind_of(*first) {
        StringByte::Quote(mark) => Some((mark, rest)),
        _ => None,
    }
}

/// The bytes that the string at the front of a text means, and what follows the string. It stands
/// in `"` or `'`, with escapes and without raw line feeds, or between backticks, where each byte
/// stands for itself (string literals in the Prometheus documentation, "Querying basics"). `\x` has
/// two digits and goes up to 7F, `\u` has four and `\U` eight, and a backslash may stand before the
/// quote of the string, and not before another one (own choice).
///
/// `Fault::Bad` has the text from the first byte on with which no string can go on: what follows
/// all of it, where it ends too early.
pub fn read_string(alloc: Global, text: &[u8]) -> Result<(Vec<u8>, &[u8]), Fault<'_, u8>>
    // What is answered is a string that the text begins with.
    ensures tree { IfOk result (λ x. IsString text.now x.0.items x.1.now) }
    // A string that the text begins with is answered, unless memory runs out.
    ensures only { (v : StringValue) (left : List Letter) → Reads production (rule Text) (seen text.now) v left → MatchResult result (λ x. IsOnly x.0.items x.1.now v left) IsMemory }
    // Else the fault has the text from the first place on at which no string can go on.
    ensures place { MatchResult result (λ x. IsBadPlace text.now (length text.now - length x.1.now)) (Refuses text.now) }
    // The same as a step of a reader.
    ensures read { MatchResult result (λ x. Gives text_strings (rule Text) text.now (good (content x.0.items) (seen x.1.now))) (FailsAt text_strings (rule Text) text.now) }
    ensures shorter { IfOk result (λ x. length x.1.now < length text.now) }
    ensures within { IfErr result (IsNoLonger text.now) }
    // Bytes that UTF-8 texts mean are UTF-8, and so is what follows.
    ensures text { IfOk result (λ x. SplitsText text.now x.0.items x.1.now) }
{
    match opening_in(text) {
        Some((mark, after)) => quoted_in(alloc, mark, after),
        None => Err(Fault::Bad(text)),
    }
}

/// Whether the string that the text begins with could end at the place: only whole pieces stand
/// between its first quote and the place. So a reader of other texts tells a string that is left
/// open from one that breaks off inside an escape.
pub fn is_open_at(text: &[u8], place: usize) -> bool
    requires { place ≤ length text.now }
    ensures { MatchBool result (IsOpenAt text.now place) (IsOpenAt text.now place → ⊥) }
{
    let Some((mark, after)) = opening_in(text) else {
        return false;
    };
    let mut rest = after;
    while rest.len() > text.len() - place {
        match piece_in(mark, rest) {
            Ok(Some((_piece, next))) => rest = next,
            Ok(None) => return false,
            Err(_) => return false,
        }
    }
    rest.len() == text.len() - place
}
