// Quoted texts.
ghost use Rattle.std.specs.Prelude.{◌≡◌, ◌≤◌, ◌<◌, ◌+◌, ◌-◌, ◌*◌, ◌^◌, ◌++◌, ℕ, [], if◌then◌else◌, false, true, length, take, drop, IfOk, IfSome, OnOk, encode_utf8};
ghost use Rattle.pr_yaml.specs.Bytes.{is_bare, blanks_len};
ghost use Rattle.pr_yaml.specs.Lines.{Cursor, end_line};
ghost use Rattle.pr_yaml.specs.Quoted.{quote_byte, is_backslash, named_byte, digits_after, hex_digit, doubles, bad_escape, letter_step, number_step, digit_step, byte_step, at_line_end, after_bytes, quoted_line, quoted_below, quoted_break, cut_fault};
ghost use Rattle.pr_words.specs.Strings.{fits};
ghost use Rattle.std.specs.Char.{InScalarRange};
ghost use Rattle.pr_yaml.specs.private.Inner.{IsSmall, IsSmallStep, TakesAtMost};
ghost use Rattle.pr_yaml.specs.declared.yaml_scan.quoted.Within.TheVariants.{InText, InDigits};
ghost use Rattle.pr_yaml.specs.declared.yaml_scan.quoted.ByteStep.TheVariants.{Bad};
ghost use Rattle.pr_yaml.specs.declared.yaml_scan.fault.YamlKind.TheVariants.{Escape};

use crate::yaml_scan::bytes::{NO_TEXT, blanks_len};
use crate::yaml_scan::fault::YamlKind;
use crate::yaml_scan::line::{Spot, push_break, push_feeds};
use crate::yaml_scan::scalar::Scalar;
use pr_words::{Items, is_blank};
use std::alloc::{AllocError, Global};

/// The quotes that a text may stand in.
#[derive(Clone, Copy)]
pub(crate) enum Quote {
    Single,
    Double,
}

/// What a quoted text has on a line from some byte on, and how that ends.
#[derive(Drop)]
pub(crate) enum QuotedLine {
    /// With the quote: so many bytes are taken, with it.
    Closed { text: Items<u8>, taken: usize },
    /// With the line; blanks at its end are dropped.
    OpenEnd { text: Items<u8> },
    /// With a backslash at the line's end.
    JoinedEnd { text: Items<u8> },
    /// With the line, inside an escape.
    CutEnd,
    /// At a byte that it cannot take.
    BadByte { kind: YamlKind },
}

/// Where a reader is in a quoted text.
#[derive(Clone, Copy)]
pub(crate) enum Within {
    /// Between its parts.
    InText,
    /// After a quote, which a second one would keep.
    AtQuote,
    /// After a backslash.
    InEscape,
    /// Before so many digits of a character, after those that have written a number.
    InDigits { left: u32, number: u32 },
}

/// What the next byte is to a quoted text.
#[derive(Clone, Copy)]
pub(crate) enum ByteStep {
    /// It stands for a byte.
    Byte { byte: u8 },
    /// It ends an escape that stands for a character.
    Character { character: char },
    /// It is no part of what the text means.
    Mark { within: Within },
    /// The line is over but for blanks.
    LineOver,
    /// The text was over before it.
    QuoteOver,
    /// It may not stand there.
    Bad { kind: YamlKind },
}

#[tactic(auto, unfolding(crate::specs::Quoted::quote_byte))]
fn quote_byte(quote: Quote) -> u8
    ensures { result ≡ quote_byte quote }
{
    match quote {
        Quote::Single => b'\'',
        Quote::Double => b'"',
    }
}

#[tactic(auto, unfolding(crate::specs::Quoted::is_backslash))]
fn is_backslash(quote: Quote, byte: u8) -> bool
    ensures { result ≡ is_backslash quote byte }
{
    match quote {
        Quote::Single => false,
        Quote::Double => byte == b'\\',
    }
}

/// Whether the byte after a quote keeps that quote in the text.
fn doubles(quote: Quote, byte: u8) -> bool
    ensures { result ≡ doubles quote byte }
{
    match quote {
        Quote::Single => byte == b'\'',
        Quote::Double => false,
    }
}

/// The byte that a letter after a backslash stands for.
#[tactic(auto, unfolding(crate::specs::Quoted::named_byte))]
fn named_byte(byte: u8) -> Option<u8>
    ensures { result ≡ named_byte byte }
{
    match byte {
        b'\\' | b'"' | b'/' => Some(byte),
        b'a' => Some(7),
        b'b' => Some(8),
        b'e' => Some(27),
        b'f' => Some(12),
        b'n' => Some(b'\n'),
        b'r' => Some(b'\r'),
        b't' => Some(b'\t'),
        b'v' => Some(11),
        b'0' => Some(0),
        _ => None,
    }
}

/// How many digits follow a letter after a backslash.
#[tactic(auto, unfolding(crate::specs::Quoted::digits_after))]
fn digits_after(byte: u8) -> Option<u32>
    ensures value { result ≡ digits_after byte }
    ensures few { IfSome result (λ n. n ≤ 8) }
    ensures some { IfSome result (λ n. 0 < n) }
{
    match byte {
        b'x' => Some(2),
        b'u' => Some(4),
        b'U' => Some(8),
        _ => None,
    }
}

/// The value of a digit of base 16.
#[tactic(auto, unfolding(crate::specs::Quoted::hex_digit))]
fn hex_digit(byte: u8) -> Option<u32>
    ensures value { result ≡ hex_digit byte }
    ensures small { IfSome result (λ d. d < 16) }
{
    match byte {
        b'0'..=b'9' => Some(u32::from(byte - b'0')),
        b'A'..=b'F' => Some(u32::from(byte - b'A') + 10),
        b'a'..=b'f' => Some(u32::from(byte - b'a') + 10),
        _ => None,
    }
}

/// A byte that no escape goes on with.
fn bad_escape(byte: u8) -> ByteStep
    ensures { result ≡ bad_escape byte }
{
    let kind = if byte == NO_TEXT {
        YamlKind::NotText
    } else {
        YamlKind::Escape
    };
    ByteStep::Bad { kind }
}

/// What a letter after a backslash is.
fn letter_step(byte: u8) -> ByteStep
    ensures value { result ≡ letter_step byte (named_byte byte) (digits_after byte) }
    ensures small { IsSmallStep result }
{
    match named_byte(byte) {
        Some(named) => ByteStep::Byte { byte: named },
        None => match digits_after(byte) {
            Some(left) => ByteStep::Mark {
                within: Within::InDigits { left, number: 0 },
            },
            None => bad_escape(byte),
        },
    }
}

/// Whether a number can become that of a character with `left` digits more.
fn fits(left: u32, number: u32) -> bool
    requires { left ≤ 7 }
    ensures { result ≡ fits 0x10FFFF left number }
{
    let width = 16u64.pow(left);
    let least = u64::from(number) * width;
    least <= 0x10_FFFF && !(0xD800 <= least && least + width <= 0xE000)
}

/// The character with a number.
fn character_of(number: u32) -> char
    requires { InScalarRange number }
    ensures { result ≡ number }
{
    char::from_u32(number).unwrap()
}

/// What the last digit is of those that have written a number, where so many are left.
#[tactic(auto, unfolding(crate::specs::Quoted::number_step))]
fn number_step(left: u32, number: u32) -> ByteStep
    requires { left ≤ 7 }
    ensures value { result ≡ number_step left number }
    ensures small { IsSmallStep result }
{
    if fits(left, number) {
        if left == 0 {
            ByteStep::Character {
                character: character_of(number),
            }
        } else {
            ByteStep::Mark {
                within: Within::InDigits { left, number },
            }
        }
    } else {
        ByteStep::Bad {
            kind: YamlKind::Escape,
        }
    }
}

/// What a byte is where a digit is wanted.
fn digit_step(byte: u8, left: u32, number: u32) -> ByteStep
    requires { IsSmall (InDigits left number) }
    ensures value { result ≡ digit_step byte (hex_digit byte) left number }
    ensures small { IsSmallStep result }
{
    match hex_digit(byte) {
        Some(digit) => number_step(left - 1, number * 16 + digit),
        None => bad_escape(byte),
    }
}

/// What a byte is between the parts of a text.
#[tactic(auto, unfolding(crate::specs::Quoted::byte_step))]
fn text_step(quote: Quote, bare: bool, byte: u8) -> ByteStep
    ensures value { result ≡ byte_step quote InText bare byte }
    ensures small { IsSmallStep result }
{
    if bare {
        ByteStep::LineOver
    } else if byte == quote_byte(quote) {
        ByteStep::Mark {
            within: Within::AtQuote,
        }
    } else if is_backslash(quote, byte) {
        ByteStep::Mark {
            within: Within::InEscape,
        }
    } else if byte == NO_TEXT {
        ByteStep::Bad {
            kind: YamlKind::NotText,
        }
    } else {
        ByteStep::Byte { byte }
    }
}

/// What the next byte is to a quoted text; `bare` says that nothing but blanks stands from it on.
#[tactic(auto, unfolding(crate::specs::Quoted::byte_step))]
fn byte_step(quote: Quote, within: Within, bare: bool, byte: u8) -> ByteStep
    requires { IsSmall within }
    ensures value { result ≡ byte_step quote within bare byte }
    ensures small { IsSmallStep result }
{
    match within {
        Within::InText => text_step(quote, bare, byte),
        Within::AtQuote => {
            if doubles(quote, byte) {
                ByteStep::Byte { byte }
            } else {
                ByteStep::QuoteOver
            }
        }
        Within::InEscape => letter_step(byte),
        Within::InDigits { left, number } => digit_step(byte, left, number),
    }
}

/// Puts a character at the end.
fn push_character(text: &mut Vec<u8>, character: char) -> Result<(), AllocError>
    ensures { OnOk result (text.new.items ≡ text.old.items ++ encode_utf8 character) }
{
    let mut room = [0; 4];
    text.extend_from_slice(character.encode_utf8(&mut room).as_bytes())
}

/// What the line's end is to a text.
fn at_line_end(within: Within, text: Items<u8>, taken: usize) -> QuotedLine
    ensures value { result ≡ after_bytes text taken (at_line_end within) }
    ensures within { TakesAtMost taken result }
{
    match within {
        Within::InText => QuotedLine::OpenEnd { text },
        Within::AtQuote => QuotedLine::Closed { text, taken },
        Within::InEscape => QuotedLine::JoinedEnd { text },
        Within::InDigits { .. } => QuotedLine::CutEnd,
    }
}

/// Whether nothing but blanks stands on a line from a place on, and a place before which that is
/// nowhere so: the one that is known, or the end of the blanks that come next. So no blank is
/// looked at twice.
fn blanks_from(line: &[u8], solid: usize, at: usize) -> (bool, usize)
    requires within { at < length line.now }
    requires solid { (k : ℕ) → k < solid → is_bare (drop k line.now) ≡ false }
    ensures over { result.0 ≡ is_bare (drop at line.now) }
    ensures solid { (k : ℕ) → k < result.1 → is_bare (drop k line.now) ≡ false }
{
    if at < solid {
        return (false, solid);
    }
    let end = at + blanks_len(&line[at..]);
    if end < line.len() {
        (false, end + 1)
    } else {
        (true, solid)
    }
}

/// What a quoted text has on a line from its first quote or the line's first text on, after what it
/// has so far. So many bytes of the line stand before that.
fn quoted_line(
    quote: Quote,
    line: &[u8],
    from: usize,
    mut text: Vec<u8>,
) -> Result<QuotedLine, AllocError>
    requires { from + length line.now < 2 ^ 64 }
    ensures value { IfOk result (λ r. r ≡ after_bytes text.items from (quoted_line quote InText line.now)) }
    ensures within { IfOk result (TakesAtMost (from + length line.now)) }
{
    let mut solid = 0;
    let mut within = Within::InText;
    let mut at = 0;
    while at < line.len() {
        let (over, known) = blanks_from(line, solid, at);
        solid = known;
        match byte_step(quote, within, over, line[at]) {
            ByteStep::Byte { byte } => {
                text.push(byte)?;
                within = Within::InText;
            }
            ByteStep::Character { character } => {
                push_character(&mut text, character)?;
                within = Within::InText;
            }
            ByteStep::Mark { within: next } => within = next,
            ByteStep::LineOver => {
                return Ok(QuotedLine::OpenEnd {
                    text: Items::new(text),
                });
            }
            ByteStep::QuoteOver => {
                return Ok(QuotedLine::Closed {
                    text: Items::new(text),
                    taken: from + at,
                });
            }
            ByteStep::Bad { kind } => return Ok(QuotedLine::BadByte { kind }),
        }
        at += 1;
    }
    Ok(at_line_end(within, Items::new(text), from + at))
}

/// Puts what a break is in a quoted text at the end.
#[tactic(auto, unfolding(crate::specs::Quoted::quoted_break))]
fn push_quoted_break(text: &mut Vec<u8>, joined: bool, empty: usize) -> Result<(), AllocError>
    ensures { OnOk result (text.new.items ≡ text.old.items ++ quoted_break joined empty) }
{
    if joined {
        push_feeds(text, empty)
    } else {
        push_break(text, empty)
    }
}

/// The line of the last byte of the text.
pub(crate) fn end_line(p: &Spot<'_>) -> u32
    ensures { result ≡ end_line p.now.line p.now.here p.now.below }
{
    let mut last = p.copy();
    while let Some(next) = last.line_below() {
        last = next;
    }
    last.last_byte_line()
}

/// What a quoted text has on a line that it goes on with, after what it has so far.
fn line_of(quote: Quote, text: Vec<u8>, line: &Spot<'_>) -> Result<QuotedLine, AllocError>
    ensures value { IfOk result (λ r. r ≡ after_bytes text.items (blanks_len line.now.here) (quoted_line quote InText (drop (blanks_len line.now.here) line.now.here))) }
    ensures within { IfOk result (TakesAtMost (length line.now.here)) }
{
    let here = line.here;
    let blanks = blanks_len(here);
    quoted_line(quote, &here[blanks..], blanks, text)
}

/// The quoted text that has `text` so far, on the line of a place and those above it.
pub(crate) fn quoted_below<'a>(
    quote: Quote,
    mut text: Vec<u8>,
    mut joined: bool,
    p: &Spot<'a>,
) -> Result<Scalar<'a>, AllocError>
    ensures { IfOk result (λ s. s ≡ quoted_below quote text.items joined 0 (end_line p.now.line p.now.here p.now.below) (p.now.line + 1) p.now.below) }
{
    let mut last = p.copy();
    let mut empty = 0;
    while let Some(next) = last.line_below() {
        if next.is_bare() {
            empty += 1;
        } else {
            push_quoted_break(&mut text, joined, empty)?;
            match line_of(quote, text, &next)? {
                QuotedLine::Closed { text: all, taken } => {
                    return Ok(Scalar::Found {
                        text: all,
                        after: next.along(taken),
                    });
                }
                QuotedLine::OpenEnd { text: more } => {
                    text = more.into_vec();
                    joined = false;
                }
                QuotedLine::JoinedEnd { text: more } => {
                    text = more.into_vec();
                    joined = true;
                }
                QuotedLine::CutEnd => return Ok(cut_fault(p, &next)),
                QuotedLine::BadByte { kind } => {
                    return Ok(Scalar::Broken {
                        line: next.line_number(),
                        kind,
                    });
                }
            }
            empty = 0;
        }
        last = next;
    }
    Ok(Scalar::Broken {
        line: end_line(p),
        kind: YamlKind::Quote,
    })
}

/// The fault of a quoted text that a line's end cuts inside an escape.
#[tactic(auto, unfolding(crate::specs::Quoted::cut_fault))]
pub(crate) fn cut_fault<'a>(p: &Spot<'a>, last: &Spot<'a>) -> Scalar<'a>
    requires { 1 ≤ length last.now.here }
    ensures { result ≡ cut_fault (end_line p.now.line p.now.here p.now.below) last.now.line last.now.below }
{
    match last.line_below() {
        Some(_) => Scalar::Broken {
            line: last.line_number(),
            kind: YamlKind::Escape,
        },
        None => Scalar::Broken {
            line: end_line(p),
            kind: YamlKind::Quote,
        },
    }
}

/// What a quoted text has on the line of its first quote.
pub(crate) fn first_line(
    alloc: Global,
    quote: Quote,
    p: &Spot<'_>,
) -> Result<QuotedLine, AllocError>
    requires { 1 ≤ length p.now.here }
    ensures value { IfOk result (λ r. r ≡ after_bytes [] 1 (quoted_line quote InText (drop 1 p.now.here))) }
    ensures within { IfOk result (TakesAtMost (length p.now.here)) }
{
    let here = p.here;
    quoted_line(quote, &here[1..], 1, Vec::new(alloc))
}
