// Plain texts.
ghost use Rattle.std.specs.Prelude.{◌≡◌, ◌≤◌, ◌<◌, ◌+◌, ◌++◌, false, length, take, drop, IfOk, OnOk};
ghost use Rattle.pr_yaml.specs.Lines.{Cursor, along, folded_break};
ghost use Rattle.pr_yaml.specs.Plain.{stops, plain_len, plain_part, ending_of, plain_ending, is_kept_out, begins_with_flow_sign, goes_on, indented, plain_below};
ghost use Rattle.pr_yaml.specs.Bytes.{blanks_len};

use crate::yaml_scan::bytes::{NO_TEXT, blanks_len, ends_word, has_tab, is_comment, is_flow_sign};
use crate::yaml_scan::fault::YamlKind;
use crate::yaml_scan::line::{Spot, is_deeper, is_sign, push_break};
use crate::yaml_scan::scalar::Scalar;
use pr_words::{Items, is_blank, without_trailing};
use std::alloc::{AllocError, Global};

/// What a plain text ends before on its line.
#[derive(Clone, Copy)]
pub(crate) enum Ending {
    LineEnd,
    /// A colon that a blank or the line's end follows.
    AtColon,
    /// A byte that is no text.
    AtNoText,
    /// A comment, or a sign of a flow.
    AtOther,
}

/// Whether a plain text ends before a byte, which follows a blank or not.
#[tactic(auto, unfolding(crate::specs::Plain::stops))]
fn stops(inside: bool, after_blank: bool, byte: u8, rest: &[u8]) -> bool
    ensures { result ≡ stops inside after_blank byte rest.now }
{
    byte == NO_TEXT
        || (byte == b'#' && after_blank)
        || (byte == b':' && ends_word(rest))
        || (inside && is_flow_sign(byte))
}

/// How many bytes of a line a plain text takes, with blanks at its end.
#[tactic(auto, unfolding(crate::specs::Plain::plain_len))]
pub(crate) fn plain_len(inside: bool, here: &[u8]) -> usize
    ensures value { result ≡ plain_len inside false here.now }
    ensures within { result ≤ length here.now }
{
    let mut after_blank = false;
    let mut at = 0;
    while at < here.len() && !stops(inside, after_blank, here[at], &here[at + 1..]) {
        after_blank = is_blank(here[at]);
        at += 1;
    }
    at
}

fn ending_of(rest: &[u8]) -> Ending
    ensures { result ≡ ending_of rest.now }
{
    match rest.split_first() {
        None => Ending::LineEnd,
        Some((first, _)) => {
            if *first == NO_TEXT {
                Ending::AtNoText
            } else if *first == b':' {
                Ending::AtColon
            } else {
                Ending::AtOther
            }
        }
    }
}

/// What a plain text has on a line, and what it ends before.
#[tactic(auto, unfolding(crate::specs::Plain::plain_part, crate::specs::Plain::plain_ending))]
pub(crate) fn plain_on(inside: bool, here: &[u8]) -> (&[u8], Ending)
    ensures part { result.0.now ≡ plain_part inside here.now }
    ensures ending { result.1 ≡ plain_ending inside here.now }
    ensures within { length result.0.now ≤ length here.now }
{
    let length = plain_len(inside, here);
    (
        without_trailing(&here[..length]),
        ending_of(&here[length..]),
    )
}

/// Whether a line is no part of a plain text by its first bytes.
#[tactic(auto, unfolding(crate::specs::Plain::is_kept_out))]
fn is_kept_out(inside: bool, line: &[u8]) -> bool
    ensures { result ≡ is_kept_out inside line.now }
{
    let blanks = blanks_len(line);
    if inside {
        begins_with_flow_sign(&line[blanks..])
    } else {
        has_tab(&line[..blanks]) || is_sign(line)
    }
}

#[tactic(auto, unfolding(crate::specs::Plain::begins_with_flow_sign))]
fn begins_with_flow_sign(line: &[u8]) -> bool
    ensures { result ≡ begins_with_flow_sign line.now }
{
    match line.split_first() {
        Some((first, _)) => is_flow_sign(*first),
        None => false,
    }
}

/// Whether a plain text goes on with a line that has text.
#[tactic(auto, unfolding(crate::specs::Plain::goes_on))]
fn goes_on(inside: bool, parent: Option<u32>, line: &Spot<'_>) -> bool
    ensures { result ≡ goes_on inside parent line.now.here }
{
    let here = line.here;
    let blanks = blanks_len(here);
    is_deeper(parent, blanks) && !is_comment(&here[blanks..]) && !is_kept_out(inside, here)
}

/// What a plain text has on a line that it goes on with, what that ends before, and the place after
/// it.
fn plain_part_of<'a>(inside: bool, line: &Spot<'a>) -> (&'a [u8], Ending, Spot<'a>)
    ensures part { result.0.now ≡ plain_part inside (indented line.now.here) }
    ensures ending { result.1 ≡ plain_ending inside (indented line.now.here) }
    ensures end { result.2 ≡ along (blanks_len line.now.here + length (plain_part inside (indented line.now.here))) line.now }
{
    let blanks = blanks_len(line.here);
    let (part, ending) = plain_on(inside, &line.here[blanks..]);
    (part, ending, line.along(blanks + part.len()))
}

/// Puts a break and what stands on the next line at the end.
fn push_part(text: &mut Vec<u8>, empty: usize, part: &[u8]) -> Result<(), AllocError>
    ensures { OnOk result (text.new.items ≡ text.old.items ++ (folded_break empty ++ part.now)) }
{
    push_break(text, empty)?;
    text.extend_from_slice(part)
}

/// The plain text that has `text` so far and ends at a place, which is the end of its line but for
/// blanks.
pub(crate) fn plain_below<'a>(
    inside: bool,
    parent: Option<u32>,
    mut text: Vec<u8>,
    p: &Spot<'a>,
) -> Result<Scalar<'a>, AllocError>
    ensures { IfOk result (λ s. s ≡ plain_below inside parent text.items p.now 0 (p.now.line + 1) p.now.below) }
{
    let mut end = p.copy();
    let mut last = p.copy();
    let mut empty = 0;
    while let Some(next) = last.line_below() {
        if next.is_bare() {
            empty += 1;
        } else if goes_on(inside, parent, &next) {
            let (part, ending, after) = plain_part_of(inside, &next);
            push_part(&mut text, empty, part)?;
            end = after;
            empty = 0;
            match ending {
                Ending::LineEnd => {}
                Ending::AtColon => {
                    return Ok(Scalar::Broken {
                        line: next.line_number(),
                        kind: YamlKind::Colon,
                    });
                }
                Ending::AtNoText => {
                    return Ok(Scalar::Broken {
                        line: next.line_number(),
                        kind: YamlKind::NotText,
                    });
                }
                Ending::AtOther => break,
            }
        } else {
            break;
        }
        last = next;
    }
    Ok(Scalar::Found {
        text: Items::new(text),
        after: end,
    })
}
