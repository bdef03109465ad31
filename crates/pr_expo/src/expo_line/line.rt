//! Reading a line.
ghost use Rattle.std.specs.Prelude.{◌≡◌, Some, None, Ok, IfOk, MatchResult, if◌then◌else◌};
ghost use Rattle.std.specs.Str.{chars, is_utf8};
ghost use Rattle.pr_expo.specs.Line.{goes, stands_before, after_keyword, keyword_end, family_end, type_of, type_end, ends, fault_at, end_fault, at_end, way, comes, outcome_of, text_front, line_read, IsBadLine, StopsBy};
ghost use Rattle.pr_expo.specs.private.Sound.{IsSound};
ghost use Rattle.pr_expo.specs.declared.expo_line.place.LineCursor.TheVariants.{Start};
ghost use Rattle.pr_expo.specs.declared.expo_line.place.ExpoKind.TheVariants.{DuplicateLabel, BadLabels};

use crate::expo_line::characters::{is_label_byte, split_char};
use crate::expo_line::number::is_number_end;
use crate::expo_line::place::{ExpoKind, FamilyWord, LineCursor, LineHead, Measured, Read};
use crate::expo_line::plain::plain_front;
use crate::expo_line::runs::{lengthened, run_len};
use crate::expo_line::steps::{stands_before, step, type_of};
use pr_labels::words_crate::Text;
use std::alloc::{AllocError, Global};
use std::str;

/// Why a line is not read.
#[derive(Clone, Copy, Debug, PartialEq, Eq)]
pub enum LineFault {
    /// It is bad in this way at the first place at which no line can go on.
    Bad(ExpoKind),
    /// Memory ran out.
    Memory,
}

impl From<AllocError> for LineFault {
    ghost use Rattle.std.specs.Prelude.{◌≡◌};
    ghost use Rattle.pr_expo.specs.declared.expo_line.line.LineFault.TheVariants.{Memory};

    ghost from_gives = { λ _ e. e ≡ Memory };

    fn from(_error: AllocError) -> LineFault {
        LineFault::Memory
    }
}

/// What is bad at a label's name that no line goes on from.
fn label_fault(head: &LineHead, name: &Text) -> ExpoKind
    ensures { result ≡ (if stands_before head.now name.now then DuplicateLabel else BadLabels) }
{
    if stands_before(head, name) {
        ExpoKind::DuplicateLabel
    } else {
        ExpoKind::BadLabels
    }
}

/// What is bad where no line goes on from the place.
fn fault_at(place: &LineCursor) -> ExpoKind
    ensures { result ≡ fault_at place.now }
{
    match place {
        LineCursor::BeforeType(_) | LineCursor::InType(_, _) | LineCursor::AfterType(_, _) =>
            ExpoKind::BadType,
        LineCursor::InLabel(head, name) => label_fault(head, name),
        LineCursor::BeforeLabel(_)
        | LineCursor::BeforeEqual(_, _)
        | LineCursor::BeforeQuote(_, _)
        | LineCursor::InValue(_, _, _)
        | LineCursor::InEscape(_, _, _)
        | LineCursor::AfterValue(_) => ExpoKind::BadLabels,
        LineCursor::AfterList(_) | LineCursor::BeforeNumber(_) | LineCursor::InNumber(_, _, _) => {
            ExpoKind::BadValue
        }
        LineCursor::AfterNumber(_)
        | LineCursor::AfterSign(_, _)
        | LineCursor::InTime(_, _, _)
        | LineCursor::AfterTime(_, _) => ExpoKind::BadTime,
        _ => ExpoKind::BadName,
    }
}

/// The same, where the character is the one that no line goes on with.
fn fault_before(place: &LineCursor, c: char) -> ExpoKind
    ensures { goes place.now c ≡ None → result ≡ fault_at place.now }
{
    match place {
        LineCursor::InLabel(_, _) if is_label_byte(c) => ExpoKind::BadLabels,
        _ => fault_at(place),
    }
}

/// What is bad where a line ends at the place and may not.
fn end_fault(place: &LineCursor) -> ExpoKind
    ensures { result ≡ end_fault place.now }
{
    match place {
        LineCursor::InFamily(_, _) => ExpoKind::BadType,
        LineCursor::InName(_) => ExpoKind::BadValue,
        _ => fault_at(place),
    }
}

// The words of help and type lines want a family behind them.
fn keyword_end(text: Text) -> Option<Read>
    ensures { result ≡ keyword_end (after_keyword text) }
{
    match text.as_str() {
        "HELP" | "TYPE" => None,
        _ => Some(Read::Nothing),
    }
}

fn family_end(word: FamilyWord, name: Text) -> Option<Read>
    ensures { result ≡ family_end word name }
{
    match word {
        FamilyWord::Help => Some(Read::Help(name)),
        FamilyWord::Type => None,
    }
}

fn type_end(name: Text, text: Text) -> Option<Read>
    ensures { result ≡ type_end name (type_of text) }
{
    match type_of(text.as_str()) {
        Some(kind) => Some(Read::Typed(name, kind)),
        None => None,
    }
}

/// What a line reads as that ends at the place, where it may end there.
fn ends(place: LineCursor) -> Option<Read>
    ensures { result ≡ ends place }
{
    match place {
        LineCursor::Start | LineCursor::Hash | LineCursor::Gap | LineCursor::Passed => Some(
            Read::Nothing,
        ),
        LineCursor::Keyword(text) => keyword_end(text),
        LineCursor::InFamily(word, name) => family_end(word, name),
        LineCursor::InHelp(name) => Some(Read::Help(name)),
        LineCursor::InType(name, text) => type_end(name, text),
        LineCursor::AfterType(name, kind) => Some(Read::Typed(name, kind)),
        LineCursor::InNumber(head, place, number) => {
            if is_number_end(place) {
                Some(Read::Sample(Measured { head, number }, None))
            } else {
                None
            }
        }
        LineCursor::AfterNumber(measured) => Some(Read::Sample(measured, None)),
        LineCursor::InTime(measured, text, _) => Some(Read::Sample(measured, Some(text))),
        LineCursor::AfterTime(measured, text) => Some(Read::Sample(measured, Some(text))),
        _ => None,
    }
}

/// What a line reads as that ends at the place, or how it is bad there.
fn at_end(place: LineCursor) -> Result<Read, ExpoKind>
    ensures { result ≡ at_end place (ends place) }
{
    let kind = end_fault(&place);
    match ends(place) {
        Some(read) => Ok(read),
        None => Err(kind),
    }
}

/// Where the characters of a text lead: its plain front and each run at once, and each other
/// character by itself.
fn way_of(alloc: Global, text: &str) -> Result<LineCursor, LineFault>
    ensures { MatchResult result (λ p. way Start (chars text.now) ≡ comes p) (StopsBy text.now) }
{
    let (mut place, mut rest) = plain_front(alloc, text)?;
    while let Some((c, after)) = split_char(rest) {
        let kind = fault_before(&place, c);
        match step(alloc, place, c)? {
            Some(next) => {
                let len = run_len(&next, after);
                let (run, beyond) = after.split_at(len);
                place = lengthened(next, run)?;
                rest = beyond;
            }
            None => return Err(LineFault::Bad(kind)),
        }
    }
    Ok(place)
}

/// The longest front of the bytes that is text, and whether it is all of them.
#[tactic(auto, using(crate::proofs::Fronts::whole_front, crate::proofs::Fronts::is_whole, crate::proofs::Fronts::is_broken))]
fn text_front(line: &[u8]) -> (&str, bool)
    ensures front { result.0.now ≡ text_front line.now }
    ensures whole { result.1 ≡ is_utf8 line.now }
{
    match str::from_utf8(line) {
        Ok(text) => (text, true),
        Err(error) => match str::from_utf8(&line[..error.valid_up_to()]) {
            Ok(text) => (text, false),
            Err(_) => unreachable!(),
        },
    }
}

/// What a line of an exposition reads as. The line has no line feed.
///
/// # Errors
/// How the line is bad at the first place at which no line can go on.
#[tactic(auto, unfolding(crate::specs::Line::line_read))]
pub fn read_line(alloc: Global, line: &[u8]) -> Result<Read, LineFault>
    ensures reads { MatchResult result (λ read. line_read line.now ≡ Ok read) (IsBadLine line.now) }
    ensures sound { IfOk result IsSound }
{
    let (text, whole) = text_front(line);
    let place = way_of(alloc, text)?;
    if !whole {
        return Err(LineFault::Bad(ExpoKind::NotText));
    }
    match at_end(place) {
        Ok(read) => Ok(read),
        Err(kind) => Err(LineFault::Bad(kind)),
    }
}
