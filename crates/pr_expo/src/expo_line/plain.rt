// The plain front of a line: a name, labels without an escape and with no blank but in their
// values, and digits. Most samples are no more than that. Each part is taken at once, and not a
// character at a time.
ghost use Rattle.std.specs.Prelude.{◌≡◌, [], ◌++◌, ◌<◌, ◌≤◌, ℕ, List, IfOk, IfSome, encode_utf8, false, length};
ghost use Rattle.pr_labels.specs.pr_words.Bytes.{is_letter};
ghost use Rattle.pr_labels.specs.Names.{is_metric_letter};
ghost use Rattle.pr_expo.specs.Line.{stands_before, with_label};
ghost use Rattle.pr_expo.specs.private.Runs.{begins_with, LeadsTo};
ghost use Rattle.pr_expo.specs.declared.expo_line.place.LineHead.{LineHead};
ghost use Rattle.pr_expo.specs.declared.expo_line.place.LineCursor.TheVariants.{Start, InName, BeforeLabel, InLabel, InValue, AfterValue, BeforeNumber};

use crate::expo_line::characters::{is_letter, is_metric_letter, split_char};
use crate::expo_line::number::NumberPlace;
use crate::expo_line::place::{LineCursor, LineHead};
use crate::expo_line::runs::{digits, label_bytes, metric_bytes, plain_bytes};
use crate::expo_line::steps::{bare, stands_before, with_label};
use pr_labels::words_crate::Text;
use std::alloc::{AllocError, Global};

fn begins_metric(text: &[u8]) -> bool
    ensures { result ≡ begins_with is_metric_letter text.now }
{
    match text {
        [] => false,
        [first, ..] => is_metric_letter(*first as char),
    }
}

fn begins_label(text: &[u8]) -> bool
    ensures { result ≡ begins_with is_letter text.now }
{
    match text {
        [] => false,
        [first, ..] => is_letter(*first as char),
    }
}

/// What stands behind the character, where the text begins with it.
fn past(text: &str, mark: char) -> Option<&str>
    ensures parts { IfSome result (λ rest. text.now ≡ encode_utf8 mark ++ rest.now) }
    ensures shorter { IfSome result (λ rest. length rest.now < length text.now) }
{
    match split_char(text) {
        Some((c, rest)) if c == mark => Some(rest),
        _ => None,
    }
}

/// The metric's name at the start of a line, and what stands behind it.
#[tactic(auto, using(crate::proofs::RunSteps::metric_boundary, crate::proofs::PlainFronts::name_leads))]
fn plain_name(text: &str) -> Option<(&str, &str)>
    ensures { IfSome result (λ x. LeadsTo Start text.now (InName x.0.now) x.1.now) }
{
    let (name, rest) = text.split_at(metric_bytes(text.as_bytes()));
    if begins_metric(name.as_bytes()) {
        Some((name, rest))
    } else {
        None
    }
}

/// The name of a label, and what stands behind it.
#[tactic(auto, using(crate::proofs::RunSteps::label_boundary, crate::proofs::PlainFronts::label_leads))]
fn label_name(text: &str) -> Option<(&str, &str)>
    ensures leads { IfSome result (λ x. (head : LineHead) → LeadsTo (BeforeLabel head) text.now (InLabel head x.0.now) x.1.now) }
    ensures shorter { IfSome result (λ x. length x.1.now ≤ length text.now) }
{
    let (name, rest) = text.split_at(label_bytes(text.as_bytes()));
    if begins_label(name.as_bytes()) {
        Some((name, rest))
    } else {
        None
    }
}

/// What stands behind the sign of a value and its quote.
fn opened(text: &str) -> Option<&str>
    ensures leads { IfSome result (λ rest. (head : LineHead) (name : List ℕ) → stands_before head name ≡ false →
        LeadsTo (InLabel head name) text.now (InValue head name []) rest.now) }
    ensures shorter { IfSome result (λ rest. length rest.now < length text.now) }
{
    match past(text, '=') {
        Some(quoted) => match past(quoted, '"') {
            Some(rest) => Some(rest),
            None => None,
        },
        None => None,
    }
}

/// A value, and what stands behind its quote.
#[tactic(auto, using(crate::proofs::RunSteps::plain_boundary, crate::proofs::PlainFronts::value_leads))]
fn plain_value(text: &str) -> Option<(&str, &str)>
    ensures leads { IfSome result (λ x. (head : LineHead) (name : List ℕ) →
        LeadsTo (InValue head name []) text.now (AfterValue (with_label head name x.0.now)) x.1.now) }
    ensures shorter { IfSome result (λ x. length x.1.now < length text.now) }
{
    let (value, rest) = text.split_at(plain_bytes(text.as_bytes()));
    match past(rest, '"') {
        Some(after) => Some((value, after)),
        None => None,
    }
}

/// A label's name, its value, and what stands behind its quote.
fn plain_label(text: &str) -> Option<(&str, &str, &str)>
    ensures leads { IfSome result (λ x. (head : LineHead) → stands_before head x.0.now ≡ false →
        LeadsTo (BeforeLabel head) text.now (AfterValue (with_label head x.0.now x.1.now)) x.2.now) }
    ensures shorter { IfSome result (λ x. length x.2.now < length text.now) }
{
    let (name, behind_name) = label_name(text)?;
    let quoted = opened(behind_name)?;
    let (value, rest) = plain_value(quoted)?;
    Some((name, value, rest))
}

/// The place behind the digits that a number begins with, and what stands behind them.
#[tactic(auto, using(crate::proofs::RunSteps::digits_boundary, crate::proofs::PlainFronts::digits_lead, crate::proofs::PlainFronts::at_once))]
fn plain_number(alloc: Global, head: LineHead, text: &str) -> Result<(LineCursor, &str), AllocError>
    ensures { IfOk result (λ x. LeadsTo (BeforeNumber head) text.now x.0 x.1.now) }
{
    let (number, rest) = text.split_at(digits(text.as_bytes()));
    if number.is_empty() {
        return Ok((LineCursor::BeforeNumber(head), text));
    }
    let number = Text::from_str(alloc, number)?;
    Ok((LineCursor::InNumber(head, NumberPlace::Whole, number), rest))
}

/// The place behind the end of a list and the digits of a number, and what stands behind them.
fn after_labels(alloc: Global, head: LineHead, text: &str) -> Result<(LineCursor, &str), AllocError>
    ensures { IfOk result (λ x. LeadsTo (AfterValue head) text.now x.0 x.1.now) }
{
    match past(text, '}') {
        Some(behind) => match past(behind, ' ') {
            Some(number) => plain_number(alloc, head, number),
            None => Ok((LineCursor::AfterList(head), behind)),
        },
        None => Ok((LineCursor::AfterValue(head), text)),
    }
}

/// The place behind the plain labels that a list begins with, and what stands behind them.
fn plain_labels(alloc: Global, head: LineHead, text: &str) -> Result<(LineCursor, &str), AllocError>
    ensures { IfOk result (λ x. LeadsTo (BeforeLabel head) text.now x.0 x.1.now) }
{
    let mut head = head;
    let mut rest = text;
    while let Some((name, value, after)) = plain_label(rest) {
        let name = Text::from_str(alloc, name)?;
        if stands_before(&head, &name) {
            return Ok((LineCursor::BeforeLabel(head), rest));
        }
        head = with_label(alloc, head, name, Text::from_str(alloc, value)?)?;
        match past(after, ',') {
            Some(next) => rest = next,
            None => return after_labels(alloc, head, after),
        }
    }
    Ok((LineCursor::BeforeLabel(head), rest))
}

/// The place behind the plain front of a line, and what stands behind it.
pub(crate) fn plain_front(alloc: Global, text: &str) -> Result<(LineCursor, &str), AllocError>
    ensures { IfOk result (λ x. LeadsTo Start text.now x.0 x.1.now) }
{
    match plain_name(text) {
        Some((name, rest)) => {
            let name = Text::from_str(alloc, name)?;
            match past(rest, '{') {
                Some(list) => plain_labels(alloc, bare(alloc, name), list),
                None => Ok((LineCursor::InName(name), rest)),
            }
        }
        None => Ok((LineCursor::Start, text)),
    }
}
