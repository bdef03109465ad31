// Runs: the characters that keep a line at its place, and only lengthen a text there.
ghost use Rattle.std.specs.Prelude.{◌≡◌, ◌++◌, IfOk, not, position, take, true};
ghost use Rattle.std.specs.Char.{is_ascii_digit};
ghost use Rattle.std.specs.List.{list_all, position_or_len};
ghost use Rattle.std.specs.Str.{chars, IsCharBoundary};
ghost use Rattle.pr_labels.specs.pr_words.Bytes.{is_label_byte};
ghost use Rattle.pr_labels.specs.Names.{is_metric_byte};
ghost use Rattle.pr_expo.specs.private.Runs.{ends_plain, is_plain, lengthens_number, IsRun, longer};

use crate::expo_line::characters::{is_label_byte, is_metric_byte};
use crate::expo_line::number::NumberPlace;
use crate::expo_line::place::LineCursor;
use pr_labels::words_crate::Text;
use std::alloc::AllocError;

fn after_metric(text: &[u8]) -> Option<usize>
    ensures { result ≡ position (λ b. not (is_metric_byte b)) text.now }
{
    text.iter().position(|b| !is_metric_byte(*b as char))
}

/// How many bytes stand before the first that is none of a metric's name.
pub(crate) fn metric_bytes(text: &[u8]) -> usize
    ensures { result ≡ position_or_len (λ b. not (is_metric_byte b)) text.now }
{
    after_metric(text).unwrap_or(text.len())
}

fn after_label(text: &[u8]) -> Option<usize>
    ensures { result ≡ position (λ b. not (is_label_byte b)) text.now }
{
    text.iter().position(|b| !is_label_byte(*b as char))
}

pub(crate) fn label_bytes(text: &[u8]) -> usize
    ensures { result ≡ position_or_len (λ b. not (is_label_byte b)) text.now }
{
    after_label(text).unwrap_or(text.len())
}

fn after_digits(text: &[u8]) -> Option<usize>
    ensures { result ≡ position (λ b. not (is_ascii_digit b)) text.now }
{
    text.iter().position(|b| !b.is_ascii_digit())
}

pub(crate) fn digits(text: &[u8]) -> usize
    ensures { result ≡ position_or_len (λ b. not (is_ascii_digit b)) text.now }
{
    after_digits(text).unwrap_or(text.len())
}

fn after_plain(text: &[u8]) -> Option<usize>
    ensures { result ≡ position ends_plain text.now }
{
    text.iter().position(|b| *b == b'"' || *b == b'\\')
}

/// How many bytes stand before the first that ends a value or begins an escape in it.
pub(crate) fn plain_bytes(text: &[u8]) -> usize
    ensures { result ≡ position_or_len ends_plain text.now }
{
    after_plain(text).unwrap_or(text.len())
}

/// How much of the text's front may stand in a metric's name.
#[tactic(auto, using(crate::proofs::RunSteps::metric_boundary, crate::proofs::RunSteps::metric_run))]
fn metric_len(text: &str) -> usize
    ensures boundary { IsCharBoundary text.now result }
    ensures run { list_all is_metric_byte (chars (take result text.now)) ≡ true }
{
    metric_bytes(text.as_bytes())
}

#[tactic(auto, using(crate::proofs::RunSteps::label_boundary, crate::proofs::RunSteps::label_run))]
fn label_len(text: &str) -> usize
    ensures boundary { IsCharBoundary text.now result }
    ensures run { list_all is_label_byte (chars (take result text.now)) ≡ true }
{
    label_bytes(text.as_bytes())
}

#[tactic(auto, using(crate::proofs::RunSteps::digits_boundary, crate::proofs::RunSteps::digits_run))]
fn digits_len(text: &str) -> usize
    ensures boundary { IsCharBoundary text.now result }
    ensures run { list_all is_ascii_digit (chars (take result text.now)) ≡ true }
{
    digits(text.as_bytes())
}

#[tactic(auto, using(crate::proofs::RunSteps::plain_boundary, crate::proofs::RunSteps::plain_run))]
fn plain_len(text: &str) -> usize
    ensures boundary { IsCharBoundary text.now result }
    ensures run { list_all is_plain (chars (take result text.now)) ≡ true }
{
    plain_bytes(text.as_bytes())
}

#[tactic(auto, using(crate::proofs::RunSteps::no_boundary, crate::proofs::RunSteps::no_run))]
fn number_len(place: NumberPlace, text: &str) -> usize
    ensures boundary { IsCharBoundary text.now result }
    ensures run { list_all (lengthens_number place) (chars (take result text.now)) ≡ true }
{
    match place {
        NumberPlace::Whole | NumberPlace::Fraction | NumberPlace::ExponentDigits => {
            digits_len(text)
        }
        _ => 0,
    }
}

/// How much of the text's front only lengthens the text at the place.
#[tactic(auto, using(crate::proofs::RunSteps::no_boundary, crate::proofs::RunSteps::no_run, crate::proofs::RunSteps::whole_boundary, crate::proofs::RunSteps::passed_run, crate::proofs::RunSteps::help_run))]
pub(crate) fn run_len(place: &LineCursor, text: &str) -> usize
    ensures boundary { IsCharBoundary text.now result }
    ensures run { IsRun place.now (take result text.now) }
{
    match place {
        LineCursor::Passed | LineCursor::InHelp(_) => text.len(),
        LineCursor::InFamily(_, _) | LineCursor::InName(_) => metric_len(text),
        LineCursor::InLabel(_, _) => label_len(text),
        LineCursor::InValue(_, _, _) => plain_len(text),
        LineCursor::InNumber(_, place, _) => number_len(*place, text),
        _ => 0,
    }
}

/// The text with a run behind it.
fn joined(text: Text, run: &str) -> Result<Text, AllocError>
    ensures { IfOk result (λ t. t ≡ text ++ run.now) }
{
    let mut inner = text.into_string()?;
    inner.push_str(run)?;
    Ok(Text::new(inner))
}

/// The place after a run.
pub(crate) fn lengthened(place: LineCursor, run: &str) -> Result<LineCursor, AllocError>
    ensures { IfOk result (λ p. p ≡ longer place run.now) }
{
    match place {
        LineCursor::InFamily(word, name) => Ok(LineCursor::InFamily(word, joined(name, run)?)),
        LineCursor::InName(name) => Ok(LineCursor::InName(joined(name, run)?)),
        LineCursor::InLabel(head, name) => Ok(LineCursor::InLabel(head, joined(name, run)?)),
        LineCursor::InValue(head, name, value) => Ok(LineCursor::InValue(
            head,
            name,
            joined(value, run)?,
        )),
        LineCursor::InNumber(head, place, text) => Ok(LineCursor::InNumber(
            head,
            place,
            joined(text, run)?,
        )),
        place => Ok(place),
    }
}
