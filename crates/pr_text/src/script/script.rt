// The lines of a script, and the events that they spell.
ghost use Rattle.std.specs.Prelude.{◌≡◌, ◌++◌, IfOk, OnErr, MatchOption, codes, string_bytes, true, false};
ghost use Rattle.std.specs.Str.{bytes_eq, is_utf8};
ghost use Rattle.pr_text.specs.Script.{is_comment_line, is_passed_over, written_time, series_of, some_text, add_of, query_of, add_in, query_in, target_by, target_of, occasion_of, eval_in, restart_in, alerts_in, fail_in, gone_in, group_event, whole_event, is_body_line, body_text};

use super::known::KnownSeries;
use pr_words::{Text, plain_decimal, split_first, split_last, without_trailing};
use spec_world::Event;
use spec_world::history::row::read_point;
use spec_world::labels::{Labels, METRIC_LABEL};
use spec_world::time::Ms;
use std::alloc::{AllocError, Global};
use std::str;

fn is_comment_line(line: &[u8]) -> bool
    ensures { result ≡ is_comment_line line.now }
{
    match line {
        [] => false,
        [first, ..] => *first == b'#',
    }
}

#[tactic(auto, using(crate::proofs::Utf8::not_text, crate::proofs::Utf8::is_text))]
fn is_text(line: &[u8]) -> bool
    ensures { result ≡ is_utf8 line.now }
{
    str::from_utf8(line).is_ok()
}

/// Whether a line asks for nothing.
pub fn is_passed_over(line: &[u8]) -> bool
    ensures { result ≡ is_passed_over line.now }
{
    without_trailing(line).is_empty() || (is_comment_line(line) && is_text(line))
}

pub(crate) fn written_time(text: &[u8]) -> Option<Ms>
    ensures { result ≡ written_time text.now }
{
    Ms::new(plain_decimal(text, 1 << 42)?)
}

#[tactic(auto, using(crate::proofs::Utf8::text_series, crate::proofs::Utf8::no_text_series))]
fn series_of(
    alloc: Global,
    known: &mut KnownSeries,
    text: &[u8],
) -> Result<Option<Labels>, AllocError>
    ensures { IfOk result (λ o. o ≡ series_of text.now) }
{
    match str::from_utf8(text) {
        Ok(text) => known.labels_of(alloc, text),
        Err(_) => Ok(None),
    }
}

/// An expression or a name, which is any text that is not empty.
#[tactic(auto, using(crate::proofs::Utf8::text_some, crate::proofs::Utf8::no_text_some))]
pub(crate) fn some_text(alloc: Global, text: &[u8]) -> Result<Option<Text>, AllocError>
    ensures { IfOk result (λ o. o ≡ some_text text.now) }
{
    if text.is_empty() {
        return Ok(None);
    }
    match str::from_utf8(text) {
        Ok(text) => Ok(Some(Text::from_str(alloc, text)?)),
        Err(_) => Ok(None),
    }
}

fn add_in(alloc: Global, known: &mut KnownSeries, text: &[u8]) -> Result<Option<Event>, AllocError>
    ensures { IfOk result (λ o. o ≡ add_in text.now) }
{
    let (time, rest) = split_first(text);
    let (series, value) = split_last(rest);
    let Some(time) = written_time(time) else {
        return Ok(None);
    };
    // The point first: of a line that is refused for it, no series text is remembered.
    let Some(point) = read_point(value) else {
        return Ok(None);
    };
    match series_of(alloc, known, series)? {
        Some(labels) => Ok(Some(Event::Add {
            time,
            labels,
            point,
        })),
        None => Ok(None),
    }
}

fn query_in(alloc: Global, text: &[u8]) -> Result<Option<Event>, AllocError>
    ensures { IfOk result (λ o. o ≡ query_in text.now) }
{
    let (time, text) = split_first(text);
    let Some(time) = written_time(time) else {
        return Ok(None);
    };
    match some_text(alloc, text)? {
        Some(text) => Ok(Some(Event::Query { time, text })),
        None => Ok(None),
    }
}

fn eval_in(alloc: Global, text: &[u8]) -> Result<Option<Event>, AllocError>
    ensures { IfOk result (λ o. o ≡ eval_in text.now) }
{
    let (time, names) = split_first(text);
    let (file, group) = split_first(names);
    let Some(time) = written_time(time) else {
        return Ok(None);
    };
    let Some(file) = some_text(alloc, file)? else {
        return Ok(None);
    };
    match some_text(alloc, group)? {
        Some(group) => Ok(Some(Event::Eval { time, file, group })),
        None => Ok(None),
    }
}

fn restart_in(text: &[u8]) -> Option<Event>
    ensures { result ≡ restart_in text.now }
{
    let time = written_time(text)?;
    Some(Event::Restart { time })
}

fn alerts_in(text: &[u8]) -> Option<Event>
    ensures { result ≡ alerts_in text.now }
{
    let time = written_time(text)?;
    Some(Event::Alerts { time })
}

// The labels of a target: at least one, and none of them a metric's name.
fn target_by(labels: Option<Labels>) -> Option<Labels>
    ensures { result ≡ target_by labels }
{
    let labels = labels?;
    if labels.pairs().is_empty() || labels.get(METRIC_LABEL).is_some() {
        return None;
    }
    Some(labels)
}

fn target_of(
    alloc: Global,
    known: &mut KnownSeries,
    text: &[u8],
) -> Result<Option<Labels>, AllocError>
    ensures { IfOk result (λ o. o ≡ target_of text.now) }
{
    Ok(target_by(series_of(alloc, known, text)?))
}

// When something happens, and to which target.
pub(crate) struct Occasion {
    pub(crate) time: Ms,
    pub(crate) target: Labels,
}

pub(crate) fn occasion_of(
    alloc: Global,
    known: &mut KnownSeries,
    text: &[u8],
) -> Result<Option<Occasion>, AllocError>
    ensures { IfOk result (λ o. o ≡ occasion_of text.now) }
{
    let (time, target) = split_first(text);
    let Some(time) = written_time(time) else {
        return Ok(None);
    };
    match target_of(alloc, known, target)? {
        Some(target) => Ok(Some(Occasion { time, target })),
        None => Ok(None),
    }
}

fn fail_in(alloc: Global, known: &mut KnownSeries, text: &[u8]) -> Result<Option<Event>, AllocError>
    ensures { IfOk result (λ o. o ≡ fail_in text.now) }
{
    match occasion_of(alloc, known, text)? {
        Some(Occasion { time, target }) => Ok(Some(Event::Fail { time, target })),
        None => Ok(None),
    }
}

fn gone_in(alloc: Global, known: &mut KnownSeries, text: &[u8]) -> Result<Option<Event>, AllocError>
    ensures { IfOk result (λ o. o ≡ gone_in text.now) }
{
    match occasion_of(alloc, known, text)? {
        Some(Occasion { time, target }) => Ok(Some(Event::Gone { time, target })),
        None => Ok(None),
    }
}

// An event about groups, or one that begins anew.
fn group_event(alloc: Global, word: &[u8], text: &[u8]) -> Result<Option<Event>, AllocError>
    ensures { IfOk result (λ o. o ≡ group_event word.now text.now) }
{
    if word == b"eval".as_slice() {
        eval_in(alloc, text)
    } else if word == b"restart".as_slice() {
        Ok(restart_in(text))
    } else if word == b"alerts".as_slice() {
        Ok(alerts_in(text))
    } else {
        Ok(None)
    }
}

/// The event that a word and what stands after it spell, where it is none that takes a body.
pub(crate) fn whole_event(
    alloc: Global,
    known: &mut KnownSeries,
    word: &[u8],
    text: &[u8],
) -> Result<Option<Event>, AllocError>
    ensures { IfOk result (λ o. o ≡ whole_event word.now text.now) }
{
    if word == b"add".as_slice() {
        add_in(alloc, known, text)
    } else if word == b"query".as_slice() {
        query_in(alloc, text)
    } else if word == b"fail".as_slice() {
        fail_in(alloc, known, text)
    } else if word == b"gone".as_slice() {
        gone_in(alloc, known, text)
    } else {
        group_event(alloc, word, text)
    }
}

#[tactic(auto, using(crate::proofs::Utf8::not_text, crate::proofs::Utf8::is_text))]
fn text_of(bytes: &[u8]) -> Option<&str>
    ensures { MatchOption result (is_utf8 bytes.now ≡ false) (λ text. (is_utf8 bytes.now ≡ true) × (text.now ≡ bytes.now)) }
{
    match str::from_utf8(bytes) {
        Ok(text) => Some(text),
        Err(_) => None,
    }
}

// The text of a body line, which stands behind its bar.
fn body_line(line: &[u8]) -> Option<&str>
    ensures { MatchOption result (is_body_line line.now ≡ false) (λ text. (is_body_line line.now ≡ true) × (text.now ++ codes "\n" ≡ body_text line.now)) }
{
    match line {
        [b'|', text @ ..] => text_of(text),
        _ => None,
    }
}

/// Appends what a line gives to a body, and says whether it is a body line. Want of memory alone is
/// an error, and then nothing is appended.
pub fn push_body_line(body: &mut String, line: &[u8]) -> Result<bool, AllocError>
    ensures test { IfOk result (λ is. is ≡ is_body_line line.now) }
    ensures text { IfOk result (λ is. is ≡ true → string_bytes body.new ≡ string_bytes body.old ++ body_text line.now) }
    ensures other { IfOk result (λ is. is ≡ false → string_bytes body.new ≡ string_bytes body.old) }
    ensures err { OnErr result (string_bytes body.new ≡ string_bytes body.old) }
{
    match body_line(line) {
        Some(text) => {
            body.reserve(text.len() + 1)?;
            body.push_str(text)?;
            body.push_str("\n")?;
            Ok(true)
        }
        None => Ok(false),
    }
}
