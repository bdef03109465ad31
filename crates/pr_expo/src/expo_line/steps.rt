// Where a character leads to, from each place of a line.
ghost use Rattle.std.specs.Prelude.{◌≡◌, ◌++◌, ◌∷◌, [], IfOk, encode_utf8};
ghost use Rattle.pr_expo.specs.Line.{grown, type_of, is_front_of, is_type_front, stands_before, bare, with_label, measured, from_start, from_gap, after_keyword, from_keyword, before_family, after_family, in_family, type_grown, before_type, typed, in_type, in_name, before_label, before_equal, in_label, before_quote, in_value, escape, in_escape, after_value, after_list, numbered, before_number, in_number, after_number, after_sign, in_time, goes};

use crate::expo_line::characters::{
    is_blank, is_label_byte, is_letter, is_metric_byte, is_metric_letter, is_sign,
};
use crate::expo_line::label_list::LabelList;
use crate::expo_line::number::{NumberPlace, is_number_end, number_next, number_start};
use crate::expo_line::place::{FamilyKind, FamilyWord, LineCursor, LineHead, Measured};
use pr_labels::words_crate::Text;
use pr_labels::{METRIC_LABEL, Pair};
use std::alloc::{AllocError, Global};

/// The text of a character alone.
fn begun(alloc: Global, c: char) -> Result<Text, AllocError>
    ensures { IfOk result (λ t. t ≡ encode_utf8 c) }
{
    let mut text = String::new(alloc);
    text.push(c)?;
    Ok(Text::new(text))
}

/// The text with a character after it.
fn grown(text: Text, c: char) -> Result<Text, AllocError>
    ensures { IfOk result (λ t. t ≡ grown text c) }
{
    let mut inner = text.into_string()?;
    inner.push(c)?;
    Ok(Text::new(inner))
}

pub(crate) fn type_of(text: &str) -> Option<FamilyKind>
    ensures { result ≡ type_of text.now }
{
    if text == "counter" {
        Some(FamilyKind::Counter)
    } else if text == "gauge" {
        Some(FamilyKind::Gauge)
    } else if text == "histogram" {
        Some(FamilyKind::Histogram)
    } else if text == "summary" {
        Some(FamilyKind::Summary)
    } else if text == "untyped" {
        Some(FamilyKind::Untyped)
    } else {
        None
    }
}

/// Whether the text is the front of a word.
fn is_front_of(word: &[u8], text: &[u8]) -> bool
    ensures { result ≡ is_front_of word.now text.now }
{
    word.starts_with(text)
}

/// Whether the text is the front of a type.
fn is_type_front(text: &str) -> bool
    ensures { result ≡ is_type_front text.now }
{
    let text = text.as_bytes();
    is_front_of(b"counter", text)
        || is_front_of(b"gauge", text)
        || is_front_of(b"histogram", text)
        || is_front_of(b"summary", text)
        || is_front_of(b"untyped", text)
}

/// Whether the name stands before: as that of the metric's name, or among the labels.
pub(crate) fn stands_before(head: &LineHead, name: &Text) -> bool
    ensures { result ≡ stands_before head.now name.now }
{
    METRIC_LABEL == name.as_str() || head.labels.has(name)
}

pub(crate) fn bare(alloc: Global, name: Text) -> LineHead
    ensures { result ≡ bare name }
{
    LineHead {
        name,
        labels: LabelList::empty(alloc),
    }
}

pub(crate) fn with_label(
    alloc: Global,
    head: LineHead,
    name: Text,
    value: Text,
) -> Result<LineHead, AllocError>
    ensures { IfOk result (λ h. h ≡ with_label head name value) }
{
    let LineHead {
        name: metric,
        labels,
    } = head;
    Ok(LineHead {
        name: metric,
        labels: labels.with(alloc, Pair { name, value })?,
    })
}

fn from_start(alloc: Global, c: char) -> Result<Option<LineCursor>, AllocError>
    ensures { IfOk result (λ o. o ≡ from_start c) }
{
    if is_blank(c) {
        Ok(Some(LineCursor::Start))
    } else if c == '#' {
        Ok(Some(LineCursor::Hash))
    } else if is_metric_letter(c) {
        Ok(Some(LineCursor::InName(begun(alloc, c)?)))
    } else {
        Ok(None)
    }
}

fn from_gap(alloc: Global, c: char) -> Result<Option<LineCursor>, AllocError>
    ensures { IfOk result (λ o. o ≡ from_gap c) }
{
    if is_blank(c) {
        Ok(Some(LineCursor::Gap))
    } else {
        Ok(Some(LineCursor::Keyword(begun(alloc, c)?)))
    }
}

/// The place after the first word of a comment.
fn after_keyword(text: &str) -> LineCursor
    ensures { result ≡ after_keyword text.now }
{
    if text == "HELP" {
        LineCursor::BeforeFamily(FamilyWord::Help)
    } else if text == "TYPE" {
        LineCursor::BeforeFamily(FamilyWord::Type)
    } else {
        LineCursor::Passed
    }
}

fn from_keyword(text: Text, c: char) -> Result<Option<LineCursor>, AllocError>
    ensures { IfOk result (λ o. o ≡ from_keyword text c) }
{
    if is_blank(c) {
        Ok(Some(after_keyword(text.as_str())))
    } else {
        Ok(Some(LineCursor::Keyword(grown(text, c)?)))
    }
}

fn before_family(alloc: Global, word: FamilyWord, c: char) -> Result<Option<LineCursor>, AllocError>
    ensures { IfOk result (λ o. o ≡ before_family word c) }
{
    if is_blank(c) {
        Ok(Some(LineCursor::BeforeFamily(word)))
    } else if is_metric_letter(c) {
        Ok(Some(LineCursor::InFamily(word, begun(alloc, c)?)))
    } else {
        Ok(None)
    }
}

fn after_family(word: FamilyWord, name: Text) -> LineCursor
    ensures { result ≡ after_family word name }
{
    match word {
        FamilyWord::Help => LineCursor::InHelp(name),
        FamilyWord::Type => LineCursor::BeforeType(name),
    }
}

fn in_family(word: FamilyWord, name: Text, c: char) -> Result<Option<LineCursor>, AllocError>
    ensures { IfOk result (λ o. o ≡ in_family word name c) }
{
    if is_blank(c) {
        Ok(Some(after_family(word, name)))
    } else if is_metric_byte(c) {
        Ok(Some(LineCursor::InFamily(word, grown(name, c)?)))
    } else {
        Ok(None)
    }
}

fn type_grown(name: Text, text: Text) -> Option<LineCursor>
    ensures { result ≡ type_grown name text }
{
    if is_type_front(text.as_str()) {
        Some(LineCursor::InType(name, text))
    } else {
        None
    }
}

fn before_type(alloc: Global, name: Text, c: char) -> Result<Option<LineCursor>, AllocError>
    ensures { IfOk result (λ o. o ≡ before_type name c) }
{
    if is_blank(c) {
        Ok(Some(LineCursor::BeforeType(name)))
    } else {
        Ok(type_grown(name, begun(alloc, c)?))
    }
}

fn typed(name: Text, kind: Option<FamilyKind>) -> Option<LineCursor>
    ensures { result ≡ typed name kind }
{
    match kind {
        Some(kind) => Some(LineCursor::AfterType(name, kind)),
        None => None,
    }
}

fn in_type(name: Text, text: Text, c: char) -> Result<Option<LineCursor>, AllocError>
    ensures { IfOk result (λ o. o ≡ in_type name text c) }
{
    if is_blank(c) {
        Ok(typed(name, type_of(text.as_str())))
    } else {
        Ok(type_grown(name, grown(text, c)?))
    }
}

fn in_name(alloc: Global, name: Text, c: char) -> Result<Option<LineCursor>, AllocError>
    ensures { IfOk result (λ o. o ≡ in_name name c) }
{
    if is_blank(c) {
        Ok(Some(LineCursor::BeforeNumber(bare(alloc, name))))
    } else if c == '{' {
        Ok(Some(LineCursor::BeforeLabel(bare(alloc, name))))
    } else if is_metric_byte(c) {
        Ok(Some(LineCursor::InName(grown(name, c)?)))
    } else {
        Ok(None)
    }
}

fn before_label(alloc: Global, head: LineHead, c: char) -> Result<Option<LineCursor>, AllocError>
    ensures { IfOk result (λ o. o ≡ before_label head c) }
{
    if is_blank(c) {
        Ok(Some(LineCursor::BeforeLabel(head)))
    } else if c == '}' {
        Ok(Some(LineCursor::AfterList(head)))
    } else if is_letter(c) {
        Ok(Some(LineCursor::InLabel(head, begun(alloc, c)?)))
    } else {
        Ok(None)
    }
}

fn before_equal(head: LineHead, name: Text, c: char) -> Option<LineCursor>
    ensures { result ≡ before_equal head name c }
{
    if is_blank(c) {
        Some(LineCursor::BeforeEqual(head, name))
    } else if c == '=' {
        Some(LineCursor::BeforeQuote(head, name))
    } else {
        None
    }
}

fn in_label(head: LineHead, name: Text, c: char) -> Result<Option<LineCursor>, AllocError>
    ensures { IfOk result (λ o. o ≡ in_label head name c) }
{
    if is_label_byte(c) {
        Ok(Some(LineCursor::InLabel(head, grown(name, c)?)))
    } else if stands_before(&head, &name) {
        Ok(None)
    } else {
        Ok(before_equal(head, name, c))
    }
}

fn before_quote(alloc: Global, head: LineHead, name: Text, c: char) -> Option<LineCursor>
    ensures { result ≡ before_quote head name c }
{
    if is_blank(c) {
        Some(LineCursor::BeforeQuote(head, name))
    } else if c == '"' {
        Some(LineCursor::InValue(head, name, Text::new(String::new(alloc))))
    } else {
        None
    }
}

fn in_value(
    alloc: Global,
    head: LineHead,
    name: Text,
    value: Text,
    c: char,
) -> Result<Option<LineCursor>, AllocError>
    ensures { IfOk result (λ o. o ≡ in_value head name value c) }
{
    if c == '"' {
        Ok(Some(LineCursor::AfterValue(with_label(alloc, head, name, value)?)))
    } else if c == '\\' {
        Ok(Some(LineCursor::InEscape(head, name, value)))
    } else {
        Ok(Some(LineCursor::InValue(head, name, grown(value, c)?)))
    }
}

/// The value with what a character after a backslash stands for.
fn escaped(value: Text, c: char) -> Result<Text, AllocError>
    ensures { IfOk result (λ t. t ≡ value ++ escape c) }
{
    let mut inner = value.into_string()?;
    if c == 'n' {
        inner.push('\n')?;
    } else if c == '\\' {
        inner.push('\\')?;
    } else if c == '"' {
        inner.push('"')?;
    } else {
        inner.push('\\')?;
        inner.push(c)?;
    }
    Ok(Text::new(inner))
}

fn in_escape(
    head: LineHead,
    name: Text,
    value: Text,
    c: char,
) -> Result<Option<LineCursor>, AllocError>
    ensures { IfOk result (λ o. o ≡ in_escape head name value c) }
{
    Ok(Some(LineCursor::InValue(head, name, escaped(value, c)?)))
}

fn after_value(head: LineHead, c: char) -> Option<LineCursor>
    ensures { result ≡ after_value head c }
{
    if is_blank(c) {
        Some(LineCursor::AfterValue(head))
    } else if c == ',' {
        Some(LineCursor::BeforeLabel(head))
    } else if c == '}' {
        Some(LineCursor::AfterList(head))
    } else {
        None
    }
}

fn after_list(head: LineHead, c: char) -> Option<LineCursor>
    ensures { result ≡ after_list head c }
{
    if is_blank(c) {
        Some(LineCursor::BeforeNumber(head))
    } else {
        None
    }
}

fn numbered(head: LineHead, text: Text, place: Option<NumberPlace>) -> Option<LineCursor>
    ensures { result ≡ numbered head text place }
{
    match place {
        Some(place) => Some(LineCursor::InNumber(head, place, text)),
        None => None,
    }
}

fn before_number(alloc: Global, head: LineHead, c: char) -> Result<Option<LineCursor>, AllocError>
    ensures { IfOk result (λ o. o ≡ before_number head c) }
{
    if is_blank(c) {
        Ok(Some(LineCursor::BeforeNumber(head)))
    } else {
        Ok(numbered(head, begun(alloc, c)?, number_start(c)))
    }
}

fn in_number(
    head: LineHead,
    place: NumberPlace,
    text: Text,
    c: char,
) -> Result<Option<LineCursor>, AllocError>
    ensures { IfOk result (λ o. o ≡ in_number head place text c) }
{
    if is_number_end(place) && is_blank(c) {
        Ok(Some(LineCursor::AfterNumber(Measured { head, number: text })))
    } else {
        Ok(numbered(head, grown(text, c)?, number_next(place, c)))
    }
}

fn after_number(
    alloc: Global,
    measured: Measured,
    c: char,
) -> Result<Option<LineCursor>, AllocError>
    ensures { IfOk result (λ o. o ≡ after_number measured c) }
{
    if is_blank(c) {
        Ok(Some(LineCursor::AfterNumber(measured)))
    } else if is_sign(c) {
        Ok(Some(LineCursor::AfterSign(measured, begun(alloc, c)?)))
    } else if c.is_ascii_digit() {
        Ok(Some(LineCursor::InTime(measured, begun(alloc, c)?, 1)))
    } else {
        Ok(None)
    }
}

fn after_sign(measured: Measured, text: Text, c: char) -> Result<Option<LineCursor>, AllocError>
    ensures { IfOk result (λ o. o ≡ after_sign measured text c) }
{
    if c.is_ascii_digit() {
        Ok(Some(LineCursor::InTime(measured, grown(text, c)?, 1)))
    } else {
        Ok(None)
    }
}

fn in_time(
    measured: Measured,
    text: Text,
    count: u8,
    c: char,
) -> Result<Option<LineCursor>, AllocError>
    ensures { IfOk result (λ o. o ≡ in_time measured text count c) }
{
    if is_blank(c) {
        Ok(Some(LineCursor::AfterTime(measured, text)))
    } else if c.is_ascii_digit() && count < 18 {
        Ok(Some(LineCursor::InTime(measured, grown(text, c)?, count + 1)))
    } else {
        Ok(None)
    }
}

/// The place after a character, where a line can go on with it.
pub(crate) fn step(
    alloc: Global,
    place: LineCursor,
    c: char,
) -> Result<Option<LineCursor>, AllocError>
    ensures { IfOk result (λ o. o ≡ goes place c) }
{
    match place {
        LineCursor::Start => from_start(alloc, c),
        LineCursor::Hash => {
            if is_blank(c) {
                Ok(Some(LineCursor::Gap))
            } else {
                Ok(Some(LineCursor::Passed))
            }
        }
        LineCursor::Gap => from_gap(alloc, c),
        LineCursor::Keyword(text) => from_keyword(text, c),
        LineCursor::Passed => Ok(Some(LineCursor::Passed)),
        LineCursor::BeforeFamily(word) => before_family(alloc, word, c),
        LineCursor::InFamily(word, name) => in_family(word, name, c),
        LineCursor::InHelp(name) => Ok(Some(LineCursor::InHelp(name))),
        LineCursor::BeforeType(name) => before_type(alloc, name, c),
        LineCursor::InType(name, text) => in_type(name, text, c),
        LineCursor::AfterType(name, kind) => {
            if is_blank(c) {
                Ok(Some(LineCursor::AfterType(name, kind)))
            } else {
                Ok(None)
            }
        }
        LineCursor::InName(name) => in_name(alloc, name, c),
        LineCursor::BeforeLabel(head) => before_label(alloc, head, c),
        LineCursor::InLabel(head, name) => in_label(head, name, c),
        LineCursor::BeforeEqual(head, name) => Ok(before_equal(head, name, c)),
        LineCursor::BeforeQuote(head, name) => Ok(before_quote(alloc, head, name, c)),
        LineCursor::InValue(head, name, value) => in_value(alloc, head, name, value, c),
        LineCursor::InEscape(head, name, value) => in_escape(head, name, value, c),
        LineCursor::AfterValue(head) => Ok(after_value(head, c)),
        LineCursor::AfterList(head) => Ok(after_list(head, c)),
        LineCursor::BeforeNumber(head) => before_number(alloc, head, c),
        LineCursor::InNumber(head, place, text) => in_number(head, place, text, c),
        LineCursor::AfterNumber(measured) => after_number(alloc, measured, c),
        LineCursor::AfterSign(measured, text) => after_sign(measured, text, c),
        LineCursor::InTime(measured, text, count) => in_time(measured, text, count, c),
        LineCursor::AfterTime(measured, text) => {
            if is_blank(c) {
                Ok(Some(LineCursor::AfterTime(measured, text)))
            } else {
                Ok(None)
            }
        }
    }
}
