//! The texts of spans.
ghost use Rattle.std.specs.Prelude.{◌≡◌, ℕ, List, [], ◌∷◌, ◌<◌, ◌≤◌, ◌^◌, ◌+◌, min, length, IfOk, IfSome, MatchOption, MatchResult, option_map};
ghost use Rattle.pr_forms.specs.Form.{Form, rule, Reads};
ghost use Rattle.pr_forms.specs.Run.{good, bad};
ghost use Rattle.pr_time.specs.declared.text.Letter.{Letter};
ghost use Rattle.pr_time.specs.declared.text.Unit.TheVariants.{Millisecond};
ghost use Rattle.pr_time.specs.SpanText.{letter_of, seen, ms_of, smaller, rank, digit, digit_at, unit, unit_at, amount, count, scaled, span, SpanValue, Rule, Text, After, From, AfterZero, production, ReadsSpan, IsBadPlace, Refuses, IsTooLong};
ghost use Rattle.pr_forms.specs.Language.{Gives, Takes, Lacks};
ghost use Rattle.pr_time.specs.private.SpanReader.{spans, IsFront, kept, Digits, ReadsCount, MeasuresSpan, Enters, with_m, starts_amount, named, unit_left};

use crate::value::Span;
use pr_forms::{place_of, take};

/// A number that stands for each one above the greatest span.
const MANY: u64 = (1 << 40) + 1;

/// Why a text gives no span.
#[derive(Clone, Copy, PartialEq, Eq, Debug)]
pub enum SpanFault {
    /// The place of the first byte with which the text does not go on as a span text: before it
    /// stand whole parts, and digits or a letter that begin one more. Whether what stands there can
    /// still become a span is not asked: `5ms5s` is bad at 4, though no span begins with `5ms5`.
    /// The text's length, where all of it goes on and it is no span.
    BadSpan { at: usize },
    /// The text is a span text, of more than 2^40 milliseconds.
    SpanTooLong,
}

/// What a byte is to a span text.
#[derive(Clone, Copy, PartialEq, Eq, Debug)]
enum Letter {
    Digit(u8),
    Y,
    W,
    D,
    H,
    M,
    S,
    Other,
}

/// The units, from the greatest on.
#[derive(Clone, Copy, PartialEq, Eq, Debug)]
enum Unit {
    Year,
    Week,
    Day,
    Hour,
    Minute,
    Second,
    Millisecond,
}

impl Unit {
    /// The unit in milliseconds.
    fn ms(self) -> u64
        ensures { result ≡ ms_of self }
    {
        match self {
            Unit::Year => 31_536_000_000,
            Unit::Week => 604_800_000,
            Unit::Day => 86_400_000,
            Unit::Hour => 3_600_000,
            Unit::Minute => 60_000,
            Unit::Second => 1_000,
            Unit::Millisecond => 1,
        }
    }

    /// How many units are greater.
    fn rank(self) -> u8
        ensures { result ≡ rank self }
    {
        self as u8
    }

    /// The next smaller unit.
    fn smaller(self) -> Unit
        ensures { result ≡ smaller self }
    {
        match self {
            Unit::Year => Unit::Week,
            Unit::Week => Unit::Day,
            Unit::Day => Unit::Hour,
            Unit::Hour => Unit::Minute,
            Unit::Minute => Unit::Second,
            Unit::Second | Unit::Millisecond => Unit::Millisecond,
        }
    }
}

/// The unit that a letter writes; an m stands for minutes here.
fn named_by(letter: Letter) -> Option<Unit>
    ensures { result ≡ named letter }
{
    match letter {
        Letter::Y => Some(Unit::Year),
        Letter::W => Some(Unit::Week),
        Letter::D => Some(Unit::Day),
        Letter::H => Some(Unit::Hour),
        Letter::M => Some(Unit::Minute),
        Letter::S => Some(Unit::Second),
        Letter::Digit(_) | Letter::Other => None,
    }
}

fn letter_of_byte(byte: u8) -> Letter
    ensures { result ≡ letter_of byte }
{
    match byte {
        b'0'..=b'9' => Letter::Digit(byte - b'0'),
        b'y' => Letter::Y,
        b'w' => Letter::W,
        b'd' => Letter::D,
        b'h' => Letter::H,
        b'm' => Letter::M,
        b's' => Letter::S,
        _ => Letter::Other,
    }
}

/// The letter at the front, and what follows it.
fn next_letter(text: &[u8]) -> Option<(Letter, &[u8])>
    ensures { MatchOption result (seen text.now ≡ []) (λ x. IsFront text.now x.0 x.1.now) }
{
    match text.split_first() {
        Some((byte, rest)) => Some((letter_of_byte(*byte), rest)),
        None => None,
    }
}

/// The digit at the front, and what follows it.
fn digit_in(text: &[u8]) -> Option<(u8, &[u8])>
    ensures read { MatchOption result (Lacks spans digit text.now) (λ x. Takes spans digit text.now (count x.0) x.1.now) }
    ensures small { IfSome result (λ x. x.0 < 256) }
    ensures shorter { IfSome result (λ x. length x.1.now < length text.now) }
{
    take(
        text,
        |byte: &u8| -> Option<u8>
            ensures { option_map count result ≡ digit_at (letter_of byte.now) }
        {
            match letter_of_byte(*byte) {
                Letter::Digit(digit) => Some(digit),
                _ => None,
            }
        },
    )
}

/// What follows the s of milliseconds.
fn after_s(text: &[u8]) -> Option<((), &[u8])>
    ensures read { MatchOption result (Lacks spans (unit Millisecond) text.now)
        (λ x. Takes spans (unit Millisecond) text.now (scaled (ms_of Millisecond) 0) x.1.now) }
    ensures shorter { IfSome result (λ x. length x.1.now < length text.now) }
{
    take(
        text,
        |byte: &u8| -> Option<()>
            ensures { option_map (λ _. scaled (ms_of Millisecond) 0) result ≡ unit_at Millisecond (letter_of byte.now) }
        {
            match letter_of_byte(*byte) {
                Letter::S => Some(()),
                _ => None,
            }
        },
    )
}

/// The number that the digits at the front write after `first`, and what follows them.
fn number_in(first: u64, text: &[u8]) -> (u64, &[u8])
    requires { first ≤ 2 ^ 40 + 1 }
    ensures read { (f : Form Letter Rule SpanValue) (start : List ℕ) (n : ℕ) → first ≡ kept n → Digits f start n text.now →
        ReadsCount f start result.0 result.1.now }
    ensures small { result.0 ≤ 2 ^ 40 + 1 }
    ensures shorter { length result.1.now ≤ length text.now }
{
    let mut number = first;
    let mut rest = text;
    while let Some((digit, after)) = digit_in(rest) {
        number = (number * 10 + u64::from(digit)).min(MANY);
        rest = after;
    }
    (number, rest)
}

/// The unit that a letter writes, where it is `greatest` or a smaller one. An m stands for minutes
/// here.
fn unit_of(greatest: Unit, letter: Letter) -> Option<Unit>
    ensures { result ≡ unit_left greatest letter }
{
    match named_by(letter) {
        Some(unit) if greatest.rank() <= unit.rank() => Some(unit),
        _ => None,
    }
}

/// The unit after an m: milliseconds where an s follows, else minutes.
fn minute_in(greatest: Unit, text: &[u8]) -> Result<(Unit, &[u8]), &[u8]>
    ensures read { MatchResult result (λ x. Enters greatest (with_m text.now) x.0 x.1.now)
        (λ rest. Gives spans (rule (From greatest)) (with_m text.now) (bad (seen rest.now))) }
    ensures shorter { IfOk result (λ x. length x.1.now ≤ length text.now) }
{
    match after_s(text) {
        Some((_s, rest)) => Ok((Unit::Millisecond, rest)),
        None => match greatest {
            Unit::Second | Unit::Millisecond => Err(text),
            _ => Ok((Unit::Minute, text)),
        },
    }
}

/// The unit at the front, `greatest` or a smaller one, and what follows it.
fn unit_in(greatest: Unit, text: &[u8]) -> Result<(Unit, &[u8]), &[u8]>
    ensures read { MatchResult result (λ x. Enters greatest text.now x.0 x.1.now)
        (λ rest. Gives spans (rule (From greatest)) text.now (bad (seen rest.now))) }
    ensures shorter { IfOk result (λ x. length x.1.now < length text.now) }
{
    let Some((letter, rest)) = next_letter(text) else {
        return Err(text);
    };
    match letter {
        Letter::M => minute_in(greatest, rest),
        _ => match unit_of(greatest, letter) {
            Some(unit) => Ok((unit, rest)),
            None => Err(text),
        },
    }
}

/// A number that begins with `first`, its unit, `greatest` or a smaller one, and the parts after
/// it, in milliseconds, and what follows them.
#[cycle(parts)]
fn amount_in(greatest: Unit, first: u64, text: &[u8]) -> Result<(u64, &[u8]), &[u8]>
    requires { first ≤ 2 ^ 40 + 1 }
    ensures read { (f : Form Letter Rule SpanValue) (start : List ℕ) (n : ℕ) → first ≡ kept n → Digits f start n text.now →
        MatchResult result (λ x. MeasuresSpan (amount f (From greatest)) start x.0 x.1.now) (λ rest. Gives spans (amount f (From greatest)) start (bad (seen rest.now))) }
{
    let (number, after_number) = number_in(first, text);
    let (unit, after_unit) = unit_in(greatest, after_number)?;
    let (more, rest) = parts_after(unit, after_unit)?;
    Ok((
        number
            .saturating_mul(unit.ms())
            .saturating_add(more)
            .min(MANY),
        rest,
    ))
}

/// The parts after one with this unit, in milliseconds, and what follows them.
#[cycle(parts)]
fn parts_after(last: Unit, text: &[u8]) -> Result<(u64, &[u8]), &[u8]>
    ensures read { MatchResult result (λ x. MeasuresSpan (rule (After last)) text.now x.0 x.1.now)
        (λ rest. Gives spans (rule (After last)) text.now (bad (seen rest.now))) }
{
    let Some((first, rest)) = digit_in(text) else {
        return Ok((0, text));
    };
    match last {
        // No unit is left for the number.
        Unit::Millisecond => Err(number_in(u64::from(first), rest).1),
        _ => amount_in(last.smaller(), u64::from(first), rest),
    }
}

/// Whether more digits or a unit come next.
fn goes_on(text: &[u8]) -> bool
    ensures { result ≡ starts_amount text.now }
{
    match next_letter(text) {
        Some((letter, _)) => letter != Letter::Other,
        None => false,
    }
}

/// What a zero at the front writes with what follows it: nothing, or a number with its unit and the
/// parts after it.
fn zero_in(text: &[u8]) -> Result<(u64, &[u8]), &[u8]>
    ensures read { MatchResult result (λ x. MeasuresSpan (rule AfterZero) text.now x.0 x.1.now)
        (λ rest. Gives spans (rule AfterZero) text.now (bad (seen rest.now))) }
{
    if goes_on(text) {
        amount_in(Unit::Year, 0, text)
    } else {
        Ok((0, text))
    }
}

/// The span text at the front, in milliseconds, and what follows it.
fn span_in(text: &[u8]) -> Result<(u64, &[u8]), &[u8]>
    ensures read { MatchResult result (λ x. MeasuresSpan (rule Text) text.now x.0 x.1.now)
        (λ rest. Gives spans (rule Text) text.now (bad (seen rest.now))) }
{
    match digit_in(text) {
        None => Err(text),
        Some((first, rest)) => {
            if first == 0 {
                zero_in(rest)
            } else {
                amount_in(Unit::Year, u64::from(first), rest)
            }
        }
    }
}

/// The place of the first byte with which the span text at the front of a text does not go on, as
/// `SpanFault::BadSpan` tells it: so a reader of other texts finds where one ends.
pub fn span_end(text: &[u8]) -> usize
    ensures place { IsBadPlace text.now result }
    ensures within { result ≤ length text.now }
{
    match span_in(text) {
        Ok((_ms, left)) => place_of(text, left),
        Err(rest) => place_of(text, rest),
    }
}

/// The span that a text writes: `0`, or numbers with a unit each, from the greatest unit down and
/// none twice, out of `y w d h m s ms`. A year has 365 days, and a week seven (the form of
/// durations in the Prometheus documentation, "Querying basics"; that a span ends at 2^40 ms, and
/// that the first bad byte is told, are own choices). A text of another form is `BadSpan`, with its
/// place; one of the form, of more than 2^40 ms, is `SpanTooLong`.
pub fn read_span(text: &[u8]) -> Result<Span, SpanFault>
    // A span that is answered is what the text reads as.
    ensures span { IfOk result (ReadsSpan text.now) }
    // What the text reads as is answered, unless it is too long.
    ensures only { (v : SpanValue) → Reads production (rule Text) (seen text.now) v [] → MatchResult result (λ s. v ≡ span s) (IsTooLong v) }
    // Else the fault says which byte is the first bad one.
    ensures place { MatchResult result (λ _. IsBadPlace text.now (length text.now)) (Refuses text.now) }
{
    match span_in(text) {
        Ok((ms, left)) => {
            if left.is_empty() {
                Span::new(ms).ok_or(SpanFault::SpanTooLong)
            } else {
                Err(SpanFault::BadSpan {
                    at: place_of(text, left),
                })
            }
        }
        Err(rest) => Err(SpanFault::BadSpan {
            at: place_of(text, rest),
        }),
    }
}
