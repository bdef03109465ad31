// The items of the values of a series.
ghost use Rattle.std.specs.Prelude.{◌≡◌, ◌^◌, ◌≤◌, length, position, IfSome};
ghost use Rattle.std.specs.List.{position_or_len};
ghost use Rattle.std.specs.Str.{bytes_eq};
ghost use Rattle.pr_testfile.specs.Items.{is_exponent, is_step, step_behind, step_in, by_step, steps_of, gap, repeated, once, single, is_times, stretch_of};

use crate::inputs::number::{count_of, is_sign, number_of, unsigned_number};
use crate::inputs::steps::{falling, kept, rising, zero_value};
use crate::inputs::stretch::Stretch;
use pr_num::Num;

fn is_exponent(byte: u8) -> bool
    ensures { result ≡ is_exponent byte }
{
    byte == b'e' || byte == b'E'
}

fn is_step(before: u8, byte: u8) -> bool
    ensures { result ≡ is_step before byte }
{
    is_sign(byte) && !is_exponent(before)
}

// What begins with the sign of a step, behind a byte; nothing where there is none.
#[tactic(auto, unfolding(crate::specs::Items::step_behind))]
fn step_behind(before: u8, text: &[u8]) -> &[u8]
    ensures value { result.now ≡ step_behind before text.now }
    ensures within { length result.now ≤ length text.now }
{
    let mut last = before;
    let mut rest = text;
    'bytes: while let Some((byte, after)) = rest.split_first() {
        if is_step(last, *byte) {
            return rest;
        }
        last = *byte;
        rest = after;
    }
    rest
}

fn step_in(text: &[u8]) -> &[u8]
    ensures value { result.now ≡ step_in text.now }
    ensures within { length result.now ≤ length text.now }
{
    match text.split_first() {
        Some((first, rest)) => step_behind(*first, rest),
        None => text,
    }
}

// `a`, `a+b` or `a-b`, so many more times.
fn by_step(whole: Option<Num>, first: Option<Num>, more: u128, step: &[u8]) -> Option<Stretch>
    requires { more ≤ 2 ^ 100 }
    ensures { result ≡ by_step whole first more step.now }
{
    match step.split_first() {
        Some((sign, by)) => {
            if *sign == b'+' {
                rising(first, unsigned_number(by), more)
            } else {
                falling(first, unsigned_number(by), more)
            }
        }
        None => rising(whole, Some(zero_value()), more),
    }
}

#[tactic(auto, unfolding(crate::specs::Items::steps_of))]
fn steps_of(text: &[u8], more: u128) -> Option<Stretch>
    requires { more ≤ 2 ^ 100 }
    ensures { result ≡ steps_of text.now more }
{
    let step = step_in(text);
    let first = &text[..text.len() - step.len()];
    by_step(number_of(text), number_of(first), more, step)
}

fn is_gap(text: &[u8]) -> bool
    ensures { result ≡ bytes_eq text.now gap }
{
    text == b"_".as_slice()
}

// An item before its `x`, and how often.
fn repeated(text: &[u8], count: Option<u128>) -> Option<Stretch>
    requires { IfSome count (λ n. n ≤ 2 ^ 100) }
    ensures { result ≡ repeated text.now count }
{
    match count {
        Some(count) => {
            if is_gap(text) {
                Some(Stretch::Missing { count: kept(count) })
            } else {
                steps_of(text, count)
            }
        }
        None => None,
    }
}

fn once(value: Option<Num>) -> Option<Stretch>
    ensures { result ≡ once value }
{
    match value {
        Some(first) => Some(Stretch::Steps {
            first,
            by: zero_value(),
            more: 0,
        }),
        None => None,
    }
}

// An item without an `x`.
fn single(text: &[u8]) -> Option<Stretch>
    ensures { result ≡ single text.now }
{
    if is_gap(text) {
        Some(Stretch::Missing { count: 1 })
    } else if text == b"stale".as_slice() {
        Some(Stretch::Marker)
    } else {
        once(number_of(text))
    }
}

fn first_times(text: &[u8]) -> Option<usize>
    ensures { result ≡ position is_times text.now }
{
    text.iter().position(|b| *b == b'x')
}

#[tactic(auto, using(pr_words::proofs::Places::place_or_end, pr_words::proofs::Places::within))]
fn times_len(text: &[u8]) -> usize
    ensures value { result ≡ position_or_len is_times text.now }
    ensures within { result ≤ length text.now }
{
    first_times(text).unwrap_or(text.len())
}

/// The stretch of values that an item writes.
#[tactic(auto, unfolding(crate::specs::Items::stretch_of))]
pub(crate) fn stretch_of(text: &[u8]) -> Option<Stretch>
    ensures { result ≡ stretch_of text.now }
{
    let (before, times) = text.split_at(times_len(text));
    match times.split_first() {
        Some((_times, count)) => repeated(before, count_of(count)),
        None => single(text),
    }
}
