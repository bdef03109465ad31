// How far a number goes on.
ghost use Rattle.std.specs.Prelude.{◌≡◌, ◌<◌, ◌≤◌, length, IfOk, IfSome, MatchOption, MatchResult, option_map};
ghost use Rattle.pr_time.specs.pr_forms.Form.{Form, token, rule};
ghost use Rattle.pr_time.specs.pr_forms.Run.{good, bad};
ghost use Rattle.pr_ast.specs.Number.{letter_of, seen, mark, NumberValue, Rule, digit_at, point_at, e_at, plus_minus_at, digits, Number, Fraction, Power, Exponent, Digits, Tail, IsNumberEnd};
ghost use Rattle.pr_time.specs.pr_forms.Language.{Gives, Takes, Lacks};
ghost use Rattle.pr_ast.specs.private.Reader.{numbers, Ends};

use pr_time::forms::{place_of, take};

/// What a byte is to a number.
#[derive(Clone, Copy, PartialEq, Eq, Debug)]
enum Letter {
    Digit,
    Point,
    /// `e` or `E`.
    E,
    /// `+` or `-`.
    PlusMinus,
    Other,
}

fn letter_of(byte: u8) -> Letter
    ensures { result ≡ letter_of byte }
{
    match byte {
        b'0'..=b'9' => Letter::Digit,
        b'.' => Letter::Point,
        b'e' | b'E' => Letter::E,
        b'+' | b'-' => Letter::PlusMinus,
        _ => Letter::Other,
    }
}

/// What follows the digit at the front.
fn digit_in(text: &[u8]) -> Option<((), &[u8])>
    ensures read { MatchOption result (Lacks numbers (token digit_at) text.now) (λ x. Takes numbers (token digit_at) text.now mark x.1.now) }
    ensures shorter { IfSome result (λ x. length x.1.now < length text.now) }
{
    take(
        text,
        |byte: &u8| -> Option<()>
            ensures { option_map (λ _. mark) result ≡ digit_at (letter_of byte.now) }
        {
            match letter_of(*byte) {
                Letter::Digit => Some(()),
                _ => None,
            }
        },
    )
}

/// What follows the point at the front.
fn point_in(text: &[u8]) -> Option<((), &[u8])>
    ensures { MatchOption result (Lacks numbers (token point_at) text.now) (λ x. Takes numbers (token point_at) text.now mark x.1.now) }
{
    take(
        text,
        |byte: &u8| -> Option<()>
            ensures { option_map (λ _. mark) result ≡ point_at (letter_of byte.now) }
        {
            match letter_of(*byte) {
                Letter::Point => Some(()),
                _ => None,
            }
        },
    )
}

/// What follows the letter of an exponent at the front.
fn e_in(text: &[u8]) -> Option<((), &[u8])>
    ensures { MatchOption result (Lacks numbers (token e_at) text.now) (λ x. Takes numbers (token e_at) text.now mark x.1.now) }
{
    take(
        text,
        |byte: &u8| -> Option<()>
            ensures { option_map (λ _. mark) result ≡ e_at (letter_of byte.now) }
        {
            match letter_of(*byte) {
                Letter::E => Some(()),
                _ => None,
            }
        },
    )
}

/// What follows the sign of an exponent at the front.
fn plus_minus_in(text: &[u8]) -> Option<((), &[u8])>
    ensures { MatchOption result (Lacks numbers (token plus_minus_at) text.now) (λ x. Takes numbers (token plus_minus_at) text.now mark x.1.now) }
{
    take(
        text,
        |byte: &u8| -> Option<()>
            ensures { option_map (λ _. mark) result ≡ plus_minus_at (letter_of byte.now) }
        {
            match letter_of(*byte) {
                Letter::PlusMinus => Some(()),
                _ => None,
            }
        },
    )
}

/// What follows the digits at the front.
fn more_digits_in(text: &[u8]) -> &[u8]
    ensures { Gives numbers digits text.now (good mark (seen result.now)) }
{
    let mut rest = text;
    while let Some((_digit, after)) = digit_in(rest) {
        rest = after;
    }
    rest
}

/// What follows the digits at the front, of which there is one at least.
fn digits_in(text: &[u8]) -> Result<&[u8], &[u8]>
    ensures { Ends Digits text.now result }
{
    match digit_in(text) {
        Some((_digit, rest)) => Ok(more_digits_in(rest)),
        None => Err(text),
    }
}

/// What follows an exponent, from what stands after its letter on.
fn exponent_in(text: &[u8]) -> Result<&[u8], &[u8]>
    ensures { Ends Exponent text.now result }
{
    match plus_minus_in(text) {
        Some((_sign, rest)) => digits_in(rest),
        None => digits_in(text),
    }
}

/// What follows the exponent at the front, where there is one.
fn power_in(text: &[u8]) -> Result<&[u8], &[u8]>
    ensures { Ends Power text.now result }
{
    match e_in(text) {
        Some((_letter, rest)) => exponent_in(rest),
        None => Ok(text),
    }
}

/// What follows a number after its first digits.
fn fraction_in(text: &[u8]) -> Result<&[u8], &[u8]>
    ensures { Ends Fraction text.now result }
{
    match point_in(text) {
        Some((_point, rest)) => power_in(more_digits_in(rest)),
        None => power_in(text),
    }
}

/// What follows a number from its point on.
fn after_point(text: &[u8]) -> Result<&[u8], &[u8]>
    ensures { Ends Tail text.now result }
{
    match digits_in(text) {
        Ok(rest) => power_in(rest),
        Err(rest) => Err(rest),
    }
}

/// What follows the number at the front; the error has the text from the first bad byte on.
fn number_in(text: &[u8]) -> Result<&[u8], &[u8]>
    ensures { Ends Number text.now result }
{
    match point_in(text) {
        Some((_point, rest)) => after_point(rest),
        None => match digits_in(text) {
            Ok(rest) => fraction_in(rest),
            Err(rest) => Err(rest),
        },
    }
}

/// The place of the first byte with which the number at the front cannot go on.
pub(crate) fn number_end(text: &[u8]) -> usize
    ensures longest { IsNumberEnd text.now result }
    ensures within { result ≤ length text.now }
{
    match number_in(text) {
        Ok(left) => place_of(text, left),
        Err(rest) => place_of(text, rest),
    }
}
