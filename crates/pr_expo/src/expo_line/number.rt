// The places of a number text.
ghost use Rattle.std.specs.Prelude.{◌≡◌};
ghost use Rattle.pr_expo.specs.Number.{number_start, unsigned_start, exponent_start, exponent_digit, number_next, is_number_end};

use crate::expo_line::characters::is_sign;

/// A place in a number text: after its sign, in its digits, after a point with no digits before it,
/// in the digits after a point, after the letter, the sign and digits of an exponent, and after the
/// letters of its words.
#[derive(Clone, Copy, Debug, PartialEq, Eq)]
pub enum NumberPlace {
    Signed,
    Whole,
    Point,
    Fraction,
    Exponent,
    ExponentSign,
    ExponentDigits,
    I,
    In,
    Inf,
    Infi,
    Infin,
    Infini,
    Infinit,
    Infinity,
    N,
    Na,
    Nan,
}

fn unsigned_start(c: char) -> Option<NumberPlace>
    ensures { result ≡ unsigned_start c }
{
    if c.is_ascii_digit() {
        Some(NumberPlace::Whole)
    } else if c == '.' {
        Some(NumberPlace::Point)
    } else if c.eq_ignore_ascii_case(&'i') {
        Some(NumberPlace::I)
    } else {
        None
    }
}

/// The place after the first character of a number text.
pub(crate) fn number_start(c: char) -> Option<NumberPlace>
    ensures { result ≡ number_start c }
{
    if is_sign(c) {
        Some(NumberPlace::Signed)
    } else if c.eq_ignore_ascii_case(&'n') {
        Some(NumberPlace::N)
    } else {
        unsigned_start(c)
    }
}

fn exponent_start(c: char) -> Option<NumberPlace>
    ensures { result ≡ exponent_start c }
{
    if c.eq_ignore_ascii_case(&'e') {
        Some(NumberPlace::Exponent)
    } else {
        None
    }
}

fn exponent_digit(c: char) -> Option<NumberPlace>
    ensures { result ≡ exponent_digit c }
{
    if c.is_ascii_digit() {
        Some(NumberPlace::ExponentDigits)
    } else {
        None
    }
}

/// The place after another character.
pub(crate) fn number_next(place: NumberPlace, c: char) -> Option<NumberPlace>
    ensures { result ≡ number_next place c }
{
    match place {
        NumberPlace::Signed => unsigned_start(c),
        NumberPlace::Whole => {
            if c.is_ascii_digit() {
                Some(NumberPlace::Whole)
            } else if c == '.' {
                Some(NumberPlace::Fraction)
            } else {
                exponent_start(c)
            }
        }
        NumberPlace::Point => {
            if c.is_ascii_digit() {
                Some(NumberPlace::Fraction)
            } else {
                None
            }
        }
        NumberPlace::Fraction => {
            if c.is_ascii_digit() {
                Some(NumberPlace::Fraction)
            } else {
                exponent_start(c)
            }
        }
        NumberPlace::Exponent => {
            if is_sign(c) {
                Some(NumberPlace::ExponentSign)
            } else {
                exponent_digit(c)
            }
        }
        NumberPlace::ExponentSign | NumberPlace::ExponentDigits => exponent_digit(c),
        NumberPlace::I if c.eq_ignore_ascii_case(&'n') => Some(NumberPlace::In),
        NumberPlace::In if c.eq_ignore_ascii_case(&'f') => Some(NumberPlace::Inf),
        NumberPlace::Inf if c.eq_ignore_ascii_case(&'i') => Some(NumberPlace::Infi),
        NumberPlace::Infi if c.eq_ignore_ascii_case(&'n') => Some(NumberPlace::Infin),
        NumberPlace::Infin if c.eq_ignore_ascii_case(&'i') => Some(NumberPlace::Infini),
        NumberPlace::Infini if c.eq_ignore_ascii_case(&'t') => Some(NumberPlace::Infinit),
        NumberPlace::Infinit if c.eq_ignore_ascii_case(&'y') => Some(NumberPlace::Infinity),
        NumberPlace::N if c.eq_ignore_ascii_case(&'a') => Some(NumberPlace::Na),
        NumberPlace::Na if c.eq_ignore_ascii_case(&'n') => Some(NumberPlace::Nan),
        _ => None,
    }
}

/// Whether a number text may end here.
pub(crate) fn is_number_end(place: NumberPlace) -> bool
    ensures { result ≡ is_number_end place }
{
    matches!(
        place,
        NumberPlace::Whole
            | NumberPlace::Fraction
            | NumberPlace::ExponentDigits
            | NumberPlace::Inf
            | NumberPlace::Infinity
            | NumberPlace::Nan
    )
}
