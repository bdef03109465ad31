//! Number texts.
ghost use Rattle.std.specs.Prelude.{◌≡◌, ℕ, ◌+◌, ◌*◌, ◌^◌, ◌<◌, ◌≤◌, ◌++◌, IfSome, IfNone, length, min, drop, take, true};
ghost use Rattle.std.specs.List.{prefix_len, list_all};
ghost use Rattle.std.specs.Char.{is_ascii_digit};
ghost use Rattle.std.specs.Str.{str_eq_ignore_ascii_case};
ghost use Rattle.std.specs.Str.Parse.{digits_value};
ghost use Rattle.pr_num.specs.Half.{signed};
ghost use Rattle.pr_num.specs.Reads.{is_numeral, scale_of, signed_scale, ending, text_magnitude, number_of, reads_number, reads_unsigned, reads, fraction_digits, after_fraction, front_digits, after_digits};

use crate::scale::magnitude_of;
use crate::sign::{infinity, value_within};
use crate::value::Num;

/// Why a text is read as no value.
#[derive(Clone, Copy, Debug, Drop, PartialEq, Eq)]
pub enum NumFault {
    /// It has not the form of a number text.
    NotNumber,
    /// Rounded to nine places, it is 10^20 or more in magnitude.
    TooWide,
}

/// Whether the bytes are this word, in any case.
fn is_word(bytes: &[u8], word: &[u8]) -> bool
    ensures { result ≡ str_eq_ignore_ascii_case bytes.now word.now }
{
    bytes.eq_ignore_ascii_case(word)
}

/// How many digits the bytes begin with.
fn front_len(bytes: &[u8]) -> usize
    ensures value { result ≡ prefix_len is_ascii_digit bytes.now }
    ensures within { result ≤ length bytes.now }
    ensures digits { list_all is_ascii_digit (take result bytes.now) ≡ true }
{
    let mut at = 0;
    while at < bytes.len() && bytes[at].is_ascii_digit() {
        at += 1;
    }
    at
}

/// The value of this sign and this many units, where they are not too many.
fn number_of(negative: bool, magnitude: u128) -> Result<Num, NumFault>
    ensures { result ≡ number_of negative magnitude }
{
    match value_within(negative, magnitude) {
        Some(value) => Ok(value),
        None => Err(NumFault::TooWide),
    }
}

fn all_digits(bytes: &[u8]) -> bool
    ensures { result ≡ list_all is_ascii_digit bytes.now }
{
    bytes.iter().all(|c| c.is_ascii_digit())
}

/// Whether the bytes are one digit or more.
fn is_numeral(bytes: &[u8]) -> bool
    ensures { result ≡ is_numeral bytes.now }
{
    !bytes.is_empty() && all_digits(bytes)
}

/// The value of the digits before and after a point, with an exponent.
fn read_parts(
    negative: bool,
    whole: &[u8],
    fraction: &[u8],
    divides: bool,
    exponent: &[u8],
) -> Result<Num, NumFault>
    requires whole { list_all is_ascii_digit whole.now ≡ true }
    requires fraction { list_all is_ascii_digit fraction.now ≡ true }
    requires exponent { list_all is_ascii_digit exponent.now ≡ true }
    ensures { result ≡ reads_number negative whole.now fraction.now
        (Some (record { divides = divides; digits = exponent.now })) }
{
    if whole.is_empty() && fraction.is_empty() {
        return Err(NumFault::NotNumber);
    }
    match magnitude_of(whole, fraction, divides, exponent) {
        Some(magnitude) => number_of(negative, magnitude),
        None => Err(NumFault::TooWide),
    }
}

/// Reads the digits of an exponent.
fn read_scale(
    negative: bool,
    whole: &[u8],
    fraction: &[u8],
    divides: bool,
    bytes: &[u8],
) -> Result<Num, NumFault>
    requires whole { list_all is_ascii_digit whole.now ≡ true }
    requires fraction { list_all is_ascii_digit fraction.now ≡ true }
    ensures { result ≡ reads_number negative whole.now fraction.now (scale_of divides bytes.now) }
{
    if is_numeral(bytes) {
        read_parts(negative, whole, fraction, divides, bytes)
    } else {
        Err(NumFault::NotNumber)
    }
}

/// Reads an exponent after its letter.
fn read_signed_scale(
    negative: bool,
    whole: &[u8],
    fraction: &[u8],
    bytes: &[u8],
) -> Result<Num, NumFault>
    requires whole { list_all is_ascii_digit whole.now ≡ true }
    requires fraction { list_all is_ascii_digit fraction.now ≡ true }
    ensures { result ≡ reads_number negative whole.now fraction.now (signed_scale bytes.now) }
{
    match bytes {
        [b'-', rest @ ..] => read_scale(negative, whole, fraction, true, rest),
        [b'+', rest @ ..] => read_scale(negative, whole, fraction, false, rest),
        _ => read_scale(negative, whole, fraction, false, bytes),
    }
}

/// Reads what stands after the digits: nothing, or an exponent.
fn read_ending(negative: bool, whole: &[u8], fraction: &[u8], bytes: &[u8]) -> Result<Num, NumFault>
    requires whole { list_all is_ascii_digit whole.now ≡ true }
    requires fraction { list_all is_ascii_digit fraction.now ≡ true }
    ensures { result ≡ reads_number negative whole.now fraction.now (ending bytes.now) }
{
    match bytes {
        [] => read_parts(negative, whole, fraction, false, bytes),
        [b'e' | b'E', rest @ ..] => read_signed_scale(negative, whole, fraction, rest),
        _ => Err(NumFault::NotNumber),
    }
}

/// Reads what stands after the digits before a point.
fn read_fraction(negative: bool, whole: &[u8], bytes: &[u8]) -> Result<Num, NumFault>
    requires whole { list_all is_ascii_digit whole.now ≡ true }
    ensures { result ≡ reads_number negative whole.now (fraction_digits bytes.now) (ending (after_fraction bytes.now)) }
{
    match bytes {
        [b'.', rest @ ..] => {
            let len = front_len(rest);
            read_ending(negative, whole, &rest[..len], &rest[len..])
        }
        _ => read_ending(negative, whole, &bytes[..0], bytes),
    }
}

/// Reads a text after its sign.
fn read_unsigned(negative: bool, bytes: &[u8]) -> Result<Num, NumFault>
    ensures { result ≡ reads_unsigned negative bytes.now }
{
    if is_word(bytes, b"inf") || is_word(bytes, b"infinity") {
        return Ok(infinity(negative));
    }
    let len = front_len(bytes);
    read_fraction(negative, &bytes[..len], &bytes[len..])
}

/// The value of a number text, rounded half to even at the ninth place.
///
/// A number text is an optional sign, digits with an optional point and digits, of which there is
/// one digit at least, and optionally `e` or `E`, an optional sign and digits. Digits and exponents
/// of any length are read exactly. The words `inf` and `infinity`, with an optional sign, and
/// `nan`, without one, are read in any case (after the Prometheus documentation, "Querying basics";
/// nine places and the width are own choice).
#[tactic(auto, unfolding(crate::specs::Reads::reads))]
pub fn read(text: &[u8]) -> Result<Num, NumFault>
    ensures { result ≡ reads text.now }
{
    match text {
        [] => Err(NumFault::NotNumber),
        [b'-', rest @ ..] => read_unsigned(true, rest),
        [b'+', rest @ ..] => read_unsigned(false, rest),
        _ => {
            if is_word(text, b"nan") {
                Ok(Num::NaN)
            } else {
                read_unsigned(false, text)
            }
        }
    }
}
