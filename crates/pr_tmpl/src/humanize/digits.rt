//! Writing decimals.
ghost use Rattle.std.specs.Prelude.{◌≡◌, ℕ, ◌+◌, ◌*◌, ◌/◌, ◌^◌, ◌<◌, ◌≤◌, ◌++◌, ◌∷◌, [], OnOk, string_bytes, decimal};
ghost use Rattle.pr_num.specs.Half.{half_abs};
ghost use Rattle.pr_tmpl.specs.Decimals.{digits_text, cut_text, whole_places, cut_places, lost, four_digits, sig4, rounded};

use itoa::Buffer;
use std::alloc::AllocError;

/// Appends a byte of ASCII.
pub fn push_byte(out: &mut String, byte: u8) -> Result<(), AllocError>
    requires { byte < 128 }
    ensures { OnOk result (string_bytes out.new ≡ string_bytes out.old ++ byte ∷ []) }
{
    out.push(char::from(byte))
}

pub(crate) fn push_whole(out: &mut String, number: u128) -> Result<(), AllocError>
    ensures { OnOk result (string_bytes out.new ≡ string_bytes out.old ++ decimal number) }
{
    let mut buffer = Buffer::new();
    out.push_str(buffer.format(number))
}

/// A power of ten.
fn power_of_ten(places: u32) -> u128
    requires { places ≤ 30 }
    ensures value { result ≡ 10 ^ places }
    ensures small { result ≤ 10 ^ 30 }
    ensures some { 0 < result }
{
    10u128.pow(places)
}

/// Appends so many digits of a number, zeros at the front among them.
fn push_digits(out: &mut String, places: u32, number: u128) -> Result<(), AllocError>
    requires few { places ≤ 30 }
    requires small { number < 10 ^ places }
    ensures { OnOk result (string_bytes out.new ≡ string_bytes out.old ++ digits_text places number) }
{
    let mut left = places;
    let mut rest = number;
    while left > 0 {
        left -= 1;
        let power = power_of_ten(left);
        push_byte(out, b'0' + (rest / power) as u8)?;
        rest %= power;
    }
    Ok(())
}

/// Appends so many digits of a number, without the zeros at the end.
fn push_cut(out: &mut String, places: u32, number: u128) -> Result<(), AllocError>
    requires few { places ≤ 30 }
    requires small { number < 10 ^ places }
    ensures { OnOk result (string_bytes out.new ≡ string_bytes out.old ++ cut_text places number) }
{
    let mut left = places;
    let mut rest = number;
    while rest > 0 {
        left -= 1;
        let power = power_of_ten(left);
        push_byte(out, b'0' + (rest / power) as u8)?;
        rest %= power;
    }
    Ok(())
}

/// Appends a number of units of 10^-places, with all its places.
pub(crate) fn push_whole_places(
    out: &mut String,
    places: u32,
    number: u128,
) -> Result<(), AllocError>
    requires { places ≤ 30 }
    ensures { OnOk result (string_bytes out.new ≡ string_bytes out.old ++ whole_places places number) }
{
    let power = power_of_ten(places);
    push_whole(out, number / power)?;
    if places == 0 {
        return Ok(());
    }
    push_byte(out, b'.')?;
    push_digits(out, places, number % power)
}

/// Appends a number of units of 10^-places, without the zeros at its end.
pub(crate) fn push_cut_places(out: &mut String, places: u32, number: u128) -> Result<(), AllocError>
    requires { places ≤ 30 }
    ensures { OnOk result (string_bytes out.new ≡ string_bytes out.old ++ cut_places places number) }
{
    let power = power_of_ten(places);
    push_whole(out, number / power)?;
    let rest = number % power;
    if rest == 0 {
        return Ok(());
    }
    push_byte(out, b'.')?;
    push_cut(out, places, rest)
}

/// `n / d`, rounded half to even.
#[tactic(auto, unfolding(pr_num::specs::Half::half_abs))]
fn half_of(n: u128, d: u128) -> u128
    requires small { n < 2 ^ 127 }
    requires some { 0 < d }
    ensures value { result ≡ half_abs n d }
    ensures small { result ≤ n / d + 1 }
{
    let quotient = n / d;
    let rest = n % d;
    let other = d - rest;
    if rest < other {
        quotient
    } else if other < rest {
        quotient + 1
    } else {
        quotient + quotient % 2
    }
}

/// How many digits stand after the first four.
fn lost_of(number: u128) -> u32
    requires { number < 10 ^ 29 }
    ensures value { result ≡ lost number }
    ensures few { result ≤ 25 }
{
    let mut buffer = Buffer::new();
    buffer.format(number).len().saturating_sub(4) as u32
}

/// The number rounded to four significant digits.
#[tactic(auto, unfolding(crate::specs::Decimals::four_digits))]
fn four_digits(number: u128) -> u128
    requires { number < 10 ^ 29 }
    ensures { result ≡ four_digits number }
{
    let power = power_of_ten(lost_of(number));
    half_of(number, power) * power
}

/// Appends a number of units of 10^-places with four significant digits.
pub(crate) fn push_sig4(out: &mut String, places: u32, number: u128) -> Result<(), AllocError>
    requires few { places ≤ 30 }
    requires small { number < 10 ^ 29 }
    ensures { OnOk result (string_bytes out.new ≡ string_bytes out.old ++ sig4 places number) }
{
    push_cut_places(out, places, four_digits(number))
}

/// A number of units of 10^-9 rounded to so many places.
pub(crate) fn rounded(places: u32, number: u128) -> u128
    requires few { places ≤ 9 }
    requires small { number < 10 ^ 29 }
    ensures { result ≡ rounded places number }
{
    half_of(number, power_of_ten(9 - places))
}
