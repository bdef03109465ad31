//! Numbers of any length times and over powers of ten.
ghost use Rattle.std.specs.Prelude.{◌≡◌, ℕ, ◌+◌, ◌*◌, ◌/◌, ◌%◌, ◌^◌, ◌<◌, ◌≤◌, ◌++◌, IfSome, IfNone, nat_lt, length, min, true};
ghost use Rattle.std.specs.List.{list_all};
ghost use Rattle.std.specs.Char.{is_ascii_digit};
ghost use Rattle.std.specs.Str.Parse.{digits_value};
ghost use Rattle.pr_num.specs.Half.{half_abs};
ghost use Rattle.pr_num.specs.private.Kept.{Keeps, SameShift};
ghost use Rattle.pr_num.specs.Reads.{text_magnitude};

use crate::kept::{Kept, keep, nothing};
use crate::round::{divided, round_rest};
use crate::value::WIDE;

/// An exponent from here on is as good as any greater one: lengths of texts are below 2^64.
const CAP: u128 = 1_000_000_000_000_000_000_000_000_000_000;

/// The number of the digits, and at most `CAP`.
fn capped(digits: &[u8]) -> u128
    requires { list_all is_ascii_digit digits.now ≡ true }
    ensures { result ≡ min (digits_value 10 digits.now) (10 ^ 30) }
{
    let mut value: u128 = 0;
    for c in digits {
        value = (value * 10 + (*c - b'0') as u128).min(CAP);
    }
    value
}

fn power_of_ten(by: u128) -> u128
    requires { by < 38 }
    ensures value { result ≡ 10 ^ by }
    ensures positive { 0 < result }
    ensures small { result ≤ 10 ^ 37 }
{
    10u128.pow(by as u32)
}

/// `front` times a power of ten, unless that is 10^29 or more.
fn grown(front: u128, by: u128) -> Option<u128>
    requires { 0 < front }
    ensures some { IfSome result (λ n. (n ≡ front * 10 ^ by) × (front < 10 ^ 29) × (by < 30)) }
    ensures none { IfNone result (10 ^ 29 ≤ front * 10 ^ by) }
{
    if by > 29 || front >= WIDE {
        return None;
    }
    front.checked_mul(power_of_ten(by))
}

/// A number over a power of ten, rounded half to even, from its first digits.
fn shrunk(k: Kept, by: u128) -> u128
    requires small { k.front < 10 ^ 37 }
    requires by { 0 < by }
    ensures { (n : ℕ) → Keeps k n → result ≡ half_abs n (10 ^ (k.dropped + by)) }
{
    if by > 37 {
        return 0;
    }
    let divisor = power_of_ten(by);
    let (quotient, rest) = divided(k.front, divisor);
    if k.rest && rest * 2 == divisor {
        quotient + 1
    } else {
        round_rest(quotient, rest, divisor)
    }
}

/// A number times 10^up over 10^down, rounded half to even, from its first digits, unless that is
/// 10^29 or more. `up` counts the dropped digits too.
fn placed(k: Kept, up: u128, down: u128) -> Option<u128>
    requires { k.front < 10 ^ 37 }
    ensures some { (n p s : ℕ) → Keeps k n → SameShift up down (p + k.dropped) s →
        IfSome result (λ x. x ≡ half_abs (n * 10 ^ p) (10 ^ s)) }
    ensures none { (n p s : ℕ) → Keeps k n → SameShift up down (p + k.dropped) s →
        IfNone result (10 ^ 29 ≤ half_abs (n * 10 ^ p) (10 ^ s)) }
{
    if k.front == 0 {
        return Some(0);
    }
    if down <= up {
        grown(k.front, up - down)
    } else {
        Some(shrunk(k, down - up))
    }
}

/// The units of 10^-9 in digits before and after a point with an exponent, rounded half to even,
/// unless they are 10^29 or more.
pub(crate) fn magnitude_of(
    whole: &[u8],
    fraction: &[u8],
    divides: bool,
    exponent: &[u8],
) -> Option<u128>
    requires whole { list_all is_ascii_digit whole.now ≡ true }
    requires fraction { list_all is_ascii_digit fraction.now ≡ true }
    requires exponent { list_all is_ascii_digit exponent.now ≡ true }
    ensures some { IfSome result (λ n.
        n ≡ text_magnitude whole.now fraction.now (record { divides = divides; digits = exponent.now })) }
    ensures none { IfNone result
        (10 ^ 29 ≤ text_magnitude whole.now fraction.now (record { divides = divides; digits = exponent.now })) }
{
    let kept = keep(keep(nothing(), whole), fraction);
    let power = capped(exponent);
    let up = 9 + kept.dropped;
    let down = fraction.len() as u128;
    if divides {
        placed(kept, up, down + power)
    } else {
        placed(kept, up + power, down)
    }
}
