//! Rounding half to even, in 128 bits.
ghost use Rattle.std.specs.Prelude.{◌≡◌, ℕ, ◌+◌, ◌-◌, ◌*◌, ◌/◌, ◌%◌, ◌^◌, ◌<◌, ◌≤◌, IfSome, IfNone};
ghost use Rattle.pr_num.specs.Half.{half_abs, round_by_rest};

/// The base of a number in two parts.
pub(crate) const STEP: u128 = 18_446_744_073_709_551_616;

/// A number as a multiple of a divisor and a rest, by one division.
#[tactic(auto, using(crate::proofs::Rounding::rest_is))]
pub(crate) fn divided(n: u128, divisor: u128) -> (u128, u128)
    requires { 0 < divisor }
    ensures quotient { result.0 ≡ n / divisor }
    ensures rest { result.1 ≡ n % divisor }
    ensures below { result.1 < divisor }
{
    let quotient = n / divisor;
    (quotient, n - quotient * divisor)
}

/// The quotient, or the next number where the rest is above half of the divisor; at half, the even
/// one of both.
pub(crate) fn round_rest(quotient: u128, rest: u128, divisor: u128) -> u128
    requires small { quotient + 1 < 2 ^ 128 }
    requires below { rest < divisor }
    ensures { result ≡ round_by_rest quotient rest divisor }
{
    let other = divisor - rest;
    if rest < other {
        quotient
    } else if other < rest {
        quotient + 1
    } else {
        quotient + quotient % 2
    }
}

/// `n / d`, rounded half to even.
#[tactic(auto, unfolding(crate::specs::Half::half_abs))]
pub(crate) fn half_of(n: u128, d: u128) -> u128
    requires small { n + 1 < 2 ^ 128 }
    requires positive { 0 < d }
    ensures { result ≡ half_abs n d }
{
    let (quotient, rest) = divided(n, d);
    round_rest(quotient, rest, d)
}

/// The sum of two rests as a multiple of the divisor, 0 or 1 times, and a rest.
fn rests_added(x: u128, y: u128, divisor: u128) -> (u128, u128)
    requires { (x < divisor) × (y < divisor) }
    ensures sum { x + y ≡ result.0 * divisor + result.1 }
    ensures below { result.1 < divisor }
    ensures carry { result.0 ≤ 1 }
{
    let gap = divisor - y;
    if x < gap { (0, x + y) } else { (1, x - gap) }
}

/// `a * b` as a multiple of the divisor and a rest, where the product may pass 128 bits: by b's
/// bits, the highest first.
fn product_by_bits(a: u128, b: u128, divisor: u128) -> (u128, u128)
    requires { a < divisor }
    ensures product { a * b ≡ result.0 * divisor + result.1 }
    ensures below { result.1 < divisor }
    ensures small { result.0 ≤ b - 1 }
{
    if b == 0 {
        return (0, 0);
    }
    if b == 1 {
        return (0, a);
    }
    let (front, rest) = product_by_bits(a, b / 2, divisor);
    let (carry, doubled) = rests_added(rest, rest, divisor);
    let quotient = 2 * front + carry;
    if b % 2 == 0 {
        return (quotient, doubled);
    }
    let (more, last) = rests_added(doubled, a, divisor);
    (quotient + more, last)
}

/// `a * b` as a multiple of the divisor and a rest.
#[tactic(auto, using(crate::proofs::Rounding::product_is))]
fn product_parts(a: u128, b: u128, divisor: u128) -> (u128, u128)
    requires { a < divisor }
    ensures product { a * b ≡ result.0 * divisor + result.1 }
    ensures below { result.1 < divisor }
{
    match a.checked_mul(b) {
        Some(product) => divided(product, divisor),
        None => product_by_bits(a, b, divisor),
    }
}

/// The quotient `whole + part` with a rest, rounded, or nothing where that is 2^127 or more.
fn parts_rounded(whole: u128, part: u128, rest: u128, divisor: u128) -> Option<u128>
    requires { rest < divisor }
    ensures some { IfSome result (λ n. n ≡ round_by_rest (whole + part) rest divisor) }
    ensures none { IfNone result (2 ^ 127 ≤ whole + part) }
{
    match whole.checked_add(part) {
        Some(quotient) if quotient < u128::MAX => Some(round_rest(quotient, rest, divisor)),
        _ => None,
    }
}

/// `a * b / c`, rounded once, or nothing where that is 2^127 or more: put together from `a / c * b`
/// and the rest, since the product may pass 128 bits.
#[tactic(auto, using(crate::proofs::Rounding::scaled_round, crate::proofs::Rounding::scaled_floor, crate::proofs::Rounding::scaled_front))]
fn half_in_parts(a: u128, b: u128, c: u128) -> Option<u128>
    requires { 0 < c }
    ensures some { IfSome result (λ n. n ≡ half_abs (a * b) c) }
    ensures none { IfNone result (2 ^ 127 ≤ half_abs (a * b) c) }
{
    let (front, left) = divided(a, c);
    let (part, rest) = product_parts(left, b, c);
    parts_rounded(front.checked_mul(b)?, part, rest, c)
}

/// `a * b / c`, rounded once, or nothing where that is 2^127 or more.
pub(crate) fn half_scaled(a: u128, b: u128, c: u128) -> Option<u128>
    requires { 0 < c }
    ensures some { IfSome result (λ n. n ≡ half_abs (a * b) c) }
    ensures none { IfNone result (2 ^ 127 ≤ half_abs (a * b) c) }
{
    match a.checked_mul(b) {
        Some(product) if product < u128::MAX => Some(half_of(product, c)),
        _ => half_in_parts(a, b, c),
    }
}

/// `(high * 2^64 + low) / n`, rounded, or nothing where that is far above all values.
#[tactic(auto, using(crate::proofs::Rounding::wide_round, crate::proofs::Rounding::wide_floor))]
pub(crate) fn half_wide(high: u128, low: u128, n: u64) -> Option<u128>
    requires over { 0 < n }
    requires low { low ≤ 2 ^ 64 }
    ensures some { IfSome result (λ x. x ≡ half_abs (high * 2 ^ 64 + low) n) }
    ensures none { IfNone result (10 ^ 29 ≤ half_abs (high * 2 ^ 64 + low) n) }
{
    let over = n as u128;
    let (front, left) = divided(high, over);
    let (part, rest) = divided(left * STEP + low, over);
    parts_rounded(front.checked_mul(STEP)?, part, rest, over)
}
