//! What the formulas over ranges and histograms are made of: rounded quotients of whole numbers of
//! units, which may be wider than a value, and the comparison of products.
ghost use Rattle.std.specs.Prelude.{◌≡◌, ◌+◌, ◌*◌, ◌^◌, ◌<◌, ◌≤◌, ◌*ℤ◌, pos, unsigned_abs};
ghost use Rattle.std.specs.Option.{SomeIff};
ghost use Rattle.std.specs.Ordering.{int_cmp, nat_cmp};
ghost use Rattle.pr_num.specs.Arithmetic.{fitted};
ghost use Rattle.pr_num.specs.Half.{below_zero, half};

use crate::round::{STEP, half_of, half_scaled};
use crate::sign::{are_apart, is_below_zero, with_sign};
use crate::value::{Nano, Num, TooWide};
use std::cmp::Ordering;

/// From this magnitude on, 2^127, a rounded result is not answered.
const SIGNED_END: u128 = 170_141_183_460_469_231_731_687_303_715_884_105_728;

/// `p / q` for whole numbers, rounded half to even.
#[tactic(auto, using(crate::proofs::Signs::half_sum, crate::proofs::Signs::half_abs_small))]
pub fn half(p: i128, q: u128) -> i128
    requires dividend { unsigned_abs p < 2 ^ 127 }
    requires over { 0 < q }
    ensures value { result ≡ half p (pos q) }
    ensures small { unsigned_abs result ≤ unsigned_abs p }
{
    with_sign(is_below_zero(p), half_of(p.unsigned_abs(), q))
}

/// `a * b / c` for whole numbers, rounded once, half to even, however wide the product is. It
/// answers nothing exactly where the rounded result is 2^127 or more in magnitude, which is far
/// above every value.
#[tactic(auto, using(crate::proofs::Signs::half_product_signed, crate::proofs::Signs::abs_signed))]
pub fn half_product(a: i128, b: i128, c: u128) -> Option<i128>
    requires { 0 < c }
    ensures { SomeIff result (unsigned_abs (half (a *ℤ b) (pos c)) < 2 ^ 127) (half (a *ℤ b) (pos c)) }
{
    match half_scaled(a.unsigned_abs(), b.unsigned_abs(), c) {
        Some(magnitude) if magnitude < SIGNED_END => { Some(with_sign(are_apart(a, b), magnitude)) }
        _ => None,
    }
}

/// `units * b / c` for a number of units that may be wider than a value, rounded once, half to
/// even.
///
/// Answers `TooWide` exactly where the rounded result is 10^20 or more in magnitude.
#[tactic(auto, using(crate::proofs::Signs::muldiv_units_wide))]
pub fn muldiv_units(units: i128, b: u64, c: u64) -> Result<Num, TooWide>
    requires { 0 < c }
    ensures { result ≡ fitted (half (units *ℤ pos b) (pos c)) }
{
    match half_product(units, b as i128, c as u128) {
        Some(rounded) => Num::of_units(rounded),
        None => Err(TooWide),
    }
}

/// `a * b` as a multiple of 2^64 and a rest.
#[tactic(auto, using(crate::proofs::Rounding::product_in_parts))]
fn wide_product(a: u128, b: u64) -> (u128, u128)
    ensures number { result.0 * 2 ^ 64 + result.1 ≡ a * b }
    ensures low { result.1 < 2 ^ 64 }
{
    let times = b as u128;
    let low = a % STEP * times;
    (a / STEP * times + low / STEP, low % STEP)
}

/// How `a * b` stands to `c * d`.
#[tactic(auto, using(crate::proofs::Rounding::parts_less, crate::proofs::Rounding::parts_greater, crate::proofs::Rounding::parts_equal))]
fn magnitudes_compared(a: u128, b: u64, c: u128, d: u64) -> Ordering
    ensures { result ≡ nat_cmp (a * b) (c * d) }
{
    let (left, left_low) = wide_product(a, b);
    let (right, right_low) = wide_product(c, d);
    match left.cmp(&right) {
        Ordering::Less => Ordering::Less,
        Ordering::Greater => Ordering::Greater,
        Ordering::Equal => left_low.cmp(&right_low),
    }
}

/// Whether `a * b` is below zero.
fn is_product_below_zero(a: i128, b: u64) -> bool
    ensures { result ≡ below_zero (a *ℤ pos b) }
{
    a < 0 && b > 0
}

/// How `a * b` stands to `c * d`, exactly, however wide the products are.
#[tactic(auto, using(crate::proofs::Signs::products_up, crate::proofs::Signs::products_down, crate::proofs::Signs::products_rise, crate::proofs::Signs::products_fall))]
pub fn compare_products(a: i128, b: u64, c: i128, d: u64) -> Ordering
    ensures { result ≡ int_cmp (a *ℤ pos b) (c *ℤ pos d) }
{
    match (is_product_below_zero(a, b), is_product_below_zero(c, d)) {
        (false, false) => magnitudes_compared(a.unsigned_abs(), b, c.unsigned_abs(), d),
        (true, true) => magnitudes_compared(c.unsigned_abs(), d, a.unsigned_abs(), b),
        (false, true) => Ordering::Greater,
        (true, false) => Ordering::Less,
    }
}

impl Nano {
    /// How `self * b / c` stands to `d`, exactly.
    pub fn muldiv_cmp(self, b: u64, c: u64, d: Nano) -> Ordering
        requires times { b < 2 ^ 63 }
        requires over { (0 < c) × (c < 2 ^ 63) }
        ensures { result ≡ int_cmp (self *ℤ pos b) (d *ℤ pos c) }
    {
        compare_products(self.units(), b, d.units(), c)
    }
}
