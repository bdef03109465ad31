//! The one printed text of a value.
ghost use Rattle.std.specs.Prelude.{◌≡◌, ℕ, ◌+◌, ◌*◌, ◌/◌, ◌%◌, ◌^◌, ◌<◌, ◌≤◌, ◌++◌, ◌∷◌, [], length, take, drop, decimal};
ghost use Rattle.std.specs.Str.{IsAscii};
ghost use Rattle.pr_num.specs.Shown.{fraction_text, point_text, magnitude_text, shown};

use crate::value::Num;
use itoa::Buffer;

/// Puts a byte at a place, and says where it ends.
fn put_byte(out: &mut [u8; 40], at: usize, byte: u8) -> usize
    requires { at < 40 }
    ensures at { result ≡ at + 1 }
    ensures text { take result out.new ≡ take at out.old ++ byte ∷ [] }
    ensures rest { drop result out.new ≡ drop result out.old }
{
    out[at] = byte;
    at + 1
}

/// Puts bytes at a place, and says where they end.
fn put(out: &mut [u8; 40], at: usize, bytes: &[u8]) -> usize
    requires { at + length bytes.now ≤ 40 }
    ensures at { result ≡ at + length bytes.now }
    ensures text { take result out.new ≡ take at out.old ++ bytes.now }
    ensures rest { drop result out.new ≡ drop result out.old }
{
    out[at..at + bytes.len()].copy_from_slice(bytes);
    at + bytes.len()
}

/// Puts the digits of a fraction of this many units of 10^-9, up to the last one that is not 0.
fn put_fraction(out: &mut [u8; 40], start: usize, units: u64) -> usize
    requires room { start + 9 ≤ 40 }
    requires small { units < 10 ^ 9 }
    ensures at { (start ≤ result) × (result ≤ start + 9) }
    ensures text { take result out.new ≡ take start out.old ++ fraction_text 9 units }
    ensures rest { drop result out.new ≡ drop result out.old }
{
    let mut at = start;
    let mut left = units;
    'digits: while left != 0 {
        let shifted = left * 10;
        at = put_byte(out, at, b'0' + (shifted / 1_000_000_000) as u8);
        left = shifted % 1_000_000_000;
    }
    at
}

/// Puts a whole number, by 64 bits where it has no more.
fn put_whole(out: &mut [u8; 40], start: usize, whole: u128) -> usize
    requires room { start ≤ 1 }
    requires small { whole < 10 ^ 20 }
    ensures at { (start ≤ result) × (result ≤ start + 20) }
    ensures text { take result out.new ≡ take start out.old ++ decimal whole }
    ensures rest { drop result out.new ≡ drop result out.old }
{
    let mut buffer = Buffer::new();
    if whole <= u64::MAX as u128 {
        put(out, start, buffer.format(whole as u64).as_bytes())
    } else {
        put(out, start, buffer.format(whole).as_bytes())
    }
}

/// Puts a number of units of 10^-9: its whole part, and a point with the fraction where that is not
/// 0.
#[tactic(auto, using(crate::proofs::Printing::rest_later))]
fn put_magnitude(out: &mut [u8; 40], start: usize, magnitude: u128) -> usize
    requires room { start ≤ 1 }
    requires small { magnitude < 10 ^ 29 }
    ensures at { (start ≤ result) × (result ≤ 40) }
    ensures text { take result out.new ≡ take start out.old ++ magnitude_text magnitude }
    ensures rest { drop result out.new ≡ drop result out.old }
{
    let at = put_whole(out, start, magnitude / 1_000_000_000);
    let fraction = (magnitude % 1_000_000_000) as u64;
    if fraction == 0 {
        return at;
    }
    let after_point = put_byte(out, at, b'.');
    put_fraction(out, after_point, fraction)
}

/// Writes the printed text of a value to the front of the buffer, and says how many bytes it has.
/// The bytes after them stay.
///
/// The text is `-` where the value is negative, the whole part without leading zeros, and, where
/// the fraction is not 0, a point and up to nine digits without trailing zeros. The others print as
/// `NaN`, `+Inf` and `-Inf`, as Prometheus prints them.
#[tactic(auto, unfolding(crate::specs::Shown::shown), using(crate::proofs::Printing::rest_later, crate::proofs::Ascii::finite_ascii, crate::proofs::Ascii::nan_ascii, crate::proofs::Ascii::above_ascii, crate::proofs::Ascii::below_ascii))]
pub fn write(v: Num, out: &mut [u8; 40]) -> usize
    ensures bound { result ≤ 40 }
    ensures text { take result out.new ≡ shown v }
    ensures ascii { IsAscii (shown v) }
    ensures rest { drop result out.new ≡ drop result out.old }
{
    match v {
        Num::Finite(value) => {
            let units = value.units();
            let start = if units < 0 { put_byte(out, 0, b'-') } else { 0 };
            put_magnitude(out, start, units.unsigned_abs())
        }
        Num::NaN => put(out, 0, b"NaN"),
        Num::PosInf => put(out, 0, b"+Inf"),
        Num::NegInf => put(out, 0, b"-Inf"),
    }
}
