//! Spans as they are printed.
ghost use Rattle.std.specs.Prelude.{◌≡◌, ◌+◌, ◌<◌, ◌≤◌, ◌^◌, ◌++◌, length, take, drop};
ghost use Rattle.pr_time.specs.SpanShown.{part_text, shown_span};

use crate::value::Span;
use itoa::Buffer;

/// Writes the bytes at a place, and says where they end.
fn put(out: &mut [u8; 40], at: usize, bytes: &[u8]) -> usize
    requires { at + length bytes.now ≤ 40 }
    ensures at { result ≡ at + length bytes.now }
    ensures text { take result out.new ≡ take at out.old ++ bytes.now }
    ensures rest { drop result out.new ≡ drop result out.old }
{
    out[at..at + bytes.len()].copy_from_slice(bytes);
    at + bytes.len()
}

/// Writes a number with its unit at a place, or nothing where the number is 0, and says where the
/// text ends.
fn put_part(out: &mut [u8; 40], at: usize, number: u64, unit: &[u8]) -> usize
    requires room { at + 7 ≤ 40 }
    requires small { number < 10 ^ 5 }
    requires short { length unit.now ≤ 2 }
    ensures from { at ≤ result }
    ensures at { result ≤ at + 7 }
    ensures text { take result out.new ≡ take at out.old ++ part_text number unit.now }
    ensures rest { drop result out.new ≡ drop result out.old }
{
    if number == 0 {
        return at;
    }
    let mut buffer = Buffer::new();
    let unit_at = put(out, at, buffer.format(number).as_bytes());
    put(out, unit_at, unit)
}

/// Writes a span in days, hours, minutes, seconds and milliseconds at the front of `out`, leaving
/// out what is 0 (`1h7ms`, and `0s` where all is), and says how many bytes that took. The other
/// bytes stay.
pub fn write_span(s: Span, out: &mut [u8; 40]) -> usize
    ensures at { result ≤ 40 }
    ensures text { take result out.new ≡ shown_span s }
    ensures rest { drop result out.new ≡ drop result out.old }
{
    let ms = s.get();
    if ms == 0 {
        return put(out, 0, b"0s");
    }
    let days_end = put_part(out, 0, ms / 86_400_000, b"d");
    let hours_end = put_part(out, days_end, ms % 86_400_000 / 3_600_000, b"h");
    let minutes_end = put_part(out, hours_end, ms % 3_600_000 / 60_000, b"m");
    let seconds_end = put_part(out, minutes_end, ms % 60_000 / 1_000, b"s");
    put_part(out, seconds_end, ms % 1_000, b"ms")
}
