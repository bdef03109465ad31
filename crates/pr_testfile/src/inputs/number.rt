// Numbers and counts.
ghost use Rattle.std.specs.Prelude.{◌≡◌, ◌^◌, ◌≤◌, min, true, IfSome};
ghost use Rattle.std.specs.List.{list_all};
ghost use Rattle.std.specs.Char.{is_ascii_digit};
ghost use Rattle.std.specs.Str.Parse.{digits_value};
ghost use Rattle.pr_testfile.specs.Numbers.{number_of, is_sign, unsigned_number, count_of};

use pr_num::{Num, read};
use pr_words::is_plain_decimal;

/// The value of a number text; none where it is no number, or too wide.
#[tactic(auto, unfolding(crate::specs::Numbers::number_of))]
pub fn number_of(text: &[u8]) -> Option<Num>
    ensures { result ≡ number_of text.now }
{
    match read(text) {
        Ok(value) => Some(value),
        Err(_) => None,
    }
}

pub(crate) fn is_sign(byte: u8) -> bool
    ensures { result ≡ is_sign byte }
{
    byte == b'+' || byte == b'-'
}

/// The same of a text without a sign.
pub(crate) fn unsigned_number(text: &[u8]) -> Option<Num>
    ensures { result ≡ unsigned_number text.now }
{
    match text.split_first() {
        Some((first, _rest)) => {
            if is_sign(*first) {
                None
            } else {
                number_of(text)
            }
        }
        None => None,
    }
}

const MOST_COUNT: u128 = 1 << 100;

// The number of the digits, or 2^100 where that is less.
fn capped(digits: &[u8]) -> u128
    requires { list_all is_ascii_digit digits.now ≡ true }
    ensures { result ≡ min (digits_value 10 digits.now) (2 ^ 100) }
{
    let mut value: u128 = 0;
    for digit in digits {
        value = value
            .saturating_mul(10)
            .saturating_add(u128::from(*digit - b'0'))
            .min(MOST_COUNT);
    }
    value
}

/// How often, where the text is a plain decimal.
#[tactic(auto, unfolding(crate::specs::Numbers::count_of))]
pub(crate) fn count_of(text: &[u8]) -> Option<u128>
    ensures value { result ≡ count_of text.now }
    ensures small { IfSome result (λ n. n ≤ 2 ^ 100) }
{
    if is_plain_decimal(text) {
        Some(capped(text))
    } else {
        None
    }
}
