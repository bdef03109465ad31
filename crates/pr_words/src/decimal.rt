// Whole numbers as readers write them: plain decimals.
ghost use Rattle.std.specs.Prelude.{◌≡◌, min, true};
ghost use Rattle.std.specs.List.{list_all};
ghost use Rattle.std.specs.Char.{is_ascii_digit};
ghost use Rattle.std.specs.Str.Parse.{digits_value};
ghost use Rattle.pr_words.specs.Decimals.{is_plain_decimal, plain_decimal};

fn are_digits(text: &[u8]) -> bool
    ensures { result ≡ list_all is_ascii_digit text.now }
{
    text.iter().all(|b| b.is_ascii_digit())
}

/// Whether a text is a plain decimal: one decimal digit, or more of them of which the first is no
/// zero.
pub fn is_plain_decimal(text: &[u8]) -> bool
    ensures { result ≡ is_plain_decimal text.now }
{
    match text {
        [] => false,
        [digit] => digit.is_ascii_digit(),
        [first, _, ..] => *first != b'0' && are_digits(text),
    }
}

// The number of the digits, or the limit where that is less.
fn capped(digits: &[u8], limit: u64) -> u64
    requires { list_all is_ascii_digit digits.now ≡ true }
    ensures { result ≡ min (digits_value 10 digits.now) limit }
{
    let mut value: u64 = 0;
    for digit in digits {
        value = value
            .saturating_mul(10)
            .saturating_add(u64::from(*digit - b'0'))
            .min(limit);
    }
    value
}

/// The number that a plain decimal writes, where it is below the limit: `0` or `640`, and neither
/// `007`, `+1` nor the empty text. Times, limits and counts are written so (that no zero leads is
/// an own choice). None for each other text.
pub fn plain_decimal(text: &[u8], limit: u64) -> Option<u64>
    ensures { result ≡ plain_decimal limit text.now }
{
    if !is_plain_decimal(text) {
        return None;
    }
    let value = capped(text, limit);
    if value < limit { Some(value) } else { None }
}
