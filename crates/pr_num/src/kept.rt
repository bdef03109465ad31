//! The first digits of a number of any length.
ghost use Rattle.std.specs.Prelude.{◌≡◌, ℕ, ◌+◌, ◌*◌, ◌^◌, ◌<◌, ◌≤◌, length, true};
ghost use Rattle.std.specs.List.{list_all};
ghost use Rattle.std.specs.Char.{is_ascii_digit};
ghost use Rattle.std.specs.Str.Parse.{digits_value_after};
ghost use Rattle.pr_num.specs.private.Kept.{Keeps};

/// From here on 37 digits are kept.
const FULL: u128 = 1_000_000_000_000_000_000_000_000_000_000_000_000;

/// The first 37 digits of a number, leading zeros not counted, with what rounding needs to know of
/// the others. A divisor that is a power of ten is even, so these can only break a tie.
#[derive(Clone, Copy, Drop)]
pub(crate) struct Kept {
    /// The digits that are kept, as a number.
    pub front: u128,
    /// How many digits were dropped after them.
    pub dropped: u128,
    /// Whether a dropped digit is not 0.
    pub rest: bool,
}

/// No digit yet.
pub(crate) fn nothing() -> Kept
    ensures kept { Keeps result 0 }
    ensures none { result.dropped ≡ 0 }
{
    Kept {
        front: 0,
        dropped: 0,
        rest: false,
    }
}

/// The digits and one more.
fn push(k: Kept, digit: u8) -> Kept
    requires digit { digit < 10 }
    requires small { k.front < 10 ^ 37 }
    requires room { k.dropped < 2 ^ 100 }
    ensures kept { (n : ℕ) → Keeps k n → Keeps result (n * 10 + digit) }
    ensures small { result.front < 10 ^ 37 }
    ensures dropped { result.dropped ≤ k.dropped + 1 }
{
    if k.dropped == 0 && k.front < FULL {
        Kept {
            front: k.front * 10 + digit as u128,
            dropped: 0,
            rest: k.rest,
        }
    } else {
        Kept {
            front: k.front,
            dropped: k.dropped + 1,
            rest: k.rest || digit != 0,
        }
    }
}

/// The digits and these after them.
pub(crate) fn keep(k: Kept, digits: &[u8]) -> Kept
    requires digits { list_all is_ascii_digit digits.now ≡ true }
    requires small { k.front < 10 ^ 37 }
    requires room { k.dropped < 2 ^ 70 }
    ensures kept { (n : ℕ) → Keeps k n → Keeps result (digits_value_after 10 n digits.now) }
    ensures small { result.front < 10 ^ 37 }
    ensures dropped { result.dropped ≤ k.dropped + length digits.now }
{
    let mut all = k;
    for c in digits {
        all = push(all, *c - b'0');
    }
    all
}
