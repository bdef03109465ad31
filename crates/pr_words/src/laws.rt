//! The laws of plain decimals, each as the contract of a function that does nothing.
ghost use Rattle.std.specs.Prelude.{◌≡◌, ℕ, List, ◌<◌, ◌≤◌, ◌^◌, Some, None, codes, decimal};
ghost use Rattle.pr_words.specs.Decimals.{plain_decimal};

/// A plain decimal is the text that prints a number: each number below the limit is read from its
/// printed text, and from no other one.
pub fn plain_decimals_are_printed_numbers()
    ensures read { (limit n : ℕ) → limit ≤ 2 ^ 64 → n < limit → plain_decimal limit (decimal n) ≡ Some n }
    ensures below { (limit n : ℕ) (text : List ℕ) → limit ≤ 2 ^ 64 → plain_decimal limit text ≡ Some n → n < limit }
    ensures only { (limit n : ℕ) (text : List ℕ) → limit ≤ 2 ^ 64 → plain_decimal limit text ≡ Some n → text ≡ decimal n }
{}

/// Worked texts.
pub fn plain_decimals_by_example()
    ensures zero { plain_decimal 1 (codes "0") ≡ Some 0 }
    ensures below { plain_decimal 641 (codes "640") ≡ Some 640 }
    ensures at_limit { plain_decimal 640 (codes "640") ≡ None }
    ensures led_by_zero { plain_decimal 100 (codes "07") ≡ None }
    ensures two_zeros { plain_decimal 100 (codes "00") ≡ None }
    ensures empty { plain_decimal 100 (codes "") ≡ None }
    ensures signed { plain_decimal 100 (codes "+7") ≡ None }
    ensures blank { plain_decimal 100 (codes " 7") ≡ None }
{}
