//! Laws of the definitions that contracts of this crate cite. A law is a function that does
//! nothing, and its contract is the theorem.
ghost use Rattle.std.specs.Prelude.{◌≡◌, ◌≢◌, ◌*◌, ◌<◌, ◌≤◌, ◌∷◌, ◌++◌, ◌↔◌, ℕ, ℤ, List, [], IfSome, codes, true, unsigned_abs};
ghost use Rattle.std.specs.Cmp.{IsTotalOrder};
ghost use Rattle.std.specs.Str.{IsAscii, str_eq_ignore_ascii_case};
ghost use Rattle.std.specs.declared.cmp.Ordering.{Ordering};
ghost use Rattle.pr_num.specs.Arithmetic.{IsFit, infinity, product_of, sum_of};
ghost use Rattle.pr_num.specs.private.Forms.{Exponent, Fraction, IsInfinityWord, IsNumberText, IsUnsignedForm, Sign, decimals, form_text, is_minus, scale_part, sign_text};
ghost use Rattle.pr_num.specs.Half.{IsHalf, half};
ghost use Rattle.pr_num.specs.Multiples.{IsFloor, floor_quotient};
ghost use Rattle.pr_num.specs.Order.{compared, order_of};
ghost use Rattle.pr_num.specs.Reads.{number_of, reads, text_magnitude};
ghost use Rattle.pr_num.specs.Shown.{shown};
ghost use Rattle.pr_num.specs.Total.{Tally, joined, no_values, one_value, total_of};
ghost use Rattle.pr_num.specs.declared.text.NumFault.{NumFault};
ghost use Rattle.pr_num.specs.declared.value.Num.{Num};

/// The printed text of every value reads as that value.
#[tactic(auto, using(crate::proofs::RoundTrip::reads_shown))]
pub fn printed_texts_read_back()
    ensures { (v : Num) → IsFit v → reads (shown v) ≡ Ok v }
{}

/// The printed text of every value is ASCII, and so UTF-8.
#[tactic(auto, using(crate::proofs::Ascii::shown_ascii))]
pub fn printed_texts_are_ascii()
    ensures { (v : Num) → IsFit v → IsAscii (shown v) }
{}

/// The texts of the form read as their exact fraction, rounded, and the words as what they name. No
/// other text is read as a number.
#[tactic(auto, using(crate::proofs::FormTexts::form_reads, crate::proofs::FormTexts::infinity_reads, crate::proofs::FormTexts::nan_reads, crate::proofs::FormsOnly::only_number_texts))]
pub fn number_texts_have_the_form()
    ensures form { (sign : Sign) (whole : List ℕ) (fraction : Fraction) (exponent : Exponent) →
        IsUnsignedForm whole fraction exponent →
        reads (form_text sign whole fraction exponent)
        ≡ number_of (is_minus sign) (text_magnitude whole (decimals fraction) (scale_part exponent)) }
    ensures infinity { (sign : Sign) (word : List ℕ) → IsInfinityWord word →
        reads (sign_text sign ++ word) ≡ Ok (infinity (is_minus sign)) }
    ensures nan { (text : List ℕ) → str_eq_ignore_ascii_case text (codes "nan") ≡ true → reads text ≡ Ok Num.NaN }
    ensures only { (text : List ℕ) → reads text ≢ Err NumFault.NotNumber → IsNumberText text }
{}

/// Rounding gives the whole number next to a fraction and the even one of two, and no other number
/// is so. What is at most, or at least, a whole number in magnitude is rounded to no more, or no
/// less.
#[tactic(auto, using(crate::proofs::HalfLawZ::half_is, crate::proofs::HalfLawZ::half_only, crate::proofs::HalfLawZ::half_within, crate::proofs::HalfLawZ::half_beyond))]
pub fn rounding_is_half_to_even()
    ensures nearest { (p q : ℤ) → 0 < unsigned_abs q → IsHalf p q (half p q) }
    ensures only { (p q n : ℤ) → 0 < unsigned_abs q → IsHalf p q n → n ≡ half p q }
    ensures within { (p q : ℤ) (m : ℕ) → 0 < unsigned_abs q →
        unsigned_abs p ≤ m * unsigned_abs q → unsigned_abs (half p q) ≤ m }
    ensures beyond { (p q : ℤ) (m : ℕ) → 0 < unsigned_abs q →
        m * unsigned_abs q ≤ unsigned_abs p → m ≤ unsigned_abs (half p q) }
{}

/// The floor of a fraction is the greatest whole number that is not above it, and no other number
/// is so.
#[tactic(auto, using(crate::proofs::Floors::floor_is, crate::proofs::Floors::floor_only))]
pub fn floor_is_next_below()
    ensures floor { (p q : ℤ) → 0 < unsigned_abs q → IsFloor p q (floor_quotient p q) }
    ensures only { (p q n : ℤ) → 0 < unsigned_abs q → IsFloor p q n → n ≡ floor_quotient p q }
{}

/// Sums and products do not depend on the order of their two values.
#[tactic(auto, using(crate::proofs::Algebra::sum_commutes, crate::proofs::Algebra::product_commutes))]
pub fn sums_and_products_commute()
    ensures sum { (a b : Num) → sum_of a b ≡ sum_of b a }
    ensures product { (a b : Num) → product_of a b ≡ product_of b a }
{}

/// `order` is a total order, in which only equal values are equal. NaN comes first, and the other
/// values stand as `compare` says.
#[tactic(auto, using(crate::proofs::Algebra::order_is_total, crate::proofs::Algebra::order_tells_apart, crate::proofs::Algebra::nan_is_first, crate::proofs::Algebra::order_agrees))]
pub fn order_is_total()
    ensures total { IsTotalOrder order_of }
    ensures equal { (a b : Num) → (order_of a b ≡ Ordering.Equal) ↔ (a ≡ b) }
    ensures nan_first { (b : Num) → order_of Num.NaN b ≢ Ordering.Greater }
    ensures agrees { (a b : Num) → IfSome (compared a b) (λ o. order_of a b ≡ o) }
{}

/// The totals of two lists join to that of the one after the other, in any grouping, and that of no
/// values changes nothing.
#[tactic(auto, using(crate::proofs::Algebra::joined_lists, crate::proofs::Algebra::joined_groups, crate::proofs::Algebra::nothing_joined_left, crate::proofs::Algebra::nothing_joined_right))]
pub fn totals_join()
    ensures lists { (xs ys : List Num) → total_of (xs ++ ys) ≡ joined (total_of xs) (total_of ys) }
    ensures one { (v : Num) → total_of (v ∷ []) ≡ one_value v }
    ensures groups { (a b c : Tally) → joined (joined a b) c ≡ joined a (joined b c) }
    ensures unit { (a : Tally) → (joined no_values a ≡ a) × (joined a no_values ≡ a) }
{}
