//! Laws that tie the definitions of tokens to those of the crates below, each as the contract of a
//! function that does nothing.
ghost use Rattle.std.specs.Prelude.{◌≡◌, ◌<◌, ℕ, List, [], ◌∷◌, ◌++◌, length, true, false};
ghost use Rattle.std.specs.List.{list_all};
ghost use Rattle.std.specs.Char.{is_ascii_digit};
ghost use Rattle.pr_time.specs.pr_forms.Form.{Reads, Begins, rule};
ghost use Rattle.pr_num.specs.private.Forms.{Fraction, Exponent, IsUnsignedForm, HasUnsignedForm, unsigned_text};
ghost use Rattle.pr_time.specs.SpanText as spans;
ghost use Rattle.pr_time.specs.SpanText.{Text, ReadsSpan};
ghost use Rattle.pr_ast.specs.Bytes.{is_unit_letter};
ghost use Rattle.pr_ast.specs.Number.{production, seen, NumberValue, mark, Number};

/// What the grammar of numbers reads whole are the unsigned number texts: digits with an optional
/// point among them, and an optional exponent.
pub fn numbers_are_the_unsigned_forms()
    ensures forms_are_read { (whole : List ℕ) (fraction : Fraction) (exponent : Exponent) → IsUnsignedForm whole fraction exponent →
        Reads production (rule Number) (seen (unsigned_text whole fraction exponent)) mark [] }
    ensures reads_have_the_form { (text : List ℕ) (v : NumberValue) → Reads production (rule Number) (seen text) v [] → HasUnsignedForm text }
{}

/// The byte after digits is a unit letter exactly where a duration goes on over it: digits with one
/// are a whole duration, and over another byte that is no digit none can go on. So digits are left
/// to a number only where no duration goes on after them.
pub fn unit_letters_go_on()
    ensures whole { (ds : List ℕ) (b : ℕ) → 0 < length ds → list_all is_ascii_digit ds ≡ true → is_unit_letter b ≡ true →
        (ms : ℕ) × ReadsSpan (ds ++ b ∷ []) ms }
    ensures only { (ds : List ℕ) (b : ℕ) → 0 < length ds → list_all is_ascii_digit ds ≡ true → is_ascii_digit b ≡ false →
        Begins spans.production (rule Text) (spans.seen (ds ++ b ∷ [])) [] → is_unit_letter b ≡ true }
{}
