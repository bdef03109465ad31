// Laws of the definitions that the program's contract cites.
ghost use Rattle.std.specs.Prelude.{◌≡◌, ℕ, ◌+◌, List, ◌∷◌, ◌++◌, length, Some, true, false};
ghost use Rattle.std.specs.Str.{is_utf8};
ghost use Rattle.spec_world.specs.pr_labels.SeriesGrammar.{ReadsLabels};
ghost use Rattle.spec_world.specs.pr_labels.declared.pair.Pair.{Pair};
ghost use Rattle.pr_text.specs.Orders.{order_of, orders_of, orders_after};
ghost use Rattle.pr_text.specs.Script.{series_of, is_passed_over, is_body_line};
ghost use Rattle.pr_text.specs.declared.script.order.Order.TheVariants.{Bad};

/// A sample has the label set of any series text that is UTF-8, and no other one.
pub fn samples_have_label_sets()
    ensures sample { (text : List ℕ) (labels : List Pair) → is_utf8 text ≡ true → ReadsLabels text labels → series_of text ≡ Some labels }
    ensures series { (text : List ℕ) (labels : List Pair) → series_of text ≡ Some labels → ReadsLabels text labels }
{}

/// A line that is not UTF-8 spells no order, is not passed over, also where it begins with `#`, and
/// is no body line. So it is refused where it stands: the lines before it give the orders that they
/// give alone, and those behind it go on as if they followed so many lines and no body.
pub fn lines_that_are_no_text_are_refused()
    ensures alone { (line body : List ℕ) → is_utf8 line ≡ false → order_of line body ≡ Bad }
    ensures passed { (line : List ℕ) → is_utf8 line ≡ false → is_passed_over line ≡ false }
    ensures body { (line : List ℕ) → is_utf8 line ≡ false → is_body_line line ≡ false }
    ensures order { (before after : List (List ℕ)) (line : List ℕ) → is_utf8 line ≡ false
        → orders_of (before ++ (line ∷ after)) ≡ orders_of before ++ (record { number = length before + 1; order = Bad } ∷ orders_after (length before + 1) after) }
{}
