//! Laws of the definitions that contracts of this crate cite. A law is a function that does
//! nothing, and its contract is the theorem.
ghost use Rattle.std.specs.Prelude.{◌≡◌, ℕ, List, [], map, codes, nat_eq, not, true, false, None, Some};
ghost use Rattle.std.specs.List.{list_all, list_any, slice_get};
ghost use Rattle.std.specs.Str.{bytes_eq};
ghost use Rattle.pr_labels.specs.declared.pair.Pair.{Pair};
ghost use Rattle.pr_labels.specs.LabelSet.{text_at, value_of};
ghost use Rattle.pr_match.specs.Pattern.{is_pattern, matches_whole, expanded, is_readable, anchored};
ghost use Rattle.pr_match.specs.Matcher.{LabelTest, label_test, equality, is_met, meets, meets_all, passes, places_from};
ghost use Rattle.pr_match.specs.declared.op.MatchOp.TheVariants.{Equal, NotEqual, Like, NotLike};

/// `!=` lets through exactly those label sets that `=` does not, and `!~` those that `=~` does not.
#[tactic(auto, unfolding(crate::specs::Matcher::meets))]
pub fn operators_are_opposite()
    ensures equal { (name text : List ℕ) (labels : List Pair)
        → meets (label_test name NotEqual text) labels ≡ not (meets (label_test name Equal text) labels) }
    ensures like { (name pattern : List ℕ) (labels : List Pair)
        → meets (label_test name NotLike pattern) labels ≡ not (meets (label_test name Like pattern) labels) }
{}

/// A label that a set has not is as one with an empty value: what a matcher says of it is what it
/// says of the set without labels, and that is what its operator says of the empty text.
#[tactic(auto, unfolding(crate::specs::Matcher::meets))]
pub fn an_absent_label_is_empty()
    ensures absent { (test : LabelTest) (labels : List Pair)
        → value_of labels test.name ≡ None → meets test labels ≡ meets test [] }
    ensures empty { (test : LabelTest) → meets test [] ≡ passes test.op test.text [] }
{}

/// A place is selected exactly where a label set stands there that meets all of the matchers.
#[tactic(auto, using(crate::proofs::Selected::selected))]
pub fn selected_sets_meet_all()
    ensures { (tests : List LabelTest) (sets : List (List Pair)) (place : ℕ)
        → list_any (nat_eq place) (places_from 0 tests sets) ≡ is_met tests (slice_get sets place) }
{}

/// Matchers with `=` ask for pairs: a label set meets them where it has each of the values.
pub fn equalities_ask_for_pairs()
    ensures { (pairs labels : List Pair)
        → meets_all (map equality pairs) labels ≡ list_all (λ q. bytes_eq (text_at labels q.name) q.value) pairs }
{}

/// Worked examples of which texts are patterns, of what they match, and of what a template makes.
pub fn patterns_by_example()
    ensures side { matches_whole (codes "a|bc") (codes "bc") ≡ true }
    ensures sides { matches_whole (codes "a|bc") (codes "abc") ≡ false }
    ensures part { matches_whole (codes "b") (codes "ab") ≡ false }
    ensures empty { matches_whole (codes "a*") [] ≡ true }
    ensures template { expanded (codes "(a)(?P<x>b)") (codes "ab") (codes "$x$1a$$") ≡ Some (codes "b$") }
    ensures no_match { expanded (codes "a") (codes "b") (codes "x") ≡ None }
    ensures pattern { is_pattern (codes "a(b)") ≡ true }
    ensures open_group { is_pattern (codes "a(") ≡ false }
    ensures only_anchored { is_pattern (codes ")(?:") ≡ false }
    ensures anchored_reads { is_readable (anchored (codes ")(?:")) ≡ true }
    ensures only_alone { is_pattern (codes "(?x)a #") ≡ false }
    ensures alone_reads { is_readable (codes "(?x)a #") ≡ true }
    ensures last_line_feed { matches_whole (codes "a") (codes "a\n") ≡ false }
{}
