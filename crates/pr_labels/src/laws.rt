//! Laws of the definitions that contracts of this crate cite. A law is a function that does
//! nothing, and its contract is the theorem.
ghost use Rattle.std.specs.Prelude.{◌≡◌, ◌||◌, ℕ, Bool, true, false, List, cond, filter, None};
ghost use Rattle.std.specs.List.{list_any};
ghost use Rattle.std.specs.List.Sorted.{IsPermutation};
ghost use Rattle.std.specs.Option.{option_or};
ghost use Rattle.std.specs.Str.{bytes_eq};
ghost use Rattle.pr_labels.specs.Edits.{first_fault, has_value, key_labels, labels_of, listed_labels, set_label, union_labels, unlisted_labels, value_if_any, without_name};
ghost use Rattle.pr_labels.specs.LabelSet.{IsLabelSet, metric_label, value_of};
ghost use Rattle.pr_labels.specs.Names.{is_label_name};
ghost use Rattle.pr_labels.specs.declared.pair.Pair.{Pair};

/// What the operations give of label sets are label sets.
#[tactic(auto, using(crate::proofs::LabelLaws::set_stays, crate::proofs::LabelLaws::remove_stays, crate::proofs::LabelLaws::keep_stays, crate::proofs::LabelLaws::without_stays, crate::proofs::LabelLaws::key_stays, crate::proofs::LabelLaws::union_stays, crate::proofs::LabelLaws::made_is_set))]
pub fn operations_give_label_sets()
    ensures set { (ls : List Pair) (name value : List ℕ)
        → is_label_name name ≡ true → IsLabelSet ls → IsLabelSet (set_label ls name value) }
    ensures remove { (ls : List Pair) (name : List ℕ) → IsLabelSet ls → IsLabelSet (without_name ls name) }
    ensures keep { (ls : List Pair) (names : List (List ℕ))
        → IsLabelSet ls → IsLabelSet (listed_labels ls names) }
    ensures without { (ls : List Pair) (names : List (List ℕ))
        → IsLabelSet ls → IsLabelSet (unlisted_labels ls names) }
    ensures key { (on : Bool) (ls : List Pair) (names : List (List ℕ))
        → IsLabelSet ls → IsLabelSet (key_labels on ls names) }
    ensures union { (ls over : List Pair)
        → IsLabelSet ls → IsLabelSet over → IsLabelSet (union_labels ls over) }
    ensures from_pairs { (pairs : List Pair)
        → first_fault pairs ≡ None → IsLabelSet (labels_of pairs) }
{}

/// What a label set has of a name after each operation.
#[tactic(auto, using(crate::proofs::LabelLaws::value_set, crate::proofs::LabelLaws::value_remove, crate::proofs::LabelLaws::value_keep, crate::proofs::LabelLaws::value_without, crate::proofs::LabelLaws::value_key_on, crate::proofs::LabelLaws::value_key_without, crate::proofs::LabelLaws::value_union))]
pub fn values_after_operations()
    ensures set { (ls : List Pair) (name value other : List ℕ)
        → value_of (set_label ls name value) other
        ≡ cond (bytes_eq name other) (value_if_any value) (value_of ls other) }
    ensures remove { (ls : List Pair) (name other : List ℕ)
        → value_of (without_name ls name) other
        ≡ cond (bytes_eq name other) None (value_of ls other) }
    ensures keep { (ls : List Pair) (names : List (List ℕ)) (other : List ℕ)
        → value_of (listed_labels ls names) other
        ≡ cond (list_any (bytes_eq other) names) (value_of ls other) None }
    ensures without { (ls : List Pair) (names : List (List ℕ)) (other : List ℕ)
        → value_of (unlisted_labels ls names) other
        ≡ cond (list_any (bytes_eq other) names) None (value_of ls other) }
    ensures key_on { (ls : List Pair) (names : List (List ℕ)) (other : List ℕ)
        → value_of (key_labels true ls names) other
        ≡ cond (list_any (bytes_eq other) names) (value_of ls other) None }
    ensures key_without { (ls : List Pair) (names : List (List ℕ)) (other : List ℕ)
        → value_of (key_labels false ls names) other
        ≡ cond (bytes_eq metric_label other || list_any (bytes_eq other) names) None (value_of ls other) }
    ensures union { (ls over : List Pair) (other : List ℕ) → IsLabelSet over
        → value_of (union_labels ls over) other
        ≡ option_or (value_of over other) (value_of ls other) }
{}

/// The set that faultless pairs make has exactly those of them whose values are not empty.
#[tactic(auto, using(crate::proofs::Permuted::made_of_all))]
pub fn from_pairs_takes_all()
    ensures { (pairs : List Pair) → first_fault pairs ≡ None
        → IsPermutation (filter has_value pairs) (labels_of pairs) }
{}

/// A label set is known by what it has of each name.
#[tactic(auto, using(crate::proofs::SetValues::same_values))]
pub fn values_tell_label_sets()
    ensures { (ls ms : List Pair) → IsLabelSet ls → IsLabelSet ms
        → ((name : List ℕ) → value_of ls name ≡ value_of ms name) → ls ≡ ms }
{}
