// What aggregations give of any vector.
ghost use Rattle.std.specs.Prelude.{◌≡◌, ◌≢◌, ℕ, true, List, [], ◌∷◌, IfOk, IsOk, Result};
ghost use Rattle.pr_num.specs.declared.value.Num.{Num};
ghost use Rattle.pr_num.specs.declared.value.TooWide.{TooWide};
ghost use Rattle.std.specs.declared.cmp.Ordering.{Ordering};
ghost use Rattle.spec_history.specs.pr_labels.declared.pair.Pair.{Pair};
ghost use Rattle.spec_history.specs.pr_labels.declared.grouping.Grouping.{Grouping};
ghost use Rattle.spec_history.specs.pr_labels.declared.item.Item.{Item};
ghost use Rattle.spec_history.specs.pr_labels.Rising.{is_among};
ghost use Rattle.spec_vectors.specs.private.Laws.{IsVector};
ghost use Rattle.spec_vectors.specs.Aggregation.{of_groups, always, counted, first_of_parts, groups, part, values_of};

/// The answers are in label order with distinct label sets: what aggregations give whatever stood
/// there before, what `topk` and `bottomk` keep of a vector that is so.
#[tactic(auto, using(crate::proofs::Aggregation::aggregated_is_vector, crate::proofs::Aggregation::counted_is_vector))]
pub fn aggregations_are_vectors()
    ensures aggregated { (of_values : List Num → Result Num TooWide) (by : Grouping) (vector : List (Item Num)) → IfOk (of_groups of_values by vector) IsVector }
    ensures counted { (label : List ℕ) (by : Grouping) (vector : List (Item Num)) → IsVector (counted label by vector) }
    ensures first { (order : Num → Num → Ordering) (k : Num) (by : Grouping) (vector : List (Item Num)) → IsVector vector → IsVector (first_of_parts order k by vector) }
{}

/// The part of each group has a value, so that aggregations are one that agree on any values that
/// there are; what always has a value has it for each group.
#[tactic(auto, using(crate::proofs::Aggregation::parts_not_empty, crate::proofs::Aggregation::aggregated_alike, crate::proofs::Aggregation::always_is_ok))]
pub fn each_group_has_a_value()
    ensures some { (by : Grouping) (group : List Pair) (vector : List (Item Num)) → is_among group (groups by vector) ≡ true → values_of (part by vector group) ≢ [] }
    ensures alike { (f g : List Num → Result Num TooWide) → ((v : Num) (vs : List Num) → f (v ∷ vs) ≡ g (v ∷ vs))
        → (by : Grouping) (vector : List (Item Num)) → of_groups f by vector ≡ of_groups g by vector }
    ensures always { (of_values : List Num → Num) (by : Grouping) (vector : List (Item Num)) → IsOk (of_groups (always of_values) by vector) }
{}
