// What the definitions of aggregations say of small vectors.
ghost use Rattle.std.specs.Prelude.{◌≡◌, ◌*◌, ◌^◌, ◌-◌, pos, negsuc, codes, [], ◌∷◌, Ok, Err};
ghost use Rattle.pr_num.specs.declared.value.Num.TheVariants.{Finite, NaN, PosInf, NegInf};
ghost use Rattle.pr_num.specs.Arithmetic.{too_wide};
ghost use Rattle.spec_history.specs.private.Examples.{number};
ghost use Rattle.spec_vectors.specs.Vectors.{element};
ghost use Rattle.spec_vectors.specs.Aggregation.{of_groups, always, counted, count_of_values, first_of_parts, greatest_first, greatest_of_values, group_of, least_first, least_of_values, mean_of_values, one_of_values, quantile_of_values, sum_of_values};
ghost use Rattle.spec_vectors.specs.private.Examples.{sample, x, y, z};
ghost use Rattle.spec_vectors.specs.private.AggregationExamples.{all_not_numbers, at_x, bare, by_nothing, by_x, four, one_half, one_three, widest_twice, without_x};

/// What one and three give together.
#[tactic(auto, unfolding(pr_num::specs::Total::value_of, pr_num::specs::Total::mean_of, pr_num::specs::Order::order_of, pr_num::specs::Quantile::quantile_of, pr_num::specs::Quantile::ranked, pr_num::specs::Half::half, pr_num::specs::Half::half_abs))]
pub fn aggregations_of_one_and_three()
    ensures sum { of_groups sum_of_values by_nothing one_three ≡ Ok (bare (number 4) ∷ []) }
    ensures mean { of_groups (always mean_of_values) by_nothing one_three ≡ Ok (bare (number 2) ∷ []) }
    ensures greatest { of_groups (always greatest_of_values) by_nothing one_three ≡ Ok (bare (number 3) ∷ []) }
    ensures least { of_groups (always least_of_values) by_nothing one_three ≡ Ok (bare (number 1) ∷ []) }
    ensures count { of_groups (always count_of_values) by_nothing one_three ≡ Ok (bare (number 2) ∷ []) }
    ensures group { of_groups (always one_of_values) by_nothing one_three ≡ Ok (bare (number 1) ∷ []) }
    ensures middle { of_groups (always (quantile_of_values one_half)) by_nothing one_three ≡ Ok (bare (number 2) ∷ []) }
    ensures nothing { of_groups sum_of_values by_nothing [] ≡ Ok [] }
{}

/// Elements are grouped by the listed labels, or by those that are not listed without the metric's
/// name; each group comes once.
#[tactic(auto, unfolding(pr_num::specs::Total::value_of, pr_num::specs::Order::order_of))]
pub fn groups_have_their_labels()
    ensures listed { of_groups sum_of_values by_x four ≡ Ok (at_x (codes "1") NaN ∷ at_x (codes "2") (number 7) ∷ []) }
    ensures rest { of_groups (always count_of_values) without_x four
        ≡ Ok (element (y (codes "p") ∷ []) (number 2) ∷ element (y (codes "q") ∷ []) (number 2) ∷ []) }
{}

/// The greatest and the least value pass over NaN, unless all are. A sum may be too wide where the
/// mean is none.
#[tactic(auto, unfolding(pr_num::specs::Total::value_of, pr_num::specs::Total::mean_of, pr_num::specs::Order::order_of, pr_num::specs::Half::half, pr_num::specs::Half::half_abs))]
pub fn special_and_wide_values()
    ensures greatest { of_groups (always greatest_of_values) by_x four ≡ Ok (at_x (codes "1") (number 5) ∷ at_x (codes "2") (number 5) ∷ []) }
    ensures least { of_groups (always least_of_values) by_x four ≡ Ok (at_x (codes "1") (number 5) ∷ at_x (codes "2") (number 2) ∷ []) }
    ensures infinite { greatest_of_values (NegInf ∷ NaN ∷ []) ≡ NegInf }
    ensures greatest_of_none { of_groups (always greatest_of_values) by_nothing all_not_numbers ≡ Ok (bare NaN ∷ []) }
    ensures least_of_none { of_groups (always least_of_values) by_nothing all_not_numbers ≡ Ok (bare NaN ∷ []) }
    ensures wide { of_groups sum_of_values by_nothing widest_twice ≡ Err too_wide }
    ensures mean { of_groups (always mean_of_values) by_nothing widest_twice ≡ Ok (bare (Finite (pos (10 ^ 29 - 1))) ∷ []) }
    ensures rounded { mean_of_values (Finite (pos 1) ∷ Finite (pos 1) ∷ Finite (pos 0) ∷ []) ≡ Finite (pos 1) }
{}

/// The first k keep their labels and stay in label order. At a tie the first in label order comes
/// first, NaN comes last, and k is rounded down.
#[tactic(auto, unfolding(pr_num::specs::Order::order_of))]
pub fn first_elements_of_each_group()
    ensures top { first_of_parts greatest_first (number 1) by_nothing four ≡ sample (codes "a") (x (codes "1") ∷ y (codes "p") ∷ []) (number 5) ∷ [] }
    ensures bottom { first_of_parts least_first (number 1) by_x four
        ≡ sample (codes "a") (x (codes "1") ∷ y (codes "p") ∷ []) (number 5) ∷ sample (codes "a") (x (codes "2") ∷ y (codes "q") ∷ []) (number 2) ∷ [] }
    ensures three { first_of_parts greatest_first (number 3) by_nothing four
        ≡ sample (codes "a") (x (codes "1") ∷ y (codes "p") ∷ []) (number 5) ∷ sample (codes "a") (x (codes "2") ∷ y (codes "p") ∷ []) (number 5)
        ∷ sample (codes "a") (x (codes "2") ∷ y (codes "q") ∷ []) (number 2) ∷ [] }
    ensures all { first_of_parts least_first PosInf by_nothing four ≡ four }
    ensures half { first_of_parts greatest_first one_half by_nothing four ≡ [] }
    ensures not_a_number { first_of_parts greatest_first NaN by_nothing four ≡ [] }
    ensures one_and_a_half { first_of_parts greatest_first (Finite (pos (15 * 10 ^ 8))) by_nothing one_three ≡ sample (codes "a") (x (codes "2") ∷ []) (number 3) ∷ [] }
{}

/// A quantile is taken of all values of a group, NaN first.
#[tactic(auto, unfolding(pr_num::specs::Order::order_of, pr_num::specs::Quantile::quantile_of, pr_num::specs::Quantile::ranked, pr_num::specs::Half::half, pr_num::specs::Half::half_abs))]
pub fn quantiles_of_each_group()
    ensures least { of_groups (always (quantile_of_values (number 0))) by_x four ≡ Ok (at_x (codes "1") NaN ∷ at_x (codes "2") (number 2) ∷ []) }
    ensures greatest { of_groups (always (quantile_of_values (number 1))) by_x four ≡ Ok (at_x (codes "1") (number 5) ∷ at_x (codes "2") (number 5) ∷ []) }
    ensures below { of_groups (always (quantile_of_values (Finite (negsuc 0)))) by_nothing one_three ≡ Ok (bare NegInf ∷ []) }
    ensures beyond { of_groups (always (quantile_of_values (number 2))) by_nothing one_three ≡ Ok (bare PosInf ∷ []) }
{}

/// Elements are counted by their group with a label set to the printed value, in place of what the
/// group has there.
#[tactic(auto, unfolding(pr_num::specs::Shown::shown))]
pub fn values_are_counted()
    ensures new { counted (codes "z") by_x all_not_numbers
        ≡ element (x (codes "1") ∷ z (codes "NaN") ∷ []) (number 1) ∷ element (x (codes "2") ∷ z (codes "NaN") ∷ []) (number 1) ∷ [] }
    ensures set { counted (codes "x") by_x all_not_numbers ≡ at_x (codes "NaN") (number 2) ∷ [] }
    ensures dropped { counted (codes "x") without_x all_not_numbers ≡ at_x (codes "NaN") (number 2) ∷ [] }
{}
