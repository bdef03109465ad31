// What the definitions say of comparisons.
ghost use Rattle.std.specs.Prelude.{◌≡◌, true, false, codes, [], ◌∷◌, Ok, Some, None};
ghost use Rattle.pr_num.specs.declared.value.Num.TheVariants.{NaN, PosInf};
ghost use Rattle.spec_history.specs.private.Examples.{number};
ghost use Rattle.spec_vectors.specs.Operators.{are_equal, are_unequal, is_less, is_at_most, is_greater, is_at_least, holds, filtering, kept_where};
ghost use Rattle.spec_vectors.specs.private.Examples.{x, a, six_three, against_two};

/// NaN is unequal to all values, itself among them, and no other comparison holds of it. A filter
/// gives the left value, and leaves all labels.
#[tactic(auto, unfolding(pr_num::specs::Order::compared))]
pub fn comparisons_work_on_two_values()
    ensures equal { holds are_equal NaN NaN ≡ false }
    ensures unequal { holds are_unequal NaN NaN ≡ true }
    ensures less { holds is_less NaN (number 1) ≡ false }
    ensures at_most { holds is_at_most NaN NaN ≡ false }
    ensures greater { holds is_greater PosInf (number 1) ≡ true }
    ensures at_least { holds is_at_least (number 1) (number 1) ≡ true }
    ensures kept { filtering is_greater (number 2) (number 1) ≡ Ok (Some (number 2)) }
    ensures dropped { filtering is_greater (number 1) (number 2) ≡ Ok None }
    ensures vector { kept_where (λ v. holds is_greater v (number 5)) six_three ≡ a (x (codes "1") ∷ []) 6 ∷ [] }
{}

/// Each comparison of 1, 2 and 3 with 2.
#[tactic(auto, unfolding(pr_num::specs::Order::compared))]
pub fn comparisons_are_of_lesser_equal_and_greater_values()
    ensures equal { against_two are_equal ≡ false ∷ true ∷ false ∷ [] }
    ensures unequal { against_two are_unequal ≡ true ∷ false ∷ true ∷ [] }
    ensures less { against_two is_less ≡ true ∷ false ∷ false ∷ [] }
    ensures at_most { against_two is_at_most ≡ true ∷ true ∷ false ∷ [] }
    ensures greater { against_two is_greater ≡ false ∷ false ∷ true ∷ [] }
    ensures at_least { against_two is_at_least ≡ false ∷ true ∷ true ∷ [] }
{}
