// The folds of values, finished, are the definitions.
ghost use Rattle.std.specs.Prelude.{◌≡◌, List, ◌∷◌};
ghost use Rattle.pr_num.specs.declared.value.Num.{Num};
ghost use Rattle.pr_num.specs.Total.{joined, one_value};
ghost use Rattle.pr_window.specs.spec_vectors.Aggregation.{always, count_of_values, greatest_of_values, least_of_values, mean_of_values, one_of_values, sum_of_values};
ghost use Rattle.pr_window.specs.private.Extremes.{greater, lesser};
ghost use Rattle.pr_agg.specs.private.Alone.{itself};
ghost use Rattle.pr_agg.specs.private.Counts.{both_parts, one_each};
ghost use Rattle.pr_agg.specs.private.Finished.{count_finished, mean_finished, presence_finished, total_finished, value_finished};
ghost use Rattle.pr_agg.specs.private.Parts.{fold_and_finish};
ghost use Rattle.pr_agg.specs.private.Presence.{any, both};

/// Any values that there are, folded by `Totals`, `Greatest`, `Least`, `CountFold` or `Presence` and
/// finished, give what the definition says of them.
#[tactic(auto, using(crate::proofs::Folded::sum_folded, crate::proofs::Folded::mean_folded, crate::proofs::Folded::greatest_folded, crate::proofs::Folded::least_folded, crate::proofs::Folded::count_folded, crate::proofs::Folded::one_folded))]
pub fn folded_values_are_as_defined()
    ensures sum { (v : Num) (vs : List Num) → fold_and_finish one_value joined total_finished (v ∷ vs) ≡ sum_of_values (v ∷ vs) }
    ensures mean { (v : Num) (vs : List Num) → fold_and_finish one_value joined mean_finished (v ∷ vs) ≡ always mean_of_values (v ∷ vs) }
    ensures greatest { (v : Num) (vs : List Num) → fold_and_finish itself greater value_finished (v ∷ vs) ≡ always greatest_of_values (v ∷ vs) }
    ensures least { (v : Num) (vs : List Num) → fold_and_finish itself lesser value_finished (v ∷ vs) ≡ always least_of_values (v ∷ vs) }
    ensures count { (v : Num) (vs : List Num) → fold_and_finish one_each both_parts count_finished (v ∷ vs) ≡ always count_of_values (v ∷ vs) }
    ensures group { (v : Num) (vs : List Num) → fold_and_finish any both presence_finished (v ∷ vs) ≡ always one_of_values (v ∷ vs) }
{}
