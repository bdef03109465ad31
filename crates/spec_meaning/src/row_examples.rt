// What single functions, aggregations and operators of the language give.
ghost use Rattle.std.specs.Prelude.{◌≡◌, pos, codes, [], ◌∷◌, Ok, Some, ◌^◌, ◌*◌};
ghost use Rattle.pr_num.specs.declared.value.Num.TheVariants.{Finite};
ghost use Rattle.pr_ast.specs.pr_labels.LabelSet.{metric_label};
ghost use Rattle.pr_match.specs.Pattern.{expanded};
ghost use Rattle.pr_ast.specs.declared.names.AggOp.TheVariants as agg;
ghost use Rattle.pr_ast.specs.declared.names.Func.TheVariants as func;
ghost use Rattle.pr_ast.specs.declared.names.BinOp.TheVariants as op;
ghost use Rattle.pr_ast.specs.declared.selector.MatchSign.TheVariants.{Equal, NotEqual};
ghost use Rattle.pr_ast.specs.Tree.{none as no_arguments};
ghost use Rattle.pr_ast.specs.private.Examples.{metric, matcher, one, two};
ghost use Rattle.spec_vectors.specs.spec_history.private.Examples.{number};
ghost use Rattle.spec_vectors.specs.Vectors.{element};
ghost use Rattle.spec_vectors.specs.private.Examples.{x, y};
ghost use Rattle.spec_meaning.specs.declared.value.Value.TheVariants.{Vector};
ghost use Rattle.spec_meaning.specs.Meaning.{meaning};
ghost use Rattle.spec_meaning.specs.private.Examples.{a, b, at_0, before_1970, call_of, named, one_three_five, operation, several, text_argument, units, whole, x_only};
ghost use Rattle.spec_meaning.specs.private.RowExamples.{a_1, a_2, a_3, absent_of_matchers, against_two, alone, below_zero, five_and_ten, minus_two_and_a_half, of_six_and_three, one_two_three, three_values, truth_against_two, vector_of};

/// Signs and comparisons of 1, 2 and 3 with 2, on either side, as filters and with `bool`.
#[tactic(auto, unfolding(pr_match::specs::Matcher::meets, pr_match::specs::Matcher::meets_all, pr_num::specs::Order::compared, pr_num::specs::Arithmetic::sum_of))]
pub fn each_sign_has_its_operator()
    ensures plus { against_two op.Add ≡ three_values (number 3) (number 4) (number 5) }
    ensures minus { at_0 one_two_three (operation op.Sub (whole 2) a) ≡ three_values (number 1) (number 0) (below_zero (10 ^ 9)) }
    ensures equal { against_two op.Equal ≡ Ok (Vector (a_2 ∷ [])) }
    ensures unequal { against_two op.NotEqual ≡ Ok (Vector (a_1 ∷ a_3 ∷ [])) }
    ensures at_most { against_two op.LessEqual ≡ Ok (Vector (a_1 ∷ a_2 ∷ [])) }
    ensures less { against_two op.Less ≡ Ok (Vector (a_1 ∷ [])) }
    ensures at_least { against_two op.GreaterEqual ≡ Ok (Vector (a_2 ∷ a_3 ∷ [])) }
    ensures greater { against_two op.Greater ≡ Ok (Vector (a_3 ∷ [])) }
    ensures is_equal { truth_against_two op.Equal ≡ three_values (number 0) (number 1) (number 0) }
    ensures is_unequal { truth_against_two op.NotEqual ≡ three_values (number 1) (number 0) (number 1) }
    ensures is_at_most { truth_against_two op.LessEqual ≡ three_values (number 1) (number 1) (number 0) }
    ensures is_less { truth_against_two op.Less ≡ three_values (number 1) (number 0) (number 0) }
    ensures is_at_least { truth_against_two op.GreaterEqual ≡ three_values (number 0) (number 1) (number 1) }
    ensures is_greater { truth_against_two op.Greater ≡ three_values (number 0) (number 0) (number 1) }
{}

/// `min`, `max`, `count` and `group` of 6 and 3.
#[tactic(auto, unfolding(pr_match::specs::Matcher::meets, pr_match::specs::Matcher::meets_all, pr_num::specs::Order::order_of))]
pub fn each_aggregation_has_its_row()
    ensures min { of_six_and_three agg.Min ≡ alone (number 3) }
    ensures max { of_six_and_three agg.Max ≡ alone (number 6) }
    ensures count { of_six_and_three agg.Count ≡ alone (number 2) }
    ensures group { of_six_and_three agg.Group ≡ alone (number 1) }
{}

/// Functions of each value of a vector, and limits in the order of the arguments.
#[tactic(auto, unfolding(pr_num::specs::Arithmetic::sum_of, pr_num::specs::Order::compared, pr_num::specs::Order::order_of, pr_num::specs::Multiples::floor_quotient, pr_num::specs::Multiples::floor_of, pr_num::specs::Multiples::ceil_of))]
pub fn each_function_of_values_has_its_row()
    ensures abs { at_0 [] (call_of func.Abs (one minus_two_and_a_half)) ≡ alone (Finite (pos (25 * 10 ^ 8))) }
    ensures ceil { at_0 [] (call_of func.Ceil (one minus_two_and_a_half)) ≡ alone (below_zero (2 * 10 ^ 9)) }
    ensures floor { at_0 [] (call_of func.Floor (one minus_two_and_a_half)) ≡ alone (below_zero (3 * 10 ^ 9)) }
    ensures sgn { at_0 [] (call_of func.Sgn (one minus_two_and_a_half)) ≡ alone (below_zero (10 ^ 9)) }
    ensures clamp { at_0 [] (call_of func.Clamp (several (vector_of 4 ∷ whole 1 ∷ whole 3 ∷ []))) ≡ alone (number 3) }
    ensures clamp_min { at_0 [] (call_of func.ClampMin (two (vector_of 2) (whole 3))) ≡ alone (number 3) }
    ensures clamp_max { at_0 [] (call_of func.ClampMax (two (vector_of 2) (whole 1))) ≡ alone (number 1) }
{}

/// The minute of 02:01, the weekday of the beginning of 1970, and the day of 59 days after that of
/// the year 1.
#[tactic(auto, unfolding(spec_vectors::specs::Calendar::date_after, spec_vectors::specs::Calendar::days_before))]
pub fn each_part_of_a_date_has_its_row()
    ensures minute { meaning 60000 [] (call_of func.Minute no_arguments) 7260000 ≡ alone (number 1) }
    ensures weekday { at_0 [] (call_of func.DayOfWeek no_arguments) ≡ alone (number 4) }
    ensures day { at_0 [] (call_of func.DayOfMonth (one (before_1970 62130499200))) ≡ alone (number 1) }
    ensures day_of_year { at_0 [] (call_of func.DayOfYear (one (before_1970 62130499200))) ≡ alone (number 60) }
    ensures length { at_0 [] (call_of func.DaysInMonth (one (before_1970 62130499200))) ≡ alone (number 31) }
{}

/// `label_replace(b, "y", "k$1", "x", "(.*)")`, by what the template is expanded to;
/// `histogram_quantile(0.5, h)`.
#[tactic(auto, unfolding(pr_match::specs::Matcher::meets, pr_match::specs::Matcher::meets_all, pr_num::specs::Reads::reads, pr_num::specs::Half::half, pr_num::specs::Half::half_abs, pr_num::specs::Order::compared, pr_num::specs::Order::order_of, pr_num::specs::Arithmetic::sum_of, pr_num::specs::Arithmetic::product_of, pr_num::specs::Arithmetic::quotient_of, pr_num::specs::Total::value_of))]
pub fn labels_and_buckets_have_their_rows()
    ensures replaced { expanded (codes "(.*)") (codes "1") (codes "k$1") ≡ Some (codes "k1")
        → at_0 one_three_five (call_of func.LabelReplace (several (b ∷ text_argument (codes "y") ∷ text_argument (codes "k$1") ∷ text_argument (codes "x") ∷ text_argument (codes "(.*)") ∷ [])))
        ≡ Ok (Vector (named (codes "b") (x (codes "1") ∷ y (codes "k1") ∷ []) 5 ∷ [])) }
    ensures quantile { at_0 five_and_ten (call_of func.HistogramQuantile (two (units (5 * 10 ^ 8)) (metric (codes "h")))) ≡ alone (number 1) }
{}

/// `absent` of `{x="1"}`, `{x!="2",x="1"}`, `{x="1",x!="2"}`, `{x="1",x="2"}` and
/// `{__name__="c",x="1"}`, where there is nothing, and of a matcher on no label name.
#[tactic(auto, unfolding(pr_match::specs::Matcher::meets, pr_match::specs::Matcher::meets_all))]
pub fn matchers_tell_what_is_absent()
    ensures told { absent_of_matchers (matcher (codes "x") Equal (codes "1") ∷ []) ≡ Ok (Vector (element (x_only (codes "1")) (number 1) ∷ [])) }
    ensures last { absent_of_matchers (matcher (codes "x") NotEqual (codes "2") ∷ matcher (codes "x") Equal (codes "1") ∷ []) ≡ Ok (Vector (element (x_only (codes "1")) (number 1) ∷ [])) }
    ensures not_last { absent_of_matchers (matcher (codes "x") Equal (codes "1") ∷ matcher (codes "x") NotEqual (codes "2") ∷ []) ≡ alone (number 1) }
    ensures twice { absent_of_matchers (matcher (codes "x") Equal (codes "1") ∷ matcher (codes "x") Equal (codes "2") ∷ []) ≡ alone (number 1) }
    ensures no_name { absent_of_matchers (matcher (codes "x y") Equal (codes "1") ∷ []) ≡ alone (number 1) }
    ensures metric { absent_of_matchers (matcher metric_label Equal (codes "c") ∷ matcher (codes "x") Equal (codes "1") ∷ []) ≡ Ok (Vector (element (x_only (codes "1")) (number 1) ∷ [])) }
{}
