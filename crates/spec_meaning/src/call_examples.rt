// What the definitions say of aggregations, functions, ranges and subqueries.
ghost use Rattle.std.specs.Prelude.{◌≡◌, pos, negsuc, codes, true, false, [], ◌∷◌, Ok, Err, Some, None, ◌^◌, ◌*◌, ◌-◌};
ghost use Rattle.pr_num.specs.declared.value.Num.TheVariants.{Finite, NaN};
ghost use Rattle.pr_ast.specs.pr_labels.LabelSet.{metric_label, pair_of};
ghost use Rattle.pr_ast.specs.declared.names.AggOp.TheVariants as agg;
ghost use Rattle.pr_ast.specs.declared.names.Func.TheVariants as func;
ghost use Rattle.pr_ast.specs.declared.names.BinOp.TheVariants as op;
ghost use Rattle.pr_ast.specs.Tree.{none as no_arguments};
ghost use Rattle.pr_ast.specs.private.Examples.{one, two};
ghost use Rattle.pr_ast.specs.private.Places.{nowhere};
ghost use Rattle.spec_vectors.specs.spec_history.private.Examples.{marked as m_then_marker, three as m_three_times, m as m_labels, number};
ghost use Rattle.spec_vectors.specs.Vectors.{element};
ghost use Rattle.spec_vectors.specs.private.Examples.{x};
ghost use Rattle.spec_vectors.specs.private.AggregationExamples.{by_nothing};
ghost use Rattle.spec_meaning.specs.declared.fault.FaultKind.TheVariants as kind;
ghost use Rattle.spec_meaning.specs.declared.value.Value.TheVariants.{Scalar, Vector};
ghost use Rattle.spec_meaning.specs.Answers.{fault};
ghost use Rattle.spec_meaning.specs.Meaning.{meaning};
ghost use Rattle.spec_meaning.specs.private.Examples.{units, whole, at, times_at, operation, m, a, not_a_number, c_absent, call_of, aggregate_of, range_of_m, subquery_of_m, x_is_1_for_a_minute, named, text_argument, several, before_1970, x_only, one_three_five, at_0};

/// `sum(a)`, `avg(a)`, `topk(1, a)`, `bottomk(1, a)`, `quantile(0.5, a)`, and `sum(x)` of a
/// parameter's fault before the vector's, where `a{x="1"}` is 1 and `a{x="2"}` is 3.
#[tactic(auto, unfolding(pr_match::specs::Matcher::meets, pr_match::specs::Matcher::meets_all, pr_num::specs::Total::value_of, pr_num::specs::Total::mean_of, pr_num::specs::Order::order_of, pr_num::specs::Quantile::quantile_of, pr_num::specs::Quantile::ranked, pr_num::specs::Half::half, pr_num::specs::Half::half_abs, pr_num::specs::Arithmetic::product_of))]
pub fn vectors_are_aggregated()
    ensures sum { at_0 one_three_five (aggregate_of agg.Sum (one a)) ≡ Ok (Vector (element [] (number 4) ∷ [])) }
    ensures avg { at_0 one_three_five (aggregate_of agg.Avg (one a)) ≡ Ok (Vector (element [] (number 2) ∷ [])) }
    ensures topk { at_0 one_three_five (aggregate_of agg.TopK (two (whole 1) a)) ≡ Ok (Vector (named (codes "a") (x_only (codes "2")) 3 ∷ [])) }
    ensures bottomk { at_0 one_three_five (aggregate_of agg.BottomK (two (whole 1) a)) ≡ Ok (Vector (named (codes "a") (x_only (codes "1")) 1 ∷ [])) }
    ensures quantile { at_0 one_three_five (aggregate_of agg.Quantile (two (units (5 * 10 ^ 8)) a)) ≡ Ok (Vector (element [] (number 2) ∷ [])) }
    ensures parameter_first { at_0 one_three_five (aggregate_of agg.TopK (two (times_at 1 None (whole (10 ^ 19)) (whole 10)) (times_at 2 None a (whole (10 ^ 20 - 1)))))
        ≡ Err (fault (at 1) kind.TooWide) }
{}

/// `round(vector(2.5))`, `year()`, `time()`, `scalar(a)`, `timestamp(m)` of a selector and of what
/// is none, `absent(c{x="1"})`, `absent(a)`.
#[tactic(auto, unfolding(pr_match::specs::Matcher::meets, pr_match::specs::Matcher::meets_all, pr_num::specs::Multiples::rounded_to, pr_num::specs::Multiples::floor_quotient, pr_num::specs::Half::half, pr_num::specs::Half::half_abs, pr_num::specs::Arithmetic::sum_of, spec_vectors::specs::Calendar::date_after))]
pub fn functions_are_called()
    ensures round { at_0 [] (call_of func.Round (one (call_of func.Vector (one (units (25 * 10 ^ 8)))))) ≡ Ok (Vector (element [] (number 3) ∷ [])) }
    ensures time { meaning 60000 [] (call_of func.Time no_arguments) 1500 ≡ Ok (Scalar (Finite (pos (15 * 10 ^ 8)))) }
    ensures hour { meaning 60000 [] (call_of func.Hour no_arguments) 7200000 ≡ Ok (Vector (element [] (number 2) ∷ [])) }
    ensures scalar { at_0 one_three_five (call_of func.Scalar (one a)) ≡ Ok (Scalar NaN) }
    ensures sample_time { meaning 60000 m_three_times (call_of func.Timestamp (one m)) 90000 ≡ Ok (Vector (element [] (number 60) ∷ [])) }
    ensures query_time { meaning 60000 m_three_times (call_of func.Timestamp (one (operation op.Or m m))) 90000 ≡ Ok (Vector (element [] (number 90) ∷ [])) }
    ensures absent { at_0 one_three_five (call_of func.Absent (one c_absent)) ≡ Ok (Vector (element (x_only (codes "1")) (number 1) ∷ [])) }
    ensures present { at_0 one_three_five (call_of func.Absent (one a)) ≡ Ok (Vector []) }
{}

/// `count_over_time(m[5m])` with a marker, `last_over_time(m[1m])`, `absent_over_time(m[1m])`, and
/// `absent_over_time({x="1"}[1m])` of two metrics; `sum_over_time(m[2m:1m])`,
/// `sum_over_time(m[2m:])` and `count_over_time(m[5m:1m])` where m is 1, 2 and 3 at each minute
/// from 0 on.
#[tactic(auto, unfolding(pr_match::specs::Matcher::meets, pr_match::specs::Matcher::meets_all, spec_vectors::specs::Ranges::over, spec_vectors::specs::Ranges::function_of, pr_num::specs::Total::value_of))]
pub fn ranges_are_taken()
    ensures marker { meaning 60000 m_then_marker (call_of func.CountOverTime (one (range_of_m 300000))) 60000 ≡ Ok (Vector (element [] (number 1) ∷ [])) }
    ensures open_below { meaning 60000 m_three_times (call_of func.CountOverTime (one (range_of_m 120000))) 120000 ≡ Ok (Vector (element [] (number 2) ∷ [])) }
    ensures last { meaning 60000 m_three_times (call_of func.LastOverTime (one (range_of_m 60000))) 120000 ≡ Ok (Vector (element m_labels (number 3) ∷ [])) }
    ensures not_told_apart { at_0 one_three_five (call_of func.AbsentOverTime (one x_is_1_for_a_minute)) ≡ Ok (Vector []) }
    ensures absent { meaning 60000 m_three_times (call_of func.AbsentOverTime (one (range_of_m 60000))) 240000 ≡ Ok (Vector (element [] (number 1) ∷ [])) }
    ensures sub { meaning 30000 m_three_times (call_of func.SumOverTime (one (subquery_of_m 120000 (Some 60000)))) 120000 ≡ Ok (Vector (element [] (number 5) ∷ [])) }
    ensures default_step { meaning 60000 m_three_times (call_of func.SumOverTime (one (subquery_of_m 120000 None))) 120000 ≡ Ok (Vector (element [] (number 5) ∷ [])) }
    ensures not_below_0 { meaning 30000 m_three_times (call_of func.CountOverTime (one (subquery_of_m 300000 (Some 60000)))) 60000 ≡ Ok (Vector (element [] (number 2) ∷ [])) }
{}

/// `count_values("v", vector(NaN))`.
#[tactic(auto, unfolding(pr_num::specs::Shown::shown))]
pub fn elements_are_counted()
    ensures { at_0 [] (aggregate_of agg.CountValues (two (text_argument (codes "v")) (call_of func.Vector (one not_a_number))))
        ≡ Ok (Vector (element (pair_of (codes "v") (codes "NaN") ∷ []) (number 1) ∷ [])) }
{}

/// `label_join(a, "y", "-", "x", "x")`, and `label_join(a, "x", "", "y")`, which takes the label
/// out.
#[tactic(auto, unfolding(pr_match::specs::Matcher::meets, pr_match::specs::Matcher::meets_all))]
pub fn labels_are_joined()
    ensures joined { at_0 one_three_five (call_of func.LabelJoin (several (a ∷ text_argument (codes "y") ∷ text_argument (codes "-") ∷ text_argument (codes "x") ∷ text_argument (codes "x") ∷ [])))
        ≡ Ok (Vector (named (codes "a") (x (codes "1") ∷ pair_of (codes "y") (codes "1-1") ∷ []) 1 ∷ named (codes "a") (x (codes "2") ∷ pair_of (codes "y") (codes "2-2") ∷ []) 3 ∷ [])) }
    ensures not_told_apart { at_0 one_three_five (call_of func.LabelJoin (several (a ∷ text_argument (codes "x") ∷ text_argument [] ∷ text_argument (codes "y") ∷ [])))
        ≡ Err (fault nowhere (kind.SameLabels (pair_of metric_label (codes "a") ∷ []))) }
{}

/// The year of the first second of the year 1, the month of 59 days later, and the second before
/// them, which has no date.
#[tactic(auto, unfolding(spec_vectors::specs::Calendar::date_after))]
pub fn dates_are_told()
    ensures year { at_0 [] (call_of func.Year (one (before_1970 62135596800))) ≡ Ok (Vector (element [] (number 1) ∷ [])) }
    ensures month { at_0 [] (call_of func.Month (one (before_1970 62130499200))) ≡ Ok (Vector (element [] (number 3) ∷ [])) }
    ensures before { at_0 [] (call_of func.Year (one (before_1970 62135596801))) ≡ Ok (Vector (element [] NaN ∷ [])) }
{}
