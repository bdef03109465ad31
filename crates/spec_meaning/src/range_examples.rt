// What single functions of ranges give, and which faults they tell.
ghost use Rattle.std.specs.Prelude.{◌≡◌, pos, codes, [], ◌∷◌, Ok, Err, ◌^◌, ◌*◌};
ghost use Rattle.pr_num.specs.declared.value.Num.TheVariants.{Finite};
ghost use Rattle.pr_ast.specs.declared.names.Func.TheVariants as func;
ghost use Rattle.pr_ast.specs.private.Examples.{one, two};
ghost use Rattle.spec_vectors.specs.spec_history.private.Examples.{m as m_labels, three as m_three_times, number};
ghost use Rattle.spec_vectors.specs.declared.range.AskFault.TheVariants as ask;
ghost use Rattle.spec_vectors.specs.private.RangeExamples.{falling};
ghost use Rattle.spec_vectors.specs.Vectors.{element};
ghost use Rattle.spec_meaning.specs.declared.fault.FaultKind.TheVariants as kind;
ghost use Rattle.spec_meaning.specs.declared.value.Value.TheVariants.{Vector};
ghost use Rattle.spec_meaning.specs.Answers.{fault};
ghost use Rattle.spec_meaning.specs.Meaning.{meaning};
ghost use Rattle.spec_meaning.specs.RangeCalls.{range_fault};
ghost use Rattle.spec_meaning.specs.private.Examples.{at, at_0, call_at, call_of, one_three_five, range_of_m, units, whole, x_is_1_for_a_minute, x_only};
ghost use Rattle.spec_meaning.specs.private.RowExamples.{a_minute_earlier, alone, below_zero, of_falling, of_two_and_three, range_at_7, wide_twice};

/// Functions of ranges; m is 5, 8, 2 and 4 at each minute from the first on, or 2 and 3. All but
/// the last value drop the name.
#[tactic(auto, unfolding(pr_match::specs::Matcher::meets, pr_match::specs::Matcher::meets_all, spec_vectors::specs::Ranges::over, spec_vectors::specs::Ranges::function_of, spec_vectors::specs::Extrapolation::rate_of, spec_vectors::specs::Extrapolation::increase_of, spec_vectors::specs::Extrapolation::delta_of, spec_vectors::specs::Extrapolation::irate_of, spec_vectors::specs::Extrapolation::idelta_of, spec_vectors::specs::Regression::deriv_of, spec_vectors::specs::Regression::predicted, pr_num::specs::Half::half, pr_num::specs::Half::half_abs, pr_num::specs::Order::compared, pr_num::specs::Order::order_of, pr_num::specs::Total::value_of, pr_num::specs::Total::mean_of, pr_num::specs::Quantile::quantile_of, pr_num::specs::Quantile::ranked))]
pub fn each_function_of_a_range_has_its_row()
    ensures rate { of_falling func.Rate ≡ alone (Finite (pos 38888889)) }
    ensures increase { of_falling func.Increase ≡ alone (Finite (pos 9333333333)) }
    ensures delta { of_falling func.Delta ≡ alone (below_zero 1333333333) }
    ensures irate { of_falling func.Irate ≡ alone (Finite (pos 33333333)) }
    ensures idelta { of_falling func.Idelta ≡ alone (number 2) }
    ensures deriv { of_falling func.Deriv ≡ alone (below_zero 15000000) }
    ensures predict { meaning 60000 falling (call_of func.PredictLinear (two (range_of_m 240000) (whole 60))) 240000 ≡ alone (Finite (pos 2500000000)) }
    ensures changes { of_falling func.Changes ≡ alone (number 3) }
    ensures resets { of_falling func.Resets ≡ alone (number 1) }
    ensures sum { of_falling func.SumOverTime ≡ alone (number 19) }
    ensures avg { of_falling func.AvgOverTime ≡ alone (Finite (pos 4750000000)) }
    ensures min { of_falling func.MinOverTime ≡ alone (number 2) }
    ensures min_again { of_two_and_three func.MinOverTime ≡ alone (number 2) }
    ensures max { of_falling func.MaxOverTime ≡ alone (number 8) }
    ensures count { of_falling func.CountOverTime ≡ alone (number 4) }
    ensures last { of_falling func.LastOverTime ≡ Ok (Vector (element m_labels (number 4) ∷ [])) }
    ensures present { of_falling func.PresentOverTime ≡ alone (number 1) }
    ensures present_again { of_two_and_three func.PresentOverTime ≡ alone (number 1) }
    ensures quantile { meaning 60000 falling (call_of func.QuantileOverTime (two (units (5 * 10 ^ 8)) (range_of_m 240000))) 240000 ≡ alone (Finite (pos 4500000000)) }
{}

/// `sum_over_time(m[2m:1m] offset 1m)`; a sum that is too wide, and equal labels, are told at the
/// call, too many values at the range.
#[tactic(auto, unfolding(pr_match::specs::Matcher::meets, pr_match::specs::Matcher::meets_all, spec_vectors::specs::Ranges::over, spec_vectors::specs::Ranges::function_of, pr_num::specs::Total::value_of))]
pub fn ranges_have_offsets_and_faults()
    ensures earlier { meaning 60000 m_three_times (call_of func.SumOverTime (one a_minute_earlier)) 120000 ≡ alone (number 3) }
    ensures wide { meaning 60000 wide_twice (call_at 3 func.SumOverTime (one range_at_7)) 60000 ≡ Err (fault (at 3) kind.TooWide) }
    ensures same_labels { at_0 one_three_five (call_at 3 func.CountOverTime (one x_is_1_for_a_minute)) ≡ Err (fault (at 3) (kind.SameLabels (x_only (codes "1")))) }
    ensures too_long { range_fault (at 3) (at 7) (ask.RangeTooLong 1048577) ≡ fault (at 7) (kind.RangeTooLong 1048577) }
{}
