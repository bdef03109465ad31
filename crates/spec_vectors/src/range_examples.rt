// What functions of small ranges give.
ghost use Rattle.std.specs.Prelude.{◌≡◌, ◌*◌, ◌^◌, pos, negsuc, [], ◌∷◌, ◌++◌, replicate, Ok, Err, Some, None};
ghost use Rattle.pr_num.specs.declared.value.Num.TheVariants.{Finite, NaN, PosInf, NegInf};
ghost use Rattle.spec_history.specs.private.Examples.{m, number, marked};
ghost use Rattle.spec_history.specs.Lookback.{spot_of};
ghost use Rattle.spec_vectors.specs.declared.range.RangeFn.TheVariants.{Rate, Increase, Delta, Irate, Idelta, Deriv, PredictLinear, Changes, Resets, SumOverTime, AvgOverTime, MinOverTime, MaxOverTime, CountOverTime, LastOverTime, PresentOverTime, QuantileOverTime};
ghost use Rattle.spec_vectors.specs.declared.range.AskFault.TheVariants.{TooWide, RangeTooLong};
ghost use Rattle.spec_vectors.specs.private.Laws.{answer_to, ask_cost};
ghost use Rattle.spec_vectors.specs.Ranges.{over};
ghost use Rattle.spec_vectors.specs.private.RangeExamples.{ask_of, ask_with, gives, of_m, of_values, of_values_with, minus, widest, ones, twos, late, falling};

/// A range has no value at its left end, and no marker.
#[tactic(auto, unfolding(crate::specs::Ranges::over, crate::specs::Ranges::function_of))]
pub fn a_range_begins_after_its_start()
    ensures left { of_m CountOverTime ones ≡ gives (number 5) }
    ensures marker { of_m CountOverTime marked ≡ Ok None }
    ensures before_marker { answer_to marked m (ask_of CountOverTime 0 60000) ≡ Ok None }
    ensures cost { ask_cost ones m (ask_of CountOverTime 0 300000) 0 ≡ 5 }
    ensures known { ask_cost ones m (ask_of CountOverTime 0 300000) 4 ≡ 2 }
{}

/// Sums and means are exact, and rounded once; the least and the greatest value pass over NaN.
#[tactic(auto, unfolding(crate::specs::Ranges::over, crate::specs::Ranges::function_of, pr_num::specs::Total::value_of, pr_num::specs::Total::mean_of, pr_num::specs::Half::half, pr_num::specs::Half::half_abs, pr_num::specs::Order::order_of))]
pub fn values_are_summed_and_compared()
    ensures sum { of_values SumOverTime (number 1 ∷ number 2 ∷ number 3 ∷ []) ≡ gives (number 6) }
    ensures opposite { of_values SumOverTime (PosInf ∷ number 2 ∷ NegInf ∷ []) ≡ gives NaN }
    ensures wide { of_values SumOverTime (widest ∷ Finite (pos 1) ∷ []) ≡ Err TooWide }
    ensures mean { of_values AvgOverTime (number 1 ∷ number 2 ∷ []) ≡ gives (Finite (pos 1500000000)) }
    ensures mean_once { of_values AvgOverTime (Finite (pos 1) ∷ Finite (pos 2) ∷ []) ≡ gives (Finite (pos 2)) }
    ensures wide_mean { of_values AvgOverTime (widest ∷ widest ∷ []) ≡ gives widest }
    ensures least { of_values MinOverTime (NaN ∷ number 2 ∷ number 1 ∷ NaN ∷ number 3 ∷ []) ≡ gives (number 1) }
    ensures greatest { of_values MaxOverTime (number 2 ∷ NaN ∷ number 3 ∷ number 1 ∷ []) ≡ gives (number 3) }
    ensures no_least { of_values MinOverTime (NaN ∷ NaN ∷ []) ≡ gives NaN }
    ensures no_greatest { of_values MaxOverTime (NaN ∷ NaN ∷ []) ≡ gives NaN }
{}

/// Without values there is nothing; with some there is their number, the last one, and that some
/// are there.
#[tactic(auto, unfolding(crate::specs::Ranges::over, crate::specs::Ranges::function_of))]
pub fn ranges_have_counts()
    ensures none { of_values CountOverTime [] ≡ Ok None }
    ensures absent { of_values PresentOverTime [] ≡ Ok None }
    ensures count { of_values CountOverTime (NaN ∷ number 2 ∷ []) ≡ gives (number 2) }
    ensures last { of_values LastOverTime (number 1 ∷ number 3 ∷ number 2 ∷ []) ≡ gives (number 2) }
    ensures present { of_values PresentOverTime (NaN ∷ []) ≡ gives (number 1) }
{}

/// A value changes where it differs from the one before, NaN from NaN not, and is reset where it is
/// below.
#[tactic(auto, unfolding(crate::specs::Ranges::over, crate::specs::Ranges::function_of, pr_num::specs::Order::compared))]
pub fn neighbours_differ_or_fall()
    ensures changes { of_values Changes (number 1 ∷ number 1 ∷ number 2 ∷ NaN ∷ NaN ∷ number 2 ∷ []) ≡ gives (number 3) }
    ensures resets { of_values Resets (number 1 ∷ number 3 ∷ number 2 ∷ NaN ∷ number 1 ∷ []) ≡ gives (number 1) }
    ensures infinite { of_values Resets (PosInf ∷ number 3 ∷ number 3 ∷ NegInf ∷ []) ≡ gives (number 2) }
    ensures one { of_values Changes (number 1 ∷ []) ≡ gives (number 0) }
    ensures reset { answer_to falling m (ask_of Resets 0 240000) ≡ gives (number 1) }
{}

/// What is gained goes on up to the ends of the range, or for half a mean step where they are
/// further away; a counter begins no earlier than at zero, and what it lost at falls is gained.
#[tactic(auto, unfolding(crate::specs::Ranges::over, crate::specs::Ranges::function_of, crate::specs::Extrapolation::rate_of, crate::specs::Extrapolation::increase_of, crate::specs::Extrapolation::delta_of, pr_num::specs::Half::half, pr_num::specs::Half::half_abs, pr_num::specs::Order::compared))]
pub fn gains_are_extrapolated()
    ensures increase { of_m Increase twos ≡ gives (number 10) }
    ensures rate { of_m Rate twos ≡ gives (Finite (pos 33333333)) }
    ensures at_zero { of_m Increase late ≡ gives (number 19) }
    ensures rate_at_zero { of_m Rate late ≡ gives (Finite (pos 63333333)) }
    ensures gauge { of_m Delta late ≡ gives (number 21) }
    ensures at_the_limit { over (ask_of Delta 0 2100) (spot_of 1100 (number 0) ∷ spot_of 2100 (number 10) ∷ []) ≡ gives (number 15) }
    ensures from_zero { over (ask_of Increase 0 2000) (spot_of 1000 (number 0) ∷ spot_of 2000 (number 10) ∷ []) ≡ gives (number 10) }
    ensures fallen { answer_to falling m (ask_of Increase 0 240000) ≡ gives (Finite (pos 9333333333)) }
    ensures fallen_gauge { answer_to falling m (ask_of Delta 0 240000) ≡ gives (Finite (negsuc 1333333332)) }
{}

/// A rate is taken of the rounded increase, even of one that is too wide itself.
#[tactic(auto, unfolding(crate::specs::Ranges::over, crate::specs::Ranges::function_of, crate::specs::Extrapolation::rate_of, crate::specs::Extrapolation::increase_of, pr_num::specs::Half::half, pr_num::specs::Half::half_abs, pr_num::specs::Order::compared))]
pub fn a_rate_is_of_the_rounded_increase()
    ensures increase { over (ask_of Increase 0 4) (spot_of 1 (Finite (pos 5)) ∷ spot_of 4 (Finite (pos 6)) ∷ []) ≡ gives (Finite (pos 1)) }
    ensures rate { over (ask_of Rate 0 4) (spot_of 1 (Finite (pos 5)) ∷ spot_of 4 (Finite (pos 6)) ∷ []) ≡ gives (Finite (pos 250)) }
    ensures wide { of_values Increase (number 1 ∷ widest ∷ []) ≡ Err TooWide }
    ensures narrow { of_values Rate (number 1 ∷ widest ∷ []) ≡ gives (Finite (pos 14999999999999999999950000000)) }
{}

/// The last two values give `irate` and `idelta`; what stands before them does not count.
#[tactic(auto, unfolding(crate::specs::Ranges::over, crate::specs::Ranges::function_of, crate::specs::Extrapolation::irate_of, crate::specs::Extrapolation::idelta_of, pr_num::specs::Half::half, pr_num::specs::Half::half_abs, pr_num::specs::Order::compared))]
pub fn the_last_two_values_count()
    ensures irate { of_values Irate (number 1 ∷ number 2 ∷ number 5 ∷ []) ≡ gives (number 3) }
    ensures fallen { of_values Irate (number 1 ∷ number 5 ∷ number 2 ∷ []) ≡ gives (number 2) }
    ensures before { of_values Irate (NaN ∷ number 1 ∷ number 2 ∷ []) ≡ gives (number 1) }
    ensures special { of_values Irate (number 1 ∷ NaN ∷ number 2 ∷ []) ≡ gives NaN }
    ensures idelta { of_values Idelta (number 1 ∷ number 5 ∷ number 2 ∷ []) ≡ gives (minus 3) }
    ensures infinite { of_values Idelta (number 1 ∷ number 5 ∷ PosInf ∷ []) ≡ gives NaN }
    ensures wide { of_values Idelta (minus 99999999999999999999 ∷ number 1 ∷ []) ≡ Err TooWide }
{}

/// The slope of the straight line by least squares is that of a second; the line goes on after the
/// end of the range.
#[tactic(auto, unfolding(crate::specs::Ranges::over, crate::specs::Ranges::function_of, crate::specs::Regression::deriv_of, crate::specs::Regression::predicted, pr_num::specs::Half::half, pr_num::specs::Half::half_abs))]
pub fn a_line_goes_on()
    ensures slope { of_values Deriv (number 1 ∷ number 3 ∷ number 5 ∷ []) ≡ gives (number 2) }
    ensures least_squares { of_values Deriv (number 1 ∷ number 4 ∷ number 4 ∷ []) ≡ gives (Finite (pos 1500000000)) }
    ensures falling { of_values Deriv (number 5 ∷ number 3 ∷ number 1 ∷ []) ≡ gives (minus 2) }
    ensures line { of_values_with PredictLinear (number 5) (number 1 ∷ number 3 ∷ number 5 ∷ []) ≡ gives (number 29) }
    ensures back { of_values_with PredictLinear (minus 9) (number 1 ∷ number 3 ∷ number 5 ∷ []) ≡ gives (number 1) }
    ensures wide_slope { of_values Deriv (minus 99999999999999999999 ∷ widest ∷ []) ≡ Err TooWide }
    ensures wide_parts { over (ask_of Deriv 0 2000000) (spot_of 1 (number 1) ∷ spot_of 1000001 widest ∷ []) ≡ Err TooWide }
    ensures wide_line { of_values_with PredictLinear (number 5) (number 1 ∷ widest ∷ []) ≡ Err TooWide }
    ensures far { of_values_with PredictLinear (number 1099511628) (number 1 ∷ number 1 ∷ []) ≡ Err TooWide }
    ensures far_back { of_values_with PredictLinear (minus 1099511628) (number 1 ∷ number 1 ∷ []) ≡ Err TooWide }
    ensures half_down { of_values_with PredictLinear (Finite (pos 500000)) (number 1 ∷ number 3 ∷ number 5 ∷ []) ≡ gives (number 19) }
    ensures half_up { of_values_with PredictLinear (Finite (pos 1500000)) (number 1 ∷ number 3 ∷ number 5 ∷ []) ≡ gives (Finite (pos 19004000000)) }
    ensures never { of_values_with PredictLinear NaN (number 1 ∷ number 3 ∷ []) ≡ gives NaN }
{}

/// Of one value these functions give nothing, whatever else there is; a value that is not finite
/// comes next, and then faults.
#[tactic(auto, unfolding(crate::specs::Ranges::over, crate::specs::Ranges::function_of, crate::specs::Extrapolation::rate_of, crate::specs::Extrapolation::increase_of, crate::specs::Extrapolation::delta_of, crate::specs::Regression::deriv_of, crate::specs::Regression::predicted))]
pub fn two_finite_values_are_needed()
    ensures one { of_values Rate (NaN ∷ []) ≡ Ok None }
    ensures one_ahead { of_values_with PredictLinear NaN (number 7 ∷ []) ≡ Ok None }
    ensures none_ahead { of_values_with PredictLinear (number 1099511628) [] ≡ Ok None }
    ensures special { of_values Increase (number 1 ∷ PosInf ∷ number 2 ∷ []) ≡ gives NaN }
    ensures special_gauge { of_values Delta (number 1 ∷ number 2 ∷ NegInf ∷ []) ≡ gives NaN }
    ensures special_slope { of_values Deriv (NaN ∷ number 2 ∷ []) ≡ gives NaN }
    ensures special_ahead { of_values_with PredictLinear (number 1099511628) (NaN ∷ number 2 ∷ []) ≡ gives NaN }
{}

/// A quantile lies between two of the values in order, as far from the lower one as the fraction
/// says.
#[tactic(auto, unfolding(crate::specs::Ranges::over, crate::specs::Ranges::function_of, pr_num::specs::Quantile::quantile_of, pr_num::specs::Quantile::ranked, pr_num::specs::Half::half, pr_num::specs::Half::half_abs, pr_num::specs::Order::order_of))]
pub fn a_quantile_is_of_values_in_order()
    ensures between { of_values_with QuantileOverTime (Finite (pos 100000000)) (number 10 ∷ number 0 ∷ []) ≡ gives (number 1) }
    ensures middle { of_values_with QuantileOverTime (Finite (pos 500000000)) (number 4 ∷ number 1 ∷ number 2 ∷ []) ≡ gives (number 2) }
    ensures above { of_values_with QuantileOverTime (number 2) (number 4 ∷ []) ≡ gives PosInf }
    ensures below { of_values_with QuantileOverTime (minus 1) (number 4 ∷ []) ≡ gives NegInf }
    ensures first { of_values_with QuantileOverTime (number 0) (number 4 ∷ NaN ∷ []) ≡ gives NaN }
{}
