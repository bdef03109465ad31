// What the definitions say of functions of small vectors.
ghost use Rattle.std.specs.Prelude.{◌≡◌, ◌++◌, codes, [], ◌∷◌, Ok, Err, Some, None, true, false};
ghost use Rattle.pr_num.specs.private.Worked.{num};
ghost use Rattle.spec_vectors.specs.declared.function_fault.FunctionFault.TheVariants.{SameLabels, TooWide};
ghost use Rattle.spec_vectors.specs.declared.part.Part.TheVariants.{Minute, Hour, DayOfWeek, DayOfMonth, DayOfYear, DaysInMonth, Month, Year};
ghost use Rattle.spec_vectors.specs.Vectors.{element};
ghost use Rattle.spec_vectors.specs.private.Examples.{x, y, sample};
ghost use Rattle.spec_vectors.specs.Functions.{abs_of, ceils_of, floors_of, signs_of, rounded_all, clamped, clamped_min, clamped_max, scalar_of};
ghost use Rattle.spec_vectors.specs.LabelFunctions.{label_replaced, label_joined};
ghost use Rattle.spec_vectors.specs.Calendar.{calendar_of, date, date_after, is_leap};
ghost use Rattle.spec_vectors.specs.Histogram.{histogram_quantiles};
ghost use Rattle.spec_vectors.specs.private.FunctionExamples.{one, nameless, two, twice, at_x, le, le_at, three, alone};

/// Each value is worked by itself, and the metric's name goes.
#[tactic(auto, unfolding(crate::proofs::FunctionComputing::function_computing))]
pub fn values_are_worked_one_by_one()
    ensures abs { abs_of (one (codes "-2.5")) ≡ Ok (nameless (codes "2.5")) }
    ensures ceil { ceils_of (one (codes "-2.5")) ≡ Ok (nameless (codes "-2")) }
    ensures floor { floors_of (one (codes "-2.5")) ≡ Ok (nameless (codes "-3")) }
    ensures sign { signs_of (one (codes "-2.5")) ≡ Ok (nameless (codes "-1")) }
    ensures no_sign { signs_of (one (codes "0")) ≡ Ok (nameless (codes "0")) }
    ensures infinite_sign { signs_of (one (codes "+Inf")) ≡ Ok (nameless (codes "1")) }
    ensures nan { signs_of (one (codes "NaN")) ≡ Ok (nameless (codes "NaN")) }
    ensures half_up { rounded_all (num (codes "1")) (one (codes "-2.5")) ≡ Ok (nameless (codes "-2")) }
    ensures half_up_again { rounded_all (num (codes "1")) (one (codes "2.5")) ≡ Ok (nameless (codes "3")) }
    ensures step { rounded_all (num (codes "0.5")) (one (codes "2.6")) ≡ Ok (nameless (codes "2.5")) }
    ensures wide { ceils_of (one (codes "99999999999999999999.5")) ≡ Err TooWide }
    ensures none { abs_of [] ≡ Ok [] }
{}

/// A value is brought between two limits; where these have changed places, nothing is left.
#[tactic(auto, unfolding(crate::proofs::FunctionComputing::function_computing))]
pub fn values_are_clamped()
    ensures inside { clamped (num (codes "1")) (num (codes "3")) (one (codes "2")) ≡ Ok (nameless (codes "2")) }
    ensures below { clamped (num (codes "1")) (num (codes "3")) (one (codes "-Inf")) ≡ Ok (nameless (codes "1")) }
    ensures above { clamped (num (codes "1")) (num (codes "3")) (one (codes "4")) ≡ Ok (nameless (codes "3")) }
    ensures nan { clamped (num (codes "1")) (num (codes "3")) (one (codes "NaN")) ≡ Ok (nameless (codes "NaN")) }
    ensures no_limit { clamped (num (codes "NaN")) (num (codes "3")) (one (codes "2")) ≡ Ok (nameless (codes "NaN")) }
    ensures crossed { clamped (num (codes "3")) (num (codes "1")) (one (codes "2")) ≡ Ok [] }
    ensures equal { clamped (num (codes "3")) (num (codes "3")) (one (codes "2")) ≡ Ok (nameless (codes "3")) }
    ensures least { clamped_min (num (codes "3")) (one (codes "2")) ≡ Ok (nameless (codes "3")) }
    ensures most { clamped_max (num (codes "1")) (one (codes "2")) ≡ Ok (nameless (codes "1")) }
    ensures nan_limit { clamped_max (num (codes "NaN")) (one (codes "2")) ≡ Ok (nameless (codes "NaN")) }
{}

/// Two results with equal labels are a fault, which tells the least such labels; a value that is
/// too wide comes before it.
#[tactic(auto, unfolding(crate::proofs::FunctionComputing::function_computing))]
pub fn equal_labels_are_a_fault()
    ensures least { abs_of (twice (codes "1")) ≡ Err (SameLabels (x (codes "1") ∷ [])) }
    ensures wide { ceils_of (twice (codes "99999999999999999999.5")) ≡ Err TooWide }
    ensures crossed { clamped (num (codes "3")) (num (codes "1")) (twice (codes "1")) ≡ Ok [] }
{}

/// The value of one element is a scalar, and nothing else is a number.
#[tactic(auto, unfolding(crate::proofs::FunctionComputing::function_computing))]
pub fn one_element_is_a_scalar()
    ensures one { scalar_of (one (codes "2")) ≡ num (codes "2") }
    ensures none { scalar_of [] ≡ num (codes "NaN") }
    ensures two { scalar_of two ≡ num (codes "NaN") }
{}

/// A label is set to what a text is expanded to, or joined of other labels; an empty text takes it
/// out, and so two elements may come to have equal labels.
#[tactic(auto, unfolding(crate::proofs::FunctionComputing::function_computing))]
pub fn labels_are_set()
    ensures replaced { label_replaced (codes "y") (codes "x") (λ text. Some (codes "k" ++ text)) (one (codes "2"))
        ≡ Ok (sample (codes "a") (x (codes "1") ∷ y (codes "k1") ∷ []) (num (codes "2")) ∷ []) }
    ensures unmatched { label_replaced (codes "y") (codes "x") (λ _. None) (one (codes "2")) ≡ Ok (one (codes "2")) }
    ensures absent { label_replaced (codes "y") (codes "z") (λ text. Some (text ++ codes "k")) (one (codes "2"))
        ≡ Ok (sample (codes "a") (x (codes "1") ∷ y (codes "k") ∷ []) (num (codes "2")) ∷ []) }
    ensures emptied { label_replaced (codes "x") (codes "x") (λ _. Some []) (one (codes "2")) ≡ Ok (sample (codes "a") [] (num (codes "2")) ∷ []) }
    ensures same { label_replaced (codes "x") (codes "x") (λ _. Some (codes "k")) two
        ≡ Err (SameLabels (at_x (codes "k") (codes "1")).labels) }
    ensures joined { label_joined (codes "y") (codes "-") (codes "x" ∷ codes "x" ∷ []) two
        ≡ Ok (sample (codes "a") (x (codes "1") ∷ y (codes "1-1") ∷ []) (num (codes "1")) ∷ sample (codes "a") (x (codes "2") ∷ y (codes "2-2") ∷ []) (num (codes "3")) ∷ []) }
    ensures joined_none { label_joined (codes "x") (codes "-") (codes "z" ∷ []) (one (codes "2")) ≡ Ok (sample (codes "a") [] (num (codes "2")) ∷ []) }
{}

/// The date goes on from 1 January of the year 1 by the Gregorian calendar.
#[tactic(auto, unfolding(crate::specs::Calendar::date_after))]
pub fn days_go_by()
    ensures first { date_after 0 ≡ date 1 1 1 }
    ensures january { date_after 30 ≡ date 1 1 31 }
    ensures february { date_after 58 ≡ date 1 2 28 }
    ensures march { date_after 59 ≡ date 1 3 1 }
    ensures december { date_after 364 ≡ date 1 12 31 }
    ensures year { date_after 365 ≡ date 2 1 1 }
    ensures leap { date_after 1154 ≡ date 4 2 29 }
    ensures fourth { is_leap 2024 ≡ true }
    ensures century { is_leap 1900 ≡ false }
    ensures fourth_century { is_leap 2000 ≡ true }
    ensures common { is_leap 2023 ≡ false }
{}

/// Fields of the date and the time of day. Seconds are cut toward zero, and the years 1 to 9999
/// have fields.
#[tactic(auto, unfolding(crate::proofs::FunctionComputing::function_computing))]
pub fn instants_have_fields()
    ensures minute { calendar_of Minute (num (codes "3599.999999999")) ≡ num (codes "59") }
    ensures hour { calendar_of Hour (num (codes "86399")) ≡ num (codes "23") }
    ensures cut { calendar_of Hour (num (codes "-0.5")) ≡ num (codes "0") }
    ensures before { calendar_of Hour (num (codes "-1")) ≡ num (codes "23") }
    ensures thursday { calendar_of DayOfWeek (num (codes "0")) ≡ num (codes "4") }
    ensures sunday { calendar_of DayOfWeek (num (codes "259200")) ≡ num (codes "0") }
    ensures day { calendar_of DayOfMonth (num (codes "-62130499200")) ≡ num (codes "1") }
    ensures month { calendar_of Month (num (codes "-62130499200")) ≡ num (codes "3") }
    ensures length { calendar_of DaysInMonth (num (codes "-62038310400")) ≡ num (codes "29") }
    ensures last { calendar_of DayOfYear (num (codes "-62009452800")) ≡ num (codes "366") }
    ensures year { calendar_of Year (num (codes "-62009452800")) ≡ num (codes "4") }
    ensures first { calendar_of Year (num (codes "-62135596800.9")) ≡ num (codes "1") }
    ensures too_early { calendar_of Hour (num (codes "-62135596801")) ≡ num (codes "NaN") }
    ensures latest { calendar_of Minute (num (codes "253402300799.9")) ≡ num (codes "59") }
    ensures too_late { calendar_of Minute (num (codes "253402300800")) ≡ num (codes "NaN") }
    ensures infinite { calendar_of Hour (num (codes "+Inf")) ≡ num (codes "NaN") }
{}

/// The quantile of a histogram, by its rules one after another.
#[tactic(auto, unfolding(crate::proofs::FunctionComputing::function_computing))]
pub fn histograms_have_quantiles()
    ensures first { histogram_quantiles (num (codes "0.5")) three ≡ Ok (alone (codes "0.1")) }
    ensures between { histogram_quantiles (num (codes "0.75")) three ≡ Ok (alone (codes "0.183333333")) }
    ensures second_highest { histogram_quantiles (num (codes "0.95")) three ≡ Ok (alone (codes "0.2")) }
    ensures below { histogram_quantiles (num (codes "-1")) three ≡ Ok (alone (codes "-Inf")) }
    ensures above { histogram_quantiles (num (codes "1.1")) three ≡ Ok (alone (codes "+Inf")) }
    ensures no_phi { histogram_quantiles (num (codes "NaN")) three ≡ Ok (alone (codes "NaN")) }
    ensures no_rank { histogram_quantiles (num (codes "0.5")) (le (codes "1") (codes "-20") ∷ le (codes "2") (codes "-15") ∷ le (codes "+Inf") (codes "-10") ∷ []) ≡ Ok (alone (codes "2")) }
    ensures rounded { histogram_quantiles (num (codes "0.1")) (le (codes "3") (codes "3") ∷ le (codes "+Inf") (codes "10") ∷ []) ≡ Ok (alone (codes "0.999999999")) }
    ensures none { histogram_quantiles (num (codes "0.5")) two ≡ Ok [] }
{}

/// Buckets are put in order, counts of equal bounds are added, and no count is less than one before
/// it.
#[tactic(auto, unfolding(crate::proofs::FunctionComputing::function_computing))]
pub fn buckets_are_made_right()
    ensures raised { histogram_quantiles (num (codes "1")) (le (codes "1") (codes "5") ∷ le (codes "2") (codes "3") ∷ le (codes "+Inf") (codes "4") ∷ []) ≡ Ok (alone (codes "1")) }
    ensures equal { histogram_quantiles (num (codes "0.5")) (le (codes "0.1") (codes "2") ∷ le (codes "1e-1") (codes "3") ∷ le (codes "+Inf") (codes "10") ∷ []) ≡ Ok (alone (codes "0.1")) }
    ensures negative { histogram_quantiles (num (codes "0.5")) (le (codes "-1") (codes "5") ∷ le (codes "+Inf") (codes "10") ∷ []) ≡ Ok (alone (codes "-1")) }
    ensures single { histogram_quantiles (num (codes "0.5")) (le (codes "+Inf") (codes "10") ∷ []) ≡ Ok (alone (codes "NaN")) }
    ensures no_top { histogram_quantiles (num (codes "0.5")) (le (codes "1") (codes "5") ∷ le (codes "2") (codes "10") ∷ []) ≡ Ok (alone (codes "NaN")) }
    ensures empty { histogram_quantiles (num (codes "0.5")) (le (codes "1") (codes "0") ∷ le (codes "+Inf") (codes "0") ∷ []) ≡ Ok (alone (codes "NaN")) }
    ensures infinite { histogram_quantiles (num (codes "0.5")) (le (codes "1") (codes "+Inf") ∷ le (codes "+Inf") (codes "10") ∷ []) ≡ Ok (alone (codes "NaN")) }
    ensures passed_over { histogram_quantiles (num (codes "0.5")) (le (codes "x") (codes "7") ∷ le (codes "nan") (codes "7") ∷ three) ≡ Ok (alone (codes "0.1")) }
    ensures nothing_below { histogram_quantiles (num (codes "0")) (le (codes "1") (codes "0") ∷ le (codes "+Inf") (codes "10") ∷ []) ≡ Ok (alone (codes "0")) }
    ensures wide { histogram_quantiles (num (codes "0.5")) (le (codes "1") (codes "6e19") ∷ le (codes "1.0") (codes "6e19") ∷ le (codes "+Inf") (codes "1") ∷ []) ≡ Err TooWide }
    ensures apart { histogram_quantiles (num (codes "0.5")) (le_at (codes "2") (codes "1") (codes "5") ∷ le_at (codes "1") (codes "2") (codes "5") ∷ le_at (codes "2") (codes "+Inf") (codes "10") ∷ le_at (codes "1") (codes "+Inf") (codes "10") ∷ [])
        ≡ Ok (element (x (codes "1") ∷ []) (num (codes "2")) ∷ element (x (codes "2") ∷ []) (num (codes "1")) ∷ []) }
{}
