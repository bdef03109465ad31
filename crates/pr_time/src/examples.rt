//! Worked spans, each as a clause that the check computes.
ghost use Rattle.std.specs.Prelude.{◌≡◌, ◌+◌, ◌*◌, Some, None, codes};
ghost use Rattle.pr_time.specs.declared.text.Unit.TheVariants.{Year, Week, Day, Hour, Minute, Second, Millisecond};
ghost use Rattle.pr_time.specs.SpanText.{ms_of};
ghost use Rattle.pr_time.specs.SpanAnswer.{span_of, bad_span_place};
ghost use Rattle.pr_time.specs.SpanShown.{shown_span};

/// A year is 365 days, and a week seven.
pub fn units_are_multiples()
    ensures year { ms_of Year ≡ 365 * ms_of Day }
    ensures week { ms_of Week ≡ 7 * ms_of Day }
    ensures day { ms_of Day ≡ 24 * ms_of Hour }
    ensures hour { ms_of Hour ≡ 60 * ms_of Minute }
    ensures minute { ms_of Minute ≡ 60 * ms_of Second }
    ensures second { ms_of Second ≡ 1000 * ms_of Millisecond }
    ensures millisecond { ms_of Millisecond ≡ 1 }
{}

/// Texts that are spans.
pub fn span_texts_read_so()
    ensures zero { span_of (codes "0") ≡ Some 0 }
    ensures minutes { span_of (codes "007m") ≡ Some (7 * ms_of Minute) }
    ensures zero_part { span_of (codes "00h3ms") ≡ Some 3 }
    ensures each_unit { span_of (codes "1y1w1d1h1m1s1ms") ≡ Some 32230861001 }
{}

/// Texts that are none, and their first bad bytes. Each unit stands once at most, after none that
/// is smaller; and no span begins with `5ms5`, though its second 5 is not the first bad byte.
pub fn other_texts_are_bad_so()
    ensures no_unit { span_of (codes "5m3") ≡ None }
    ensures no_unit_at { bad_span_place (codes "5m3") ≡ 3 }
    ensures rising { span_of (codes "5s5h") ≡ None }
    ensures rising_at { bad_span_place (codes "5s5h") ≡ 3 }
    ensures twice { span_of (codes "5m5m") ≡ None }
    ensures twice_at { bad_span_place (codes "5m5m") ≡ 4 }
    ensures twice_then { bad_span_place (codes "5m5m ") ≡ 4 }
    ensures milliseconds_twice { span_of (codes "5ms5ms") ≡ None }
    ensures milliseconds_twice_at { bad_span_place (codes "5ms5ms") ≡ 4 }
    ensures after_milliseconds { span_of (codes "5ms5s") ≡ None }
    ensures after_milliseconds_at { bad_span_place (codes "5ms5s") ≡ 4 }
    ensures digits_alone { span_of (codes "5ms5") ≡ None }
    ensures digits_alone_at { bad_span_place (codes "5ms5") ≡ 4 }
    ensures blank_at { bad_span_place (codes " 5m") ≡ 0 }
    ensures point_at { bad_span_place (codes "1.5h") ≡ 1 }
{}

/// Spans as they are printed: weeks and years as days, and no part that is 0.
pub fn spans_are_shown_so()
    ensures zero { shown_span 0 ≡ codes "0s" }
    ensures week { shown_span (ms_of Week) ≡ codes "7d" }
    ensures parts { shown_span (ms_of Hour * 1 + 7) ≡ codes "1h7ms" }
    ensures each { shown_span 93784005 ≡ codes "1d2h3m4s5ms" }
{}
