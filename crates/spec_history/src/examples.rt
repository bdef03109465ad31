// What the definitions say of small histories.
ghost use Rattle.std.specs.Prelude.{◌≡◌, pos, negsuc, [], ◌∷◌, Some, None, true, false, codes};
ghost use Rattle.spec_history.specs.Admission.{admit, put};
ghost use Rattle.spec_history.specs.private.Laws.{entries_until, value_at, values_within, has_values, values_shown};
ghost use Rattle.spec_history.specs.Lookback.{recent_entry, spot_at, spot_of, spots_within};
ghost use Rattle.spec_history.specs.Series.{element};
ghost use Rattle.spec_history.specs.private.Examples.{m, job, number, whole, entry_at, one, marked, three};
ghost use Rattle.spec_history.specs.declared.append.Append.TheVariants.{Added, Same, OutOfOrder, Conflict};
ghost use Rattle.pr_num.specs.declared.value.Point.TheVariants.{Stale};

/// A value is seen for five minutes, and no millisecond longer.
pub fn lookback_is_five_minutes()
    ensures seen { values_shown one m (pos 299999) ≡ element m (number 1) ∷ [] }
    ensures gone { values_shown one m (pos 300000) ≡ [] }
    ensures before { value_at marked (negsuc 0) m ≡ None }
{}

/// A series shows the newest value at or before a moment, with the time of that value.
pub fn a_value_has_its_time()
    ensures newest { spot_at three (pos 60000) m ≡ Some (spot_of 60000 (number 2)) }
    ensures older { spot_at three (pos 59999) m ≡ Some (spot_of 0 (number 1)) }
    ensures last { spot_at three (pos 419999) m ≡ Some (spot_of 120000 (number 3)) }
    ensures gone { spot_at three (pos 420000) m ≡ None }
    ensures entry { recent_entry marked (pos 60000) m ≡ Some (entry_at 60000 Stale) }
    ensures hidden { spot_at marked (pos 60000) m ≡ None }
{}

/// A range has the values above its start and at most its end, in order of time.
pub fn a_range_is_open_below_and_closed_above()
    ensures whole { spots_within three m (negsuc 0) (pos 120000)
        ≡ spot_of 0 (number 1) ∷ spot_of 60000 (number 2) ∷ spot_of 120000 (number 3) ∷ [] }
    ensures start { spots_within three m (pos 0) (pos 60000) ≡ spot_of 60000 (number 2) ∷ [] }
    ensures end { spots_within three m (negsuc 0) (pos 59999) ≡ spot_of 0 (number 1) ∷ [] }
    ensures alone { values_within three m (pos 59999) (pos 60000) ≡ number 2 ∷ [] }
    ensures other { spots_within three [] (negsuc 0) (pos 120000) ≡ [] }
    ensures below { spots_within three m (negsuc 9) (negsuc 0) ≡ [] }
    ensures counted { entries_until marked m (pos 60000) ≡ 2 }
    ensures counted_before { entries_until marked m (pos 59999) ≡ 1 }
    ensures counted_below { entries_until marked m (negsuc 0) ≡ 0 }
{}

/// At the last time of a series an equal point is the same, and another one is a conflict with it.
pub fn an_equal_point_is_the_same()
    ensures first { admit [] m 0 (whole 1) ≡ Added }
    ensures same { admit one m 0 (whole 1) ≡ Same }
    ensures other { admit one m 0 (whole 2) ≡ Conflict (whole 1) }
    ensures marker { admit one m 0 Stale ≡ Conflict (whole 1) }
    ensures later { put one (entry_at 60000 Stale) ≡ marked }
    ensures kept { put one (entry_at 0 (whole 2)) ≡ one }
{}

/// Below the last time of its series a point is out of order, be it equal to one that is there.
pub fn an_older_point_is_out_of_order()
    ensures older { admit marked m 59999 (whole 1) ≡ OutOfOrder 60000 }
    ensures equal { admit marked m 0 (whole 1) ≡ OutOfOrder 60000 }
    ensures other_series { admit marked [] 0 (whole 1) ≡ Added }
{}

/// A marker hides the value before it, and is no value of a range.
pub fn a_marker_hides()
    ensures hidden { values_shown marked m (pos 60000) ≡ [] }
    ensures before { value_at marked (pos 59999) m ≡ Some (number 1) }
    ensures range { values_within marked m (negsuc 0) (pos 60000) ≡ number 1 ∷ [] }
    ensures open_below { values_within marked m (pos 0) (pos 60000) ≡ [] }
{}

/// A label set has a value where its label of that name has it; an absent label is the empty text.
pub fn an_absent_label_is_the_empty_text()
    ensures same { has_values (job (codes "a")) (job (codes "a")) ≡ true }
    ensures other_value { has_values (job (codes "b")) (job (codes "a")) ≡ false }
    ensures other_name { has_values (job (codes "m")) m ≡ false }
    ensures absent { has_values (job []) m ≡ true }
    ensures present { has_values (job []) (job (codes "a")) ≡ false }
    ensures nothing { has_values [] m ≡ true }
{}
