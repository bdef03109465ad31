// What the definitions say of lineages, where two readings differ by a moment, a value or an entry.
ghost use Rattle.std.specs.Prelude.{◌≡◌, [], ◌∷◌, ◌++◌, codes, map, pos, negsuc, None, Some};
ghost use Rattle.pr_labels.specs.LabelSet.{pair_of};
ghost use Rattle.pr_num.specs.declared.value.Num.TheVariants.{Finite, NaN, PosInf, NegInf};
ghost use Rattle.pr_num.specs.declared.value.Point.TheVariants.{Value};
ghost use Rattle.spec_history.specs.private.Examples.{number, whole};
ghost use Rattle.spec_history.specs.Series.{element};
ghost use Rattle.spec_rules.specs.spec_alerts.private.Examples.{a, b, d, down, found_of, firing_sent, gave, held_out, pending, up, with_state, written};
ghost use Rattle.spec_rules.specs.spec_alerts.Lineage.{came_to, exceeded, moved, previous};
ghost use Rattle.spec_rules.specs.spec_alerts.Records.{evaluation, exceeding, for_state_labels, records, samples, sendings};
ghost use Rattle.spec_rules.specs.spec_alerts.Restoring.{restored, restored_of, restored_time, written_time};
ghost use Rattle.laws_runs.specs.private.Worked.{found_twice};

/// The value and the annotations of an alert are those of its last element.
pub fn alerts_have_these_values()
    ensures value { map (λ r. r.value) (records found_twice) ≡ number 1 ∷ [] }
    ensures notes { map (λ r. r.notes) (records found_twice) ≡ (pair_of (codes "n") (codes "y") ∷ []) ∷ [] }
{}

/// One that did not fire is not kept; one that is over does not count for the limit. The active time
/// is the one to which it was moved last. A rule that exceeds the limit keeps what it wrote.
pub fn alerts_go_on_so()
    ensures not_kept { records (down 0 180000 120000 ∷ up 60000 180000 120000 ∷ []) ≡ [] }
    ensures uncounted { exceeding 1 (gave 0 0 0 (found_of a ∷ []) ∷ gave 60000 0 0 [] ∷ []) 120000 0 0 (found_of b ∷ []) ≡ None }
    ensures moved_twice { records (down 0 1800000 0 ∷ moved (restored_of d 5 ∷ []) ∷ moved (restored_of d 7 ∷ []) ∷ []) ≡ pending d 7 ∷ [] }
    ensures moved_before { records (down 0 1800000 0 ∷ moved (restored_of d 5 ∷ []) ∷ down 60000 1800000 0 ∷ []) ≡ pending d 5 ∷ [] }
    ensures wrote { previous (evaluation 0 0 0 (came_to []) (d ∷ []) ∷ evaluation 60000 0 0 exceeded [] ∷ []) ≡ d ∷ [] }
{}

/// One that was sent when it was over is not sent again at once. A notification ends four intervals
/// later where these are longer than the resend delay. What is written of an alert has whole seconds,
/// rounded down.
#[tactic(auto, unfolding(pr_num::specs::Arithmetic::product_of))]
pub fn alerts_are_sent_so()
    ensures once { sendings 60000 (held_out ++ up 240000 180000 0 ∷ up 270000 180000 0 ∷ []) ≡ [] }
    ensures interval { sendings 120000 (down 0 0 0 ∷ []) ≡ firing_sent d 0 480000 ∷ [] }
    ensures seconds { samples (pending a 60500 ∷ []) ≡ element (with_state a (codes "ALERTS") (codes "pending")) (number 1) ∷ element (for_state_labels a) (number 60) ∷ [] }
{}

/// An active time is restored from a sample that is exactly an hour old, of a rule that holds for
/// exactly ten minutes, and from a time that is not above the sample's; it is cut to whole seconds.
/// One that is over, and what is no number, restores none.
pub fn active_times_are_restored_so()
    ensures an_hour { restored (written 600000 (whole 0)) 1800000 4200000 (down 4140000 1800000 0 ∷ down 4200000 1800000 0 ∷ []) ≡ restored_of d 3600000 ∷ [] }
    ensures ten_minutes { restored (written 1500000 (whole 0)) 600000 1860000 (down 1800000 600000 0 ∷ down 1860000 600000 0 ∷ []) ≡ restored_of d 0 ∷ [] }
    ensures up_to_the_sample { restored_time 1800000 (whole 600) 600000 1860000 ≡ Some 1860000 }
    ensures above_the_sample { restored_time 1800000 (whole 601) 600000 1860000 ≡ None }
    ensures cut { written_time (Value (Finite (pos 1500000000))) ≡ Some 1000 }
    ensures cut_to_nought { written_time (Value (Finite (negsuc 499999999))) ≡ Some 0 }
    ensures below_nought { written_time (Value (Finite (negsuc 999999999))) ≡ None }
    ensures nan { written_time (Value NaN) ≡ None }
    ensures infinite { written_time (Value PosInf) ≡ None }
    ensures less { written_time (Value NegInf) ≡ None }
    ensures over { restored (written 600000 (whole 0)) 600000 660000 (down 0 600000 0 ∷ down 600000 600000 0 ∷ up 660000 600000 0 ∷ []) ≡ [] }
{}
