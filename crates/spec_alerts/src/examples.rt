// What the definitions say of small lineages.
ghost use Rattle.std.specs.Prelude.{◌≡◌, [], ◌∷◌, ◌++◌, codes, Some, None};
ghost use Rattle.spec_history.specs.private.Examples.{number, whole};
ghost use Rattle.spec_history.specs.Series.{element};
ghost use Rattle.pr_num.specs.declared.value.Point.TheVariants.{Stale};
ghost use Rattle.spec_alerts.specs.private.Examples.{a, after_two, b, d, d_of, down, failed_at, firing, firing_sent, found_of, first_of_two, gave, held_out, kept, over, over_sent, pending, twice_sent, two_found, up, with_state, written};
ghost use Rattle.spec_alerts.specs.Lineage.{came_to, exceeded, previous};
ghost use Rattle.spec_alerts.specs.private.Laws.{alerting_outcome, restored_entry};
ghost use Rattle.spec_alerts.specs.Records.{evaluation, exceeding, records, samples, sendings, for_state_labels};
ghost use Rattle.spec_alerts.specs.Restoring.{restored, restored_of, restored_time};

/// An alert is pending until it has been active for as long as it has to be, and then fires and is
/// sent. When it is over, it is sent again, and known for fifteen minutes.
pub fn an_alert_fires_and_is_over()
    ensures pending { records (down 0 180000 0 ∷ down 60000 180000 0 ∷ []) ≡ pending d 0 ∷ [] }
    ensures fires { records held_out ≡ firing d 0 180000 (Some 180000) None ∷ [] }
    ensures sent { sendings 60000 held_out ≡ firing_sent d 180000 420000 ∷ [] }
    ensures over { records (held_out ++ up 240000 180000 0 ∷ []) ≡ over d 0 180000 240000 (Some 240000) (Some 240000) ∷ [] }
    ensures sent_over { sendings 60000 (held_out ++ up 240000 180000 0 ∷ []) ≡ over_sent d 180000 240000 ∷ [] }
    ensures known { records (held_out ++ up 240000 180000 0 ∷ up 1140000 180000 0 ∷ []) ≡ over d 0 180000 240000 (Some 1140000) (Some 240000) ∷ [] }
    ensures forgotten { records (held_out ++ up 240000 180000 0 ∷ up 1140001 180000 0 ∷ []) ≡ [] }
    ensures anew { records (held_out ++ up 240000 180000 0 ∷ down 300000 180000 0 ∷ []) ≡ pending d 300000 ∷ [] }
    ensures silent { sendings 60000 (held_out ++ up 240000 180000 0 ∷ up 1140001 180000 0 ∷ []) ≡ [] }
    ensures dropped { records (down 0 180000 0 ∷ up 60000 180000 0 ∷ []) ≡ [] }
{}

/// An evaluation that failed changes no alert: it is neither found nor missing then.
pub fn a_fault_changes_no_alert()
    ensures pending { records (down 0 180000 0 ∷ failed_at 60000 ∷ []) ≡ pending d 0 ∷ [] }
    ensures goes_on { records (down 0 120000 0 ∷ failed_at 60000 ∷ down 120000 120000 0 ∷ []) ≡ firing d 0 120000 (Some 120000) None ∷ [] }
    ensures silent { sendings 60000 (down 0 0 0 ∷ failed_at 120000 ∷ []) ≡ [] }
    ensures wrote { previous (evaluation 0 0 0 (came_to []) (d ∷ []) ∷ failed_at 60000 ∷ []) ≡ d ∷ [] }
{}

/// An alert that fires is sent again once a minute has passed, and not before.
pub fn an_alert_is_sent_again_after_a_minute()
    ensures first { sendings 30000 (down 0 0 0 ∷ []) ≡ firing_sent d 0 240000 ∷ [] }
    ensures early { sendings 30000 (down 0 0 0 ∷ down 30000 0 0 ∷ []) ≡ [] }
    ensures at_once { sendings 30000 twice_sent ≡ [] }
    ensures again { sendings 30000 (twice_sent ++ down 90000 0 0 ∷ []) ≡ firing_sent d 0 330000 ∷ [] }
{}

/// An alert that is kept firing is held from the first evaluation without it; when it has been held
/// for as long as it is kept, it is over. An evaluation that finds it again ends that.
pub fn an_alert_is_kept_firing()
    ensures held { records kept ≡ firing d 0 0 (Some 120000) (Some 120000) ∷ [] }
    ensures sent { sendings 60000 kept ≡ firing_sent d 0 360000 ∷ [] }
    ensures silent { sendings 60000 (kept ++ up 180000 0 120000 ∷ []) ≡ [] }
    ensures still { records (kept ++ up 180000 0 120000 ∷ []) ≡ firing d 0 0 (Some 120000) (Some 120000) ∷ [] }
    ensures over { records (kept ++ up 180000 0 120000 ∷ up 240000 0 120000 ∷ []) ≡ over d 0 0 240000 (Some 240000) (Some 120000) ∷ [] }
    ensures sent_over { sendings 60000 (kept ++ up 180000 0 120000 ∷ up 240000 0 120000 ∷ []) ≡ over_sent d 0 240000 ∷ [] }
    ensures found_again { records (kept ++ down 180000 0 120000 ∷ up 300000 0 120000 ∷ []) ≡ firing d 0 0 (Some 300000) (Some 300000) ∷ [] }
{}

/// Where there are more pending and firing alerts than the limit, all is forgotten.
pub fn too_many_alerts_are_forgotten()
    ensures have { exceeding 1 first_of_two 30000 60000 0 two_found ≡ Some 2 }
    ensures outcome { alerting_outcome 1 first_of_two 30000 60000 0 two_found ≡ exceeded }
    ensures none { records after_two ≡ [] }
    ensures begins { records (after_two ++ gave 60000 60000 0 (found_of a ∷ []) ∷ []) ≡ pending a 60000 ∷ [] }
    ensures no_limit { exceeding 0 first_of_two 30000 60000 0 two_found ≡ None }
{}

/// The active time of an alert is restored from what was last written of it.
pub fn an_alert_is_restored()
    ensures moved { restored (written 600000 (whole 0)) 1800000 1860000 (down 1800000 1800000 0 ∷ down 1860000 1800000 0 ∷ []) ≡ restored_of d 1260000 ∷ [] }
    ensures remains_little { restored_time 1800000 (whole 0) 1500000 1860000 ≡ Some 660000 }
    ensures remains_none { restored_time 1800000 (whole 0) 1800000 2460000 ≡ Some 0 }
    ensures too_old { restored (written 600000 (whole 0)) 1800000 4320000 (down 4260000 1800000 0 ∷ down 4320000 1800000 0 ∷ []) ≡ [] }
    ensures marker { restored_time 1800000 Stale 600000 1860000 ≡ None }
    ensures short { restored (written 600000 (whole 0)) 599999 1860000 (down 1800000 599999 0 ∷ down 1860000 599999 0 ∷ []) ≡ [] }
    ensures pending { records (down 1800000 1800000 0 ∷ down 1860000 1800000 0 ∷ restored_entry (written 600000 (whole 0)) 1800000 1860000 (down 1800000 1800000 0 ∷ down 1860000 1800000 0 ∷ []) ∷ down 3059999 1800000 0 ∷ []) ≡ pending d 1260000 ∷ [] }
    ensures fires { records (down 1800000 1800000 0 ∷ down 1860000 1800000 0 ∷ restored_entry (written 600000 (whole 0)) 1800000 1860000 (down 1800000 1800000 0 ∷ down 1860000 1800000 0 ∷ []) ∷ down 3060000 1800000 0 ∷ []) ≡ firing d 1260000 3060000 (Some 3060000) None ∷ [] }
{}

/// What is written of an alert: that it is pending or fires, and since when it is active, in whole
/// seconds. Nothing is written of one that is over.
#[tactic(auto, unfolding(pr_num::specs::Arithmetic::product_of))]
pub fn alerts_are_written_as_samples()
    ensures pending { samples (pending a 60000 ∷ []) ≡ element (with_state a (codes "ALERTS") (codes "pending")) (number 1) ∷ element (for_state_labels a) (number 60) ∷ [] }
    ensures over { samples (over d 0 0 240000 None None ∷ []) ≡ [] }
{}
