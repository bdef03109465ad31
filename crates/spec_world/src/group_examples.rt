// What small groups are told at their evaluations and reloads.
ghost use Rattle.std.specs.Prelude.{◌≡◌, codes, [], ◌∷◌, ◌++◌, ◌^◌, None, Some};
ghost use Rattle.pr_num.specs.declared.value.Point.TheVariants.{Stale};
ghost use Rattle.pr_ast.specs.pr_labels.LabelSet.{named};
ghost use Rattle.spec_vectors.specs.spec_history.declared.append.Append.TheVariants.{Conflict};
ghost use Rattle.spec_vectors.specs.spec_history.private.Examples.{number, whole};
ghost use Rattle.pr_ast.specs.private.Examples.{metric};
ghost use Rattle.spec_rules.specs.declared.fault.RuleFault.TheVariants as rule;
ghost use Rattle.spec_rules.specs.spec_alerts.declared.record.State.TheVariants.{Pending};
ghost use Rattle.spec_vectors.specs.spec_history.Puts.{marker};
ghost use Rattle.spec_rules.specs.declared.report.RuleOutcome.TheVariants.{Fault};
ghost use Rattle.spec_world.specs.declared.event.Event.TheVariants.{Add, Alerts, Eval, Restart};
ghost use Rattle.spec_world.specs.declared.report.Report.TheVariants as report;
ghost use Rattle.spec_world.specs.private.GroupExamples.{added_at, after_a_late_one, instance, after_the_limit, alerts_series, big, big_fails, big_is, colliding, counting, eval_at, evaluated_once, every_30s, failed, file, fine, firing, for_1h, for_3m, for_state_series, group, keeps_for_2m, labelled, limit_is_met, limited, loaded, moved_to, of_alert, over, pending_for_1h, put, reload, restoring, s_of, sample, still_fires, told, told_leftovers, told_restored, told_rules, told_sent, too_many, two_sums, up, went_up, series, written_at};
ghost use Rattle.spec_world.specs.Settings.{of_a_run};
ghost use Rattle.spec_world.specs.Step.{next};
ghost use Rattle.spec_world.specs.World.{begin};

/// A group is evaluated at rising times, and only where it is there.
#[tactic(auto, unfolding(crate::specs::Step::next, spec_rules::specs::Evaluations::group_step, spec_rules::specs::Evaluations::rule_step, spec_rules::specs::Evaluations::rule_outcome, spec_rules::specs::Results::rule_result, spec_rules::specs::Reloads::reload_step, pr_match::specs::Matcher::meets, pr_match::specs::Matcher::meets_all, pr_num::specs::Order::compared))]
pub fn a_group_is_evaluated_at_rising_times()
    ensures not_later { told (loaded [] (group None 0 [])) (eval_at 0 ∷ []) (eval_at 0) ≡ report.NotLater 0 }
    ensures no_group { told (loaded [] (group None 0 [])) [] (Eval 0 file (codes "h")) ≡ report.NoGroup file (codes "h") }
{}

/// A rule that fails puts nothing and marks nothing, and the others go on.
#[tactic(auto, unfolding(crate::specs::Step::next, spec_rules::specs::Evaluations::group_step, spec_rules::specs::Evaluations::rule_step, spec_rules::specs::Evaluations::rule_outcome, spec_rules::specs::Results::rule_result, spec_rules::specs::Reloads::reload_step, pr_match::specs::Matcher::meets, pr_match::specs::Matcher::meets_all, pr_num::specs::Order::compared, pr_num::specs::Arithmetic::product_of, pr_num::specs::Half::half, pr_num::specs::Half::half_abs))]
pub fn a_rule_that_fails_marks_nothing()
    ensures first { told_rules big [] (eval_at 0) ≡ big_fails }
    ensures second { told_rules big (eval_at 0 ∷ big_is 30000 1 ∷ []) (eval_at 30000)
        ≡ fine (put (named (codes "a")) (number 100) ∷ []) [] [] ∷ fine (put (named (codes "b")) (number 1) ∷ []) [] [] ∷ [] }
    ensures third { told_rules big (eval_at 0 ∷ big_is 30000 1 ∷ eval_at 30000 ∷ big_is 60000 (10 ^ 19) ∷ []) (eval_at 60000) ≡ big_fails }
{}

/// Where more alerts are pending and firing than the limit allows, all are dropped, and they begin
/// anew. While a group waits, nothing is written of its alerts.
#[tactic(auto, unfolding(crate::specs::Step::next, spec_rules::specs::Evaluations::group_step, spec_rules::specs::Evaluations::rule_step, spec_rules::specs::Evaluations::rule_outcome, spec_rules::specs::Results::rule_result, spec_rules::specs::Reloads::reload_step, pr_match::specs::Matcher::meets, pr_match::specs::Matcher::meets_all, pr_num::specs::Order::compared))]
pub fn too_many_alerts_are_dropped()
    ensures first { told_rules limited [] (eval_at 0) ≡ fine [] [] [] ∷ [] }
    ensures over { told_rules limited limit_is_met (eval_at 30000) ≡ failed (Fault 0 (rule.LimitExceeded 1 2)) ∷ [] }
    ensures none { told limited (limit_is_met ++ eval_at 30000 ∷ []) (Alerts 30000) ≡ report.Alerts [] }
    ensures anew { told_rules limited after_the_limit (eval_at 60000)
        ≡ fine (put (alerts_series (codes "Down") (codes "pending") ++ instance (codes "a")) (number 1) ∷ put (for_state_series (codes "Down") ++ instance (codes "a")) (number 60) ∷ []) [] [] ∷ [] }
{}

/// Two elements that come to have the same labels, and more series than the limit allows.
#[tactic(auto, unfolding(crate::specs::Step::next, spec_rules::specs::Evaluations::group_step, spec_rules::specs::Evaluations::rule_step, spec_rules::specs::Evaluations::rule_outcome, spec_rules::specs::Results::rule_result, spec_rules::specs::Reloads::reload_step, pr_match::specs::Matcher::meets, pr_match::specs::Matcher::meets_all, pr_num::specs::Order::compared))]
pub fn a_rule_has_faults_of_its_own()
    ensures same { told_rules colliding [] (eval_at 0) ≡ failed (Fault 0 (rule.SameAfterRule (series (codes "x") (codes "i") (codes "c")))) ∷ [] }
    ensures limit { told_rules too_many [] (eval_at 0) ≡ failed (Fault 0 (rule.LimitExceeded 1 2)) ∷ [] }
{}

/// An alert that fires is sent again after more than a minute, also while its group waits.
#[tactic(auto, unfolding(crate::specs::Step::next, spec_rules::specs::Evaluations::group_step, spec_rules::specs::Evaluations::rule_step, spec_rules::specs::Evaluations::rule_outcome, spec_rules::specs::Results::rule_result, spec_rules::specs::Reloads::reload_step, pr_match::specs::Matcher::meets, pr_match::specs::Matcher::meets_all, pr_num::specs::Order::compared))]
pub fn an_alert_is_sent_again()
    ensures first { told_sent every_30s [] (eval_at 0) ≡ firing (codes "D") 0 240000 ∷ [] }
    ensures soon { told_sent every_30s (eval_at 0 ∷ []) (eval_at 30000) ≡ [] }
    ensures a_minute { told_sent every_30s (eval_at 0 ∷ eval_at 30000 ∷ []) (eval_at 60000) ≡ [] }
    ensures later { told_sent every_30s (eval_at 0 ∷ eval_at 30000 ∷ eval_at 60000 ∷ []) (eval_at 90000) ≡ firing (codes "D") 0 330000 ∷ [] }
{}

/// An alert is pending, fires and resolves. What is written of it follows, with markers for what
/// is no longer so.
#[tactic(auto, unfolding(crate::specs::Step::next, spec_rules::specs::Evaluations::group_step, spec_rules::specs::Evaluations::rule_step, spec_rules::specs::Evaluations::rule_outcome, spec_rules::specs::Results::rule_result, spec_rules::specs::Reloads::reload_step, pr_match::specs::Matcher::meets, pr_match::specs::Matcher::meets_all, pr_num::specs::Order::compared))]
pub fn an_alert_is_written_as_it_goes()
    ensures fires { told_rules for_3m (eval_at 0 ∷ eval_at 60000 ∷ eval_at 120000 ∷ []) (eval_at 180000)
        ≡ fine (put (alerts_series (codes "D") (codes "firing")) (number 1) ∷ put (for_state_series (codes "D")) (number 0) ∷ [])
        (alerts_series (codes "D") (codes "pending") ∷ []) (firing (codes "D") 180000 420000 ∷ []) ∷ [] }
    ensures over { told_rules for_3m (eval_at 0 ∷ eval_at 60000 ∷ eval_at 120000 ∷ eval_at 180000 ∷ added_at 240000 up 1 ∷ []) (eval_at 240000)
        ≡ fine [] (alerts_series (codes "D") (codes "firing") ∷ for_state_series (codes "D") ∷ []) (over (codes "D") 180000 240000 ∷ []) ∷ [] }
{}

/// An alert is kept firing for a time after it is over.
#[tactic(auto, unfolding(crate::specs::Step::next, spec_rules::specs::Evaluations::group_step, spec_rules::specs::Evaluations::rule_step, spec_rules::specs::Evaluations::rule_outcome, spec_rules::specs::Results::rule_result, spec_rules::specs::Reloads::reload_step, pr_match::specs::Matcher::meets, pr_match::specs::Matcher::meets_all, pr_num::specs::Order::compared))]
pub fn an_alert_is_kept_firing()
    ensures kept { told_rules keeps_for_2m went_up (eval_at 120000) ≡ still_fires (firing (codes "D") 0 360000 ∷ []) }
    ensures still { told_rules keeps_for_2m (went_up ++ eval_at 120000 ∷ []) (eval_at 180000) ≡ still_fires [] }
    ensures over { told_rules keeps_for_2m (went_up ++ eval_at 120000 ∷ eval_at 180000 ∷ []) (eval_at 240000)
        ≡ fine [] (alerts_series (codes "D") (codes "firing") ∷ for_state_series (codes "D") ∷ []) (over (codes "D") 0 240000 ∷ []) ∷ [] }
{}

/// A reload that changes the labels of a rule leaves over what it wrote; one that changes the
/// expression of an alert continues it; one without the group marks what it wrote at once.
#[tactic(auto, unfolding(crate::specs::Step::next, spec_rules::specs::Evaluations::group_step, spec_rules::specs::Evaluations::rule_step, spec_rules::specs::Evaluations::rule_outcome, spec_rules::specs::Results::rule_result, spec_rules::specs::Reloads::reload_step, pr_match::specs::Matcher::meets, pr_match::specs::Matcher::meets_all, pr_num::specs::Order::compared))]
pub fn a_reload_continues_or_leaves_over()
    ensures told { (reload evaluated_once 1000 (labelled (codes "two") ∷ [])).report ≡ report.Reloaded 1 1 0 }
    ensures rule { told_rules (reload evaluated_once 1000 (labelled (codes "two") ∷ [])).world [] (eval_at 60000) ≡ fine (put (s_of (codes "two")) (number 1) ∷ []) [] [] ∷ [] }
    ensures left { told_leftovers (reload evaluated_once 1000 (labelled (codes "two") ∷ [])).world [] (eval_at 60000) ≡ s_of (codes "one") ∷ [] }
    ensures active { told (reload pending_for_1h 1000 (for_1h (metric (codes "m")) ∷ [])).world (eval_at 60000 ∷ []) (Alerts 60000)
        ≡ report.Alerts (record { state = Pending; labels = of_alert (codes "D"); active = 0; value = number 0 } ∷ []) }
    ensures gone { (reload evaluated_once 5000 []).report ≡ report.Reloaded 0 0 1 }
    ensures marked { (reload evaluated_once 5000 []).rows ≡ marker 5000 (s_of (codes "one")) ∷ [] }
{}

/// At the end of its second evaluation the active time of an alert is restored from what was
/// written of it, without the time in which nothing was written, but so that it fires after ten
/// minutes at the earliest; and not where what was written is an hour old, or a marker.
#[tactic(auto, unfolding(crate::specs::Step::next, spec_rules::specs::Evaluations::group_step, spec_rules::specs::Evaluations::rule_step, spec_rules::specs::Evaluations::rule_outcome, spec_rules::specs::Results::rule_result, spec_rules::specs::Reloads::reload_step, pr_match::specs::Matcher::meets, pr_match::specs::Matcher::meets_all, pr_num::specs::Order::compared))]
pub fn an_alert_is_restored()
    ensures first { told_restored (restoring (written_at 600000) 1800000) [] (eval_at 1800000) ≡ [] }
    ensures outage { told_restored (restoring (written_at 600000) 1800000) (eval_at 1800000 ∷ []) (eval_at 1860000) ≡ moved_to (codes "H") 1260000 ∷ [] }
    ensures fires { told_sent (restoring (written_at 600000) 1800000) (eval_at 1800000 ∷ eval_at 1860000 ∷ added_at 3060000 up 0 ∷ []) (eval_at 3060000)
        ≡ firing (codes "H") 3060000 3300000 ∷ [] }
    ensures before { told_sent (restoring (written_at 600000) 1800000) (eval_at 1800000 ∷ eval_at 1860000 ∷ added_at 3059999 up 0 ∷ []) (eval_at 3059999) ≡ [] }
    ensures grace { told_restored (restoring (written_at 1500000) 1800000) (eval_at 1800000 ∷ []) (eval_at 1860000) ≡ moved_to (codes "H") 660000 ∷ [] }
    ensures passed { told_restored (restoring (written_at 1800000) 2400000) (eval_at 2400000 ∷ []) (eval_at 2460000) ≡ moved_to (codes "H") 0 ∷ [] }
    ensures too_old { told_restored (restoring (written_at 600000) 4260000) (eval_at 4260000 ∷ []) (eval_at 4320000) ≡ [] }
    ensures marked { told_restored (restoring (written_at 600000 ++ marker 700000 (for_state_series (codes "H")) ∷ []) 1800000) (eval_at 1800000 ∷ []) (eval_at 1860000) ≡ [] }
{}

/// A rule that puts the series of another one is refused its sample, and did not write it: so no
/// marker follows.
#[tactic(auto, unfolding(crate::specs::Step::next, spec_rules::specs::Evaluations::group_step, spec_rules::specs::Evaluations::rule_step, spec_rules::specs::Evaluations::rule_outcome, spec_rules::specs::Results::rule_result, spec_rules::specs::Reloads::reload_step, pr_match::specs::Matcher::meets, pr_match::specs::Matcher::meets_all, pr_num::specs::Order::compared, pr_num::specs::Arithmetic::sum_of, pr_num::specs::Total::value_of))]
pub fn two_rules_record_one_series()
    ensures first { told_rules two_sums [] (eval_at 0)
        ≡ fine (put (named (codes "r")) (number 1) ∷ []) [] [] ∷ fine (record { labels = named (codes "r"); value = number 2; append = Conflict (whole 1) } ∷ []) [] [] ∷ [] }
    ensures second { told_rules two_sums (eval_at 0 ∷ Add 30000 (named (codes "b")) Stale ∷ []) (eval_at 60000)
        ≡ fine (put (named (codes "r")) (number 1) ∷ []) [] [] ∷ fine [] [] [] ∷ [] }
{}

/// A sample that comes late is counted at the next evaluation.
#[tactic(auto, unfolding(crate::specs::Step::next, spec_rules::specs::Evaluations::group_step, spec_rules::specs::Evaluations::rule_step, spec_rules::specs::Evaluations::rule_outcome, spec_rules::specs::Results::rule_result, spec_rules::specs::Reloads::reload_step, pr_match::specs::Matcher::meets, pr_match::specs::Matcher::meets_all, pr_num::specs::Order::compared, spec_vectors::specs::Ranges::over, spec_vectors::specs::Ranges::function_of, pr_num::specs::Total::value_of))]
pub fn a_late_sample_is_seen()
    ensures first { told_rules counting [] (eval_at 60000) ≡ fine (put (series (codes "c") (codes "j") (codes "1")) (number 1) ∷ []) [] [] ∷ [] }
    ensures late { told_rules after_a_late_one [] (eval_at 120000)
        ≡ fine (put (series (codes "c") (codes "j") (codes "1")) (number 2) ∷ []) [] [] ∷ [] }
{}

/// A restart leaves the history alone.
#[tactic(auto, unfolding(crate::specs::Step::next, spec_rules::specs::Evaluations::group_step, spec_rules::specs::Evaluations::rule_step, spec_rules::specs::Evaluations::rule_outcome, spec_rules::specs::Results::rule_result, spec_rules::specs::Reloads::reload_step, pr_match::specs::Matcher::meets, pr_match::specs::Matcher::meets_all, pr_num::specs::Order::compared))]
pub fn a_restart_drops_the_groups()
    ensures { (next of_a_run evaluated_once (Restart 7)).world ≡ begin (Some 7) evaluated_once.history }
{}
