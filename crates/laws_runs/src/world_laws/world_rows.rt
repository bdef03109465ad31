// What the definitions say of a world with two groups.
ghost use Rattle.std.specs.Prelude.{◌≡◌, codes, [], ◌∷◌};
ghost use Rattle.pr_labels.specs.LabelSet.{named};
ghost use Rattle.spec_history.specs.private.Examples.{number, whole};
ghost use Rattle.spec_rules.specs.spec_alerts.declared.record.State.TheVariants.{Firing};
ghost use Rattle.spec_world.specs.declared.event.Event.TheVariants.{Add, Alerts, Eval};
ghost use Rattle.spec_world.specs.declared.report.Report.TheVariants as report;
ghost use Rattle.spec_world.specs.private.GroupExamples.{file, of_alert, told};
ghost use Rattle.laws_runs.specs.private.Worked.{two_groups};

/// Alerts are told by group first, whatever they are called, and an evaluation of one group leaves
/// the other as it was. One that is over is not told.
#[tactic(auto, unfolding(spec_world::specs::Step::next, spec_rules::specs::Evaluations::group_step, spec_rules::specs::Evaluations::rule_step, spec_rules::specs::Evaluations::rule_outcome, spec_rules::specs::Results::rule_result, pr_match::specs::Matcher::meets, pr_match::specs::Matcher::meets_all, pr_num::specs::Order::compared))]
pub fn groups_stand_in_their_order()
    ensures both { told two_groups (Eval 0 file (codes "h") ∷ Eval 0 file (codes "g") ∷ []) (Alerts 0)
        ≡ report.Alerts (record { state = Firing; labels = of_alert (codes "B"); active = 0; value = number 0 } ∷ record { state = Firing; labels = of_alert (codes "A"); active = 0; value = number 0 } ∷ []) }
    ensures one { told two_groups (Eval 0 file (codes "h") ∷ []) (Alerts 0)
        ≡ report.Alerts (record { state = Firing; labels = of_alert (codes "A"); active = 0; value = number 0 } ∷ []) }
    ensures over { told two_groups (Eval 0 file (codes "h") ∷ Add 60000 (named (codes "up")) (whole 1) ∷ Eval 60000 file (codes "h") ∷ []) (Alerts 60000)
        ≡ report.Alerts [] }
{}
