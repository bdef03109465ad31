//! What the definitions say of small tests.
ghost use Rattle.std.specs.Prelude.{◌≡◌, List, [], ◌∷◌, None, Some, codes, false, map};
ghost use Rattle.pr_num.specs.declared.value.Num.{Num};
ghost use Rattle.pr_num.specs.declared.value.Num.TheVariants.{NaN};
ghost use Rattle.pr_ast.specs.pr_labels.declared.item.Item.{Item};
ghost use Rattle.pr_ast.specs.pr_labels.LabelSet.{named, pair_of};
ghost use Rattle.spec_world.specs.spec_history.private.Examples.{number, whole};
ghost use Rattle.pr_ast.specs.declared.place.Place.{Place};
ghost use Rattle.spec_world.specs.spec_meaning.declared.fault.FaultKind.{FaultKind};
ghost use Rattle.spec_world.specs.spec_rules.Groups.{RuleState};
ghost use Rattle.spec_world.specs.spec_rules.Replays.{unwaiting_groups};
ghost use Rattle.spec_world.specs.declared.event.Event.TheVariants.{Add, Eval};
ghost use Rattle.spec_tests.specs.declared.failure.Shown.TheVariants.{Alerts, Fault, Samples};
ghost use Rattle.spec_tests.specs.RuleFiles.{folder, rule_file_names};
ghost use Rattle.spec_tests.specs.Events.{by_names, events_of, last_check, settings_of};
ghost use Rattle.spec_tests.specs.Verdict.{alert_failure, expr_failure, failure, firing_by, verdict};
ghost use Rattle.spec_tests.specs.private.Worked.{bare_test, down_failure, down_file, down_tests, names_of, noted, now_file, now_tests, three_groups, x_failure, x_file, x_test};

/// A rule file is looked for beside its test file, where its name does not begin with a slash; and
/// a name that comes again is passed over.
pub fn rule_files_stand_beside()
    ensures folder { folder (codes "a/b/t.yml") ≡ codes "a/b/" }
    ensures bare { folder (codes "t.yml") ≡ [] }
    ensures names { rule_file_names (codes "a/t.yml") (codes "r.yml" ∷ codes "/r.yml" ∷ codes "r.yml" ∷ []) ≡ codes "a/r.yml" ∷ codes "/r.yml" ∷ [] }
    ensures same { rule_file_names (codes "/a/t.yml") (codes "/a/r.yml" ∷ codes "r.yml" ∷ []) ≡ codes "/a/r.yml" ∷ [] }
{}

/// Groups that are named come first, in the order of the names, and then the others in that of
/// their file; a name that no group has is passed over.
pub fn groups_that_are_named_come_first()
    ensures file { names_of (by_names [] (unwaiting_groups (three_groups ∷ []))) ≡ codes "a" ∷ codes "b" ∷ codes "c" ∷ [] }
    ensures named { names_of (by_names (codes "c" ∷ codes "d" ∷ codes "b" ∷ []) (unwaiting_groups (three_groups ∷ []))) ≡ codes "c" ∷ codes "b" ∷ codes "a" ∷ [] }
{}

/// All groups are evaluated at the multiples of the interval up to the last check, the first time
/// at 0; at one time the samples come first. Without a check nothing is evaluated.
#[tactic(auto, unfolding(crate::proofs::Computing::computing))]
pub fn samples_come_before_evaluations()
    ensures last { last_check (bare_test (60000 ∷ 90000 ∷ 0 ∷ [])) ≡ Some 90000 }
    ensures events { events_of 60000 (unwaiting_groups (three_groups ∷ [])) (bare_test (90000 ∷ []))
        ≡ Add 0 (named (codes "x")) (whole 1)
        ∷ Eval 0 (codes "r.yml") (codes "a") ∷ Eval 0 (codes "r.yml") (codes "b") ∷ Eval 0 (codes "r.yml") (codes "c")
        ∷ Add 60000 (named (codes "x")) (whole 2)
        ∷ Eval 60000 (codes "r.yml") (codes "a") ∷ Eval 60000 (codes "r.yml") (codes "b") ∷ Eval 60000 (codes "r.yml") (codes "c") ∷ [] }
    ensures none { events_of 60000 (unwaiting_groups (three_groups ∷ [])) (bare_test []) ≡ Add 0 (named (codes "x")) (whole 1) ∷ Add 60000 (named (codes "x")) (whole 2) ∷ [] }
{}

/// Templates see what a test says of the outside.
pub fn templates_see_what_is_external()
    ensures labels { (settings_of 60000 (x_test NaN NaN)).external.labels ≡ pair_of (codes "cluster") (codes "c1") ∷ [] }
    ensures url { (settings_of 60000 (x_test NaN NaN)).external.url ≡ codes "http://x" }
    ensures step { (settings_of 60000 (x_test NaN NaN)).subquery_step ≡ 60000 }
{}

/// A sample with another value than is expected is a failure; NaN is as NaN.
#[tactic(auto, unfolding(crate::proofs::Computing::computing))]
pub fn a_sample_is_as_expected_or_not()
    ensures differs { verdict (x_file (number 1) (number 2)) [] ≡ x_failure (number 1) (number 2) ∷ [] }
    ensures same { verdict (x_file NaN NaN) [] ≡ [] }
{}

/// Alerts are alike by their labels and their annotations.
pub fn alerts_are_compared_with_their_annotations()
    ensures same { alert_failure 1 2 (noted (codes "up") ∷ []) (noted (codes "up") ∷ []) ≡ [] }
    ensures other { alert_failure 1 2 (noted (codes "up") ∷ []) (noted (codes "down") ∷ []) ≡ failure 1 2 (Alerts (noted (codes "up") ∷ [])) (Alerts (noted (codes "down") ∷ [])) ∷ [] }
    ensures fewer { alert_failure 1 2 (noted (codes "up") ∷ noted (codes "up") ∷ []) (noted (codes "up") ∷ []) ≡ failure 1 2 (Alerts (noted (codes "up") ∷ noted (codes "up") ∷ [])) (Alerts (noted (codes "up") ∷ [])) ∷ [] }
{}

/// An alert for five minutes is pending in the fourth, and fires in the tenth; of two instances the
/// one that has been down for as long. An expression is checked beside it.
#[tactic(auto, unfolding(crate::proofs::Computing::computing))]
pub fn an_alert_is_as_expected_or_not()
    ensures early { verdict (down_tests 240000) (down_file ∷ []) ≡ down_failure ∷ [] }
    ensures fires { verdict (down_tests 600000) (down_file ∷ []) ≡ [] }
{}

/// A fault differs from all that can be expected, also from nothing.
pub fn a_fault_is_never_as_expected()
    ensures { (expected : List (Item Num)) (place : Place) (kind : FaultKind) → expr_failure 1 2 expected (Fault place kind) ≡ failure 1 2 (Samples expected) (Fault place kind) ∷ [] }
{}

/// No group waits in a test until its alerts are restored.
pub fn no_group_waits()
    ensures { map (λ g. g.waits) (unwaiting_groups (three_groups ∷ [])) ≡ 0 ∷ 0 ∷ 0 ∷ [] }
{}

/// Alerts of two rules of one name are told in label order, whichever rule comes first. A rule that
/// records fires no alert, whatever its name.
#[tactic(auto, unfolding(crate::proofs::Computing::computing))]
pub fn alerts_of_all_rules_of_a_name_are_told()
    ensures order { verdict now_tests (now_file ∷ []) ≡ [] }
    ensures recorded { (r : RuleState) → firing_by false r ≡ [] }
{}
