// Laws of rules and of worlds that no other crate cites.
ghost use Rattle.std.specs.Prelude.{◌≡◌, ℕ, ◌++◌, ◌∷◌, [], List, map, true, false, Ok};
ghost use Rattle.spec_history.specs.declared.entry.Entry.{Entry};
ghost use Rattle.spec_history.specs.private.Laws.{entries_until};
ghost use Rattle.pr_labels.specs.declared.pair.Pair.{Pair};
ghost use Rattle.pr_labels.specs.Rising.{is_among};
ghost use Rattle.pr_ast.specs.private.Examples.{chosen};
ghost use Rattle.spec_rules.specs.spec_meaning.private.Cost.{PassedFor};
ghost use Rattle.spec_rules.specs.spec_meaning.Selection.{chosen_by, moment_of};
ghost use Rattle.spec_rules.specs.spec_alerts.declared.found.RuleElement.{RuleElement};
ghost use Rattle.spec_rules.specs.spec_alerts.private.Laws.{alerting_outcome, restored_entry};
ghost use Rattle.spec_rules.specs.Evaluations.{with_restored, within_alerts};
ghost use Rattle.spec_rules.specs.private.Examples.{rate_of, sum_of, times};
ghost use Rattle.spec_rules.specs.Groups.{RuleState};
ghost use Rattle.spec_rules.specs.private.Laws.{definition_of};
ghost use Rattle.spec_rules.specs.private.Passed.{ArePassed};
ghost use Rattle.spec_rules.specs.Settings.{Settings};
ghost use Rattle.spec_world.specs.declared.event.Event.{Event};
ghost use Rattle.spec_world.specs.declared.event.Event.TheVariants.{Eval, Reload};
ghost use Rattle.spec_world.specs.declared.event.NamedFile.{NamedFile};
ghost use Rattle.spec_world.specs.Step.{next};
ghost use Rattle.spec_world.specs.World.{World};
ghost use Rattle.laws_runs.specs.private.Worked.{is_restart, kept_outcome, m_chosen};

/// What a lineage keeps of an alerting rule's outcome, and of a restoration, is what spec_alerts says.
#[tactic(auto, using(crate::proofs::Outcomes::one_outcome, crate::proofs::Outcomes::one_restoration))]
pub fn alerts_have_one_outcome()
    ensures evaluated { (limit : ℕ) (r : RuleState) (now : ℕ) (founds : List RuleElement)
        → kept_outcome (within_alerts true limit r now (Ok founds)) ≡ alerting_outcome limit r.lineage now r.rule.hold r.rule.keep founds }
    ensures restored { (history : List Entry) (now : ℕ) (r : RuleState) → r.rule.alert ≡ true
        → (with_restored history now r).lineage ≡ r.lineage ++ restored_entry history r.rule.hold now r.lineage ∷ [] }
{}

/// Of each range selector of an expression, in the order of the text, all samples up to the end of
/// its range are passed.
#[tactic(auto, using(crate::proofs::Selectors::both_passed))]
pub fn range_selectors_are_passed()
    ensures { (history : List Entry) (u : PassedFor) (time : ℕ) (labels : List Pair) → ArePassed history u (times (rate_of 60000) (sum_of 120000)) 0 time
        → is_among labels (chosen_by m_chosen history) ≡ true
        → (u 0 labels ≡ entries_until history labels (moment_of m_chosen time)) × (u 1 labels ≡ entries_until history labels (moment_of m_chosen time)) }
{}

/// That a reload was accepted is remembered until a restart.
#[tactic(auto, using(crate::proofs::Reloaded::by_a_reload, crate::proofs::Reloaded::until_a_restart))]
pub fn a_reload_is_remembered()
    ensures accepted { (s : Settings) (w : World) (time : ℕ) (files : List NamedFile) → (next s w (Reload time files)).refused ≡ false
        → (next s w (Reload time files)).world.reloaded ≡ true }
    ensures stays { (s : Settings) (w : World) (e : Event) → is_restart e ≡ false → w.reloaded ≡ true → (next s w e).world.reloaded ≡ true }
{}

/// An evaluation of one group leaves all groups there, in their order, defined as before.
#[tactic(auto, using(crate::proofs::AllGroups::all_stay))]
pub fn an_evaluation_keeps_all_groups()
    ensures { (s : Settings) (w : World) (time : ℕ) (file group : List ℕ) → map definition_of (next s w (Eval time file group)).world.groups ≡ map definition_of w.groups }
{}
