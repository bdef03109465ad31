// Laws of rules and of groups of rules.
ghost use Rattle.std.specs.Prelude.{◌≡◌, ℕ, ◌++◌, Bool, List, [], flat_map, map, slice_get, None, Some, Err, Ok, IfOk};
ghost use Rattle.std.specs.List.{AllByRecursion, zip};
ghost use Rattle.std.specs.Option.{option_and_then};
ghost use Rattle.spec_alerts.specs.spec_history.Admission.{put_all};
ghost use Rattle.spec_alerts.specs.spec_history.declared.entry.Entry.{Entry};
ghost use Rattle.pr_ast.specs.pr_labels.declared.pair.Pair.{Pair};
ghost use Rattle.pr_ast.specs.pr_labels.Rising.{IsRising, is_among};
ghost use Rattle.spec_alerts.specs.declared.found.RuleElement.{RuleElement};
ghost use Rattle.spec_alerts.specs.Lineage.{previous};
ghost use Rattle.spec_alerts.specs.spec_history.Puts.{admitted, shown_entries, label_sets_of};
ghost use Rattle.spec_rules.specs.Definitions.{Rule};
ghost use Rattle.spec_rules.specs.declared.fault.RuleFailure.{RuleFailure};
ghost use Rattle.spec_rules.specs.Evaluations.{all_rules, sample_entry, failed_step, group_step, rule_outcome, rule_step, rule_samples};
ghost use Rattle.spec_rules.specs.private.Carried.{RangeUse, same_use};
ghost use Rattle.spec_rules.specs.Groups.{Group, RuleState, rules_of};
ghost use Rattle.spec_rules.specs.private.Laws.{definition_of, round, FoundsRise, numbers_taken};
ghost use Rattle.spec_rules.specs.Reloads.{LoadedFile, carried, continued_rule, continues, reload_step, remains};
ghost use Rattle.spec_rules.specs.Results.{rule_result};
ghost use Rattle.spec_rules.specs.Settings.{Settings};
ghost use Rattle.spec_rules.specs.Taking.{taken};
ghost use Rattle.spec_rules.specs.private.Times.{IsAfter, IsTimely};

/// What a rule comes to is in label order, each label set once.
#[tactic(auto, using(crate::proofs::Ordering::result_rises, crate::proofs::Ordering::outcome_rises))]
pub fn results_are_in_label_order()
    ensures result { (s : Settings) (limit : ℕ) (rule : Rule) (history : List Entry) (time : ℕ) → IfOk (rule_result s limit rule history time) FoundsRise }
    ensures outcome { (s : Settings) (g : Group) (r : RuleState) (history : List Entry) (now : ℕ) → IfOk (rule_outcome s g r history now) FoundsRise }
{}

/// Each rule of a group is taken over the history with what those before it put. What an evaluation
/// puts is admitted as one list. The group is defined as before.
#[tactic(auto, using(crate::proofs::Putting::history_of_rules, crate::proofs::Putting::evaluation_admits, crate::proofs::Keeping::definition_stays))]
pub fn an_evaluation_puts_its_entries()
    ensures rules { (s : Settings) (g : Group) (history : List Entry) (now : ℕ) → (all_rules s g history now).history ≡ put_all history (all_rules s g history now).entries }
    ensures admitted { (s : Settings) (g : Group) (history : List Entry) (now : ℕ) → (group_step s g history now).report.admitted ≡ admitted history (group_step s g history now).entries }
    ensures definition { (s : Settings) (g : Group) (history : List Entry) (now : ℕ) → definition_of (group_step s g history now).group ≡ definition_of g }
{}

/// A rule that fails puts nothing, marks nothing, sends nothing, and keeps what it wrote before.
/// After another evaluation it has written the series that show its samples.
#[tactic(auto, using(crate::proofs::Faults::fault_is, crate::proofs::Faults::fault_leaves, crate::proofs::Faults::writes))]
pub fn a_fault_changes_nothing()
    ensures nothing { (s : Settings) (g : Group) (r : RuleState) (history : List Entry) (now : ℕ) (f : RuleFailure) → rule_outcome s g r history now ≡ Err f
        → rule_step s g r history now ≡ failed_step r now f }
    ensures previous { (s : Settings) (g : Group) (r : RuleState) (history : List Entry) (now : ℕ) (f : RuleFailure) → rule_outcome s g r history now ≡ Err f
        → previous (rule_step s g r history now).lineage ≡ previous r.lineage }
    ensures wrote { (s : Settings) (g : Group) (r : RuleState) (history : List Entry) (now : ℕ) (founds : List RuleElement) → rule_outcome s g r history now ≡ Ok founds
        → previous (rule_step s g r history now).lineage ≡ label_sets_of (shown_entries history (map (sample_entry now) (rule_samples g r now founds))) }
{}

/// A group that continues another one has written, or is left over, the same series. After a reload
/// the groups are those of the files, in order.
#[tactic(auto, using(crate::proofs::Carrying::no_series_lost, crate::proofs::Carrying::groups_are))]
pub fn a_reload_loses_no_series()
    ensures series { (labels : List Pair) (new old : Group) → is_among labels (remains (carried new old)) ≡ is_among labels (remains old) }
    ensures groups { (reloaded : Bool) (olds : List Group) (now : ℕ) (files : List LoadedFile)
        → map definition_of (reload_step reloaded olds now files).groups ≡ flat_map (λ f. f.groups) files }
{}

/// What a reload leaves over, and what remains of a group, is in label order, each series once.
#[tactic(auto, using(crate::proofs::Carrying::remains_rise, crate::proofs::Carrying::leftovers_rise))]
pub fn nothing_is_left_over_twice()
    ensures remains { (g : Group) → IsRising (remains g) }
    ensures leftovers { (new old : Group) → IsRising (carried new old).leftovers }
{}

/// A group that continues another one has its last evaluation and its waiting, and each rule has the
/// lineage, and so the alerts, of the rule that it continues, or none.
pub fn a_group_goes_on()
    ensures last { (new old : Group) → (carried new old).last ≡ old.last }
    ensures waits { (new old : Group) → (carried new old).waits ≡ old.waits }
    ensures rules { (new old : Group) → (carried new old).rules ≡ map (λ p. continued_rule p.0 p.1) (zip (rules_of new) (taken continues (rules_of new) old.rules)) }
    ensures lineage { (rule : Rule) (old : RuleState) → (continued_rule rule (Some old)).lineage ≡ old.lineage }
    ensures anew { (rule : Rule) → (continued_rule rule None).lineage ≡ [] }
{}

/// What is taken of a list stands in it under its number.
#[tactic(auto, using(crate::proofs::Takes::taken_under_numbers))]
pub fn what_is_taken_has_its_number()
    ensures rules { (rules : List Rule) (olds : List RuleState) → taken continues rules olds ≡ map (option_and_then (slice_get olds)) (numbers_taken continues rules olds) }
    ensures selectors { (new old : List RangeUse) → taken same_use new old ≡ map (option_and_then (slice_get old)) (numbers_taken same_use new old) }
{}

/// The rules of a group were evaluated at rising times, none above the group's last: an evaluation at
/// a later time keeps that, and so does a reload.
#[tactic(auto, using(crate::proofs::Timing::evaluation_on_time, crate::proofs::Timing::carried_on_time, crate::proofs::Timing::reload_on_time))]
pub fn rules_are_evaluated_at_rising_times()
    ensures evaluated { (s : Settings) (g : Group) (history : List Entry) (now : ℕ) → IsAfter now g.last → IsTimely g → IsTimely (group_step s g history now).group }
    ensures carried { (new old : Group) → IsTimely old → IsTimely (carried new old) }
    ensures reloaded { (reloaded : Bool) (olds : List Group) (now : ℕ) (files : List LoadedFile) → AllByRecursion IsTimely olds
        → AllByRecursion IsTimely (reload_step reloaded olds now files).groups }
{}

/// Where all groups are evaluated at a time, what is told to be admitted comes behind the history,
/// group by group, and nothing else; and the groups are defined as before.
#[tactic(auto, using(crate::proofs::Rounds::round_admits, crate::proofs::Rounds::round_keeps))]
pub fn a_round_puts_what_is_admitted()
    ensures history { (s : Settings) (groups : List Group) (history : List Entry) (now : ℕ)
        → (round s groups history now).history ≡ history ++ flat_map (λ r. r.admitted) (round s groups history now).reports }
    ensures definitions { (s : Settings) (groups : List Group) (history : List Entry) (now : ℕ) → map definition_of (round s groups history now).groups ≡ map definition_of groups }
{}
