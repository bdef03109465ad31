// What the definitions say of small rules.
ghost use Rattle.std.specs.Prelude.{◌≡◌, codes, [], ◌∷◌, map, reverse, None, Some, false, true};
ghost use Rattle.pr_ast.specs.pr_labels.LabelSet.{pair_of};
ghost use Rattle.spec_alerts.specs.spec_history.private.Examples.{m};
ghost use Rattle.spec_alerts.specs.spec_history.Puts.{marker};
ghost use Rattle.spec_rules.specs.declared.fault.RuleFault.TheVariants.{LimitExceeded};
ghost use Rattle.spec_rules.specs.private.Carried.{carried_by_rules, carried_numbers, carried_passed};
ghost use Rattle.spec_rules.specs.Evaluations.{group_step};
ghost use Rattle.spec_rules.specs.private.Examples.{a_1, after_one, alert, down_and_written, failed_report, inside, labels_of_alert, m_is_1, of_h, of_limit_1, ranges_apart, rate_of, rule_state, rules_apart, s_is_1, s_of, sum_of, ten_passed, the_second, times, two_of_m, waiting, wrote_before};
ghost use Rattle.spec_rules.specs.Reloads.{continued_rules, remains, unused_rules, waits_at_first};
ghost use Rattle.spec_rules.specs.Results.{alerting_labels, all_expanded};
ghost use Rattle.spec_rules.specs.Settings.{of_a_run};

/// The labels and annotations of an alert are templates, which see the element as its expression
/// gives it, with the metric's name. A label that comes to nothing takes one away.
pub fn templates_see_the_element()
    ensures labels { alerting_labels of_a_run.external alert a_1 ≡ labels_of_alert }
    ensures notes { all_expanded of_a_run.external a_1 (pair_of (codes "n") (codes "{{ $labels.i }}={{ $value }}") ∷ []) ≡ pair_of (codes "n") (codes "x=1") ∷ [] }
{}

/// Of two rules alike the first continues the first; one with other labels begins anew.
pub fn rules_continue_in_order()
    ensures rules { continued_rules (rules_apart []) (rule_state 1 ∷ rule_state 2 ∷ []) ≡ rule_state 1 ∷ [] }
    ensures unused { unused_rules (rules_apart []) (rule_state 1 ∷ rule_state 2 ∷ []) ≡ rule_state 2 ∷ [] }
    ensures others { unused_rules (rules_apart (pair_of (codes "k") (codes "v") ∷ [])) (rule_state 1 ∷ []) ≡ rule_state 1 ∷ [] }
{}

/// A range selector takes over the first old one with its text under its function, be it in a
/// subquery or not, and as much was passed for it.
#[tactic(auto, unfolding(pr_ast::specs::Names::func_text))]
pub fn selectors_are_carried_in_order()
    ensures same { carried_numbers (times (sum_of 60000) (rate_of 60000)) (times (rate_of 60000) (sum_of 60000)) ≡ Some 1 ∷ Some 0 ∷ [] }
    ensures once { carried_numbers (times (rate_of 60000) (rate_of 60000)) (rate_of 60000) ≡ Some 0 ∷ None ∷ [] }
    ensures func { carried_numbers (rate_of 60000) (sum_of 60000) ≡ None ∷ [] }
    ensures passed { carried_passed (times (rate_of 60000) (rate_of 60000)) (rate_of 60000) ten_passed 0 m ≡ 10 }
    ensures anew { carried_passed (times (rate_of 60000) (rate_of 60000)) (rate_of 60000) ten_passed 1 m ≡ 0 }
    ensures into_subquery { carried_passed (inside (rate_of 60000)) (rate_of 60000) ten_passed 0 m ≡ 10 }
    ensures out_of_subquery { carried_passed (rate_of 60000) (inside (rate_of 60000)) ten_passed 0 m ≡ 10 }
{}

/// What was passed for a rule goes on with the rule, also where the new rules stand in another
/// order.
#[tactic(auto, unfolding(pr_ast::specs::Names::func_text))]
pub fn what_was_passed_goes_with_the_rule()
    ensures first { carried_by_rules (map (λ r. r.rule) (reverse ranges_apart)) ranges_apart the_second 0 0 m ≡ 10 }
    ensures second { carried_by_rules (map (λ r. r.rule) (reverse ranges_apart)) ranges_apart the_second 1 0 m ≡ 0 }
    ensures new_rule { carried_by_rules (rules_apart (pair_of (codes "k") (codes "v") ∷ [])) ranges_apart the_second 0 0 m ≡ 0 }
{}

/// The samples of a rule come first, then the markers of what it wrote before and now no more, and
/// after all rules those of what a reload left over.
#[tactic(auto, unfolding(crate::specs::Evaluations::group_step, crate::specs::Evaluations::rule_step, crate::specs::Evaluations::rule_outcome, crate::specs::Results::rule_result, pr_match::specs::Matcher::meets, pr_match::specs::Matcher::meets_all))]
pub fn entries_stand_in_this_order()
    ensures order { (group_step of_a_run (wrote_before (s_of (codes "one") ∷ []) (m ∷ [])) m_is_1 60000).entries ≡ s_is_1 ∷ marker 60000 (s_of (codes "one")) ∷ marker 60000 m ∷ [] }
    ensures still_there { (group_step of_a_run (wrote_before (s_of (codes "two") ∷ []) []) m_is_1 60000).entries ≡ s_is_1 ∷ [] }
    ensures forgotten { (after_one of_a_run (wrote_before [] (m ∷ [])) m_is_1 60000).leftovers ≡ [] }
{}

/// A rule that fails puts nothing and marks nothing, and goes on from what it wrote before.
#[tactic(auto, unfolding(crate::specs::Evaluations::group_step, crate::specs::Evaluations::rule_step, crate::specs::Evaluations::rule_outcome, crate::specs::Results::rule_result, pr_match::specs::Matcher::meets, pr_match::specs::Matcher::meets_all))]
pub fn a_rule_that_fails_puts_nothing()
    ensures told { (group_step of_a_run (of_limit_1 (m ∷ [])) two_of_m 60000).report.rules ≡ failed_report (LimitExceeded 1 2) ∷ [] }
    ensures entries { (group_step of_a_run (of_limit_1 (m ∷ [])) two_of_m 60000).entries ≡ [] }
    ensures remains { remains (after_one of_a_run (of_limit_1 (m ∷ [])) two_of_m 60000) ≡ m ∷ [] }
{}

/// The alerts of a group that waits are restored at the end of its second evaluation; until then
/// nothing is written of them. A group that is new in a later reload does not wait.
#[tactic(auto, unfolding(crate::specs::Evaluations::group_step, crate::specs::Evaluations::rule_step, crate::specs::Evaluations::rule_outcome, crate::specs::Results::rule_result, pr_match::specs::Matcher::meets, pr_match::specs::Matcher::meets_all, pr_num::specs::Order::compared))]
pub fn a_group_waits_for_two_evaluations()
    ensures first { (group_step of_a_run (waiting 2) down_and_written 1800000).report.restored ≡ [] }
    ensures nothing { (group_step of_a_run (waiting 2) down_and_written 1800000).entries ≡ [] }
    ensures second { (group_step of_a_run (after_one of_a_run (waiting 2) down_and_written 1800000) down_and_written 1860000).report.restored ≡ record { labels = of_h; active = 1260000 } ∷ [] }
    ensures no_more { (after_one of_a_run (after_one of_a_run (waiting 2) down_and_written 1800000) down_and_written 1860000).waits ≡ 0 }
    ensures begins { waits_at_first false ≡ 2 }
    ensures later { waits_at_first true ≡ 0 }
{}
