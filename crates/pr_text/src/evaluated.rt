// The printed lines of an evaluation, and of the alerts that are asked for.
#![tactic(auto, using(pr_words::proofs::Fronts::front_on, pr_words::proofs::Fronts::front_after))]

ghost use Rattle.std.specs.Prelude.{◌≡◌, ◌++◌, ◌+◌, OnOk, codes, decimal, flat_map, length, take};
ghost use Rattle.spec_world.specs.pr_num.Shown.{shown};
ghost use Rattle.spec_world.specs.pr_labels.SeriesText.{series_text};
ghost use Rattle.pr_words.specs.Appending.{number_text};
ghost use Rattle.spec_world.specs.spec_history.Points.{shown_point};
ghost use Rattle.spec_world.specs.spec_alerts.Records.{state_text};
ghost use Rattle.pr_text.specs.Answers.{evaluated_rules, limit_exceeded, late_after, same_after_rule};
ghost use Rattle.pr_text.specs.Evaluated.{alert_text, alerts_text, conflict_line, counts_text, evaluated_text, fault_count, has_failed, late_line, outcome_text, put_line, put_line_by, restored_line, rule_fault_text, rule_lines, rules_text, sample_line, stale_line};
ghost use Rattle.pr_text.specs.Notices.{sending_lines};
ghost use Rattle.pr_text.specs.Values.{place_text};

use crate::faults::push_fault_kind;
use crate::notices::push_sendings;
use crate::values::{push_place, push_point, push_value};
use pr_words::{push_number, push_number_after};
use spec_world::AlertLine;
use spec_world::alerts_crate::{Restored, State};
use spec_world::history::Append;
use spec_world::labels::Labels;
use spec_world::num::{Num, Point};
use spec_world::rules_crate::{GroupReport, Put, RuleFault, RuleOutcome, RuleReport};
use spec_world::time::Ms;
use std::alloc::AllocError;

#[tactic(auto, unfolding(crate::specs::Answers::evaluated_rules))]
fn push_evaluated_rules(text: &mut Vec<u8>) -> Result<(), AllocError>
    ensures ok { OnOk result (text.new.items ≡ text.old.items ++ evaluated_rules) }
    ensures front { take (length text.old.items) text.new.items ≡ text.old.items }
{
    text.extend_from_slice(b"evaluated rules ")
}

#[tactic(auto, unfolding(crate::specs::Answers::limit_exceeded))]
fn push_limit_exceeded(text: &mut Vec<u8>) -> Result<(), AllocError>
    ensures ok { OnOk result (text.new.items ≡ text.old.items ++ limit_exceeded) }
    ensures front { take (length text.old.items) text.new.items ≡ text.old.items }
{
    text.extend_from_slice(b"LimitExceeded")
}

#[tactic(auto, unfolding(crate::specs::Answers::late_after))]
fn push_late_after(text: &mut Vec<u8>) -> Result<(), AllocError>
    ensures ok { OnOk result (text.new.items ≡ text.old.items ++ late_after) }
    ensures front { take (length text.old.items) text.new.items ≡ text.old.items }
{
    text.extend_from_slice(b" OutOfOrder ")
}

#[tactic(auto, unfolding(crate::specs::Answers::same_after_rule))]
fn push_same_after_rule(text: &mut Vec<u8>) -> Result<(), AllocError>
    ensures ok { OnOk result (text.new.items ≡ text.old.items ++ same_after_rule) }
    ensures front { take (length text.old.items) text.new.items ≡ text.old.items }
{
    text.extend_from_slice(b"SameAfterRule ")
}

// Samples

fn push_sample_series(text: &mut Vec<u8>, labels: &Labels) -> Result<(), AllocError>
    ensures ok { OnOk result (text.new.items ≡ text.old.items ++ (codes "sample " ++ series_text labels.now)) }
    ensures front { take (length text.old.items) text.new.items ≡ text.old.items }
{
    text.extend_from_slice(b"sample ")?;
    labels.write(text)
}

fn push_after_series(text: &mut Vec<u8>, value: Num) -> Result<(), AllocError>
    ensures ok { OnOk result (text.new.items ≡ text.old.items ++ (codes " " ++ shown value ++ codes "\n")) }
    ensures front { take (length text.old.items) text.new.items ≡ text.old.items }
{
    text.extend_from_slice(b" ")?;
    push_value(text, value)?;
    text.extend_from_slice(b"\n")
}

fn push_sample(text: &mut Vec<u8>, labels: &Labels, value: Num) -> Result<(), AllocError>
    ensures ok { OnOk result (text.new.items ≡ text.old.items ++ sample_line labels.now value) }
    ensures front { take (length text.old.items) text.new.items ≡ text.old.items }
{
    push_sample_series(text, labels)?;
    push_after_series(text, value)
}

fn push_dropped(text: &mut Vec<u8>, labels: &Labels) -> Result<(), AllocError>
    ensures ok { OnOk result (text.new.items ≡ text.old.items ++ (codes "dropped " ++ series_text labels.now)) }
    ensures front { take (length text.old.items) text.new.items ≡ text.old.items }
{
    text.extend_from_slice(b"dropped ")?;
    labels.write(text)
}

fn push_last(text: &mut Vec<u8>, last: Ms) -> Result<(), AllocError>
    ensures ok { OnOk result (text.new.items ≡ text.old.items ++ (late_after ++ decimal last ++ codes "\n")) }
    ensures front { take (length text.old.items) text.new.items ≡ text.old.items }
{
    push_late_after(text)?;
    push_number(text, last.get())?;
    text.extend_from_slice(b"\n")
}

fn push_late(text: &mut Vec<u8>, labels: &Labels, last: Ms) -> Result<(), AllocError>
    ensures ok { OnOk result (text.new.items ≡ text.old.items ++ late_line labels.now last) }
    ensures front { take (length text.old.items) text.new.items ≡ text.old.items }
{
    push_dropped(text, labels)?;
    push_last(text, last)
}

fn push_kept(text: &mut Vec<u8>, kept: Point) -> Result<(), AllocError>
    ensures ok { OnOk result (text.new.items ≡ text.old.items ++ (codes " Conflict " ++ shown_point kept ++ codes "\n")) }
    ensures front { take (length text.old.items) text.new.items ≡ text.old.items }
{
    text.extend_from_slice(b" Conflict ")?;
    push_point(text, kept)?;
    text.extend_from_slice(b"\n")
}

fn push_conflicting(text: &mut Vec<u8>, labels: &Labels, kept: Point) -> Result<(), AllocError>
    ensures ok { OnOk result (text.new.items ≡ text.old.items ++ conflict_line labels.now kept) }
    ensures front { take (length text.old.items) text.new.items ≡ text.old.items }
{
    push_dropped(text, labels)?;
    push_kept(text, kept)
}

fn push_put(text: &mut Vec<u8>, put: &Put) -> Result<(), AllocError>
    ensures ok { OnOk result (text.new.items ≡ text.old.items ++ put_line put.now) }
    ensures front { take (length text.old.items) text.new.items ≡ text.old.items }
{
    match put.append {
        Append::Added | Append::Same => push_sample(text, &put.labels, put.value),
        Append::OutOfOrder { last } => push_late(text, &put.labels, last),
        Append::Conflict { kept } => push_conflicting(text, &put.labels, kept),
    }
}

fn push_puts(text: &mut Vec<u8>, puts: &[Put]) -> Result<(), AllocError>
    ensures ok { OnOk result (text.new.items ≡ text.old.items ++ flat_map put_line puts.now) }
    ensures front { take (length text.old.items) text.new.items ≡ text.old.items }
{
    for put in puts {
        push_put(text, put)?;
    }
    Ok(())
}

fn push_stale_line(text: &mut Vec<u8>, labels: &Labels) -> Result<(), AllocError>
    ensures ok { OnOk result (text.new.items ≡ text.old.items ++ stale_line labels.now) }
    ensures front { take (length text.old.items) text.new.items ≡ text.old.items }
{
    text.extend_from_slice(b"stale ")?;
    labels.write(text)?;
    text.extend_from_slice(b"\n")
}

fn push_stale_lines(text: &mut Vec<u8>, sets: &[Labels]) -> Result<(), AllocError>
    ensures ok { OnOk result (text.new.items ≡ text.old.items ++ flat_map stale_line sets.now) }
    ensures front { take (length text.old.items) text.new.items ≡ text.old.items }
{
    for labels in sets {
        push_stale_line(text, labels)?;
    }
    Ok(())
}

// Rules

fn push_limit(text: &mut Vec<u8>, limit: u32, have: u64) -> Result<(), AllocError>
    ensures ok { OnOk result (text.new.items ≡ text.old.items ++ (limit_exceeded ++ number_text limit ++ number_text have)) }
    ensures front { take (length text.old.items) text.new.items ≡ text.old.items }
{
    push_limit_exceeded(text)?;
    push_number_after(text, u64::from(limit))?;
    push_number_after(text, have)
}

fn push_same(text: &mut Vec<u8>, labels: &Labels) -> Result<(), AllocError>
    ensures ok { OnOk result (text.new.items ≡ text.old.items ++ (same_after_rule ++ series_text labels.now)) }
    ensures front { take (length text.old.items) text.new.items ≡ text.old.items }
{
    push_same_after_rule(text)?;
    labels.write(text)
}

fn push_rule_fault(text: &mut Vec<u8>, kind: &RuleFault) -> Result<(), AllocError>
    ensures ok { OnOk result (text.new.items ≡ text.old.items ++ rule_fault_text kind.now) }
    ensures front { take (length text.old.items) text.new.items ≡ text.old.items }
{
    match kind {
        RuleFault::Eval { kind } => push_fault_kind(text, kind),
        RuleFault::SameAfterRule { labels } => push_same(text, labels),
        RuleFault::LimitExceeded { limit, have } => push_limit(text, *limit, *have),
    }
}

fn push_failure(text: &mut Vec<u8>, place: usize, kind: &RuleFault) -> Result<(), AllocError>
    ensures ok { OnOk result (text.new.items ≡ text.old.items ++ (codes " fault " ++ rule_fault_text kind.now ++ place_text place)) }
    ensures front { take (length text.old.items) text.new.items ≡ text.old.items }
{
    text.extend_from_slice(b" fault ")?;
    push_rule_fault(text, kind)?;
    push_place(text, place)
}

fn push_outcome(text: &mut Vec<u8>, outcome: &RuleOutcome) -> Result<(), AllocError>
    ensures ok { OnOk result (text.new.items ≡ text.old.items ++ outcome_text outcome.now) }
    ensures front { take (length text.old.items) text.new.items ≡ text.old.items }
{
    match outcome {
        RuleOutcome::Fine => text.extend_from_slice(b" ok\n"),
        RuleOutcome::Fault { place, kind } => push_failure(text, *place, kind),
    }
}

fn push_rule_outcome(
    text: &mut Vec<u8>,
    number: u64,
    outcome: &RuleOutcome,
) -> Result<(), AllocError>
    ensures ok { OnOk result (text.new.items ≡ text.old.items ++ (codes "rule " ++ decimal number ++ outcome_text outcome.now)) }
    ensures front { take (length text.old.items) text.new.items ≡ text.old.items }
{
    text.extend_from_slice(b"rule ")?;
    push_number(text, number)?;
    push_outcome(text, outcome)
}

fn push_rule_lines(text: &mut Vec<u8>, rule: &RuleReport) -> Result<(), AllocError>
    ensures ok { OnOk result (text.new.items ≡ text.old.items ++ (flat_map put_line rule.now.samples ++ flat_map stale_line rule.now.stale ++ flat_map sending_lines rule.now.sent)) }
    ensures front { take (length text.old.items) text.new.items ≡ text.old.items }
{
    push_puts(text, rule.samples.as_slice())?;
    push_stale_lines(text, rule.stale.as_slice())?;
    push_sendings(text, rule.sent.as_slice())
}

fn push_rule(text: &mut Vec<u8>, number: u64, rule: &RuleReport) -> Result<(), AllocError>
    ensures ok { OnOk result (text.new.items ≡ text.old.items ++ rule_lines number rule.now) }
    ensures front { take (length text.old.items) text.new.items ≡ text.old.items }
{
    push_rule_outcome(text, number, &rule.outcome)?;
    push_rule_lines(text, rule)
}

fn push_rules(text: &mut Vec<u8>, rules: &[RuleReport]) -> Result<(), AllocError>
    ensures ok { OnOk result (text.new.items ≡ text.old.items ++ rules_text 1 rules.now) }
    ensures front { take (length text.old.items) text.new.items ≡ text.old.items }
{
    let mut number = 0;
    for rule in rules {
        number += 1;
        push_rule(text, number, rule)?;
    }
    Ok(())
}

fn push_restored(text: &mut Vec<u8>, alert: &Restored) -> Result<(), AllocError>
    ensures ok { OnOk result (text.new.items ≡ text.old.items ++ restored_line alert.now) }
    ensures front { take (length text.old.items) text.new.items ≡ text.old.items }
{
    text.extend_from_slice(b"restored ")?;
    alert.labels.write(text)?;
    text.extend_from_slice(b" active ")?;
    push_number(text, alert.active.get())?;
    text.extend_from_slice(b"\n")
}

fn push_all_restored(text: &mut Vec<u8>, alerts: &[Restored]) -> Result<(), AllocError>
    ensures ok { OnOk result (text.new.items ≡ text.old.items ++ flat_map restored_line alerts.now) }
    ensures front { take (length text.old.items) text.new.items ≡ text.old.items }
{
    for alert in alerts {
        push_restored(text, alert)?;
    }
    Ok(())
}

fn has_failed(outcome: &RuleOutcome) -> bool
    ensures { result ≡ has_failed outcome.now }
{
    match outcome {
        RuleOutcome::Fine => false,
        RuleOutcome::Fault { .. } => true,
    }
}

fn fault_count(rules: &[RuleReport]) -> u64
    ensures { result ≡ fault_count rules.now }
{
    let mut count = 0;
    for rule in rules {
        if has_failed(&rule.outcome) {
            count += 1;
        }
    }
    count
}

fn push_counts(text: &mut Vec<u8>, rules: &[RuleReport]) -> Result<(), AllocError>
    ensures ok { OnOk result (text.new.items ≡ text.old.items ++ counts_text rules.now) }
    ensures front { take (length text.old.items) text.new.items ≡ text.old.items }
{
    push_evaluated_rules(text)?;
    push_number(text, rules.len() as u64)?;
    text.extend_from_slice(b" faults ")?;
    push_number(text, fault_count(rules))?;
    text.extend_from_slice(b"\n")
}

// What is told after the rules.
fn push_end(text: &mut Vec<u8>, group: &GroupReport) -> Result<(), AllocError>
    ensures ok { OnOk result (text.new.items ≡ text.old.items ++ (flat_map stale_line group.now.leftovers ++ flat_map restored_line group.now.restored ++ counts_text group.now.rules)) }
    ensures front { take (length text.old.items) text.new.items ≡ text.old.items }
{
    push_stale_lines(text, group.leftovers.as_slice())?;
    push_all_restored(text, group.restored.as_slice())?;
    push_counts(text, group.rules.as_slice())
}

// The lines of an evaluation, without memory a part of them.
pub(crate) fn push_evaluated(text: &mut Vec<u8>, group: &GroupReport) -> Result<(), AllocError>
    ensures ok { OnOk result (text.new.items ≡ text.old.items ++ evaluated_text group.now) }
    ensures front { take (length text.old.items) text.new.items ≡ text.old.items }
{
    push_rules(text, group.rules.as_slice())?;
    push_end(text, group)
}

// Alerts

fn state_text(state: State) -> &'static str
    ensures { result.now ≡ state_text state }
{
    match state {
        State::Pending => "pending",
        State::Firing => "firing",
        State::Resolved => "resolved",
    }
}

fn push_state(text: &mut Vec<u8>, state: State) -> Result<(), AllocError>
    ensures ok { OnOk result (text.new.items ≡ text.old.items ++ (codes "alert " ++ state_text state ++ codes " ")) }
    ensures front { take (length text.old.items) text.new.items ≡ text.old.items }
{
    text.extend_from_slice(b"alert ")?;
    text.extend_from_slice(state_text(state).as_bytes())?;
    text.extend_from_slice(b" ")
}

fn push_active(text: &mut Vec<u8>, labels: &Labels, active: Ms) -> Result<(), AllocError>
    ensures ok { OnOk result (text.new.items ≡ text.old.items ++ (series_text labels.now ++ codes " active " ++ decimal active)) }
    ensures front { take (length text.old.items) text.new.items ≡ text.old.items }
{
    labels.write(text)?;
    text.extend_from_slice(b" active ")?;
    push_number(text, active.get())
}

fn push_alert_value(text: &mut Vec<u8>, value: Num) -> Result<(), AllocError>
    ensures ok { OnOk result (text.new.items ≡ text.old.items ++ (codes " value " ++ shown value ++ codes "\n")) }
    ensures front { take (length text.old.items) text.new.items ≡ text.old.items }
{
    text.extend_from_slice(b" value ")?;
    push_value(text, value)?;
    text.extend_from_slice(b"\n")
}

fn push_alert(text: &mut Vec<u8>, alert: &AlertLine) -> Result<(), AllocError>
    ensures ok { OnOk result (text.new.items ≡ text.old.items ++ alert_text alert.now) }
    ensures front { take (length text.old.items) text.new.items ≡ text.old.items }
{
    push_state(text, alert.state)?;
    push_active(text, &alert.labels, alert.active)?;
    push_alert_value(text, alert.value)
}

fn push_all_alerts(text: &mut Vec<u8>, alerts: &[AlertLine]) -> Result<(), AllocError>
    ensures ok { OnOk result (text.new.items ≡ text.old.items ++ flat_map alert_text alerts.now) }
    ensures front { take (length text.old.items) text.new.items ≡ text.old.items }
{
    for alert in alerts {
        push_alert(text, alert)?;
    }
    Ok(())
}

// The lines of alerts, without memory a part of them.
pub(crate) fn push_alerts(text: &mut Vec<u8>, list: &[AlertLine]) -> Result<(), AllocError>
    ensures ok { OnOk result (text.new.items ≡ text.old.items ++ alerts_text list.now) }
    ensures front { take (length text.old.items) text.new.items ≡ text.old.items }
{
    text.extend_from_slice(b"alerts ")?;
    push_number(text, list.len() as u64)?;
    text.extend_from_slice(b"\n")?;
    push_all_alerts(text, list)
}
