// The restoration of alerts: their active times, from what was written of them.
ghost use Rattle.std.specs.Prelude.{◌≡◌, ℕ, ◌+◌, ◌++◌, ◌∷◌, [], true, ◌≤◌, ◌<◌, ◌&&◌, pos, Bool, cond, List, flat_map, length, map, slice_get, Option, Some, None, IfOk, IfSome, OnOk, nat_le, option_and_then, sum_by};
ghost use Rattle.std.specs.List.{filter_map};
ghost use Rattle.std.specs.Option.{option_map, option_to_list};
ghost use Rattle.pr_ast.specs.pr_labels.declared.pair.Pair.{Pair};
ghost use Rattle.pr_rule.specs.spec_history.declared.entry.Entry.{Entry};
ghost use Rattle.pr_rule.specs.spec_history.Admission.{is_of, last_entry};
ghost use Rattle.pr_rule.specs.pr_head.private.Holds.{timed};
ghost use Rattle.pr_rule.specs.spec_alerts.declared.record.Record.{Record};
ghost use Rattle.pr_rule.specs.spec_alerts.Lineage.{Occurrence, moved};
ghost use Rattle.pr_rule.specs.spec_alerts.Records.{for_state_labels, is_living, living_count};
ghost use Rattle.pr_rule.specs.spec_alerts.Restoring.{for_state_entry, restored_alert, restored_of, restored_time};
ghost use Rattle.pr_rule.specs.private.AlertStanding.{StandsFor};
ghost use Rattle.pr_rule.specs.spec_rules.Definitions.{rule_of_def};
ghost use Rattle.pr_rule.specs.spec_rules.private.Costs.{restored_reads};
ghost use Rattle.pr_rule.specs.spec_rules.Evaluations.{restores, with_restored};
ghost use Rattle.pr_rule.specs.spec_rules.Groups.{RuleState};
ghost use Rattle.pr_rule.specs.private.Standing.{StandsForRule};
ghost use Rattle.pr_group.specs.private.Keeping.{AreKept, MayEvaluateOver};
ghost use Rattle.pr_group.specs.private.Restoring.{IsRestored, OnlyChanges, in_last_hour, kept_of_last_hour, ranges_of};

use pr_ast::labels::Labels;
use pr_ast::time::{Ms, Span};
use pr_ast::words_crate::Steps;
use pr_rule::Remembered;
use pr_rule::alert::{
    a_move_of_no_alerts_leaves_the_records, a_restored_record_is_moved, for_state_labels,
    is_living, records_of_a_lineage_stand_for_it,
};
use pr_rule::alerts_crate::Restored;
use pr_rule::head::{Head, Timed};
use pr_rule::range::Ranges;
use pr_rule::rules_crate::RuleDef;
use std::alloc::{AllocError, Global};
use std::sync::ledger::Ledger;

/// Beyond this nothing is restored, in milliseconds. (Prometheus: the flag
/// rules.alert.for-outage-tolerance.)
const OUTAGE_TOLERANCE: u64 = 3_600_000;

/// The least time to hold of a rule whose alerts are restored, in milliseconds. (Prometheus: the
/// flag rules.alert.for-grace-period.)
const GRACE_PERIOD: u64 = 600_000;

fn of_last_hour(sample: Timed, now: Ms) -> Option<Timed>
    ensures value { result ≡ kept_of_last_hour now (Some sample) }
    ensures early { IfSome result (λ t. t.time ≤ now) }
{
    let time = sample.time.get();
    if time <= now.get() && now.get() <= time + OUTAGE_TOLERANCE {
        Some(sample)
    } else {
        None
    }
}

fn moment(now: Ms) -> i64
    ensures { result ≡ pos now }
{
    now.get() as i64
}

// The newest sample of a series until a time.
fn newest_until<G: Ledger>(
    head: &Head,
    labels: &Labels,
    time: i64,
    reads: &mut Steps<G>,
) -> Option<Timed>
    ensures found { (history : List Entry) (now : ℕ) → time ≡ pos now → MayEvaluateOver head.now history now
        → kept_of_last_hour now result ≡ option_map timed (last_entry (λ e. is_of labels.now e && in_last_hour now e.time) history) }
    ensures reads { reads.new ≤ reads.old + 1 }
{
    match head.number(labels) {
        None => None,
        Some(series) => head.newest_at(series, time, reads),
    }
}

// The newest sample of a series, where it is of the last hour. One read at most.
fn newest_of<G: Ledger>(
    head: &Head,
    labels: &Labels,
    now: Ms,
    reads: &mut Steps<G>,
) -> Option<Timed>
    ensures found { (history : List Entry) → MayEvaluateOver head.now history now → result ≡ option_map timed (last_entry (λ e. is_of labels.now e && in_last_hour now e.time) history) }
    ensures early { IfSome result (λ t. t.time ≤ now) }
    ensures reads { reads.new ≤ reads.old + 1 }
{
    let time = moment(now);
    match newest_until(head, labels, time, reads) {
        None => None,
        Some(sample) => of_last_hour(sample, now),
    }
}

// The newest sample of the last hour in which the active time of an alert was written.
fn newest<G: Ledger>(
    alloc: Global,
    head: &Head,
    labels: &Labels,
    now: Ms,
    reads: &mut Steps<G>,
) -> Result<Option<Timed>, AllocError>
    ensures found { (history : List Entry) → MayEvaluateOver head.now history now → IfOk result (λ o. o ≡ option_map timed (for_state_entry history now labels.now)) }
    ensures early { IfOk result (λ o. IfSome o (λ t. t.time ≤ now)) }
    ensures reads { reads.new ≤ reads.old + 1 }
{
    let written = for_state_labels(alloc, labels)?;
    Ok(newest_of(head, &written, now, reads))
}

// The active time of an alert.
fn active_at<R: Ranges>(kept: &Remembered<R>, index: usize) -> Ms
    requires { index < length kept.now.records }
    ensures { (r : Record) → slice_get kept.now.records index ≡ Some r → result ≡ r.active }
{
    kept.records().list()[index].active
}

// Moves an alert to what follows from a sample, where that is anything.
fn move_alert<R: Ranges>(
    kept: &mut Remembered<R>,
    index: usize,
    labels: Labels,
    sample: &Timed,
    now: Ms,
    hold: Span,
) -> Option<Restored>
    requires in_range { index < length kept.old.records }
    requires before { sample.now.time ≤ now }
    requires grace { 600000 ≤ hold }
    ensures restored { (lineage : List Occurrence) (r : Record) → StandsFor kept.old.records lineage → slice_get kept.old.records index ≡ Some r → is_living r ≡ true → labels ≡ r.labels
        → IsRestored result (option_map (restored_of r.labels) (restored_time hold sample.now.point sample.now.time now)) lineage kept.new.records }
    ensures only { OnlyChanges index kept.old.records kept.new.records }
    ensures rest { kept.new ≡ record kept.old { records = kept.new.records } }
{
    if !kept.restore(index, &sample.point, sample.time, now, hold) {
        return None;
    }
    let active = active_at(kept, index);
    Some(Restored { labels, active })
}

// Restores the alert of a record, where it is pending or fires.
fn restore_alert<R: Ranges, G: Ledger>(
    alloc: Global,
    head: &Head,
    kept: &mut Remembered<R>,
    index: usize,
    now: Ms,
    hold: Span,
    reads: &mut Steps<G>,
) -> Result<Option<Restored>, AllocError>
    requires in_range { index < length kept.old.records }
    requires grace { 600000 ≤ hold }
    ensures restored { (history : List Entry) (lineage : List Occurrence) (r : Record) → MayEvaluateOver head.now history now → StandsFor kept.old.records lineage → slice_get kept.old.records index ≡ Some r
        → IfOk result (λ answer. IsRestored answer (restored_alert history hold now r) lineage kept.new.records) }
    ensures reads { (r : Record) → slice_get kept.old.records index ≡ Some r → reads.new ≤ reads.old + cond (is_living r) 1 0 }
    ensures only { OnlyChanges index kept.old.records kept.new.records }
    ensures rest { kept.new ≡ record kept.old { records = kept.new.records } }
{
    a_move_of_no_alerts_leaves_the_records();
    let record = &kept.records().list()[index];
    if !is_living(record.state) {
        return Ok(None);
    }
    let labels = record.labels.copy(alloc)?;
    match newest(alloc, head, &labels, now, reads)? {
        None => Ok(None),
        Some(sample) => Ok(move_alert(kept, index, labels, &sample, now, hold)),
    }
}

// Notes an alert that was restored, where that is told.
fn note(tells: bool, list: &mut Vec<Restored>, restored: Option<Restored>) -> Result<(), AllocError>
    ensures { OnOk result (tells ≡ true → list.new.items ≡ list.old.items ++ option_to_list restored) }
{
    if !tells {
        return Ok(());
    }
    if let Some(restored) = restored {
        list.push(restored)?;
    }
    Ok(())
}

// Restores the alerts of a rule, and notes which.
fn restore_alerts<R: Ranges, G: Ledger>(
    alloc: Global,
    tells: bool,
    head: &Head,
    kept: &mut Remembered<R>,
    now: Ms,
    hold: Span,
    list: &mut Vec<Restored>,
    reads: &mut Steps<G>,
) -> Result<(), AllocError>
    requires { 600000 ≤ hold }
    ensures stands { (history : List Entry) (lineage : List Occurrence) → MayEvaluateOver head.now history now → StandsFor kept.old.records lineage
        → OnOk result (StandsFor kept.new.records (lineage ++ moved (filter_map (restored_alert history hold now) kept.old.records) ∷ [])) }
    ensures told { (history : List Entry) (lineage : List Occurrence) → MayEvaluateOver head.now history now → StandsFor kept.old.records lineage
        → OnOk result (tells ≡ true → list.new.items ≡ list.old.items ++ filter_map (restored_alert history hold now) kept.old.records) }
    ensures reads { reads.new ≤ reads.old + living_count kept.old.records }
    ensures rest { kept.new ≡ record kept.old { records = kept.new.records } }
{
    a_move_of_no_alerts_leaves_the_records();
    a_restored_record_is_moved();
    for index in 0..kept.records().list().len() {
        let restored = restore_alert(alloc, head, kept, index, now, hold, reads)?;
        note(tells, list, restored)?;
    }
    Ok(())
}

// Whether the alerts of a rule are restored: they are held for long enough.
fn is_due(definition: &RuleDef) -> bool
    ensures { result ≡ (definition.now.alert && nat_le 600000 definition.now.hold) }
{
    definition.alert && GRACE_PERIOD <= definition.hold.get()
}

// Restores the alerts of a rule that holds them for long enough, and notes which.
fn restore_rule<R: Ranges, G: Ledger>(
    alloc: Global,
    tells: bool,
    head: &Head,
    definition: &RuleDef,
    kept: &mut Remembered<R>,
    now: Ms,
    list: &mut Vec<Restored>,
    reads: &mut Steps<G>,
) -> Result<(), AllocError>
    ensures stands { (history : List Entry) (r : RuleState) → MayEvaluateOver head.now history now → StandsForRule kept.old.templates kept.old.previous kept.old.records (rule_of_def definition.now) r
        → OnOk result (StandsForRule kept.new.templates kept.new.previous kept.new.records (rule_of_def definition.now) (with_restored history now r)) }
    ensures told { (history : List Entry) (r : RuleState) → MayEvaluateOver head.now history now → StandsForRule kept.old.templates kept.old.previous kept.old.records (rule_of_def definition.now) r
        → OnOk result (tells ≡ true → list.new.items ≡ list.old.items ++ restores history now r) }
    ensures reads { (r : RuleState) → StandsForRule kept.old.templates kept.old.previous kept.old.records (rule_of_def definition.now) r → reads.new ≤ reads.old + restored_reads r }
    ensures rest { kept.new ≡ record kept.old { records = kept.new.records } }
{
    a_move_of_no_alerts_leaves_the_records();
    records_of_a_lineage_stand_for_it();
    if !is_due(definition) {
        return Ok(());
    }
    restore_alerts(alloc, tells, head, kept, now, definition.hold, list, reads)?;
    Ok(())
}

/// Restores the alerts of the rules of a group, and where that is told answers which.
///
/// # Errors
/// Want of memory.
pub(crate) fn restore_rules<R: Ranges, G: Ledger>(
    alloc: Global,
    tells: bool,
    head: &Head,
    definitions: &[RuleDef],
    rules: &mut Vec<Remembered<R>>,
    now: Ms,
    reads: &mut Steps<G>,
) -> Result<Vec<Restored>, AllocError>
    requires { length rules.old.items ≡ length definitions.now }
    ensures kept { (history : List Entry) (until : Option ℕ) (rs : List RuleState) → MayEvaluateOver head.now history now → length definitions.now ≡ length rs → AreKept R.fits R.last R.passed history until definitions.now rules.old.items rs
        → OnOk result (AreKept R.fits R.last R.passed history until definitions.now rules.new.items (map (with_restored history now) rs)) }
    ensures told { (history : List Entry) (until : Option ℕ) (rs : List RuleState) → MayEvaluateOver head.now history now → length definitions.now ≡ length rs → AreKept R.fits R.last R.passed history until definitions.now rules.old.items rs
        → IfOk result (λ v. tells ≡ true → v.items ≡ flat_map (restores history now) rs) }
    ensures reads { (history : List Entry) (until : Option ℕ) (rs : List RuleState) → MayEvaluateOver head.now history now → length definitions.now ≡ length rs → AreKept R.fits R.last R.passed history until definitions.now rules.old.items rs
        → reads.new ≤ reads.old + sum_by restored_reads rs }
    ensures ranges { ranges_of rules.new.items ≡ ranges_of rules.old.items }
{
    let mut list = Vec::new(alloc);
    for index in 0..definitions.len() {
        restore_rule(
            alloc,
            tells,
            head,
            &definitions[index],
            &mut rules[index],
            now,
            &mut list,
            reads,
        )?;
    }
    Ok(list)
}
