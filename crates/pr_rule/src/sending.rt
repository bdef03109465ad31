// What is sent of alerts. (Prometheus: rules/alerting.go, sendAlerts.)
ghost use Rattle.std.specs.Prelude.{◌≡◌, true, ◌<◌, ◌≤◌, ◌^◌, ◌++◌, ◌∷◌, [], length, map, max, slice_get, slice_set, unwrap_or, Some, IfOk, OnOk};
ghost use Rattle.spec_rules.specs.spec_alerts.declared.record.Record.{Record};
ghost use Rattle.spec_rules.specs.spec_alerts.Records.{ends_at, is_firing, sending_of, sendings_at};
ghost use Rattle.pr_rule.specs.private.AlertStanding.{marked_if};

use crate::alert::Records;
use crate::evaluation::Evaluation;
use pr_ast::time::{Ms, Span};
use pr_labels::copy_pairs;
use pr_labels::words_crate::Items;
use spec_rules::alerts_crate::{Record, Sending, State};
use std::alloc::{AllocError, Global};

/// How long an alert that was sent is not sent again, in milliseconds. (Prometheus: the flag
/// rules.alert.resend-delay.)
const RESEND_DELAY: u64 = 60_000;

/// How often a group is evaluated that does not say so, in milliseconds. (Prometheus:
/// Configuration, evaluation_interval.)
const DEFAULT_INTERVAL: u64 = 60_000;

/// How often a group is evaluated, in milliseconds.
pub(crate) fn interval_of(interval: Option<Span>) -> u64
    ensures value { result ≡ unwrap_or interval 60000 }
    ensures small { result ≤ 2 ^ 40 }
{
    match interval {
        Some(span) => span.get(),
        None => DEFAULT_INTERVAL,
    }
}

// When a notification ends: where the alert was over, or so late that it is sent again before.
fn ends_at(resolved: Option<Ms>, interval: u64, now: Ms) -> u64
    requires { interval ≤ 2 ^ 40 }
    ensures { result ≡ ends_at resolved interval now }
{
    match resolved {
        None => now.get() + 4 * RESEND_DELAY.max(interval),
        Some(at) => at.get(),
    }
}

fn is_firing(state: State) -> bool
    ensures { result ≡ is_firing state }
{
    match state {
        State::Pending => false,
        State::Firing => true,
        State::Resolved => false,
    }
}

fn starts_at(fired: Option<Ms>) -> Ms
    ensures { result ≡ unwrap_or fired 0 }
{
    match fired {
        Some(at) => at,
        None => Ms::new(0).unwrap(),
    }
}

// The notification of an alert.
fn sending_of(alloc: Global, interval: u64, now: Ms, r: &Record) -> Result<Sending, AllocError>
    requires { interval ≤ 2 ^ 40 }
    ensures { IfOk result (λ s. s ≡ sending_of interval now r.now) }
{
    Ok(Sending {
        labels: r.labels.copy(alloc)?,
        firing: is_firing(r.state),
        value: r.value,
        starts: starts_at(r.fired),
        ends: ends_at(r.resolved, interval, now),
        notes: Items::new(copy_pairs(alloc, r.notes.as_slice())?),
    })
}

// Makes the notification of an alert, where it is told.
fn note_sending(
    at: &Evaluation<'_>,
    sent: &mut Vec<Sending>,
    interval: u64,
    r: &Record,
) -> Result<(), AllocError>
    requires { interval ≤ 2 ^ 40 }
    ensures { OnOk result (at.now.tells ≡ true → sent.new.items ≡ sent.old.items ++ sending_of interval at.now.time r.now ∷ []) }
{
    if at.tells {
        sent.push(sending_of(at.alloc, interval, at.time, r)?)?;
    }
    Ok(())
}

// Sends the alert of a record where it is due, and marks it then.
fn send_if_due(
    at: &Evaluation<'_>,
    records: &mut Records,
    sent: &mut Vec<Sending>,
    index: usize,
    interval: u64,
) -> Result<(), AllocError>
    requires in_range { index < length records.old }
    requires small { interval ≤ 2 ^ 40 }
    ensures sent { (r : Record) → slice_get records.old index ≡ Some r → OnOk result (at.now.tells ≡ true → sent.new.items ≡ sent.old.items ++ sendings_at interval at.now.time (r ∷ [])) }
    ensures marked { (r : Record) → slice_get records.old index ≡ Some r → OnOk result (records.new ≡ slice_set records.old index (marked_if at.now.time r)) }
{
    if !records.due(index, at.time) {
        return Ok(());
    }
    note_sending(at, sent, interval, &records.list()[index])?;
    records.mark_sent(index, at.time);
    Ok(())
}

/// Sends the alerts that are due in an evaluation, in label order, and marks each. The interval is
/// that of the group, in milliseconds. Where nothing is told the alerts are marked alone.
pub(crate) fn send_due(
    at: &Evaluation<'_>,
    records: &mut Records,
    interval: u64,
) -> Result<Vec<Sending>, AllocError>
    requires { interval ≤ 2 ^ 40 }
    ensures sent { IfOk result (λ v. at.now.tells ≡ true → v.items ≡ sendings_at interval at.now.time records.old) }
    ensures marked { OnOk result (records.new ≡ map (marked_if at.now.time) records.old) }
{
    let mut sent = Vec::new(at.alloc);
    for index in 0..records.list().len() {
        send_if_due(at, records, &mut sent, index, interval)?;
    }
    Ok(sent)
}
