// How a record goes on at an evaluation. (Prometheus: rules/alerting.go, Eval.)
ghost use Rattle.std.specs.Prelude.{◌≡◌, ◌+◌, ◌≤◌, ◌^◌, nat_le};
ghost use Rattle.pr_rule.specs.private.Going.{begun, found_or_begun, found_record, kept_firing, kept_over, missing_record, refreshed, with_firing};

use pr_ast::time::{Ms, Span};
use spec_rules::alerts_crate::{Record, RuleElement, State};

/// How long an alert that is over is known, in milliseconds. (Prometheus: rules/alerting.go,
/// resolvedRetention.)
pub(crate) const RESOLVED_RETENTION: u64 = 900_000;

// A new record.
fn begin(f: RuleElement, now: Ms) -> Record
    ensures { result ≡ begun f now }
{
    Record {
        labels: f.labels,
        notes: f.notes,
        state: State::Pending,
        active: now,
        fired: None,
        resolved: None,
        sent: None,
        held: None,
        value: f.value,
    }
}

// The record of an alert that is found again.
fn refresh(r: Record, f: RuleElement) -> Record
    ensures { result ≡ refreshed r f }
{
    Record {
        labels: r.labels,
        notes: f.notes,
        state: r.state,
        active: r.active,
        fired: r.fired,
        resolved: r.resolved,
        sent: r.sent,
        held: None,
        value: f.value,
    }
}

// The record of an alert that is found, before it is asked whether it fires. One that was over
// begins anew.
fn find_again(before: Option<Record>, f: RuleElement, now: Ms) -> Record
    ensures { result ≡ found_or_begun before f now }
{
    match before {
        None => begin(f, now),
        Some(r) => match r.state {
            State::Pending => refresh(r, f),
            State::Firing => refresh(r, f),
            State::Resolved => begin(f, now),
        },
    }
}

// Whether so long has passed since a time.
fn has_passed(since: Ms, span: u64, now: Ms) -> bool
    requires { span ≤ 2 ^ 40 }
    ensures { result ≡ nat_le (since + span) now }
{
    since.get() + span <= now.get()
}

// A pending record that has been active for long enough fires.
fn fire(r: Record, now: Ms, hold: Span) -> Record
    ensures { result ≡ with_firing r now hold }
{
    match r.state {
        State::Pending => {
            if has_passed(r.active, hold.get(), now) {
                Record {
                    state: State::Firing,
                    fired: Some(now),
                    ..r
                }
            } else {
                r
            }
        }
        State::Firing => r,
        State::Resolved => r,
    }
}

/// The record of an alert that is found.
pub(crate) fn found(before: Option<Record>, f: RuleElement, now: Ms, hold: Span) -> Record
    ensures { result ≡ found_record before f now hold }
{
    fire(find_again(before, f, now), now, hold)
}

// The record of an alert that fires and is missing since a time. (Prometheus: rules/alerting.go,
// keepFiringFor.)
fn keep_firing_for(r: Record, since: Ms, now: Ms, keep: Span) -> Record
    ensures { result ≡ kept_firing r since now keep }
{
    if now.get() < since.get() + keep.get() {
        Record {
            held: Some(since),
            ..r
        }
    } else {
        Record {
            state: State::Resolved,
            resolved: Some(now),
            held: Some(since),
            ..r
        }
    }
}

// The record of an alert that is over, as long as it is known.
fn keep_over(resolved: Option<Ms>, r: Record, now: Ms) -> Option<Record>
    ensures { result ≡ kept_over resolved r now }
{
    match resolved {
        None => None,
        Some(at) => {
            if now.get() <= at.get() + RESOLVED_RETENTION {
                Some(r)
            } else {
                None
            }
        }
    }
}

/// The record of an alert that is missing.
pub(crate) fn missing(r: Record, now: Ms, keep: Span) -> Option<Record>
    ensures { result ≡ missing_record r now keep }
{
    match r.state {
        State::Pending => None,
        State::Firing => {
            let since = r.held.unwrap_or(now);
            Some(keep_firing_for(r, since, now, keep))
        }
        State::Resolved => keep_over(r.resolved, r, now),
    }
}
