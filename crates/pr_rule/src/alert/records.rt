// The records of an alerting rule.
ghost use Rattle.std.specs.Prelude.{◌≡◌, ◌≢◌, ℕ, ◌+◌, ◌<◌, ◌≤◌, ◌∷◌, ◌++◌, ◌||◌, ◌==◌, nat_le, not, true, [], List, length, map, vec_len, vec_capacity, Some, None, OnOk, OnErr, IfOk, IfErr, slice_get, slice_set, is_some};
ghost use Rattle.pr_labels.specs.declared.pair.Pair.{Pair};
ghost use Rattle.pr_labels.specs.Rising.{IsRising};
ghost use Rattle.spec_rules.specs.spec_alerts.declared.record.Record.{Record};
ghost use Rattle.spec_rules.specs.spec_alerts.Lineage.{Occurrence, came_to, moved};
ghost use Rattle.spec_rules.specs.spec_alerts.Records.{evaluation, exceeding, is_due, is_living, is_living_state, living_count, samples};
ghost use Rattle.pr_rule.specs.private.Merging.{merged, moment};
ghost use Rattle.spec_rules.specs.spec_alerts.Restoring.{restored_time};
ghost use Rattle.pr_rule.specs.private.Restoring.{moved_at, moves_of, with_active};
ghost use Rattle.pr_rule.specs.private.AlertStanding.{Exceeds, Refuses, StandsFor, StandsUnsent, marked, sets_in};

use crate::alert::fault::AlertFault;
use crate::alert::merging::merge;
use crate::alert::restoring::restored;
use crate::alert::sending::needs_sending;
use crate::alert::written::WrittenAlerts;
use pr_ast::num::{Num, Point};
use pr_ast::time::{Ms, Span};
use pr_labels::Item;
use spec_rules::alerts_crate::{Record, RuleElement, State};
use std::alloc::{AllocError, Global};
use std::marker::Model;

/// The records of an alerting rule, in label order.
#[derive(Drop)]
pub struct Records {
    list: Vec<Record>,
    alloc: Global,
    // What was written of them last: it is shared with what is written next.
    written: WrittenAlerts,
}

impl Model for Records {
    ghost use Rattle.std.specs.Prelude.{List};
    ghost use Rattle.spec_rules.specs.spec_alerts.declared.record.Record.{Record};

    ghost Value = { List Record };

    ghost view = { λ r. r.list.items };
}

/// Whether an alert is pending or fires.
pub fn is_living(state: State) -> bool
    ensures { result ≡ is_living_state state }
{
    match state {
        State::Pending => true,
        State::Firing => true,
        State::Resolved => false,
    }
}

// How many alerts are pending or fire.
fn living(list: &[Record]) -> u64
    ensures { result ≡ living_count list.now }
{
    let mut count: usize = 0;
    for r in list {
        if is_living(r.state) {
            count += 1;
        }
    }
    count as u64
}

// Whether so many are more than the limit; a limit of 0 is none.
fn exceeds(limit: u32, have: u64) -> bool
    ensures { result ≡ not (limit == 0 || nat_le have limit) }
{
    !(limit == 0 || have <= limit as u64)
}

// An empty list with room for two lists.
fn room_for(
    alloc: Global,
    records: &[Record],
    found: &[RuleElement],
) -> Result<Vec<Record>, AllocError>
    ensures empty { IfOk result (λ v. v.items ≡ []) }
    ensures len { IfOk result (λ v. vec_len v ≡ 0) }
    ensures room { IfOk result (λ v. length records.now + length found.now ≤ vec_capacity v) }
{
    let mut list = Vec::new(alloc);
    list.reserve(records.len() + found.len())?;
    Ok(list)
}

impl Records {
    /// No records.
    pub fn new(alloc: Global) -> Records
        ensures none { result ≡ [] }
        ensures stands { StandsFor result [] }
    {
        Records {
            list: Vec::new(alloc),
            alloc,
            written: WrittenAlerts::new(alloc),
        }
    }

    /// The records, in label order.
    pub fn list(&self) -> &[Record]
        ensures { result.now ≡ self.now }
    {
        &self.list
    }

    /// Forgets all records.
    pub fn clear(&mut self)
        ensures none { self.new ≡ [] }
        ensures stands { StandsFor self.new [] }
    {
        self.list = Vec::new(self.alloc);
        self.written = WrittenAlerts::new(self.alloc);
    }

    /// Takes what the rule's expression gives, in label order, at a time that is above those of the
    /// evaluations before it. An alert fires once it is active for the span `hold`, and is kept
    /// firing for the span `keep` after it went missing; a `limit` of 0 is none. The work grows with
    /// the number of records and elements. (Prometheus: Alerting rules.)
    ///
    /// # Errors
    /// `LimitExceeded` exactly where the limit is not 0 and the pending and firing alerts would be
    /// more: then there are no records any more. Want of memory: then all stays.
    pub fn evaluate(
        &mut self,
        found: Vec<RuleElement>,
        time: Ms,
        hold: Span,
        keep: Span,
        limit: u32,
    ) -> Result<(), AlertFault>
        ensures merged { OnOk result (self.new ≡ merged (moment time hold keep) found.items self.old) }
        ensures within { OnOk result ((limit == 0 || nat_le (living_count (merged (moment time hold keep) found.items self.old)) limit) ≡ true) }
        ensures refused { IfErr result (λ e. Refuses e limit (merged (moment time hold keep) found.items self.old) self.old self.new) }
        ensures stands { (lineage : List Occurrence) (wrote : List (List Pair)) → StandsFor self.old lineage → IsRising (sets_in found.items)
            → OnOk result (StandsUnsent self.new (lineage ++ evaluation time hold keep (came_to found.items) wrote ∷ [])) }
        ensures allowed { (lineage : List Occurrence) → StandsFor self.old lineage → IsRising (sets_in found.items)
            → OnOk result (exceeding limit lineage time hold keep found.items ≡ None) }
        ensures exceeds { (lineage : List Occurrence) → StandsFor self.old lineage → IsRising (sets_in found.items)
            → IfErr result (λ e. Exceeds e limit (exceeding limit lineage time hold keep found.items) self.new) }
    {
        let mut next = match room_for(self.alloc, &self.list, &found) {
            Ok(next) => next,
            Err(_) => return Err(AlertFault::Memory),
        };
        let old = std::mem::replace(&mut self.list, Vec::new(self.alloc));
        merge(old, found, &mut next, time, hold, keep);
        let have = living(&next);
        if exceeds(limit, have) {
            self.written = WrittenAlerts::new(self.alloc);
            return Err(AlertFault::LimitExceeded { limit, have });
        }
        self.list = next;
        Ok(())
    }

    /// What is written of the pending and firing records, in label order, each label set once. As
    /// long as their labels, states and active times stay the same, the label sets are shared with
    /// those that were written last. (Prometheus: Alerting rules, Inspecting alerts during runtime.)
    ///
    /// # Errors
    /// Want of memory.
    pub fn samples(&mut self) -> Result<Vec<Item<Num>>, AllocError>
        ensures samples { IfOk result (λ v. v.items ≡ samples self.old) }
        ensures in_order { IfOk result (λ v. IsRising (map (λ i. i.labels) v.items)) }
        ensures same { self.new ≡ self.old }
    {
        self.written.samples(self.alloc, &self.list)
    }

    /// Whether the alert of a record is to be sent at a time. (Prometheus: rules/alerting.go,
    /// needsSending.)
    pub fn due(&self, index: usize, time: Ms) -> bool
        requires { index < length self.now }
        ensures { (r : Record) → slice_get self.now index ≡ Some r → result ≡ is_due time r }
    {
        needs_sending(&self.list[index], time)
    }

    /// Marks the alert of a record as sent at a time.
    pub fn mark_sent(&mut self, index: usize, time: Ms)
        requires { index < length self.old }
        ensures { (r : Record) → slice_get self.old index ≡ Some r → self.new ≡ slice_set self.old index (marked time r) }
    {
        self.list[index].sent = Some(time);
    }

    // Sets the active time of a record.
    fn set_active(&mut self, index: usize, active: Ms)
        requires { index < length self.old }
        ensures { (r : Record) → slice_get self.old index ≡ Some r → self.new ≡ slice_set self.old index (with_active active r) }
    {
        self.list[index].active = active;
    }

    /// Moves the active time of a pending or firing alert to what follows from the newest sample of
    /// the series in which it was written, its point and its time. Nothing else changes. It answers
    /// whether the active time was set. (Prometheus: RestoreForState of its rules.)
    pub fn restore(&mut self, index: usize, point: &Point, down: Ms, now: Ms, hold: Span) -> bool
        requires in_range { index < length self.old }
        requires before { down ≤ now }
        requires grace { 600000 ≤ hold }
        ensures moved { result ≡ is_some (restored_time hold point.now down now) }
        ensures records { (r : Record) → slice_get self.old index ≡ Some r → self.new ≡ moved_at self.old index r (restored_time hold point.now down now) }
        ensures stands { (lineage : List Occurrence) (r : Record) → StandsFor self.old lineage → slice_get self.old index ≡ Some r → is_living r ≡ true
            → StandsFor self.new (lineage ++ moved (moves_of r (restored_time hold point.now down now)) ∷ []) }
    {
        match restored(point, down, now, hold) {
            None => false,
            Some(active) => {
                self.set_active(index, active);
                true
            }
        }
    }
}
