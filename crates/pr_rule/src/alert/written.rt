// What was written of alerts last.
ghost use Rattle.std.specs.Prelude.{◌≡◌, [], true, IfOk, map};
ghost use Rattle.spec_rules.specs.spec_alerts.Records.{samples};
ghost use Rattle.pr_rule.specs.private.AlertsWritten.{alert_key};

use crate::alert::samples::samples_of_all;
use pr_ast::num::Num;
use pr_ast::time::Ms;
use pr_labels::{Item, Labels};
use spec_rules::alerts_crate::{Record, State};
use std::alloc::{AllocError, Global};
use std::marker::Model;

/// What of an alert decides what is written of it.
#[derive(Drop)]
pub(crate) struct AlertKey {
    labels: Labels,
    state: State,
    active: Ms,
}

/// What was written of alerts last, and of which: so that it is shared as long as they stay the
/// same. Contracts see of which: what is remembered only saves work.
#[derive(Drop)]
pub(crate) struct WrittenAlerts {
    of: Vec<AlertKey>,
    samples: Vec<Item<Num>>,
}

impl Model for WrittenAlerts {
    ghost use Rattle.std.specs.Prelude.{List};
    ghost use Rattle.pr_rule.specs.declared.alert.written.AlertKey.{AlertKey};
    ghost use Rattle.pr_rule.specs.private.AlertsWritten.{IsWrittenOf};

    ghost Value = { List AlertKey };

    ghost view = { λ w. w.of.items };

    ghost invariant = { λ w. IsWrittenOf w.of.items w.samples.items };
}

impl AlertKey {
    // What of an alert decides what is written of it.
    fn of(alloc: Global, r: &Record) -> Result<AlertKey, AllocError>
        ensures { IfOk result (λ k. k ≡ alert_key r.now) }
    {
        Ok(AlertKey {
            labels: r.labels.copy(alloc)?,
            state: r.state,
            active: r.active,
        })
    }

    // Whether it is that of an alert.
    #[tactic(auto, using(crate::proofs::AlertsShared::same_key))]
    fn is_of(&self, r: &Record) -> bool
        ensures { result ≡ true → alert_key r.now ≡ self.now }
    {
        self.state == r.state && self.active == r.active && self.labels == r.labels
    }
}

// What decides what is written of each alert.
fn keys_of(alloc: Global, list: &[Record]) -> Result<Vec<AlertKey>, AllocError>
    ensures { IfOk result (λ v. v.items ≡ map alert_key list.now) }
{
    let mut keys = Vec::with_capacity(alloc, list.len())?;
    for r in list {
        keys.push(AlertKey::of(alloc, r)?)?;
    }
    Ok(keys)
}

// Whether these are the keys of alerts, in their order.
fn are_of(keys: &[AlertKey], list: &[Record]) -> bool
    ensures { result ≡ true → map alert_key list.now ≡ keys.now }
{
    if keys.len() != list.len() {
        return false;
    }
    for (place, key) in keys.iter().enumerate() {
        if !key.is_of(&list[place]) {
            return false;
        }
    }
    true
}

// The same items once more.
fn copies(alloc: Global, items: &[Item<Num>]) -> Result<Vec<Item<Num>>, AllocError>
    ensures { IfOk result (λ v. v.items ≡ items.now) }
{
    let mut copies = Vec::with_capacity(alloc, items.len())?;
    for item in items {
        copies.push(item.copy(alloc)?)?;
    }
    Ok(copies)
}

impl WrittenAlerts {
    /// Nothing, of no alerts.
    pub(crate) fn new(alloc: Global) -> WrittenAlerts
        ensures { result ≡ [] }
    {
        WrittenAlerts {
            of: Vec::new(alloc),
            samples: Vec::new(alloc),
        }
    }

    // What was written of alerts, to be shared with what is written next.
    fn of_alerts(
        alloc: Global,
        list: &[Record],
        written: &[Item<Num>],
    ) -> Result<WrittenAlerts, AllocError>
        requires { written.now ≡ samples list.now }
        ensures { IfOk result (λ w. w ≡ map alert_key list.now) }
    {
        Ok(WrittenAlerts {
            of: keys_of(alloc, list)?,
            samples: copies(alloc, written)?,
        })
    }

    /// What is written of alerts, in label order, each label set once. It is what was written last
    /// where labels, states and active times are the same, and where they are not, the work grows as
    /// n log n with the number of alerts.
    pub(crate) fn samples(
        &mut self,
        alloc: Global,
        list: &[Record],
    ) -> Result<Vec<Item<Num>>, AllocError>
        ensures { IfOk result (λ v. v.items ≡ samples list.now) }
    {
        if are_of(&self.of, list) {
            return copies(alloc, &self.samples);
        }
        let written = samples_of_all(alloc, list)?;
        *self = WrittenAlerts::of_alerts(alloc, list, &written)?;
        Ok(written)
    }
}
