// What is written of records. (Prometheus: rules/alerting.go, sample and forStateSample.)
ghost use Rattle.std.specs.Prelude.{◌≡◌, ◌∷◌, [], codes, IfOk, OnOk};
ghost use Rattle.pr_labels.specs.Edits.{set_label};
ghost use Rattle.pr_labels.specs.LabelSet.{metric_label};
ghost use Rattle.spec_rules.specs.spec_history.Series.{element};
ghost use Rattle.spec_rules.specs.spec_alerts.Records.{alert_labels, for_state_labels, samples, samples_of, state_text, with_item, with_samples};
ghost use Rattle.pr_rule.specs.private.Sampling.{items_of};

use crate::alert::records::is_living;
use pr_ast::num::Num;
use pr_labels::{Item, Labels, METRIC_LABEL};
use spec_rules::alerts_crate::{Record, State};
use std::alloc::{AllocError, Global};
use std::collections::BTreeMap;

// The labels of a record with a metric's name.
fn named(alloc: Global, labels: &Labels, name: &str) -> Result<Labels, AllocError>
    ensures { IfOk result (λ l. l ≡ set_label labels.now metric_label name.now) }
{
    let mut named = labels.copy(alloc)?;
    named.assign(alloc, METRIC_LABEL, name)?;
    Ok(named)
}

fn set_state(alloc: Global, labels: &mut Labels, state: State) -> Result<(), AllocError>
    ensures { OnOk result (labels.new ≡ set_label labels.old (codes "alertstate") (state_text state)) }
{
    match state {
        State::Pending => labels.assign(alloc, "alertstate", "pending"),
        State::Firing => labels.assign(alloc, "alertstate", "firing"),
        State::Resolved => labels.assign(alloc, "alertstate", "resolved"),
    }
}

// The labels of the series that says how far an alert has come.
fn state_labels(alloc: Global, r: &Record) -> Result<Labels, AllocError>
    ensures { IfOk result (λ l. l ≡ alert_labels r.now) }
{
    let mut labels = named(alloc, &r.labels, "ALERTS")?;
    set_state(alloc, &mut labels, r.state)?;
    Ok(labels)
}

/// The labels of the series that says since when an alert of these labels is active.
///
/// # Errors
/// Where memory runs out.
pub fn for_state_labels(alloc: Global, labels: &Labels) -> Result<Labels, AllocError>
    ensures { IfOk result (λ l. l ≡ for_state_labels labels.now) }
{
    named(alloc, labels, "ALERTS_FOR_STATE")
}

#[tactic(auto, using(crate::proofs::Sampled::items_insert))]
fn put(items: &mut BTreeMap<Labels, Num>, labels: Labels, value: Num) -> Result<(), AllocError>
    ensures { OnOk result (items_of items.new.entries ≡ with_item (items_of items.old.entries) (element labels value)) }
{
    items.insert(labels, value)?;
    Ok(())
}

// What is written of one record.
fn put_record(
    alloc: Global,
    items: &mut BTreeMap<Labels, Num>,
    r: &Record,
) -> Result<(), AllocError>
    ensures { OnOk result (items_of items.new.entries ≡ with_samples (items_of items.old.entries) r.now) }
{
    if !is_living(r.state) {
        return Ok(());
    }
    put(items, state_labels(alloc, r)?, Num::whole(1))?;
    let seconds = (r.active.get() / 1000) as i64;
    put(
        items,
        for_state_labels(alloc, &r.labels)?,
        Num::whole(seconds),
    )
}

// The entries of an ordered map as elements.
fn listed(alloc: Global, entries: BTreeMap<Labels, Num>) -> Result<Vec<Item<Num>>, AllocError>
    ensures { IfOk result (λ v. v.items ≡ items_of entries.entries) }
{
    let mut items = Vec::new(alloc);
    for (labels, value) in entries {
        items.push(Item { labels, value })?;
    }
    Ok(items)
}

/// What is written of records, in label order, each label set once. The work grows as n log n with
/// their number.
pub(crate) fn samples_of_all(alloc: Global, list: &[Record]) -> Result<Vec<Item<Num>>, AllocError>
    ensures { IfOk result (λ v. v.items ≡ samples list.now) }
{
    let mut items: BTreeMap<Labels, Num> = BTreeMap::new(alloc);
    for r in list {
        put_record(alloc, &mut items, r)?;
    }
    listed(alloc, items)
}
