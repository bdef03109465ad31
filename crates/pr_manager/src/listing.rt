// The alerts of all groups.
ghost use Rattle.std.specs.Prelude.{◌≡◌, ◌++◌, Bool, List, Some, filter, map, slice_get, IfOk, OnOk};
ghost use Rattle.spec_world.specs.spec_history.declared.entry.Entry.{Entry};
ghost use Rattle.spec_world.specs.spec_rules.Groups.{Group, RuleState};
ghost use Rattle.spec_world.specs.spec_alerts.Records.{is_living, is_living_state};
ghost use Rattle.pr_group.specs.private.Keeping.{KeepsGroup};
ghost use Rattle.spec_world.specs.Rounds.{alert_line, alerts_of, group_alerts, rule_alerts};
ghost use Rattle.pr_manager.specs.private.Keeping.{ManagesGroups};

use crate::manager::Manager;
use pr_ast::words_crate::Items;
use pr_group::GroupOver;
use pr_group::range::Ranges;
use pr_group::rule::alert::{Record, State, records_of_a_lineage_stand_for_it};
use spec_world::AlertLine;
use std::alloc::{AllocError, Global};

fn is_living(state: State) -> bool
    ensures { result ≡ is_living_state state }
{
    matches!(state, State::Pending | State::Firing)
}

// What is told of an alert.
fn line_of(alloc: Global, alert: &Record) -> Result<AlertLine, AllocError>
    ensures { IfOk result (λ l. l ≡ alert_line alert.now) }
{
    Ok(AlertLine {
        state: alert.state,
        labels: alert.labels.copy(alloc)?,
        active: alert.active,
        value: alert.value,
    })
}

// Puts the pending and firing ones of these records behind others, as they are told.
fn push_living(
    alloc: Global,
    lines: &mut Items<AlertLine>,
    records: &[Record],
) -> Result<(), AllocError>
    ensures { OnOk result (lines.new ≡ lines.old ++ map alert_line (filter is_living records.now)) }
{
    let mut rest = records;
    'listing: while let Some((alert, after)) = rest.split_first() {
        if is_living(alert.state) {
            lines.push(line_of(alloc, alert)?)?;
        }
        rest = after;
    }
    Ok(())
}

// Puts the alerts of a rule behind others, where it is an alert.
fn push_rule<R: Ranges + Drop>(
    alloc: Global,
    lines: &mut Items<AlertLine>,
    group: &GroupOver<R>,
    rule: usize,
) -> Result<(), AllocError>
    ensures { (history : List Entry) (g : Group) (r : RuleState) → KeepsGroup R.fits R.last R.passed group.now history g → slice_get g.rules rule ≡ Some r
        → OnOk result (lines.new ≡ lines.old ++ map alert_line (rule_alerts r)) }
{
    records_of_a_lineage_stand_for_it();
    match group.records(rule) {
        Some(records) => push_living(alloc, lines, records.list()),
        None => Ok(()),
    }
}

// Puts the alerts of a group behind others.
fn push_group<R: Ranges + Drop>(
    alloc: Global,
    lines: &mut Items<AlertLine>,
    group: &GroupOver<R>,
) -> Result<(), AllocError>
    ensures { (history : List Entry) (g : Group) → KeepsGroup R.fits R.last R.passed group.now history g → OnOk result (lines.new ≡ lines.old ++ map alert_line (group_alerts g)) }
{
    let size = group.def().rules.as_slice().len();
    let mut rule = 0;
    'rules: while rule < size {
        push_rule(alloc, lines, group, rule)?;
        rule += 1;
    }
    Ok(())
}

impl<R: Ranges + Drop> Manager<R> {
    /// The alerts that are pending or fire, by group, rule and label order. (Prometheus: Alerting
    /// rules, Inspecting alerts during runtime.)
    ///
    /// # Errors
    /// Want of memory.
    pub fn alerts(&self, alloc: Global) -> Result<Items<AlertLine>, AllocError>
        ensures { (history : List Entry) (groups : List Group) (reloaded : Bool) → ManagesGroups R.fits R.last R.passed self.now history groups reloaded
            → IfOk result (λ l. l ≡ alerts_of groups) }
    {
        let mut lines = Items::empty(alloc);
        let groups: &[GroupOver<R>] = &self.groups;
        let mut rest = groups;
        'listing: while let Some((group, after)) = rest.split_first() {
            push_group(alloc, &mut lines, group)?;
            rest = after;
        }
        Ok(lines)
    }
}
