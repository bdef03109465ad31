// The alerts of a name that fire.
ghost use Rattle.std.specs.Prelude.{◌≡◌, ℕ, ◌<◌, ◌++◌, ◌&&◌, List, IfOk, OnOk, length, slice_get, Some};
ghost use Rattle.std.specs.List.{flat_map};
ghost use Rattle.std.specs.Str.{bytes_eq};
ghost use Rattle.pr_slide.specs.spec_history.declared.entry.Entry.{Entry};
ghost use Rattle.spec_tests.specs.pr_rulefile.Order.{ordered};
ghost use Rattle.pr_group.specs.spec_rules.Groups.{Group, RuleState};
ghost use Rattle.pr_group.specs.spec_rules.Settings.{Settings};
ghost use Rattle.spec_tests.specs.pr_testfile.Alerts.{is_found_before};
ghost use Rattle.spec_tests.specs.Verdict.{firing_of};
ghost use Rattle.pr_group.specs.private.Keeping.{KeepsGroup};
ghost use Rattle.pr_unit.specs.private.Kept.{KeepsGroups};

use crate::expected::push_firing;
use pr_ast::words_crate::Items;
use pr_group::GroupOver;
use pr_group::alerts_crate::RuleElement;
use pr_group::rule::alert::records_of_a_lineage_stand_for_it;
use pr_group::rules_crate::RuleDef;
use pr_slide::range::Ranges;
use spec_tests::testfile::founds_in_order;
use std::alloc::{AllocError, Global};

fn is_alert_named(rule: &RuleDef, name: &str) -> bool
    ensures { result ≡ (rule.now.alert && bytes_eq rule.now.name name.now) }
{
    rule.alert && rule.name.as_str() == name
}

// Puts the alerts of a rule that fire behind others, where it is an alerting rule of that name.
fn push_rule<R: Ranges + Drop>(
    alloc: Global,
    group: &GroupOver<R>,
    number: usize,
    name: &str,
    founds: &mut Vec<RuleElement>,
) -> Result<(), AllocError>
    requires { number < length group.now.def.rules }
    ensures { (history : List Entry) (g : Group) (r : RuleState) → KeepsGroup R.fits R.last R.passed group.now history g → slice_get g.rules number ≡ Some r
        → OnOk result (founds.new.items ≡ founds.old.items ++ firing_of name.now r) }
{
    if !is_alert_named(&group.def().rules.as_slice()[number], name) {
        return Ok(());
    }
    records_of_a_lineage_stand_for_it();
    match group.records(number) {
        Some(records) => push_firing(alloc, records.list(), founds),
        None => Ok(()),
    }
}

fn push_group<R: Ranges + Drop>(
    alloc: Global,
    group: &GroupOver<R>,
    name: &str,
    founds: &mut Vec<RuleElement>,
) -> Result<(), AllocError>
    ensures { (history : List Entry) (g : Group) → KeepsGroup R.fits R.last R.passed group.now history g
        → OnOk result (founds.new.items ≡ founds.old.items ++ flat_map (firing_of name.now) g.rules) }
{
    'rules: for number in 0..group.def().rules.as_slice().len() {
        push_rule(alloc, group, number, name, founds)?;
    }
    Ok(())
}

/// The alerts of all alerting rules of a name that fire, in the order in which they are expected.
///
/// # Errors
/// Want of memory.
pub(crate) fn firing<R: Ranges + Drop>(
    alloc: Global,
    groups: &[GroupOver<R>],
    name: &str,
) -> Result<Items<RuleElement>, AllocError>
    ensures { (history : List Entry) (s : Settings) (gs : List Group) → KeepsGroups R.fits R.last R.passed groups.now history s gs
        → IfOk result (λ list. list ≡ ordered is_found_before (flat_map (λ g. flat_map (firing_of name.now) g.rules) gs)) }
{
    let mut founds = Vec::new(alloc);
    'groups: for number in 0..groups.len() {
        push_group(alloc, &groups[number], name, &mut founds)?;
    }
    founds_in_order(founds)
}
