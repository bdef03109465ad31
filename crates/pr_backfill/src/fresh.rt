// The groups of a backfill, to which nothing has happened.
ghost use Rattle.std.specs.Prelude.{◌≡◌, ◌++◌, not, List, filter, map, IfOk, OnOk};
ghost use Rattle.spec_rules.specs.spec_history.declared.entry.Entry.{Entry};
ghost use Rattle.pr_engine.specs.pr_rule.private.Templates.{HaveTemplates};
ghost use Rattle.spec_rules.specs.Groups.{Group};
ghost use Rattle.spec_rules.specs.Settings.{of_a_run};
ghost use Rattle.spec_rules.specs.Definitions.{group_of_def};
ghost use Rattle.pr_engine.specs.pr_manager.private.Keeping.{KeepsUnder};
ghost use Rattle.pr_backfill.specs.Filled.{group_of_file, recording_only};
ghost use Rattle.pr_backfill.specs.private.Keeping.{KeepsToFill};

use crate::stepped::FileGroup;
use pr_ast::time::Span;
use pr_engine::group::GroupOver;
use pr_engine::manager::no_external;
use pr_engine::range::Ranges;
use pr_outside::words_crate::Items;
use spec_rules::{GroupDef, RuleDef};
use std::alloc::{AllocError, Global};
use std::rc::Rc;

// The step of subqueries that name none: a minute.
fn minute() -> Span
    ensures { result ≡ of_a_run.subquery_step }
{
    Span::new(60_000).unwrap()
}

// The rules that are no alerts.
fn recording_rules(alloc: Global, rules: Items<RuleDef>) -> Result<Items<RuleDef>, AllocError>
    ensures { IfOk result (λ kept. kept ≡ filter (λ d. not d.alert) rules) }
{
    let mut kept = Items::empty(alloc);
    for rule in rules.into_vec() {
        if !rule.alert {
            kept.push(rule)?;
        }
    }
    Ok(kept)
}

// A group without its alerts.
fn recording_group(alloc: Global, def: GroupDef) -> Result<GroupDef, AllocError>
    ensures group { IfOk result (λ d. group_of_def d ≡ recording_only (group_of_def def)) }
    ensures templates { IfOk result HaveTemplates }
{
    Ok(GroupDef {
        name: def.name,
        interval: def.interval,
        limit: def.limit,
        rules: recording_rules(alloc, def.rules)?,
    })
}

// A group to which nothing has happened, and which waits for nothing.
fn fresh_group<R: Ranges + Drop>(
    alloc: Global,
    group: FileGroup,
) -> Result<GroupOver<R>, AllocError>
    ensures { (history : List Entry) → IfOk result (λ k. KeepsUnder R.fits R.last R.passed of_a_run history k (group_of_file group)) }
{
    let recording = recording_group(alloc, group.def)?;
    let def = Rc::new(alloc, recording)?;
    GroupOver::new(alloc, def, group.file, false, minute(), no_external(alloc))
}

// Puts groups behind others.
fn push_groups<R: Ranges + Drop>(
    alloc: Global,
    kept: &mut Vec<GroupOver<R>>,
    groups: Vec<FileGroup>,
) -> Result<(), AllocError>
    ensures { (history : List Entry) (gs : List Group) → KeepsToFill R.fits R.last R.passed history kept.old.items gs
        → OnOk result (KeepsToFill R.fits R.last R.passed history kept.new.items (gs ++ map group_of_file groups.items)) }
{
    for group in groups {
        kept.push(fresh_group(alloc, group)?)?;
    }
    Ok(())
}

/// The groups, in order.
pub(crate) fn fresh_groups<R: Ranges + Drop>(
    alloc: Global,
    groups: Vec<FileGroup>,
) -> Result<Vec<GroupOver<R>>, AllocError>
    ensures { (history : List Entry) → IfOk result (λ v. KeepsToFill R.fits R.last R.passed history v.items (map group_of_file groups.items)) }
{
    let mut kept = Vec::new(alloc);
    push_groups(alloc, &mut kept, groups)?;
    Ok(kept)
}
