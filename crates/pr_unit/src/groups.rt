// The groups of rule files, to which nothing has happened.
ghost use Rattle.std.specs.Prelude.{◌≡◌, ◌<◌, ◌++◌, All, List, IfOk, OnOk, map};
ghost use Rattle.std.specs.Rc.{rc_value};
ghost use Rattle.pr_slide.specs.spec_history.declared.entry.Entry.{Entry};
ghost use Rattle.pr_group.specs.spec_rules.Definitions.{group_of_def};
ghost use Rattle.pr_group.specs.pr_rule.private.Templates.{HaveTemplates};
ghost use Rattle.pr_group.specs.spec_rules.Groups.{Group, fresh};
ghost use Rattle.pr_group.specs.spec_rules.Replays.{unwaiting_groups};
ghost use Rattle.pr_group.specs.spec_rules.Settings.{Settings};
ghost use Rattle.pr_group.specs.private.Keeping.{KeepsGroup, settings_of};
ghost use Rattle.pr_unit.specs.private.Kept.{KeepsGroups};
ghost use Rattle.pr_unit.specs.private.Loaded.{AreAllSound, file_of};

use crate::rules::RuleGroups;
use pr_ast::time::Span;
use pr_ast::words_crate::Text;
use pr_group::GroupOver;
use pr_group::rules_crate::GroupDef;
use pr_group::tmpl::External;
use pr_slide::range::Ranges;
use std::alloc::{AllocError, Global};
use std::rc::Rc;

fn copy_external(alloc: Global, external: &External) -> Result<External, AllocError>
    ensures { IfOk result (λ x. x ≡ external.now) }
{
    Ok(External {
        labels: external.labels.copy(alloc)?,
        url: external.url.copy(alloc)?,
    })
}

// A group to which nothing has happened, and which waits for nothing.
fn fresh<R: Ranges + Drop>(
    alloc: Global,
    def: Rc<GroupDef>,
    file: &str,
    step: Span,
    external: &External,
) -> Result<GroupOver<R>, AllocError>
    requires some { 0 < step }
    requires templates { HaveTemplates def.value }
    ensures keeps { (history : List Entry) → IfOk result (λ k. KeepsGroup R.fits R.last R.passed k history (fresh 0 file.now (group_of_def def.value))) }
    ensures settings { IfOk result (λ k. settings_of k ≡ record { subquery_step = step; external = external.now }) }
{
    let file = Text::from_str(alloc, file)?;
    let external = copy_external(alloc, external)?;
    GroupOver::new(alloc, def, file, false, step, external)
}

// Puts the groups of a file behind others.
fn put_groups<R: Ranges + Drop>(
    alloc: Global,
    defs: &[Rc<GroupDef>],
    file: &str,
    step: Span,
    external: &External,
    groups: &mut Vec<GroupOver<R>>,
) -> Result<(), AllocError>
    requires some { 0 < step }
    requires templates { All HaveTemplates (map rc_value defs.now) }
    ensures { (history : List Entry) (gs : List Group)
        → KeepsGroups R.fits R.last R.passed groups.old.items history (record { subquery_step = step; external = external.now }) gs
        → OnOk result (KeepsGroups R.fits R.last R.passed groups.new.items history (record { subquery_step = step; external = external.now }) (gs ++ map (fresh 0 file.now) (map group_of_def (map rc_value defs.now)))) }
{
    let mut rest = defs;
    'groups: while let Some((def, after)) = rest.split_first() {
        let def = Rc::clone(def)?;
        groups.push(fresh(alloc, def, file, step, external)?)?;
        rest = after;
    }
    Ok(())
}

/// The groups of files, in order: nothing has happened to them, and they wait for nothing.
pub(crate) fn groups_of<R: Ranges + Drop>(
    alloc: Global,
    files: &[RuleGroups],
    step: Span,
    external: &External,
) -> Result<Vec<GroupOver<R>>, AllocError>
    requires some { 0 < step }
    requires sound { AreAllSound files.now }
    ensures { (history : List Entry)
        → IfOk result (λ v. KeepsGroups R.fits R.last R.passed v.items history (record { subquery_step = step; external = external.now }) (unwaiting_groups (map file_of files.now))) }
{
    let mut groups = Vec::new(alloc);
    let mut rest = files;
    'files: while let Some((file, after)) = rest.split_first() {
        let defs = file.groups.as_slice();
        put_groups(alloc, defs, file.name.as_str(), step, external, &mut groups)?;
        rest = after;
    }
    Ok(groups)
}
