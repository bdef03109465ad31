// The groups of rule files.
ghost use Rattle.std.specs.Prelude.{◌≡◌, ◌++◌, List, map, IfOk, OnOk};
ghost use Rattle.spec_rules.specs.spec_history.declared.entry.Entry.{Entry};
ghost use Rattle.spec_rules.specs.Definitions.{group_of_def};
ghost use Rattle.pr_backfill.specs.Filled.{group_of_file, group_to_fill, groups_to_fill};
ghost use Rattle.pr_backfill.specs.private.Keeping.{KeepsToFill};
ghost use Rattle.pr_checks.specs.private.RulesTaken.{loaded_of};

use crate::{Backfill, FileGroup};
use pr_checks::LoadedRules;
use pr_engine::range::Ranges;
use pr_outside::words_crate::Text;
use spec_rules::GroupDef;
use std::alloc::{AllocError, Global};

// Puts the groups of a file behind others.
fn push_groups(
    alloc: Global,
    groups: &mut Vec<FileGroup>,
    name: &str,
    defs: Vec<GroupDef>,
) -> Result<(), AllocError>
    ensures { OnOk result (map group_of_file groups.new.items ≡ map group_of_file groups.old.items ++ map (group_to_fill name.now) (map group_of_def defs.items)) }
{
    for def in defs {
        groups.push(FileGroup {
            file: Text::from_str(alloc, name)?,
            def,
        })?;
    }
    Ok(())
}

// The groups of files, in order.
fn file_groups(alloc: Global, files: Vec<LoadedRules>) -> Result<Vec<FileGroup>, AllocError>
    ensures { IfOk result (λ groups. map group_of_file groups.items ≡ groups_to_fill (map loaded_of files.items)) }
{
    let mut groups = Vec::new(alloc);
    for file in files {
        let defs = file.groups.into_vec();
        push_groups(alloc, &mut groups, file.name.as_str(), defs)?;
    }
    Ok(groups)
}

/// The groups of files without their alerts, to which nothing has happened.
pub(crate) fn groups_of<R: Ranges + Drop>(
    alloc: Global,
    files: Vec<LoadedRules>,
) -> Result<Backfill<R>, AllocError>
    ensures { (history : List Entry) → IfOk result (λ groups. KeepsToFill R.fits R.last R.passed history groups (groups_to_fill (map loaded_of files.items))) }
{
    Backfill::new(alloc, file_groups(alloc, files)?)
}
