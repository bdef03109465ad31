// Rule files that were read, each once, for all tests.
ghost use Rattle.std.specs.Prelude.{◌≡◌, ◌<◌, ◌^◌, List, IfOk, length, map};
ghost use Rattle.std.specs.List.{AllZip};
ghost use Rattle.std.specs.Rc.{rc_value};
ghost use Rattle.pr_group.specs.spec_rules.Definitions.{group_of_def};
ghost use Rattle.pr_group.specs.spec_rules.Reloads.{LoadedFile};
ghost use Rattle.pr_unit.specs.private.Loaded.{AreShort, AreSound, IsRead, LoadsAs, definitions_of};

use pr_ast::words_crate::{Items, Text};
use pr_group::rules_crate::GroupDef;
use spec_tests::rulefile::{RuleError, read};
use spec_tests::world::NamedFile;
use std::alloc::{AllocError, Global};
use std::rc::Rc;

/// The groups of a rule file, as they were read: those of each test are over the same definitions.
#[derive(Drop)]
pub struct RuleGroups {
    /// The name of the file.
    pub name: Text,
    /// The definitions, in the order of the file.
    pub groups: Items<Rc<GroupDef>>,
}

// Each definition, for more than one group.
fn shared(alloc: Global, defs: Vec<GroupDef>) -> Result<Vec<Rc<GroupDef>>, AllocError>
    ensures { IfOk result (λ v. map rc_value v.items ≡ defs.items) }
{
    let mut shared = Vec::new(alloc);
    for def in defs {
        shared.push(Rc::new(alloc, def)?)?;
    }
    Ok(shared)
}

impl RuleGroups {
    /// The groups of a file of this name.
    ///
    /// # Errors
    /// Want of memory.
    pub fn new(alloc: Global, name: Text, groups: Items<GroupDef>) -> Result<RuleGroups, AllocError>
        ensures name { IfOk result (λ r. r.name ≡ name) }
        ensures groups { IfOk result (λ r. definitions_of r ≡ groups) }
    {
        let groups = shared(alloc, groups.into_vec())?;
        Ok(RuleGroups {
            name,
            groups: Items::new(groups),
        })
    }
}

// The definitions of a file: none where something is wrong with it.
fn definitions(alloc: Global, file: &NamedFile) -> Result<Items<GroupDef>, AllocError>
    requires { length file.now.bytes < 2 ^ 32 }
    ensures sound { IfOk result AreSound }
    ensures groups { (l : LoadedFile) → LoadsAs file.now l → IfOk result (λ defs. map group_of_def defs ≡ l.groups) }
{
    match read(alloc, file.bytes.as_slice()) {
        Ok(file) => Ok(file.groups),
        Err(RuleError::Problems { .. }) => Ok(Items::empty(alloc)),
        Err(RuleError::Memory) => Err(AllocError),
    }
}

fn read_file(alloc: Global, file: &NamedFile) -> Result<RuleGroups, AllocError>
    requires { length file.now.bytes < 2 ^ 32 }
    ensures { IfOk result (IsRead file.now) }
{
    let defs = definitions(alloc, file)?;
    let name = file.name.copy(alloc)?;
    RuleGroups::new(alloc, name, defs)
}

/// The groups of rule files, each of which is read once.
///
/// # Errors
/// Want of memory.
pub(crate) fn read_files(alloc: Global, files: &[NamedFile]) -> Result<Vec<RuleGroups>, AllocError>
    requires { AreShort files.now }
    ensures { IfOk result (λ rules. AllZip IsRead files.now rules.items) }
{
    let mut rules = Vec::new(alloc);
    let mut rest = files;
    'files: while let Some((file, after)) = rest.split_first() {
        rules.push(read_file(alloc, file)?)?;
        rest = after;
    }
    Ok(rules)
}
