// Problems that are found.
ghost use Rattle.std.specs.Prelude.{◌≡◌, ◌++◌, ◌∷◌, [], codes, IfOk, OnOk};
ghost use Rattle.pr_rulefile.specs.declared.fields.problem.ProblemKind.TheVariants.{WantText, WantList, WantMap, UnknownField, Missing, BadLabel, NotForRecording, DuplicateGroup, Yaml};
ghost use Rattle.pr_rulefile.specs.Problems.{problem};

use crate::fields::problem::{Problem, ProblemKind};
use pr_words::{Items, Text};
use pr_yaml::yaml_scan::YamlKind;
use std::alloc::{AllocError, Global};

/// Puts a problem behind those found so far.
pub fn push(found: &mut Vec<Problem>, line: u32, kind: ProblemKind) -> Result<(), AllocError>
    ensures { OnOk result (found.new.items ≡ found.old.items ++ problem line kind ∷ []) }
{
    found.push(Problem { line, kind })?;
    Ok(())
}

/// The same, of a field that nobody knows.
pub fn push_unknown(
    alloc: Global,
    found: &mut Vec<Problem>,
    line: u32,
    name: &str,
) -> Result<(), AllocError>
    ensures { OnOk result (found.new.items ≡ found.old.items ++ problem line (UnknownField name.now) ∷ []) }
{
    let name = Text::from_str(alloc, name)?;
    push(found, line, ProblemKind::UnknownField { name })
}

/// The same, of a field that has to be there.
pub fn push_missing(
    alloc: Global,
    found: &mut Vec<Problem>,
    line: u32,
    name: &str,
) -> Result<(), AllocError>
    ensures { OnOk result (found.new.items ≡ found.old.items ++ problem line (Missing name.now) ∷ []) }
{
    let name = Text::from_str(alloc, name)?;
    push(found, line, ProblemKind::Missing { name })
}

/// The same, of a name that a group before has.
pub fn push_duplicate(
    alloc: Global,
    found: &mut Vec<Problem>,
    line: u32,
    name: &str,
) -> Result<(), AllocError>
    ensures { OnOk result (found.new.items ≡ found.old.items ++ problem line (DuplicateGroup name.now) ∷ []) }
{
    let name = Text::from_str(alloc, name)?;
    push(found, line, ProblemKind::DuplicateGroup { name })
}

/// The same, of a label or an annotation.
pub fn push_bad_label(
    alloc: Global,
    found: &mut Vec<Problem>,
    line: u32,
    name: &str,
) -> Result<(), AllocError>
    ensures { OnOk result (found.new.items ≡ found.old.items ++ problem line (BadLabel name.now) ∷ []) }
{
    let name = Text::from_str(alloc, name)?;
    push(found, line, ProblemKind::BadLabel { name })
}

/// The same, of a field of alerts.
pub fn push_not_for_recording(
    alloc: Global,
    found: &mut Vec<Problem>,
    line: u32,
    name: &str,
) -> Result<(), AllocError>
    ensures { OnOk result (found.new.items ≡ found.old.items ++ problem line (NotForRecording name.now) ∷ []) }
{
    let name = Text::from_str(alloc, name)?;
    push(found, line, ProblemKind::NotForRecording { name })
}

/// The one problem of a text that has no tree, at its line.
pub fn no_tree(alloc: Global, line: u32, kind: YamlKind) -> Result<Items<Problem>, AllocError>
    ensures { IfOk result (λ list. list ≡ problem line (Yaml kind) ∷ []) }
{
    let mut found = Vec::new(alloc);
    push(&mut found, line, ProblemKind::Yaml { kind })?;
    Ok(Items::new(found))
}
