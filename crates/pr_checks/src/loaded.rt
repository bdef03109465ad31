// The rule files of names: each is read once, and what is wrong is told of all of them.
ghost use Rattle.std.specs.Prelude.{◌≡◌, ◌++◌, ◌∷◌, ◌<◌, ◌^◌, [], ℕ, List, IfOk, OnOk, flat_map, length, map, string_bytes};
ghost use Rattle.std.specs.List.{AllByRecursion};
ghost use Rattle.pr_checks.specs.Problems.{problem_line};
ghost use Rattle.spec_world.specs.pr_rulefile.File.{rule_file_of};
ghost use Rattle.pr_outside.specs.Asks.{AsksBy};
ghost use Rattle.pr_outside.specs.Ends.{LoadEnds};
ghost use Rattle.pr_outside.specs.Outside.{AreTold, Held};
ghost use Rattle.pr_checks.specs.RulesLoaded.{all_rules, and_rules, rules_by, rules_held};
ghost use Rattle.pr_checks.specs.private.RulesFound.{IsShort, IsShortFile, holding_of, rules_found};
ghost use Rattle.pr_checks.specs.private.RulesTaken.{AreKept, rules_of, with_wrong};

use crate::found::{FoundContent, FoundFile, find_files};
use crate::rules::{missing, push_lines, too_large};
use pr_outside::Files;
use pr_outside::status::Stop;
use pr_yaml::words_crate::{Items, Text};
use spec_world::rulefile::{Problem, RuleError, read};
use spec_world::rules_crate::GroupDef;
use std::alloc::{AllocError, Global};
use std::mem::replace;

/// A rule file with which nothing is wrong, as it was read.
#[derive(Drop)]
pub struct LoadedRules {
    /// The name that asked for it.
    pub name: Text,
    /// Its groups, in the order of the text.
    pub groups: Items<GroupDef>,
}

/// The lines of what is wrong with rule files, and those with which nothing is, in their order.
#[derive(Drop)]
pub struct Rules {
    /// The lines, which `check rules` writes after `FAILED`.
    pub wrong: Items<u8>,
    /// The files, as they were read.
    pub files: Items<LoadedRules>,
}

// A file that is not read, and why.
fn take_unread(alloc: Global, rules: &mut Rules, name: &str, why: &[u8]) -> Result<(), AllocError>
    ensures { OnOk result (rules.new ≡ with_wrong rules.old (name.now ++ why.now)) }
{
    let mut wrong = replace(&mut rules.wrong, Items::empty(alloc)).into_vec();
    wrong.extend_from_slice(name.as_bytes())?;
    wrong.extend_from_slice(why)?;
    rules.wrong = Items::new(wrong);
    Ok(())
}

// A file that is refused, and its problems.
fn take_problems(
    alloc: Global,
    rules: &mut Rules,
    name: &str,
    problems: &[Problem],
) -> Result<(), AllocError>
    ensures { OnOk result (rules.new ≡ with_wrong rules.old (flat_map (problem_line name.now) problems.now)) }
{
    let mut wrong = replace(&mut rules.wrong, Items::empty(alloc)).into_vec();
    push_lines(&mut wrong, name, problems)?;
    rules.wrong = Items::new(wrong);
    Ok(())
}

// Reads a file.
fn take_bytes(
    alloc: Global,
    rules: &mut Rules,
    name: Text,
    bytes: Items<u8>,
) -> Result<(), AllocError>
    requires { length bytes < 2 ^ 32 }
    ensures taken { OnOk result (rules_of rules.new ≡ and_rules (rules_of rules.old) (rules_by name (rule_file_of bytes))) }
    ensures kept { OnOk result ((names rest : List (List ℕ)) → AreKept names rules.old.files (name ∷ rest) → AreKept names rules.new.files rest) }
{
    match read(alloc, bytes.as_slice()) {
        Ok(file) => rules.files.push(LoadedRules {
            name,
            groups: file.groups,
        }),
        Err(RuleError::Problems { list }) => {
            take_problems(alloc, rules, name.as_str(), list.as_slice())
        }
        Err(RuleError::Memory) => Err(AllocError),
    }
}

// Takes what is found under a name.
fn take_found(alloc: Global, rules: &mut Rules, found: FoundFile) -> Result<(), AllocError>
    requires { IsShort found.content }
    ensures taken { OnOk result (rules_of rules.new ≡ and_rules (rules_of rules.old) (rules_held found.name (holding_of found.content))) }
    ensures kept { OnOk result ((names rest : List (List ℕ)) → AreKept names rules.old.files (found.name ∷ rest) → AreKept names rules.new.files rest) }
{
    let name = found.name;
    match found.content {
        FoundContent::Bytes { bytes } => take_bytes(alloc, rules, name, bytes),
        FoundContent::Missing => take_unread(alloc, rules, name.as_str(), missing()),
        FoundContent::TooLarge => take_unread(alloc, rules, name.as_str(), too_large()),
    }
}

// Reads the files that are found, one after another.
fn read_all(alloc: Global, files: Vec<FoundFile>) -> Result<Rules, AllocError>
    requires { AllByRecursion IsShortFile files.items }
    ensures read { IfOk result (λ rules. rules_of rules ≡ rules_found files.items) }
    ensures kept { IfOk result (λ rules. AreKept (map (λ f. f.name) files.items) rules.files []) }
{
    let mut rules = Rules {
        wrong: Items::empty(alloc),
        files: Items::empty(alloc),
    };
    for found in files {
        take_found(alloc, &mut rules, found)?;
    }
    Ok(rules)
}

/// Loads the rule files of these names, one after another, each once, and reads each once: what is
/// wrong is told of all of them.
///
/// # Errors
/// A load that was refused, or want of memory.
pub fn load_rules<F: Files>(alloc: Global, names: &[String], files: &mut F) -> Result<Rules, Stop>
    ensures loaded { (held : Held) → AreTold (F.means files.old).content held (map string_bytes names.now) → IfOk result (λ rules. rules_of rules ≡ all_rules held (map string_bytes names.now)) }
    ensures kept { IfOk result (λ rules. AreKept (map string_bytes names.now) rules.files []) }
    ensures asked { AsksBy (F.means files.old).calls (F.means files.new).calls (length names.now) result }
    ensures same { (other : List ℕ) → (F.means files.new).content other ≡ (F.means files.old).content other }
    ensures ends { LoadEnds (F.means files.old) (F.means files.new) result }
{
    let found = find_files(alloc, names, files)?;
    Ok(read_all(alloc, found)?)
}
