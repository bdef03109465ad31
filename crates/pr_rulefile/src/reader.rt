//! Reading a text.
ghost use Rattle.std.specs.Prelude.{◌≡◌, ◌<◌, ◌^◌, ◌++◌, List, Some, length, IfOk, IfErr, OnOk};
ghost use Rattle.pr_yaml.specs.Tree.{tree_of};
ghost use Rattle.pr_yaml.specs.Read.{gives_tree};
ghost use Rattle.spec_rules.specs.Definitions.{Group};
ghost use Rattle.pr_rulefile.specs.File.{gives_file, by_reading, file_groups, groups_given, rules_given, rule_file_of, groups_of_file, IsErrorOf};

use crate::fault::RuleError;
use crate::fields::{in_order, no_tree};
use crate::file::file_at;
use crate::gather::{GroupSink, RuleCount};
use crate::rule_file::RuleFile;
use pr_words::Items;
use pr_yaml::{Node, YamlError, read as read_tree};
use std::alloc::Global;

// The groups of a tree, one after another, or what is wrong with it.
#[tactic(auto, using(crate::proofs::Files::some_problems))]
fn tree_groups<G: GroupSink>(alloc: Global, tree: &Node, groups: &mut G) -> Result<(), RuleError>
    ensures file { OnOk result (by_reading (gives_tree (tree_of tree.now)) ≡ gives_file (file_groups (tree_of tree.now))) }
    ensures groups { OnOk result ((more : List Group) → G.comes_to groups.new more ≡ G.comes_to groups.old (file_groups (tree_of tree.now) ++ more)) }
    ensures problems { IfErr result (IsErrorOf (by_reading (gives_tree (tree_of tree.now)))) }
{
    let mut found = Vec::new(alloc);
    file_at(alloc, tree, groups, &mut found)?;
    if found.is_empty() {
        return Ok(());
    }
    Err(RuleError::Problems {
        list: in_order(found)?,
    })
}

// The groups of a text, one after another, or what is wrong with it.
#[tactic(auto, unfolding(crate::specs::File::rule_file_of))]
fn read_groups<G: GroupSink>(alloc: Global, bytes: &[u8], groups: &mut G) -> Result<(), RuleError>
    requires { length bytes.now < 2 ^ 32 }
    ensures file { OnOk result (rule_file_of bytes.now ≡ gives_file (groups_given (rule_file_of bytes.now))) }
    ensures groups { OnOk result ((more : List Group) → G.comes_to groups.new more ≡ G.comes_to groups.old (groups_given (rule_file_of bytes.now) ++ more)) }
    ensures problems { IfErr result (IsErrorOf (rule_file_of bytes.now)) }
{
    match read_tree(alloc, bytes) {
        Ok(tree) => tree_groups(alloc, &tree, groups),
        Err(YamlError::Fault { line, kind }) => Err(RuleError::Problems {
            list: no_tree(alloc, line, kind)?,
        }),
        Err(YamlError::Memory) => Err(RuleError::Memory),
    }
}

/// The rule file of a text in the YAML profile of rule files. (Prometheus: Recording rules,
/// Alerting rules. That each text
/// and each expression is looked at, and in which order problems are told, is an own choice.)
///
/// # Errors
/// All that is wrong with the text: where it has no tree, that one fault. Also want of memory.
pub fn read(alloc: Global, bytes: &[u8]) -> Result<RuleFile, RuleError>
    requires { length bytes.now < 2 ^ 32 }
    // A file that is answered is that of the text, with which then nothing is wrong.
    ensures file { IfOk result (λ f. rule_file_of bytes.now ≡ gives_file (groups_of_file f)) }
    // Else all is told that is wrong, in its order, unless memory runs out.
    ensures problems { IfErr result (IsErrorOf (rule_file_of bytes.now)) }
{
    let mut file = RuleFile {
        groups: Items::empty(alloc),
    };
    read_groups(alloc, bytes, &mut file)?;
    Ok(file)
}

/// How many rules the rule file of a text has. It tells what [`read`] tells, and keeps no more than
/// one group at a time.
///
/// # Errors
/// As those of [`read`].
#[tactic(auto, using(crate::proofs::Files::same_count))]
pub fn check(alloc: Global, bytes: &[u8]) -> Result<u64, RuleError>
    requires { length bytes.now < 2 ^ 32 }
    // A count that is answered is that of the text's rules, with which then nothing is wrong.
    ensures rules { IfOk result (λ n. rules_given (rule_file_of bytes.now) ≡ Some n) }
    // Else all is told that is wrong, in its order, unless memory runs out.
    ensures problems { IfErr result (IsErrorOf (rule_file_of bytes.now)) }
{
    let mut count = RuleCount { rules: 0 };
    read_groups(alloc, bytes, &mut count)?;
    Ok(count.rules)
}
