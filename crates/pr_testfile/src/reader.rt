// Reading a text.
ghost use Rattle.std.specs.Prelude.{◌≡◌, ◌<◌, ◌^◌, length, IfOk, IfErr};
ghost use Rattle.pr_yaml.specs.Tree.{tree_of};
ghost use Rattle.pr_yaml.specs.Read.{gives_tree};
ghost use Rattle.pr_testfile.specs.File.{plain_file};
ghost use Rattle.pr_testfile.specs.Reading.{gives_file, by_reading, test_file_of, IsErrorOf};

use crate::fault::TestError;
use crate::file::{file_in, file_problems};
use crate::tests::TestFile;
use pr_rulefile::fields::{fields_in, in_order, no_tree};
use pr_yaml::{Node, YamlError, read as read_tree};
use std::alloc::Global;

// The tests of a tree, or what is wrong with it.
#[tactic(auto, using(crate::proofs::Files::some_problems))]
fn tree_file(alloc: Global, tree: &Node) -> Result<TestFile, TestError>
    ensures file { IfOk result (λ f. by_reading (gives_tree (tree_of tree.now)) ≡ gives_file (plain_file f)) }
    ensures problems { IfErr result (IsErrorOf (by_reading (gives_tree (tree_of tree.now)))) }
{
    let mut found = Vec::new(alloc);
    file_problems(alloc, tree, &mut found)?;
    if found.is_empty() {
        return Ok(file_in(alloc, fields_in(tree))?);
    }
    Err(TestError::Problems {
        list: in_order(found)?,
    })
}

/// The test file of a text in the YAML profile of rule and test files. (Prometheus: Unit testing for
/// rules. That each text and each expression is looked at, and in which order problems are told, is
/// an own choice.)
///
/// # Errors
/// All that is wrong with the text: where it has no tree, that one fault. Also want of memory.
#[tactic(auto, unfolding(crate::specs::Reading::test_file_of))]
pub fn read(alloc: Global, bytes: &[u8]) -> Result<TestFile, TestError>
    requires { length bytes.now < 2 ^ 32 }
    // A file that is answered is that of the text, with which then nothing is wrong.
    ensures file { IfOk result (λ f. test_file_of bytes.now ≡ gives_file (plain_file f)) }
    // Else all is told that is wrong, in its order, unless memory runs out.
    ensures problems { IfErr result (IsErrorOf (test_file_of bytes.now)) }
{
    match read_tree(alloc, bytes) {
        Ok(tree) => tree_file(alloc, &tree),
        Err(YamlError::Fault { line, kind }) => Err(TestError::Problems {
            list: no_tree(alloc, line, kind)?,
        }),
        Err(YamlError::Memory) => Err(TestError::Memory),
    }
}
