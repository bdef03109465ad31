// Test files.
ghost use Rattle.std.specs.Prelude.{◌≡◌, ◌++◌, OnOk, IfOk, map};
ghost use Rattle.pr_yaml.specs.Tree.{tree_of, entry_tree_of};
ghost use Rattle.pr_testfile.specs.File.{minute, file_interval, file_problems, plain_file, interval_under, file_in};

use crate::fields::{FileField, file_field};
use crate::labels::texts_of;
use crate::scalars::{fuzzy_problems, interval_or, interval_problems};
use crate::test::{TestItems, tests_of};
use crate::tests::TestFile;
use crate::words::{evaluation_interval, group_eval_order};
use pr_ast::time::Span;
use pr_rulefile::fields::{
    MapForm, Problem, field, fields_in, items_under, list_problems, map_problems, texts_problems,
};
use pr_yaml::{MapEntry, Node};
use std::alloc::{AllocError, Global};

// A test file, whose groups are evaluated at the interval, where one is told.
#[derive(Drop)]
struct FileForm {
    interval: Option<Span>,
}

impl MapForm for FileForm {
    ghost use Rattle.pr_rulefile.specs.Maps.{none_missing};
    ghost use Rattle.pr_testfile.specs.File.{file_fields};

    ghost fields = { λ f key. file_fields f.interval key };

    ghost missing = { λ _ line es. none_missing line es };

    fn has(&self, key: &str) -> bool {
        match file_field(key) {
            Some(_field) => true,
            None => false,
        }
    }

    fn look_at(
        &self,
        alloc: Global,
        key: &str,
        node: &Node,
        found: &mut Vec<Problem>,
    ) -> Result<(), AllocError> {
        match file_field(key) {
            Some(FileField::RuleFiles) => texts_problems(alloc, node, found),
            Some(FileField::EvaluationInterval) => interval_problems(node, found),
            Some(FileField::GroupEvalOrder) => texts_problems(alloc, node, found),
            Some(FileField::FuzzyCompare) => fuzzy_problems(node, found),
            Some(FileField::Tests) => {
                let form = TestItems {
                    interval: self.interval,
                };
                list_problems(alloc, &form, node, found)
            }
            None => Ok(()),
        }
    }

    fn look_for_missing(
        &self,
        _alloc: Global,
        _line: u32,
        _entries: &[MapEntry],
        _found: &mut Vec<Problem>,
    ) -> Result<(), AllocError> {
        Ok(())
    }
}

fn minute() -> Span
    ensures { result ≡ minute }
{
    Span::new(60_000).unwrap()
}

// The interval of a file with these fields.
fn file_interval(entries: &[MapEntry]) -> Option<Span>
    ensures { result ≡ file_interval (map entry_tree_of entries.now) }
{
    interval_or(Some(minute()), field(evaluation_interval(), entries))
}

/// All that is wrong with the tree of a file.
#[tactic(auto, unfolding(crate::specs::File::file_problems))]
pub(crate) fn file_problems(
    alloc: Global,
    node: &Node,
    found: &mut Vec<Problem>,
) -> Result<(), AllocError>
    ensures { OnOk result (found.new.items ≡ found.old.items ++ file_problems (tree_of node.now)) }
{
    if node.is_absent() {
        return Ok(());
    }
    let interval = file_interval(fields_in(node));
    map_problems(alloc, &FileForm { interval }, node, found)
}

fn interval_of_file(entries: &[MapEntry]) -> Span
    ensures { result ≡ interval_under (map entry_tree_of entries.now) }
{
    match file_interval(entries) {
        Some(interval) => interval,
        None => minute(),
    }
}

/// The tests of a file with these fields.
#[tactic(auto, unfolding(crate::specs::File::file_in))]
pub(crate) fn file_in(alloc: Global, entries: &[MapEntry]) -> Result<TestFile, AllocError>
    ensures { IfOk result (λ f. plain_file f ≡ file_in (map entry_tree_of entries.now)) }
{
    let rule_files = texts_of(alloc, items_under("rule_files", entries))?;
    let order = texts_of(alloc, items_under(group_eval_order(), entries))?;
    let interval = interval_of_file(entries);
    let tests = tests_of(alloc, interval, items_under("tests", entries))?;
    Ok(TestFile {
        rule_files,
        interval,
        order,
        tests,
    })
}
