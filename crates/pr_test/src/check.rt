// What `test rules` tells of a test file.
ghost use Rattle.std.specs.Prelude.{◌≡◌, ◌++◌, ◌<◌, ℕ, List, IfOk, OnOk, flat_map, length, map, string_bytes};
ghost use Rattle.pr_outside.specs.Asks.{AsksBy};
ghost use Rattle.pr_outside.specs.Ends.{LoadEnds};
ghost use Rattle.pr_outside.specs.Outside.{AreTold, Held, Outside};
ghost use Rattle.pr_outside.specs.FileChecks.{MeansFileCheck};
ghost use Rattle.pr_outside.specs.Loading.{holding_by};
ghost use Rattle.pr_testfile.specs.File.{plain_file};
ghost use Rattle.pr_unit.specs.spec_tests.RuleFiles.{rule_file_names};
ghost use Rattle.pr_unit.specs.spec_tests.Verdict.{verdict};
ghost use Rattle.pr_unit.specs.private.Loaded.{file_of};
ghost use Rattle.pr_test.specs.FailureText.{failure_text};
ghost use Rattle.pr_checks.specs.RulesLoaded.{all_rules};
ghost use Rattle.pr_test.specs.TestsTold.{are_failures, lines_of, lines_text, lines_with, rule_names, success_line, testing_text, tests_in, tests_told};
ghost use Rattle.pr_test.specs.private.Running.{CanRun};
ghost use Rattle.pr_test.specs.private.Taking.{found_of, HasInterval};
ghost use Rattle.pr_checks.specs.private.RulesTaken.{loaded_of, rules_of};

use crate::names::rule_file_names;
use crate::reading::{Tests, tests_in};
use crate::test_print::write_failure;
use pr_checks::{LoadedRules, Rules, load_rules, push_failed};
use pr_outside::check_loops::{FileCheck, check_files};
use pr_outside::status::{Status, Stop};
use pr_outside::{Files, Sink};
use pr_testfile::TestFile;
use pr_unit::slide::SlidingRanges;
use pr_unit::tests_crate::Failure;
use pr_unit::{RuleGroups, run_tests_over};
use pr_words::Items;
use std::alloc::{AllocError, Global};

/// The check of test files: each is read whole with its rule files, and its tests are run.
/// (Prometheus: `promtool test rules`; what is told of a failure is an own choice.)
pub struct RuleTests;

#[tactic(auto, unfolding(crate::specs::TestsTold::testing_text))]
fn push_testing(text: &mut Vec<u8>, name: &str) -> Result<(), AllocError>
    ensures { OnOk result (text.new.items ≡ text.old.items ++ testing_text name.now) }
{
    text.extend_from_slice(b"Unit Testing:  ")?;
    text.extend_from_slice(name.as_bytes())?;
    text.extend_from_slice(b"\n")
}

#[tactic(auto, unfolding(crate::specs::TestsTold::success_line))]
fn push_success(text: &mut Vec<u8>) -> Result<(), AllocError>
    ensures { OnOk result (text.new.items ≡ text.old.items ++ success_line) }
{
    text.extend_from_slice(b"  SUCCESS\n")
}

// Lines are a failure.
fn push_lines(text: &mut Vec<u8>, lines: &[u8]) -> Result<bool, AllocError>
    ensures text { OnOk result (text.new.items ≡ text.old.items ++ lines_text lines.now) }
    ensures refused { IfOk result (λ b. b ≡ are_failures lines.now) }
{
    if lines.is_empty() {
        push_success(text)?;
        return Ok(false);
    }
    push_failed(text)?;
    text.extend_from_slice(lines)?;
    Ok(true)
}

// The name of the file, and what is told of it.
fn push_told(text: &mut Vec<u8>, name: &str, lines: &[u8]) -> Result<bool, AllocError>
    ensures text { OnOk result (text.new.items ≡ text.old.items ++ (testing_text name.now ++ lines_text lines.now)) }
    ensures refused { IfOk result (λ b. b ≡ are_failures lines.now) }
{
    push_testing(text, name)?;
    push_lines(text, lines)
}

fn failure_lines(
    alloc: Global,
    test: &TestFile,
    failures: &[Failure],
) -> Result<Vec<u8>, AllocError>
    ensures { IfOk result (λ lines. lines.items ≡ flat_map (failure_text (plain_file test.now)) failures.now) }
{
    let mut lines = Vec::new(alloc);
    for failure in failures {
        write_failure(test, failure, &mut lines)?;
    }
    Ok(lines)
}

// The groups of rule files, for all tests.
fn rule_groups(alloc: Global, files: Items<LoadedRules>) -> Result<Vec<RuleGroups>, AllocError>
    ensures { IfOk result (λ rules. map file_of rules.items ≡ map loaded_of files) }
{
    let mut rules = Vec::new(alloc);
    for file in files.into_vec() {
        rules.push(RuleGroups::new(alloc, file.name, file.groups)?)?;
    }
    Ok(rules)
}

// The checks that differ, over rule files whose names differ.
fn failures_over(
    alloc: Global,
    test: &TestFile,
    files: Items<LoadedRules>,
) -> Result<Vec<Failure>, AllocError>
    requires { CanRun test.now files }
    ensures { IfOk result (λ failures. failures.items ≡ verdict (plain_file test.now) (map loaded_of files)) }
{
    let rules = rule_groups(alloc, files)?;
    run_tests_over::<SlidingRanges>(alloc, test, &rules)
}

// What is told of a test file over its rule files: no test is run where something is wrong with
// one.
fn lines_with(alloc: Global, test: &TestFile, rules: Rules) -> Result<Vec<u8>, AllocError>
    requires { CanRun test.now rules.files }
    ensures { IfOk result (λ lines. lines.items ≡ lines_with (plain_file test.now) (rules_of rules)) }
{
    if !rules.wrong.as_slice().is_empty() {
        return Ok(rules.wrong.into_vec());
    }
    let failures = failures_over(alloc, test, rules.files)?;
    failure_lines(alloc, test, &failures)
}

// Loads the rule files of a test file of this name, and gives the lines that are told.
fn lines_over<F: Files>(
    alloc: Global,
    name: &str,
    test: &TestFile,
    files: &mut F,
) -> Result<Vec<u8>, Stop>
    requires { 0 < test.now.interval }
    ensures lines { (held : Held) → AreTold (F.means files.old).content held (rule_file_names name.now test.now.rule_files)
        → IfOk result (λ lines. lines.items ≡ lines_with (plain_file test.now) (all_rules held (rule_file_names name.now test.now.rule_files))) }
    ensures asked { AsksBy (F.means files.old).calls (F.means files.new).calls (length (rule_file_names name.now test.now.rule_files)) result }
    ensures same { (other : List ℕ) → (F.means files.new).content other ≡ (F.means files.old).content other }
    ensures ends { LoadEnds (F.means files.old) (F.means files.new) result }
{
    let names = rule_file_names(alloc, name, test.rule_files.as_slice())?;
    let rules = load_rules(alloc, &names, files)?;
    Ok(lines_with(alloc, test, rules)?)
}

// What is told of a test file that comes to this.
fn found_lines<F: Files>(
    alloc: Global,
    name: &str,
    tests: Tests,
    files: &mut F,
) -> Result<Vec<u8>, Stop>
    requires { HasInterval tests }
    ensures lines { (held : Held) → AreTold (F.means files.old).content held (rule_names name.now (found_of tests))
        → IfOk result (λ lines. lines.items ≡ lines_of held name.now (found_of tests)) }
    ensures asked { AsksBy (F.means files.old).calls (F.means files.new).calls (length (rule_names name.now (found_of tests))) result }
    ensures same { (other : List ℕ) → (F.means files.new).content other ≡ (F.means files.old).content other }
    ensures ends { LoadEnds (F.means files.old) (F.means files.new) result }
{
    match tests {
        Tests::These { file } => lines_over(alloc, name, &file, files),
        Tests::Wrong { lines } => Ok(lines.into_vec()),
    }
}

// Loads a test file and its rule files, each once, and gives the lines that are told.
fn file_lines<F: Files>(alloc: Global, name: &str, files: &mut F) -> Result<Vec<u8>, Stop>
    ensures lines { (held : Held) → AreTold (F.means files.old).content held (tests_told held name.now).asks
        → IfOk result (λ lines. lines.items ≡ lines_of held name.now (tests_in name.now (holding_by (held name.now)))) }
    ensures asked { (held : Held) → AreTold (F.means files.old).content held (tests_told held name.now).asks
        → AsksBy (F.means files.old).calls (F.means files.new).calls (length (tests_told held name.now).asks) result }
    ensures same { (other : List ℕ) → (F.means files.new).content other ≡ (F.means files.old).content other }
    ensures ends { LoadEnds (F.means files.old) (F.means files.new) result }
{
    let found = files.load(name)?;
    let tests = tests_in(alloc, name, &found)?;
    found_lines(alloc, name, tests, files)
}

impl FileCheck for RuleTests {
    ghost use Rattle.pr_test.specs.TestsTold.{tests_told};

    ghost told = { tests_told };

    fn check<F: Files>(
        &self,
        alloc: Global,
        name: &String,
        files: &mut F,
        text: &mut Vec<u8>,
    ) -> Result<bool, Stop> {
        let lines = file_lines(alloc, name.as_str(), files)?;
        Ok(push_told(text, name.as_str(), &lines)?)
    }
}

/// Tests files one after another, the next one also after a failure, and ends with status 1 exactly
/// where a file is missing, too large or refused, or a rule file is, or a check differs. What is told
/// of a file is written before the next one is loaded.
pub fn test_rules<F: Files, O: Sink>(
    alloc: Global,
    names: &[String],
    files: &mut F,
    out: &mut O,
) -> Status
    ensures means { (others : Outside) → MeansFileCheck tests_told (map string_bytes names.now) (record others { files = F.means files.old; out = O.means out.old })
        (record others { files = F.means files.new; out = O.means out.new }) result }
    ensures same { (other : List ℕ) → (F.means files.new).content other ≡ (F.means files.old).content other }
{
    check_files(alloc, &RuleTests, names, files, out)
}
