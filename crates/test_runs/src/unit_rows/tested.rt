// Rule files, and what tests come to over them.
ghost use Rattle.std.specs.Prelude.{◌≡◌, ◌<◌, ◌^◌, false, length, map, true};
ghost use Rattle.std.specs.List.{AllByRecursion, IsDistinct};
ghost use Rattle.std.specs.Str.{bytes_eq};

use crate::run_rows::push_text;
use pr_top::checks::push_lines;
use pr_top::test::write_failure;
use pr_top::testfile::{TestError, TestFile, read};
use pr_top::unit::{Failure, run_tests};
use pr_top::world::NamedFile;
use pr_words::{Items, Text};
use std::alloc::{AllocError, Global};
use std::str;
use test_rows::joined;

/// The rule files of a row.
#[derive(Drop)]
pub(crate) struct Tested {
    rules: Vec<NamedFile>,
}

// A rule file of a name and a text.
fn file_of(alloc: Global, text: &str) -> Result<NamedFile, AllocError> {
    let (name, text) = text.split_once(' ').unwrap_or((text, ""));
    let mut bytes = Vec::new(alloc);
    push_text(&mut bytes, text)?;
    Ok(NamedFile {
        name: Text::from_str(alloc, name)?,
        bytes: Items::new(bytes),
    })
}

// Whether groups are evaluated at an interval.
fn has_interval(test: &TestFile) -> bool
    ensures { result ≡ true → 0 < test.now.interval }
{
    test.interval.get() > 0
}

// Whether the text of a rule file may be read.
fn is_short(file: &NamedFile) -> bool
    ensures { result ≡ true → length file.now.bytes < 2 ^ 32 }
{
    file.bytes.as_slice().len() < 1 << 32
}

// Whether two rule files have names of their own.
fn are_apart(one: &NamedFile, other: &NamedFile) -> bool
    ensures { result ≡ true → bytes_eq one.now.name other.now.name ≡ false }
{
    one.name.as_str() != other.name.as_str()
}

// Whether tests may be run over these rule files: none, one, or two of other names.
#[tactic(auto, using(crate::proofs::Names::few_names, crate::proofs::Names::two_names))]
fn are_rules(rules: &[NamedFile]) -> bool
    ensures short { result ≡ true → AllByRecursion (λ f. length f.bytes < 2 ^ 32) rules.now }
    ensures names { result ≡ true → IsDistinct bytes_eq (map (λ f. f.name) rules.now) }
{
    match rules {
        [] => true,
        [one] => is_short(one),
        [one, other] => is_short(one) && is_short(other) && are_apart(one, other),
        _ => false,
    }
}

// The checks that differ; nothing where the tests may not be run.
fn differing(
    alloc: Global,
    test: &TestFile,
    rules: &[NamedFile],
) -> Result<Option<Vec<Failure>>, AllocError> {
    if has_interval(test) && are_rules(rules) {
        return Ok(Some(run_tests(alloc, test, rules)?));
    }
    Ok(None)
}

// What is told of checks that differ.
fn failures_text(
    alloc: Global,
    test: &TestFile,
    failures: &[Failure],
) -> Result<String, AllocError> {
    if failures.is_empty() {
        return String::from_str(alloc, "SUCCESS");
    }
    let mut text = Vec::new(alloc);
    for failure in failures {
        write_failure(test, failure, &mut text)?;
    }
    joined(alloc, str::from_utf8(&text).unwrap_or("no text"))
}

// What a test file comes to.
fn run(alloc: Global, test: &TestFile, rules: &[NamedFile]) -> Result<String, AllocError> {
    match differing(alloc, test, rules)? {
        Some(failures) => failures_text(alloc, test, &failures),
        None => String::from_str(alloc, "not to be run"),
    }
}

// What is told of a text that is no test file.
fn error_text(alloc: Global, error: &TestError) -> Result<String, AllocError> {
    match error {
        TestError::Problems { list } => {
            let mut text = Vec::new(alloc);
            push_lines(&mut text, "tests", list.as_slice())?;
            joined(alloc, str::from_utf8(&text).unwrap_or("no text"))
        }
        TestError::Memory => Err(AllocError),
    }
}

// A test file, or what is wrong with its text; which is wrong with none that is too long.
fn read_tests(alloc: Global, bytes: &[u8]) -> Result<TestFile, TestError> {
    if bytes.len() < 1 << 32 {
        return read(alloc, bytes);
    }
    Err(TestError::Memory)
}

impl Tested {
    /// No rule file yet.
    pub(crate) fn nothing(alloc: Global) -> Tested {
        Tested {
            rules: Vec::new(alloc),
        }
    }

    // What the tests of a text come to.
    fn test(&self, alloc: Global, text: &str) -> Result<String, AllocError> {
        let mut bytes = Vec::new(alloc);
        push_text(&mut bytes, text)?;
        match read_tests(alloc, &bytes) {
            Ok(test) => run(alloc, &test, &self.rules),
            Err(error) => error_text(alloc, &error),
        }
    }

    // One more rule file.
    fn add(&mut self, alloc: Global, text: &str) -> Result<String, AllocError> {
        self.rules.push(file_of(alloc, text)?)?;
        Ok(String::new(alloc))
    }

    /// What is answered to a line.
    pub(crate) fn take(&mut self, alloc: Global, line: &str) -> Result<String, AllocError> {
        let (word, rest) = line.split_once(' ').unwrap_or((line, ""));
        match word {
            "rules" => self.add(alloc, rest),
            "tests" => self.test(alloc, rest),
            "--" => Ok(String::new(alloc)),
            _ => String::from_str(alloc, "no such line"),
        }
    }
}
