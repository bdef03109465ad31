// What a test file comes to.
ghost use Rattle.std.specs.Prelude.{◌≡◌, ◌++◌, ◌<◌, ◌^◌, ℕ, List, Option, Some, IfOk, length, flat_map};
ghost use Rattle.pr_outside.specs.Contents.{IsFound, IsWithinLimit};
ghost use Rattle.pr_outside.specs.Loading.{holding_by};
ghost use Rattle.pr_checks.specs.Problems.{problem_line};
ghost use Rattle.pr_testfile.specs.Reading.{test_file_of};
ghost use Rattle.pr_test.specs.TestsTold.{no_tests, tests_by, tests_in};
ghost use Rattle.pr_test.specs.private.Taking.{found_of, HasInterval};

use pr_checks::{missing, push_lines, too_large};
use pr_outside::FileContent;
use pr_testfile::{Problem, TestError, TestFile, read};
use pr_words::Items;
use std::alloc::{AllocError, Global};

/// What a test file comes to: its tests, or the lines of what is wrong.
#[derive(Drop)]
pub(crate) enum Tests {
    These { file: TestFile },
    Wrong { lines: Items<u8> },
}

fn problem_lines(alloc: Global, name: &str, problems: &[Problem]) -> Result<Items<u8>, AllocError>
    ensures { IfOk result (λ lines. lines ≡ flat_map (problem_line name.now) problems.now) }
{
    let mut lines = Vec::new(alloc);
    push_lines(&mut lines, name, problems)?;
    Ok(Items::new(lines))
}

// The line of a file that is not read, and why.
fn unread_line(alloc: Global, name: &str, why: &[u8]) -> Result<Items<u8>, AllocError>
    ensures { IfOk result (λ lines. lines ≡ name.now ++ why.now) }
{
    let mut lines = Vec::new(alloc);
    lines.extend_from_slice(name.as_bytes())?;
    lines.extend_from_slice(why)?;
    Ok(Items::new(lines))
}

fn unread(alloc: Global, name: &str, why: &[u8]) -> Result<Tests, AllocError>
    ensures found { IfOk result (λ t. found_of t ≡ no_tests (name.now ++ why.now)) }
    ensures interval { IfOk result HasInterval }
{
    Ok(Tests::Wrong {
        lines: unread_line(alloc, name, why)?,
    })
}

#[tactic(auto, using(pr_testfile::proofs::Intervals::file_interval_is_positive))]
fn read_tests(alloc: Global, name: &str, bytes: &[u8]) -> Result<Tests, AllocError>
    requires { length bytes.now < 2 ^ 32 }
    ensures found { IfOk result (λ t. found_of t ≡ tests_by name.now (test_file_of bytes.now)) }
    ensures interval { IfOk result HasInterval }
{
    match read(alloc, bytes) {
        Ok(file) => Ok(Tests::These { file }),
        Err(TestError::Problems { list }) => Ok(Tests::Wrong {
            lines: problem_lines(alloc, name, list.as_slice())?,
        }),
        Err(TestError::Memory) => Err(AllocError),
    }
}

/// What was found under a name, as a test file. Want of memory alone is an error.
pub(crate) fn tests_in(alloc: Global, name: &str, found: &FileContent) -> Result<Tests, AllocError>
    requires { IsWithinLimit found.now }
    ensures found { (content : Option (List ℕ)) → IsFound (Some content) found.now → IfOk result (λ t. found_of t ≡ tests_in name.now (holding_by content)) }
    ensures interval { IfOk result HasInterval }
{
    match found {
        FileContent::Bytes { bytes } => read_tests(alloc, name, bytes),
        FileContent::Missing => unread(alloc, name, missing()),
        FileContent::TooLarge => unread(alloc, name, too_large()),
    }
}
