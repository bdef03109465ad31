//! All tests of a file.
ghost use Rattle.std.specs.Prelude.{◌≡◌, ◌<◌, List, Ok, IfOk, map};
ghost use Rattle.std.specs.List.{IsDistinct};
ghost use Rattle.std.specs.Str.{bytes_eq};
ghost use Rattle.pr_group.specs.spec_rules.Reloads.{LoadedFile};
ghost use Rattle.spec_tests.specs.spec_world.Rounds.{all_loaded};
ghost use Rattle.spec_tests.specs.pr_testfile.File.{plain_file};
ghost use Rattle.spec_tests.specs.Verdict.{verdict};
ghost use Rattle.pr_unit.specs.private.Loaded.{AreAllSound, AreShort, file_of};

use crate::rules::{RuleGroups, read_files};
use crate::test::run_test;
use pr_slide::SlidingRanges;
use pr_slide::range::Ranges;
use spec_tests::Failure;
use spec_tests::testfile::TestFile;
use spec_tests::world::NamedFile;
use std::alloc::{AllocError, Global};

/// The checks of a test file whose expectation differs from what happens, in the order of the file:
/// in each test first those of alerts and then those of expressions. Each test begins with nothing;
/// its groups are those of the rule files, evaluated at the interval of the file. What is kept of
/// ranges is of the type `R`. (Prometheus: Unit testing for rules.)
///
/// # Errors
/// Want of memory.
pub fn run_tests_over<R: Ranges + Drop>(
    alloc: Global,
    file: &TestFile,
    rules: &[RuleGroups],
) -> Result<Vec<Failure>, AllocError>
    // A test file that is read has an interval above 0 (`intervals_are_above_0` of pr_testfile).
    requires some { 0 < file.now.interval }
    // So is what is read of a text (`read_is_sound` of `proofs/Loading.antt`).
    requires sound { AreAllSound rules.now }
    requires names { IsDistinct bytes_eq (map (λ r. r.name) rules.now) }
    ensures { IfOk result (λ v. v.items ≡ verdict (plain_file file.now) (map file_of rules.now)) }
{
    let mut failures = Vec::new(alloc);
    let tests = file.tests.as_slice();
    'tests: for index in 0..tests.len() {
        let number = index as u64 + 1;
        run_test::<R>(alloc, file, number, &tests[index], rules, &mut failures)?;
    }
    Ok(failures)
}

/// The same over the texts of rule files, each of which is read once, with ranges that slide from one
/// evaluation to the next.
///
/// # Errors
/// Want of memory.
pub fn run_tests(
    alloc: Global,
    file: &TestFile,
    rules: &[NamedFile],
) -> Result<Vec<Failure>, AllocError>
    requires some { 0 < file.now.interval }
    requires short { AreShort rules.now }
    requires names { IsDistinct bytes_eq (map (λ f. f.name) rules.now) }
    ensures { (loaded : List LoadedFile) → all_loaded rules.now ≡ Ok loaded → IfOk result (λ v. v.items ≡ verdict (plain_file file.now) loaded) }
{
    let read = read_files(alloc, rules)?;
    run_tests_over::<SlidingRanges>(alloc, file, &read)
}
