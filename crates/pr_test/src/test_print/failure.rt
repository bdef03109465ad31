// What is told of a check whose expectation differs.
#![tactic(auto, using(pr_words::proofs::Fronts::front_on, pr_words::proofs::Fronts::front_after))]

ghost use Rattle.std.specs.Prelude.{◌≡◌, ◌-◌, ◌++◌, OnOk, OnErr, codes, decimal, length, map, take};
ghost use Rattle.pr_testfile.specs.File.{plain_file};
ghost use Rattle.pr_testfile.specs.Tests.{plain_test};
ghost use Rattle.pr_test.specs.FailureText.{check_line, expected_word, failure_text, got_word, kind_of, time_by, time_of, time_text};

use crate::test_print::shown::push_shown;
use crate::test_print::times::push_time;
use pr_checks::time::Ms;
use pr_testfile::{Test, TestFile};
use pr_unit::tests_crate::{Failure, Shown};
use pr_words::{push_number, whole_or_none};
use std::alloc::AllocError;

#[tactic(auto, unfolding(crate::specs::FailureText::expected_word))]
fn expected_word() -> &'static [u8]
    ensures { result.now ≡ expected_word }
{
    b"expected "
}

#[tactic(auto, unfolding(crate::specs::FailureText::got_word))]
fn got_word() -> &'static [u8]
    ensures { result.now ≡ got_word }
{
    b"got "
}

fn kind_of(expected: &Shown) -> &'static [u8]
    ensures { result.now ≡ kind_of expected.now }
{
    match expected {
        Shown::Alerts { .. } => b" alert ",
        Shown::Samples { .. } | Shown::Fault { .. } => b" promql ",
    }
}

// The place in a list of what is counted from 1.
fn place(number: u64) -> usize
    ensures { result ≡ number - 1 }
{
    (number as usize).saturating_sub(1)
}

// When a check of a test is, by what is expected of it.
fn time_in(test: &Test, expected: &Shown, index: usize) -> Option<Ms>
    ensures { result ≡ time_by expected.now index (plain_test test.now) }
{
    match expected {
        Shown::Alerts { .. } => match test.alerts.as_slice().get(index) {
            Some(check) => Some(check.time),
            None => None,
        },
        Shown::Samples { .. } => match test.exprs.as_slice().get(index) {
            Some(check) => Some(check.time),
            None => None,
        },
        Shown::Fault { .. } => None,
    }
}

fn time_of(test: &TestFile, f: &Failure) -> Option<Ms>
    ensures { result ≡ time_of (plain_file test.now) f.now }
{
    match test.tests.as_slice().get(place(f.test)) {
        Some(test) => time_in(test, &f.expected, place(f.check)),
        None => None,
    }
}

fn push_time_of(text: &mut Vec<u8>, time: Option<Ms>) -> Result<(), AllocError>
    ensures ok { OnOk result (text.new.items ≡ text.old.items ++ time_text time) }
    ensures front { take (length text.old.items) text.new.items ≡ text.old.items }
{
    match time {
        Some(time) => push_time(text, time.get()),
        None => Ok(()),
    }
}

// Which check it is.
fn push_which(text: &mut Vec<u8>, f: &Failure) -> Result<(), AllocError>
    ensures ok { OnOk result (text.new.items ≡ text.old.items ++ (codes "test " ++ (decimal f.now.test ++ (kind_of f.now.expected ++ decimal f.now.check)))) }
    ensures front { take (length text.old.items) text.new.items ≡ text.old.items }
{
    text.extend_from_slice(b"test ")?;
    push_number(text, f.test)?;
    text.extend_from_slice(kind_of(&f.expected))?;
    push_number(text, f.check)
}

fn push_check(text: &mut Vec<u8>, test: &TestFile, f: &Failure) -> Result<(), AllocError>
    ensures ok { OnOk result (text.new.items ≡ text.old.items ++ check_line (plain_file test.now) f.now) }
    ensures front { take (length text.old.items) text.new.items ≡ text.old.items }
{
    push_which(text, f)?;
    text.extend_from_slice(b" at ")?;
    push_time_of(text, time_of(test, f))?;
    text.extend_from_slice(b"\n")
}

#[tactic(auto, using(pr_words::proofs::Fronts::front_on, pr_words::proofs::Fronts::front_after), unfolding(crate::specs::FailureText::failure_text))]
fn push_failure(text: &mut Vec<u8>, test: &TestFile, f: &Failure) -> Result<(), AllocError>
    ensures ok { OnOk result (text.new.items ≡ text.old.items ++ failure_text (plain_file test.now) f.now) }
    ensures front { take (length text.old.items) text.new.items ≡ text.old.items }
{
    push_check(text, test, f)?;
    push_shown(text, expected_word(), &f.expected)?;
    push_shown(text, got_word(), &f.got)
}

/// Appends the lines that tell of a check of this test file whose expectation differs: which it is
/// and when, what is expected, and what comes. Want of memory alone is an error, and then nothing
/// is appended.
pub fn write_failure(test: &TestFile, f: &Failure, out: &mut Vec<u8>) -> Result<(), AllocError>
    ensures ok { OnOk result (out.new.items ≡ out.old.items ++ failure_text (plain_file test.now) f.now) }
    ensures err { OnErr result (out.new.items ≡ out.old.items) }
{
    let before = out.len();
    let written = push_failure(out, test, f);
    whole_or_none(out, before, written)
}
