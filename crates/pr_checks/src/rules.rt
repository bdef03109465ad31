// What `check rules` tells of a file.
ghost use Rattle.std.specs.Prelude.{◌≡◌, ◌<◌, ◌≤◌, ◌^◌, ◌++◌, ℕ, List, Option, Some, OnOk, IfOk, length, flat_map};
ghost use Rattle.pr_outside.specs.Contents.{IsFound, IsWithinLimit, file_limit};
ghost use Rattle.spec_world.specs.pr_rulefile.File.{rule_file_of};
ghost use Rattle.pr_checks.specs.Problems.{problem_line};
ghost use Rattle.pr_checks.specs.RuleFiles.{checking_text, failed_line, problems_text, found_told, missing, file_told, reading_told, rules_found, success, success_text, too_large};

use crate::problems::push_problem;
use pr_outside::check_loops::FileCheck;
use pr_outside::loading::{Taker, load_each};
use pr_outside::status::Stop;
use pr_outside::{FileContent, Files};
use pr_yaml::words_crate::{Items, push_number};
use spec_world::rulefile::{Problem, RuleError, check};
use std::alloc::{AllocError, Global};
use std::mem::replace;
use std::slice::from_ref;

/// The check of rule files: each is read whole, and all its problems are told. (Prometheus:
/// `promtool check rules`; the kinds and their order are an own choice.)
pub struct RuleFiles;

#[tactic(auto, unfolding(crate::specs::RuleFiles::checking_text))]
fn push_checking(text: &mut Vec<u8>, name: &str) -> Result<(), AllocError>
    ensures { OnOk result (text.new.items ≡ text.old.items ++ checking_text name.now) }
{
    text.extend_from_slice(b"Checking ")?;
    text.extend_from_slice(name.as_bytes())?;
    text.extend_from_slice(b"\n")
}

/// Appends the line that says that a file is refused. Want of memory alone is an error.
#[tactic(auto, unfolding(crate::specs::RuleFiles::failed_line))]
pub fn push_failed(text: &mut Vec<u8>) -> Result<(), AllocError>
    ensures { OnOk result (text.new.items ≡ text.old.items ++ failed_line) }
{
    text.extend_from_slice(b"  FAILED:\n")
}

/// What is told behind the name of a file that is not there.
#[tactic(auto, unfolding(crate::specs::RuleFiles::missing))]
pub fn missing() -> &'static [u8]
    ensures { result.now ≡ missing }
{
    b": Missing\n"
}

/// What is told behind the name of a file that is too large.
#[tactic(auto, unfolding(crate::specs::RuleFiles::too_large))]
pub fn too_large() -> &'static [u8]
    ensures { result.now ≡ too_large }
{
    b": TooLarge\n"
}

// A file that is not read, and why.
fn push_unread(text: &mut Vec<u8>, name: &str, why: &[u8]) -> Result<(), AllocError>
    ensures { OnOk result (text.new.items ≡ text.old.items ++ problems_text (name.now ++ why.now)) }
{
    push_failed(text)?;
    text.extend_from_slice(name.as_bytes())?;
    text.extend_from_slice(why)
}

#[tactic(auto, unfolding(crate::specs::RuleFiles::success))]
fn success() -> &'static [u8]
    ensures { result.now ≡ success }
{
    b"  SUCCESS: "
}

#[tactic(auto, unfolding(crate::specs::RuleFiles::rules_found))]
fn rules_found() -> &'static [u8]
    ensures { result.now ≡ rules_found }
{
    b" rules found\n"
}

fn push_success(text: &mut Vec<u8>, count: u64) -> Result<(), AllocError>
    ensures { OnOk result (text.new.items ≡ text.old.items ++ success_text count) }
{
    text.extend_from_slice(success())?;
    push_number(text, count)?;
    text.extend_from_slice(rules_found())
}

/// Appends the problems of a file with this name, each on a line. Want of memory alone is an error.
pub fn push_lines(text: &mut Vec<u8>, name: &str, problems: &[Problem]) -> Result<(), AllocError>
    ensures { OnOk result (text.new.items ≡ text.old.items ++ flat_map (problem_line name.now) problems.now) }
{
    for problem in problems {
        push_problem(text, name, problem)?;
    }
    Ok(())
}

fn push_problems(text: &mut Vec<u8>, name: &str, problems: &[Problem]) -> Result<(), AllocError>
    ensures { OnOk result (text.new.items ≡ text.old.items ++ problems_text (flat_map (problem_line name.now) problems.now)) }
{
    push_failed(text)?;
    push_lines(text, name, problems)
}

// What the bytes of a file are told as; it is refused unless they are a rule file.
#[tactic(auto, using(crate::proofs::Counted::told_counted))]
fn push_bytes(
    alloc: Global,
    text: &mut Vec<u8>,
    name: &str,
    bytes: &[u8],
) -> Result<bool, AllocError>
    requires { length bytes.now < 2 ^ 32 }
    ensures text { OnOk result (text.new.items ≡ text.old.items ++ (reading_told name.now (rule_file_of bytes.now)).text) }
    ensures refused { IfOk result (λ b. b ≡ (reading_told name.now (rule_file_of bytes.now)).refused) }
{
    match check(alloc, bytes) {
        Ok(count) => {
            push_success(text, count)?;
            Ok(false)
        }
        Err(RuleError::Problems { list }) => {
            push_problems(text, name, list.as_slice())?;
            Ok(true)
        }
        Err(RuleError::Memory) => Err(AllocError),
    }
}

// What is told of a file by what was found under its name.
fn push_found(
    alloc: Global,
    text: &mut Vec<u8>,
    name: &str,
    found: &FileContent,
) -> Result<bool, AllocError>
    requires { IsWithinLimit found.now }
    ensures text { (content : Option (List ℕ)) → IsFound (Some content) found.now → OnOk result (text.new.items ≡ text.old.items ++ (file_told name.now content).text) }
    ensures refused { (content : Option (List ℕ)) → IsFound (Some content) found.now → IfOk result (λ b. b ≡ (file_told name.now content).refused) }
{
    push_checking(text, name)?;
    match found {
        FileContent::Bytes { bytes } => push_bytes(alloc, text, name, bytes),
        FileContent::Missing => {
            push_unread(text, name, missing())?;
            Ok(true)
        }
        FileContent::TooLarge => {
            push_unread(text, name, too_large())?;
            Ok(true)
        }
    }
}

/// The lines that are told of files, and whether the last one is refused.
#[derive(Drop)]
struct RuleText {
    text: Items<u8>,
    refused: bool,
}

impl Taker<String> for RuleText {
    ghost use Rattle.std.specs.Prelude.{string_bytes};
    ghost use Rattle.pr_checks.specs.RuleFiles.{with_file};

    ghost file = { string_bytes };

    ghost make = { λ name. with_file (string_bytes name) };

    fn file(name: &String) -> &str {
        name.as_str()
    }

    fn take(
        &mut self,
        alloc: Global,
        name: &String,
        found: FileContent,
    ) -> Result<bool, AllocError> {
        let mut text = replace(&mut self.text, Items::empty(alloc)).into_vec();
        self.refused = push_found(alloc, &mut text, name.as_str(), &found)?;
        self.text = Items::new(text);
        Ok(true)
    }
}

impl FileCheck for RuleFiles {
    ghost use Rattle.pr_checks.specs.RuleFiles.{rules_told};

    ghost told = { rules_told };

    fn check<F: Files>(
        &self,
        alloc: Global,
        name: &String,
        files: &mut F,
        text: &mut Vec<u8>,
    ) -> Result<bool, Stop> {
        let mut told = RuleText {
            text: Items::new(replace(text, Vec::new(alloc))),
            refused: false,
        };
        load_each(alloc, &mut told, from_ref(name), files)?;
        let refused = told.refused;
        *text = told.text.into_vec();
        Ok(refused)
    }
}
