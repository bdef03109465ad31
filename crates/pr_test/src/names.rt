// Where the rule files of a test file are looked for.
ghost use Rattle.std.specs.Prelude.{◌≡◌, ◌≤◌, IfOk, OnOk, length, map, position, reverse, string_bytes};
ghost use Rattle.std.specs.List.{position_or_len};
ghost use Rattle.pr_words.specs.Names.{is_among};
ghost use Rattle.pr_unit.specs.spec_tests.RuleFiles.{beside, folder, is_slash, rule_file_names, with_name};
ghost use Rattle.pr_test.specs.private.Names.{is_absolute};

use pr_words::Text;
use std::alloc::{AllocError, Global};

fn is_slash(b: u8) -> bool
    ensures { result ≡ is_slash b }
{
    b == b'/'
}

// How far from the end the last slash stands.
fn last_slash(name: &[u8]) -> Option<usize>
    ensures { result ≡ position is_slash (reverse name.now) }
{
    name.iter().rev().position(|b| is_slash(*b))
}

// How many bytes stand behind the last slash, all where there is none.
#[tactic(auto, using(pr_words::proofs::Places::place_or_front, pr_words::proofs::Places::within_back))]
fn file_len(name: &[u8]) -> usize
    ensures value { result ≡ position_or_len is_slash (reverse name.now) }
    ensures within { result ≤ length name.now }
{
    last_slash(name).unwrap_or(name.len())
}

// A name up to its last slash, with that; nothing where it has none.
fn folder(name: &str) -> &str
    ensures { result.now ≡ folder name.now }
{
    let end = name.len() - file_len(name.as_bytes());
    &name[..end]
}

fn begins_with_slash(file: &str) -> bool
    ensures { result ≡ is_absolute file.now }
{
    match file.as_bytes() {
        [] => false,
        [first, ..] => is_slash(*first),
    }
}

// The name of a file that a test file of this name names so.
fn beside(alloc: Global, name: &str, file: &str) -> Result<String, AllocError>
    ensures { IfOk result (λ path. string_bytes path ≡ beside name.now file.now) }
{
    let mut path = String::new(alloc);
    if !begins_with_slash(file) {
        path.push_str(folder(name))?;
    }
    path.push_str(file)?;
    Ok(path)
}

fn is_among(name: &str, names: &[String]) -> bool
    ensures { result ≡ is_among name.now (map string_bytes names.now) }
{
    let mut rest = names;
    'seeking: while let Some((first, after)) = rest.split_first() {
        if first.as_str() == name {
            return true;
        }
        rest = after;
    }
    false
}

// Adds a name, where none before it is equal.
fn put_name(names: &mut Vec<String>, name: String) -> Result<(), AllocError>
    ensures { OnOk result (map string_bytes names.new.items ≡ with_name (map string_bytes names.old.items) (string_bytes name)) }
{
    if is_among(name.as_str(), names) {
        return Ok(());
    }
    names.push(name)?;
    Ok(())
}

/// The names of the rule files of a test file that has this name and names these. Want of memory
/// alone is an error.
pub(crate) fn rule_file_names(
    alloc: Global,
    name: &str,
    files: &[Text],
) -> Result<Vec<String>, AllocError>
    ensures { IfOk result (λ names. map string_bytes names.items ≡ rule_file_names name.now files.now) }
{
    let mut names = Vec::new(alloc);
    for file in files {
        put_name(&mut names, beside(alloc, name, file.as_str())?)?;
    }
    Ok(names)
}
