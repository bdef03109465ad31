// The rule files of names, as they are found.
ghost use Rattle.std.specs.Prelude.{◌≡◌, ℕ, List, Option, Some, IfOk, length, map, string_bytes};
ghost use Rattle.std.specs.List.{AllByRecursion};
ghost use Rattle.pr_outside.specs.Contents.{IsFound, IsWithinLimit};
ghost use Rattle.pr_outside.specs.Loading.{holding_by};
ghost use Rattle.pr_outside.specs.Asks.{AsksBy};
ghost use Rattle.pr_outside.specs.Ends.{LoadEnds};
ghost use Rattle.pr_outside.specs.Outside.{AreTold, Held};
ghost use Rattle.pr_checks.specs.private.RulesFound.{IsShort, IsShortFile, content_of, found_by};

use pr_outside::loading::{Taker, load_each};
use pr_outside::status::Stop;
use pr_outside::{FileContent, Files};
use pr_yaml::words_crate::{Items, Text};
use std::alloc::{AllocError, Global};

/// What is found under a name.
#[derive(Drop)]
pub(crate) enum FoundContent {
    Bytes { bytes: Items<u8> },
    Missing,
    TooLarge,
}

/// A file that was asked for.
#[derive(Drop)]
pub(crate) struct FoundFile {
    pub(crate) name: Text,
    pub(crate) content: FoundContent,
}

/// The files that were asked for, in their order.
#[derive(Drop)]
struct FoundFiles {
    files: Items<FoundFile>,
}

fn content_of(found: FileContent) -> FoundContent
    requires { IsWithinLimit found }
    ensures content { (content : Option (List ℕ)) → IsFound (Some content) found → result ≡ content_of (holding_by content) }
    ensures short { IsShort result }
{
    match found {
        FileContent::Bytes { bytes } => FoundContent::Bytes {
            bytes: Items::new(bytes),
        },
        FileContent::Missing => FoundContent::Missing,
        FileContent::TooLarge => FoundContent::TooLarge,
    }
}

impl Taker<String> for FoundFiles {
    ghost use Rattle.std.specs.Prelude.{string_bytes, true};
    ghost use Rattle.pr_checks.specs.private.RulesFound.{AreFound, with_file};

    ghost file = { string_bytes };

    ghost make = { λ name. with_file (string_bytes name) };

    ghost asks_all = { true };

    ghost fits = { AreFound string_bytes };

    fn file(name: &String) -> &str {
        name.as_str()
    }

    fn take(
        &mut self,
        alloc: Global,
        name: &String,
        found: FileContent,
    ) -> Result<bool, AllocError> {
        let name = Text::from_str(alloc, name.as_str())?;
        let content = content_of(found);
        self.files.push(FoundFile { name, content })?;
        Ok(true)
    }
}

/// Loads the files of these names, one after another, each once.
///
/// # Errors
/// A load that was refused, or want of memory.
pub(crate) fn find_files<F: Files>(
    alloc: Global,
    names: &[String],
    files: &mut F,
) -> Result<Vec<FoundFile>, Stop>
    ensures found { (held : Held) → AreTold (F.means files.old).content held (map string_bytes names.now) → IfOk result (λ v. v.items ≡ map (found_by held) (map string_bytes names.now)) }
    ensures names { IfOk result (λ v. map (λ f. f.name) v.items ≡ map string_bytes names.now) }
    ensures short { IfOk result (λ v. AllByRecursion IsShortFile v.items) }
    ensures asked { AsksBy (F.means files.old).calls (F.means files.new).calls (length names.now) result }
    ensures same { (other : List ℕ) → (F.means files.new).content other ≡ (F.means files.old).content other }
    ensures ends { LoadEnds (F.means files.old) (F.means files.new) result }
{
    let mut found = FoundFiles {
        files: Items::empty(alloc),
    };
    load_each(alloc, &mut found, names, files)?;
    Ok(found.files.into_vec())
}
