// The files of a reload, each read before the next one is loaded.
ghost use Rattle.std.specs.Prelude.{◌≡◌, ℕ, ◌<◌, ◌≤◌, ◌^◌, List, length, map, Ok, Some, IfOk};
ghost use Rattle.std.specs.declared.option.Option.{Option};
ghost use Rattle.pr_outside.specs.Contents.{IsFound, IsWithinLimit, file_limit};
ghost use Rattle.pr_outside.specs.Loading.{holding_by};
ghost use Rattle.pr_text.specs.pr_rulefile.File.{rule_file_of};
ghost use Rattle.pr_outside.specs.Asks.{AsksBy};
ghost use Rattle.pr_outside.specs.Ends.{LoadEnds};
ghost use Rattle.pr_outside.specs.Outside.{AreTold, Held};
ghost use Rattle.pr_text.specs.spec_world.Loading.{all_found, file_found, read_first, with_bytes};
ghost use Rattle.pr_text.specs.spec_world.Rounds.{first_problem, groups_by};
ghost use Rattle.pr_text.specs.spec_world.declared.event.NamedFile as named;
ghost use Rattle.pr_run.specs.private.Files.{HasNames, found_of, read_as};
ghost use Rattle.pr_run.specs.Told.{asks_for, content_by, holding_of};

use pr_outside::loading::{Taker, load_each};
use pr_outside::status::Stop;
use pr_outside::words_crate::{Items, Text};
use pr_outside::{FileContent, Files};
use pr_text::rulefile::fields::Problem;
use pr_text::rulefile::{RuleError, read};
use pr_text::script::FileToLoad;
use pr_text::world::{NamedFile, Report};
use std::alloc::{AllocError, Global};

// The refusal of a file with these problems.
fn first_problem(
    alloc: Global,
    name: &str,
    list: Items<Problem>,
) -> Result<Option<Report>, AllocError>
    ensures { (f : named.NamedFile) → IfOk result (λ o. read_as f o ≡ read_first f (first_problem name.now list)) }
{
    match list.into_vec().into_iter().next() {
        Some(problem) => Ok(Some(Report::Refused {
            name: Text::from_str(alloc, name)?,
            line: problem.line,
            kind: problem.kind,
        })),
        None => Ok(None),
    }
}

// The refusal of a file that is known by this name, where its bytes are no rule file.
fn refusal_of(alloc: Global, name: &str, bytes: &[u8]) -> Result<Option<Report>, AllocError>
    requires { length bytes.now < 2 ^ 32 }
    ensures { (f : named.NamedFile) → IfOk result (λ o. read_as f o ≡ read_first f (groups_by name.now (rule_file_of bytes.now))) }
{
    match read(alloc, bytes) {
        Ok(_) => Ok(None),
        Err(RuleError::Problems { list }) => first_problem(alloc, name, list),
        Err(RuleError::Memory) => Err(AllocError),
    }
}

// The file of this name with these bytes, unless it is refused.
fn read_bytes(
    alloc: Global,
    name: &str,
    bytes: Vec<u8>,
) -> Result<Result<NamedFile, Report>, AllocError>
    requires { length bytes.items ≤ file_limit }
    ensures read { IfOk result (λ r. r ≡ read_first (with_bytes name.now bytes.items) (groups_by name.now (rule_file_of bytes.items))) }
    ensures name { IfOk result (λ r. IfOk r (λ f. f.name ≡ name.now)) }
{
    match refusal_of(alloc, name, &bytes)? {
        Some(refusal) => Ok(Err(refusal)),
        None => Ok(Ok(NamedFile {
            name: Text::from_str(alloc, name)?,
            bytes: Items::new(bytes),
        })),
    }
}

// What becomes of a file of a reload, by what was found under its name.
fn read_found(
    alloc: Global,
    file: &FileToLoad,
    found: FileContent,
) -> Result<Result<NamedFile, Report>, AllocError>
    requires { IsWithinLimit found }
    ensures read { (content : Option (List ℕ)) → IsFound (Some content) found → IfOk result (λ r. r ≡ file_found file.now (holding_of (holding_by content))) }
    ensures name { IfOk result (λ r. IfOk r (λ f. f.name ≡ file.now.name)) }
{
    match found {
        FileContent::Bytes { bytes } => read_bytes(alloc, file.name.as_str(), bytes),
        FileContent::Missing => Ok(Err(Report::Missing {
            file: file.file.copy(alloc)?,
        })),
        FileContent::TooLarge => Ok(Err(Report::TooLarge {
            file: file.file.copy(alloc)?,
        })),
    }
}

/// The files of a reload that were loaded, and the refusal of the first that is not to be had.
#[derive(Drop)]
struct Loaded {
    files: Items<NamedFile>,
    refusal: Option<Report>,
}

impl Loaded {
    // The files, or the refusal.
    fn into_found(self) -> Result<Items<NamedFile>, Report>
        ensures { result ≡ found_of self }
    {
        let Loaded { files, refusal } = self;
        match refusal {
            Some(refusal) => Err(refusal),
            None => Ok(files),
        }
    }
}

impl Taker<FileToLoad> for Loaded {
    ghost use Rattle.pr_text.specs.spec_world.Loading.{FileToLoad};
    ghost use Rattle.pr_run.specs.private.Files.{FitsLoaded, with_file};

    ghost file = { λ (f : FileToLoad). f.file };

    ghost make = { with_file };

    ghost fits = { FitsLoaded };

    fn file(name: &FileToLoad) -> &str {
        name.file.as_str()
    }

    fn take(
        &mut self,
        alloc: Global,
        name: &FileToLoad,
        found: FileContent,
    ) -> Result<bool, AllocError> {
        match read_found(alloc, name, found)? {
            Ok(named) => {
                self.files.push(named)?;
                Ok(true)
            }
            Err(refusal) => {
                self.refusal = Some(refusal);
                Ok(false)
            }
        }
    }
}

/// Loads the files of a reload, one after another, each once, and reads each before the next one is
/// loaded; up to the first that is missing, too large or no rule file, by which they are refused.
pub(crate) fn load_files<F: Files>(
    alloc: Global,
    files: &[FileToLoad],
    from: &mut F,
) -> Result<Result<Items<NamedFile>, Report>, Stop>
    ensures found { (held : Held) → AreTold (F.means from.old).content held (asks_for (content_by held) files.now) → IfOk result (λ r. r ≡ all_found (content_by held) files.now) }
    ensures names { IfOk result (λ r. IfOk r (HasNames files.now)) }
    ensures asked { (held : Held) → AreTold (F.means from.old).content held (asks_for (content_by held) files.now)
        → AsksBy (F.means from.old).calls (F.means from.new).calls (length (asks_for (content_by held) files.now)) result }
    ensures same { (other : List ℕ) → (F.means from.new).content other ≡ (F.means from.old).content other }
    ensures ends { LoadEnds (F.means from.old) (F.means from.new) result }
{
    let mut loaded = Loaded {
        files: Items::empty(alloc),
        refusal: None,
    };
    load_each(alloc, &mut loaded, files, from)?;
    Ok(loaded.into_found())
}
