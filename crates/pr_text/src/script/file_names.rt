// The names of files that are to be loaded.
ghost use Rattle.std.specs.Prelude.{◌≡◌, true};
ghost use Rattle.pr_text.specs.FileNames.{is_name_of, have_distinct_names, distinct_files};

use pr_words::{Items, Text};
use std::marker::Model;

/// A file that is to be loaded, and the name by which its groups are to be known. Contracts see
/// both.
#[derive(Debug, Drop)]
pub struct FileToLoad {
    pub name: Text,
    pub file: Text,
}

impl Model for FileToLoad {
    ghost use Rattle.spec_world.specs.Loading as loading;

    ghost Value = { loading.FileToLoad };

    ghost view = { λ f. record { name = f.name; file = f.file } };
}

/// Files that are to be loaded, of which no two are to be known by one name. Contracts see their
/// list.
#[derive(Debug, Drop)]
pub struct FilesToLoad {
    files: Items<FileToLoad>,
}

impl Model for FilesToLoad {
    ghost use Rattle.std.specs.Prelude.{◌≡◌, List, true};
    ghost use Rattle.spec_world.specs.Loading as loading;
    ghost use Rattle.pr_text.specs.FileNames.{have_distinct_names};

    ghost Value = { List loading.FileToLoad };

    ghost view = { λ f. f.files };

    ghost invariant = { λ f. have_distinct_names f.files ≡ true };
}

impl FilesToLoad {
    /// These files, where no two of them have one name.
    pub fn new(files: Items<FileToLoad>) -> Option<FilesToLoad>
        ensures { result ≡ distinct_files files }
    {
        if !have_distinct_names(files.as_slice()) {
            return None;
        }
        Some(FilesToLoad { files })
    }

    /// The files, borrowed.
    pub fn as_slice(&self) -> &[FileToLoad]
        ensures files { result.now ≡ self.now }
        ensures distinct { have_distinct_names self.now ≡ true }
    {
        self.files.as_slice()
    }
}

// Whether one of these files is known by this name.
fn is_name_of(name: &str, files: &[FileToLoad]) -> bool
    ensures { result ≡ is_name_of name.now files.now }
{
    files.iter().any(|f| f.name.as_str() == name)
}

fn have_distinct_names(files: &[FileToLoad]) -> bool
    ensures { result ≡ have_distinct_names files.now }
{
    let mut rest = files;
    'testing: while let Some((file, after)) = rest.split_first() {
        if is_name_of(file.name.as_str(), after) {
            return false;
        }
        rest = after;
    }
    true
}
