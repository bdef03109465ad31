// The outside of a run.
use crate::run_rows::files::{cut_last, files_of};
use crate::run_rows::input::{Input, input_of};
use crate::run_rows::lines::{has_mark, marked, number_of};
use crate::run_rows::store::{Store, rows_of};
use pr_outside::{HeldFile, MemFiles, MemSink};
use std::alloc::{AllocError, Global};

/// What a run reads, and what it writes and keeps.
#[derive(Drop)]
pub struct Outside {
    pub input: Input,
    pub files: MemFiles,
    pub store: Store,
    pub out: MemSink,
}

impl Outside {
    /// This input and these files, an empty store, and no call that is refused.
    pub fn of(alloc: Global, input: Vec<u8>, files: Vec<HeldFile>) -> Outside {
        Outside {
            input: Input::new(input, Vec::new(alloc), false),
            files: MemFiles::new(files, Vec::new(alloc)),
            store: Store::empty(alloc),
            out: MemSink::new(alloc, Vec::new(alloc)),
        }
    }
}

/// A program that is run.
pub trait Program {
    /// Runs it with these words, and tells its status.
    fn status(&mut self, alloc: Global, words: &[String], outside: &mut Outside) -> u8;
}

/// What is changed in a run: a call of this mark, by its number, is refused; or with `cut` so many
/// bytes are left of the last file, or of the input where there is none.
#[derive(Clone, Copy)]
pub(crate) struct Change<'a> {
    pub(crate) mark: &'a str,
    pub(crate) number: u64,
}

// The numbers of the calls of a mark that are refused.
fn refused(
    alloc: Global,
    lines: &str,
    mark: &str,
    change: Change<'_>,
) -> Result<Vec<u64>, AllocError> {
    let mut numbers = Vec::new(alloc);
    if change.mark == mark {
        numbers.push(change.number)?;
    }
    for line in lines.lines() {
        let (other, number) = marked(line);
        if other == mark {
            numbers.push(number_of(number))?;
        }
    }
    Ok(numbers)
}

fn files_after(
    alloc: Global,
    lines: &str,
    change: Change<'_>,
) -> Result<Vec<HeldFile>, AllocError> {
    let mut files = files_of(alloc, lines)?;
    if change.mark == "cut" {
        cut_last(&mut files, change.number as usize);
    }
    Ok(files)
}

fn bytes_after(alloc: Global, lines: &str, change: Change<'_>) -> Result<Vec<u8>, AllocError> {
    let mut bytes = input_of(alloc, lines)?;
    if change.mark == "cut" && !has_mark(lines, "@") {
        bytes.truncate(change.number as usize);
    }
    Ok(bytes)
}

fn input(alloc: Global, lines: &str, change: Change<'_>) -> Result<Input, AllocError> {
    let bytes = bytes_after(alloc, lines, change)?;
    let reads = refused(alloc, lines, "read", change)?;
    Ok(Input::new(bytes, reads, has_mark(lines, "endless")))
}

fn files(alloc: Global, lines: &str, change: Change<'_>) -> Result<MemFiles, AllocError> {
    let files = files_after(alloc, lines, change)?;
    Ok(MemFiles::new(files, refused(alloc, lines, "load", change)?))
}

fn store(alloc: Global, lines: &str, change: Change<'_>) -> Result<Store, AllocError> {
    Store::new(
        rows_of(alloc, lines)?,
        refused(alloc, lines, "start", change)?,
        refused(alloc, lines, "commit", change)?,
        refused(alloc, lines, "fetch", change)?,
        refused(alloc, lines, "spoil", change)?,
    )
}

fn out(alloc: Global, lines: &str, change: Change<'_>) -> Result<MemSink, AllocError> {
    Ok(MemSink::new(alloc, refused(alloc, lines, "write", change)?))
}

/// The outside of a row, with a change.
pub(crate) fn made(alloc: Global, lines: &str, change: Change<'_>) -> Result<Outside, AllocError> {
    Ok(Outside {
        input: input(alloc, lines, change)?,
        files: files(alloc, lines, change)?,
        store: store(alloc, lines, change)?,
        out: out(alloc, lines, change)?,
    })
}
