// The files of a row.
use crate::run_rows::lines::marked;
use crate::run_rows::signs::push_text;
use pr_outside::HeldFile;
use std::alloc::{AllocError, Global};

// A file, and maybe its first line.
fn file_of(alloc: Global, words: &str) -> Result<HeldFile, AllocError> {
    let (name, line) = marked(words);
    let mut bytes = Vec::new(alloc);
    if !line.is_empty() {
        push_text(&mut bytes, line)?;
    }
    Ok(HeldFile {
        name: String::from_str(alloc, name)?,
        bytes,
    })
}

fn push_line(files: &mut Vec<HeldFile>, line: &str) -> Result<(), AllocError> {
    match files.last_mut() {
        Some(file) => push_text(&mut file.bytes, line),
        None => Ok(()),
    }
}

/// The files of a row.
pub(crate) fn files_of(alloc: Global, lines: &str) -> Result<Vec<HeldFile>, AllocError> {
    let mut files = Vec::new(alloc);
    for line in lines.lines() {
        let (mark, rest) = marked(line);
        if mark == "@" {
            files.push(file_of(alloc, rest)?)?;
        } else if mark == "|" {
            push_line(&mut files, rest)?;
        }
    }
    Ok(files)
}

/// How many bytes the last file has.
pub(crate) fn last_length(files: &[HeldFile]) -> usize {
    match files.last() {
        Some(file) => file.bytes.len(),
        None => 0,
    }
}

/// Leaves only so many bytes of the last file.
pub(crate) fn cut_last(files: &mut Vec<HeldFile>, length: usize) {
    if let Some(file) = files.last_mut() {
        file.bytes.truncate(length);
    }
}
