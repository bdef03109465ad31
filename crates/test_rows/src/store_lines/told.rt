// The rows of the tables of stores, and what is told of them.
use crate::store_lines::paths::difference_at_paths;
use crate::store_lines::stops::difference_after_stops;
use crate::store_lines::stores::{Memories, Opens, Stopped};
use crate::store_lines::tables::difference_in_tables;
use crate::{bytes_of, text_of};
use pr_outside::{DiskFiles, FileContent, Files, FilesError};
use sqlite::{Alter, FileStore, Start};
use std::alloc::Global;
use std::io;
use std::rt::HostRuntime;

/// The rows over databases in memory.
const TABLES: &str = "stores/tables";

/// The rows over paths.
const PATHS: &str = "stores/paths";

/// Paths that are loaded, a line each.
const FILES: &str = "stores/files";

// The bytes of the file that a row names in its first line, or none.
fn first_bytes<F: Files>(alloc: Global, files: &mut F, lines: &str) -> io::Result<Vec<u8>> {
    let (first, _) = lines.split_once('\n').unwrap_or((lines, ""));
    match first.strip_prefix("file ") {
        Some(name) => bytes_of(files, name),
        None => Ok(Vec::new(alloc)),
    }
}

// Goes over the rows in memory.
fn tell_tables<S: Alter + Drop, O: Opens<S>>(rt: &HostRuntime) -> io::Result<()> {
    let alloc = rt.alloc();
    let mut files = DiskFiles::new(alloc, rt);
    let table = text_of(&mut files, TABLES)?;
    for row in table.split("\n# ").skip(1) {
        let (name, lines) = row.split_once('\n').unwrap_or((row, ""));
        let bytes = first_bytes(alloc, &mut files, lines)?;
        if let Some(text) = difference_in_tables::<S, O>(alloc, bytes.as_slice(), lines)? {
            println!(rt; "{name}: {text}")?;
        }
    }
    println!(rt; "{TABLES}: {} rows", table.split("\n# ").skip(1).count())
}

// Goes over the rows on the disk.
fn tell_paths<T: Start>(rt: &HostRuntime, mut starts: Vec<T>) -> io::Result<()> {
    let mut files = DiskFiles::new(rt.alloc(), rt);
    let table = text_of(&mut files, PATHS)?;
    for row in table.split("\n# ").skip(1) {
        let (name, lines) = row.split_once('\n').unwrap_or((row, ""));
        if let Some(text) = difference_at_paths(rt, lines, &mut starts)? {
            println!(rt; "{name}: {text}")?;
        }
    }
    println!(rt; "{PATHS}: {} rows", table.split("\n# ").skip(1).count())
}

// Stops the log, and the database file.
fn tell_stops<S: Alter + Drop, O: Opens<S>>(rt: &HostRuntime) -> io::Result<()> {
    for is_of_log in [true, false] {
        let file = if is_of_log { "log" } else { "database" };
        match difference_after_stops::<S, O>(rt.alloc(), is_of_log)? {
            Some(text) => println!(rt; "{file}: {text}")?,
            None => println!(rt; "{file}: whole after each stop")?,
        }
    }
    Ok(())
}

// Tells what is loaded of each path.
fn tell_files(rt: &HostRuntime) -> io::Result<()> {
    let mut files = DiskFiles::new(rt.alloc(), rt);
    let paths = text_of(&mut files, FILES)?;
    for path in paths.lines() {
        match files.load(path) {
            Ok(FileContent::Bytes { bytes }) => println!(rt; "{path}: {} bytes", bytes.len())?,
            Ok(FileContent::Missing) => println!(rt; "{path}: missing")?,
            Ok(FileContent::TooLarge) => println!(rt; "{path}: too large")?,
            Err(FilesError::Failed) => println!(rt; "{path}: refused")?,
            Err(FilesError::Memory) => println!(rt; "{path}: no memory")?,
        }
    }
    Ok(())
}

// Goes over all that is done in memory.
fn tell_memory<S: Alter + Drop, O: Opens<S>>(rt: &HostRuntime) -> io::Result<()> {
    tell_tables::<S, O>(rt)?;
    tell_stops::<S, O>(rt)
}

/// Tells what is loaded of some paths, goes over the rows of stores in memory, stops a store at each
/// call of its files, and goes over the rows of stores at paths. It tells each row that is answered
/// otherwise, how many rows there are, and whether the rows are whole after each stop. Each store at a
/// path takes one of the values that stand for what a file holds.
///
/// # Errors
/// Where a table is not read, or what is told is not written, or memory runs out.
pub fn tell_stores<T: Start>(rt: &HostRuntime, starts: Vec<T>) -> io::Result<()> {
    tell_files(rt)?;
    tell_memory::<FileStore<Stopped>, Memories>(rt)?;
    tell_paths(rt, starts)
}
