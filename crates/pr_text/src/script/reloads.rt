// The files that a line names.
ghost use Rattle.std.specs.Prelude.{◌≡◌, IfOk, position};
ghost use Rattle.pr_text.specs.Reloads.{is_equals_sign, file_by, file_of, files_in, some_files, reload_of, reload_in};

use super::file_names::{FileToLoad, FilesToLoad};
use super::order::Order;
use super::script::{some_text, written_time};
use pr_words::{Items, Text, split_first};
use spec_world::time::Ms;
use std::alloc::{AllocError, Global};

fn sign_place(field: &[u8]) -> Option<usize>
    ensures { result ≡ position is_equals_sign field.now }
{
    field.iter().position(|b| *b == b'=')
}

fn file_by(name: Option<Text>, file: Option<Text>) -> Option<FileToLoad>
    ensures { result ≡ file_by name file }
{
    match (name, file) {
        (Some(name), Some(file)) => Some(FileToLoad { name, file }),
        _ => None,
    }
}

// The file that a field names, and the name by which it is to be known.
fn file_of(alloc: Global, field: &[u8]) -> Result<Option<FileToLoad>, AllocError>
    ensures { IfOk result (λ o. o ≡ file_of field.now) }
{
    match sign_place(field) {
        Some(at) => {
            let name = some_text(alloc, &field[..at])?;
            Ok(file_by(name, some_text(alloc, &field[at + 1..])?))
        }
        None => {
            let name = some_text(alloc, field)?;
            Ok(file_by(name, some_text(alloc, field)?))
        }
    }
}

// The files that the fields of a text name.
#[tactic(auto, using(crate::proofs::NamedFiles::joined_next, crate::proofs::NamedFiles::joined_bad, crate::proofs::NamedFiles::joined_all, crate::proofs::NamedFiles::shorter))]
fn files_in(alloc: Global, text: &[u8]) -> Result<Option<Items<FileToLoad>>, AllocError>
    ensures { IfOk result (λ o. o ≡ files_in text.now) }
{
    let mut files = Items::empty(alloc);
    let mut rest = text;
    'reading: while !rest.is_empty() {
        let (field, after) = split_first(rest);
        match file_of(alloc, field)? {
            Some(file) => files.push(file)?,
            None => return Ok(None),
        }
        rest = after;
    }
    Ok(Some(files))
}

// One file at least.
fn some_files(files: Option<Items<FileToLoad>>) -> Option<FilesToLoad>
    ensures { result ≡ some_files files }
{
    let files = files?;
    if files.as_slice().is_empty() {
        return None;
    }
    FilesToLoad::new(files)
}

fn reload_of(time: Option<Ms>, files: Option<FilesToLoad>) -> Order
    ensures { result ≡ reload_of time files }
{
    match (time, files) {
        (Some(time), Some(files)) => Order::Reload { time, files },
        _ => Order::Bad,
    }
}

/// The order of a reload, by what stands behind its word.
pub(crate) fn reload_in(alloc: Global, text: &[u8]) -> Result<Order, AllocError>
    ensures { IfOk result (λ order. order ≡ reload_in text.now) }
{
    let (time, names) = split_first(text);
    Ok(reload_of(written_time(time), some_files(files_in(alloc, names)?)))
}
