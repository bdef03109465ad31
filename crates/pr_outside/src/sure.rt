// Forms in memory that never fail.
ghost use Rattle.std.specs.Prelude.{◌≡◌, ◌≢◌, ◌↔◌, ℕ, ◌+◌, ◌<◌, ◌≤◌, ◌==◌, ◌&&◌, not, List, [], ◌∷◌, ◌++◌, length, min, take, drop, Some, vec_len, IfOk, IfSome, OnOk, OnErr, slice_get};
ghost use Rattle.std.specs.Io.{ReadsAtMost, WritesAtMost};
ghost use Rattle.std.specs.Io.KnownBytes.{ReadConsumes, WriteAppends};
ghost use Rattle.pr_outside.specs.Causes.{HasReadCause, HasWriteCause, HasFilesCause, HasKeepCause};
ghost use Rattle.pr_outside.specs.Contents.{IsFound, IsWithinLimit};
ghost use Rattle.pr_outside.specs.Courses.{course_after, is_last_read, is_refused, taken_after};
ghost use Rattle.pr_outside.specs.private.HeldFiles.{content_of, files_of};
ghost use Rattle.pr_outside.specs.private.Kept.{KeepsRows, StartsRows, AppendsRows};
ghost use Rattle.pr_outside.specs.Paths.{StartsPath};
ghost use Rattle.pr_outside.specs.private.Schedule.{one_more};

use super::packed_rows::PackedRows;
use super::{
    Course, FILE_LIMIT, Failed, FileContent, Files, FilesError, HeldFile, KeepError, Keeper, Row,
    Sink, SinkError, Source,
};
use pr_words::Text;
use std::alloc::{AllocError, Global};
use std::marker::Model;

/// A source of bytes in memory that never fails. Contracts see the bytes that are left, how many were
/// taken, and how far its calls have come.
#[derive(Debug, Drop)]
pub struct SureSource {
    content: Vec<u8>,
    at: usize,
    course: Course,
}

impl Model for SureSource {
    ghost use Rattle.std.specs.Prelude.{◌≤◌, drop, vec_len};
    ghost use Rattle.pr_outside.specs.private.Failing.{SureBytes};

    ghost Value = { SureBytes };

    ghost view = { λ s. record { left = drop s.at s.content.items; taken = s.at; course = s.course } };

    ghost invariant = { λ s. s.at ≤ vec_len s.content };
}

impl SureSource {
    /// A source of these bytes.
    pub fn new(content: Vec<u8>) -> SureSource
        ensures { result ≡ record { left = content.items; taken = 0; course = Course.Going } }
    {
        SureSource {
            content,
            at: 0,
            course: Course::Going,
        }
    }
}

// Copies as many bytes as both have, and says how many.
fn copy_prefix(from: &[u8], to: &mut [u8]) -> usize
    ensures count { result ≡ min (length from.now) (length to.old) }
    ensures copied { to.new ≡ take result from.now ++ drop result to.old }
    ensures front { take result to.new ≡ take result from.now }
    ensures end { result ≡ 0 → 0 < length to.new → from.now ≡ [] }
{
    let count = from.len().min(to.len());
    to[..count].copy_from_slice(&from[..count]);
    count
}

/// Whether a read of so many bytes into this buffer met the end: an empty buffer tells of none.
pub fn is_end(count: usize, buf: &[u8]) -> bool
    ensures { result ≡ ((count == 0) && not (length buf.now == 0)) }
{
    count == 0 && !buf.is_empty()
}

impl Source for SureSource {
    ghost means = { λ s. record { left = Some s.left; taken = s.taken; faults = 0; course = s.course } };

    /// Gives as many bytes as are left and fit.
    fn read(&mut self, buf: &mut [u8]) -> Result<usize, Failed>
        ensures bound { ReadsAtMost result buf.new }
        ensures bytes { ReadConsumes (Some self.old.left) (Some self.new.left) result buf.new }
        ensures taken { self.new.taken ≡ taken_after self.old.taken result }
        ensures cause { HasReadCause 0 0 result }
        ensures course { self.new.course ≡ course_after self.old.course (is_last_read result buf.new) }
        ensures count { result ≡ Ok (min (length self.old.left) (length buf.old)) }
        ensures copied { IfOk result (λ n. buf.new ≡ take n self.old.left ++ drop n buf.old) }
        ensures rest { IfOk result (λ n. self.new.left ≡ drop n self.old.left) }
    {
        let count = copy_prefix(&self.content[self.at..], buf);
        self.at += count;
        self.course = self.course.after(is_end(count, buf));
        Ok(count)
    }
}

/// A sink of bytes in memory that fails only for want of memory. Contracts see the bytes that it
/// took, and how far its calls have come.
#[derive(Debug, Drop)]
pub struct SureSink {
    taken: Vec<u8>,
    course: Course,
}

impl Model for SureSink {
    ghost use Rattle.pr_outside.specs.private.Failing.{SureTaken};

    ghost Value = { SureTaken };

    ghost view = { λ s. record { taken = s.taken.items; course = s.course } };
}

impl SureSink {
    /// An empty sink.
    pub fn new(alloc: Global) -> SureSink
        ensures { result ≡ record { taken = []; course = Course.Going } }
    {
        SureSink {
            taken: Vec::new(alloc),
            course: Course::Going,
        }
    }

    /// The bytes that it took.
    pub fn bytes(&self) -> &[u8]
        ensures { result.now ≡ self.now.taken }
    {
        &self.taken
    }
}

impl Sink for SureSink {
    ghost means = { λ s. record { taken = Some s.taken; faults = 0; course = s.course } };

    /// Takes the whole piece, unless memory runs out.
    fn write(&mut self, bytes: &[u8]) -> Result<usize, SinkError>
        ensures bound { WritesAtMost result bytes.now }
        ensures some { IfOk result (λ n. 0 < length bytes.now → 0 < n) }
        ensures bytes { WriteAppends (Some self.old.taken) (Some self.new.taken) result bytes.now }
        ensures cause { HasWriteCause 0 0 result }
        ensures course { self.new.course ≡ course_after self.old.course (is_refused result) }
        ensures whole { IfOk result (λ n. n ≡ length bytes.now) }
        ensures sure { result ≢ Err SinkError.Failed }
    {
        match self.taken.extend_from_slice(bytes) {
            Ok(()) => {
                self.course = self.course.after(false);
                Ok(bytes.len())
            }
            Err(_) => {
                self.course = self.course.after(true);
                Err(SinkError::Memory)
            }
        }
    }
}

/// Files in memory whose loads fail only for want of memory. Of two of one name the first counts.
/// Contracts see the names and the bytes of the files, and how far its calls have come.
#[derive(Debug, Drop)]
pub struct SureFiles {
    content: Vec<HeldFile>,
    calls: u64,
    course: Course,
}

impl Model for SureFiles {
    ghost use Rattle.pr_outside.specs.private.Failing.{SureContent};
    ghost use Rattle.pr_outside.specs.private.HeldFiles.{files_of};

    ghost Value = { SureContent };

    ghost view = { λ s. record { files = files_of s.content.items; calls = s.calls; course = s.course } };
}

impl SureFiles {
    /// These files.
    pub fn new(content: Vec<HeldFile>) -> SureFiles
        ensures { result ≡ record { files = files_of content.items; calls = 0; course = Course.Going } }
    {
        SureFiles {
            content,
            calls: 0,
            course: Course::Going,
        }
    }
}

// What stands under a name: of two files of one name the first.
fn find_held(held: &[HeldFile], name: &str) -> Result<FileContent, AllocError>
    ensures found { IfOk result (IsFound (Some (content_of (files_of held.now) name.now))) }
    ensures limit { IfOk result IsWithinLimit }
{
    for file in held {
        if file.name.as_str() == name {
            return found(&file.bytes);
        }
    }
    Ok(FileContent::Missing)
}

// A file of these bytes, within the limit.
fn found(bytes: &Vec<u8>) -> Result<FileContent, AllocError>
    ensures found { IfOk result (IsFound (Some (Some bytes.now.items))) }
    ensures limit { IfOk result IsWithinLimit }
{
    if bytes.len() > FILE_LIMIT {
        return Ok(FileContent::TooLarge);
    }
    Ok(FileContent::Bytes {
        bytes: Vec::from_slice(*bytes.allocator(), bytes)?,
    })
}

impl Files for SureFiles {
    ghost means = { λ s. record { content = λ name. Some (content_of s.files name); calls = s.calls; faults = 0; course = s.course } };

    /// Copies the file of this name, unless memory runs out.
    fn load(&mut self, name: &str) -> Result<FileContent, FilesError>
        ensures found { IfOk result (IsFound (Some (content_of self.old.files name.now))) }
        ensures limit { IfOk result IsWithinLimit }
        ensures calls { self.new.calls ≡ one_more self.old.calls }
        ensures unchanged { self.new.files ≡ self.old.files }
        ensures cause { HasFilesCause 0 0 result }
        ensures course { self.new.course ≡ course_after self.old.course (is_refused result) }
        ensures sure { result ≢ Err FilesError.Failed }
    {
        self.calls = self.calls.saturating_add(1);
        match find_held(&self.content, name) {
            Ok(found) => {
                self.course = self.course.after(false);
                Ok(found)
            }
            Err(_) => {
                self.course = self.course.after(true);
                Err(FilesError::Memory)
            }
        }
    }
}

/// Rows in memory, in little room, whose calls fail only for want of memory: so where there would be
/// more than 2^32 series. Contracts see the rows in order, and the paths that were opened.
#[derive(Debug, Drop)]
pub struct SureKeeper {
    rows: PackedRows,
    paths: Vec<Text>,
}

impl Model for SureKeeper {
    ghost use Rattle.pr_outside.specs.private.Failing.{SureRows};

    ghost Value = { SureRows };

    ghost view = { λ s. record { rows = s.rows; paths = s.paths.items } };
}

impl SureKeeper {
    /// No rows. No path was opened.
    pub fn new(alloc: Global) -> SureKeeper
        ensures { result ≡ record { rows = []; paths = [] } }
    {
        SureKeeper {
            rows: PackedRows::new(alloc),
            paths: Vec::new(alloc),
        }
    }

    /// Copies of the rows in order.
    ///
    /// # Errors
    /// Where memory runs out.
    pub fn kept(&self) -> Result<Vec<Row>, AllocError>
        ensures { IfOk result (λ rows. rows.items ≡ self.now.rows) }
    {
        self.rows.to_vec()
    }
}

/// Adds a path, or none where memory runs out.
pub(crate) fn note(paths: &mut Vec<Text>, path: &str) -> Result<(), AllocError>
    ensures { StartsPath path.now paths.old.items paths.new.items result }
{
    let path = Text::from_str(*paths.allocator(), path)?;
    paths.push(path)?;
    Ok(())
}

impl Keeper for SureKeeper {
    ghost use Rattle.std.specs.Prelude.{true};

    ghost means = { λ s. record { rows = Some s.rows; count = length s.rows; sound = true; paths = s.paths; faults = 0 } };

    /// Notes the path, and keeps its rows, unless memory runs out.
    fn start(&mut self, path: &str) -> Result<(), KeepError>
        ensures ok { OnOk result (StartsRows (Some self.old.rows) (Some self.new.rows)) }
        ensures err { OnErr result (KeepsRows (Some self.old.rows) (Some self.new.rows)) }
        ensures err_count { OnErr result (length self.new.rows ≡ length self.old.rows) }
        ensures paths { StartsPath path.now self.old.paths self.new.paths result }
        ensures cause { HasKeepCause 0 0 result }
        ensures unchanged { self.new.rows ≡ self.old.rows }
        ensures sure { result ≢ Err KeepError.Failed }
    {
        note(&mut self.paths, path)?;
        Ok(())
    }

    fn size(&self) -> u64
        ensures count { result ≡ length self.now.rows }
        ensures rows { IfSome (Some self.now.rows) (λ rows. result ≡ length rows) }
    {
        self.rows.len() as u64
    }

    /// Appends copies of all the rows, or none where memory runs out.
    fn commit(&mut self, added: &[Row]) -> Result<(), KeepError>
        ensures ok { OnOk result (AppendsRows (Some self.old.rows) (Some self.new.rows) added.now) }
        ensures ok_count { OnOk result (length self.new.rows ≡ length self.old.rows + length added.now) }
        ensures err { OnErr result (KeepsRows (Some self.old.rows) (Some self.new.rows)) }
        ensures err_count { OnErr result (length self.new.rows ≡ length self.old.rows) }
        ensures paths { self.new.paths ≡ self.old.paths }
        ensures cause { HasKeepCause 0 0 result }
        ensures sure { result ≢ Err KeepError.Failed }
    {
        self.rows.extend(added)?;
        Ok(())
    }

    /// Copies the row of this index, unless memory runs out.
    fn load(&mut self, index: u64) -> Result<Row, KeepError>
        requires { index < length self.old.rows }
        ensures row { IfOk result (λ row. IfSome (Some self.new.rows) (λ rows. slice_get rows index ≡ Some row)) }
        ensures same { KeepsRows (Some self.old.rows) (Some self.new.rows) }
        ensures count { length self.new.rows ≡ length self.old.rows }
        ensures paths { self.new.paths ≡ self.old.paths }
        ensures cause { HasKeepCause 0 0 result }
        ensures unchanged { self.new ≡ self.old }
        ensures sure { result ≢ Err KeepError.Failed }
    {
        Ok(self.rows.get(index as usize)?)
    }
}
