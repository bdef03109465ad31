// Forms in memory that fail where they are told to.
ghost use Rattle.std.specs.Prelude.{◌≡◌, ◌≢◌, ◌↔◌, ℕ, ◌+◌, ◌<◌, ◌≤◌, List, [], ◌++◌, length, min, take, drop, Some, IsTrue, IsErr, IfOk, IfSome, OnOk, OnErr, slice_get};
ghost use Rattle.std.specs.Io.{ReadsAtMost, WritesAtMost};
ghost use Rattle.std.specs.Io.KnownBytes.{ReadConsumes, WriteAppends};
ghost use Rattle.pr_outside.specs.Causes.{HasReadCause, HasWriteCause, HasFilesCause, HasKeepCause};
ghost use Rattle.pr_outside.specs.Contents.{IsFound, IsWithinLimit};
ghost use Rattle.pr_outside.specs.Courses.{course_after, is_last_read, is_refused, taken_after};
ghost use Rattle.pr_outside.specs.private.HeldFiles.{content_of, files_of};
ghost use Rattle.pr_outside.specs.private.Kept.{KeepsRows, StartsRows, AppendsRows};
ghost use Rattle.pr_outside.specs.Paths.{StartsPath};
ghost use Rattle.pr_outside.specs.private.Schedule.{after_call, fails_next, one_more, schedule_of};

use super::schedule::Schedule;
use super::sure::{is_end, note};
use super::{
    Course, Failed, FileContent, Files, FilesError, HeldFile, KeepError, Keeper, Row, Sink,
    SinkError, Source, SureFiles, SureSink, SureSource,
};
use pr_words::Text;
use std::alloc::{AllocError, Global};
use std::marker::Model;

/// A source of bytes in memory, some of whose reads fail. Contracts see the bytes that are left, how
/// many were taken, and the schedule: the numbers of the calls that are to fail, and the counts of
/// calls and of faults.
#[derive(Debug, Drop)]
pub struct MemSource {
    inner: SureSource,
    schedule: Schedule,
    course: Course,
}

impl Model for MemSource {
    ghost use Rattle.pr_outside.specs.private.Failing.{FailingSource};

    ghost Value = { FailingSource };

    ghost view = { λ m. record { left = m.inner.left; taken = m.inner.taken; schedule = m.schedule; course = m.course } };
}

impl MemSource {
    /// A source of these bytes, whose calls of `read` with these numbers, counted from 1, fail.
    pub fn new(content: Vec<u8>, fails: Vec<u64>) -> MemSource
        ensures { result ≡ record { left = content.items; taken = 0; schedule = schedule_of fails.items; course = Course.Going } }
    {
        MemSource {
            inner: SureSource::new(content),
            schedule: Schedule::new(fails),
            course: Course::Going,
        }
    }
}

impl Source for MemSource {
    ghost means = { λ m. record { left = Some m.left; taken = m.taken; faults = m.schedule.faults; course = m.course } };

    /// Gives as many bytes as are left and fit, unless this call is to fail.
    fn read(&mut self, buf: &mut [u8]) -> Result<usize, Failed>
        ensures bound { ReadsAtMost result buf.new }
        ensures bytes { ReadConsumes (Some self.old.left) (Some self.new.left) result buf.new }
        ensures taken { self.new.taken ≡ taken_after self.old.taken result }
        ensures cause { HasReadCause self.old.schedule.faults self.new.schedule.faults result }
        ensures course { self.new.course ≡ course_after self.old.course (is_last_read result buf.new) }
        ensures failed { IsErr result ↔ IsTrue (fails_next self.old.schedule) }
        ensures schedule { self.new.schedule ≡ after_call self.old.schedule }
        ensures count { IfOk result (λ n. n ≡ min (length self.old.left) (length buf.old)) }
        ensures copied { IfOk result (λ n. buf.new ≡ take n self.old.left ++ drop n buf.old) }
        ensures rest { IfOk result (λ n. self.new.left ≡ drop n self.old.left) }
        ensures err { OnErr result (buf.new ≡ buf.old) }
    {
        if self.schedule.next_fails() {
            self.course = self.course.after(true);
            return Err(Failed);
        }
        let count = self.inner.read(buf)?;
        self.course = self.course.after(is_end(count, buf));
        Ok(count)
    }
}

/// A sink of bytes in memory, some of whose writes fail. Contracts see the bytes that it took, and
/// the schedule, as with `MemSource`.
#[derive(Debug, Drop)]
pub struct MemSink {
    inner: SureSink,
    schedule: Schedule,
    course: Course,
}

impl Model for MemSink {
    ghost use Rattle.pr_outside.specs.private.Failing.{FailingSink};

    ghost Value = { FailingSink };

    ghost view = { λ m. record { taken = m.inner.taken; schedule = m.schedule; course = m.course } };
}

impl MemSink {
    /// An empty sink, whose calls of `write` with these numbers, counted from 1, fail.
    pub fn new(alloc: Global, fails: Vec<u64>) -> MemSink
        ensures { result ≡ record { taken = []; schedule = schedule_of fails.items; course = Course.Going } }
    {
        MemSink {
            inner: SureSink::new(alloc),
            schedule: Schedule::new(fails),
            course: Course::Going,
        }
    }

    /// The bytes that it took.
    pub fn bytes(&self) -> &[u8]
        ensures { result.now ≡ self.now.taken }
    {
        self.inner.bytes()
    }
}

impl Sink for MemSink {
    ghost means = { λ m. record { taken = Some m.taken; faults = m.schedule.faults; course = m.course } };

    /// Takes the whole piece, unless this call is to fail or memory runs out.
    fn write(&mut self, bytes: &[u8]) -> Result<usize, SinkError>
        ensures bound { WritesAtMost result bytes.now }
        ensures some { IfOk result (λ n. 0 < length bytes.now → 0 < n) }
        ensures bytes { WriteAppends (Some self.old.taken) (Some self.new.taken) result bytes.now }
        ensures cause { HasWriteCause self.old.schedule.faults self.new.schedule.faults result }
        ensures course { self.new.course ≡ course_after self.old.course (is_refused result) }
        ensures failed { (result ≡ Err SinkError.Failed) ↔ IsTrue (fails_next self.old.schedule) }
        ensures schedule { self.new.schedule ≡ after_call self.old.schedule }
        ensures whole { IfOk result (λ n. n ≡ length bytes.now) }
    {
        if self.schedule.next_fails() {
            self.course = self.course.after(true);
            return Err(SinkError::Failed);
        }
        match self.inner.write(bytes) {
            Ok(count) => {
                self.course = self.course.after(false);
                Ok(count)
            }
            Err(error) => {
                self.course = self.course.after(true);
                Err(error)
            }
        }
    }
}

/// Files in memory, some of whose loads fail. Of two of one name the first counts. Contracts see
/// the names and the bytes of the files, and the schedule, as with `MemSource`.
#[derive(Debug, Drop)]
pub struct MemFiles {
    inner: SureFiles,
    schedule: Schedule,
    course: Course,
}

impl Model for MemFiles {
    ghost use Rattle.pr_outside.specs.private.Failing.{FailingFiles};

    ghost Value = { FailingFiles };

    ghost view = { λ m. record { files = m.inner.files; schedule = m.schedule; course = m.course } };
}

impl MemFiles {
    /// These files, whose calls of `load` with these numbers, counted from 1, fail.
    pub fn new(content: Vec<HeldFile>, fails: Vec<u64>) -> MemFiles
        ensures { result ≡ record { files = files_of content.items; schedule = schedule_of fails.items; course = Course.Going } }
    {
        MemFiles {
            inner: SureFiles::new(content),
            schedule: Schedule::new(fails),
            course: Course::Going,
        }
    }
}

impl Files for MemFiles {
    ghost means = { λ m. record { content = λ name. Some (content_of m.files name); calls = m.schedule.calls; faults = m.schedule.faults; course = m.course } };

    /// Copies the file of this name, unless this call is to fail or memory runs out.
    fn load(&mut self, name: &str) -> Result<FileContent, FilesError>
        ensures found { IfOk result (IsFound (Some (content_of self.old.files name.now))) }
        ensures limit { IfOk result IsWithinLimit }
        ensures calls { self.new.schedule.calls ≡ one_more self.old.schedule.calls }
        ensures unchanged { self.new.files ≡ self.old.files }
        ensures cause { HasFilesCause self.old.schedule.faults self.new.schedule.faults result }
        ensures course { self.new.course ≡ course_after self.old.course (is_refused result) }
        ensures failed { (result ≡ Err FilesError.Failed) ↔ IsTrue (fails_next self.old.schedule) }
        ensures schedule { self.new.schedule ≡ after_call self.old.schedule }
    {
        if self.schedule.next_fails() {
            self.course = self.course.after(true);
            return Err(FilesError::Failed);
        }
        match self.inner.load(name) {
            Ok(found) => {
                self.course = self.course.after(false);
                Ok(found)
            }
            Err(error) => {
                self.course = self.course.after(true);
                Err(error)
            }
        }
    }
}

/// Rows in memory, some of whose commits fail. Contracts see the rows in order, the paths that were
/// opened, and the schedule, as with `MemSource`.
#[derive(Debug, Drop)]
pub struct MemKeeper {
    rows: Vec<Row>,
    paths: Vec<Text>,
    schedule: Schedule,
}

impl Model for MemKeeper {
    ghost use Rattle.pr_outside.specs.private.Failing.{FailingKeeper};

    ghost Value = { FailingKeeper };

    ghost view = { λ m. record { rows = m.rows.items; paths = m.paths.items; schedule = m.schedule } };
}

impl MemKeeper {
    /// These rows, whose calls of `commit` with these numbers, counted from 1, fail. No path was opened.
    pub fn new(rows: Vec<Row>, fails: Vec<u64>) -> MemKeeper
        ensures { result ≡ record { rows = rows.items; paths = []; schedule = schedule_of fails.items } }
    {
        let paths = Vec::new(*rows.allocator());
        MemKeeper {
            rows,
            paths,
            schedule: Schedule::new(fails),
        }
    }

    /// The rows in order.
    pub fn kept(&self) -> &[Row]
        ensures { result.now ≡ self.now.rows }
    {
        &self.rows
    }
}

// A row of its own, with the same texts.
fn copy_row(alloc: Global, row: &Row) -> Result<Row, AllocError>
    ensures { IfOk result (λ r. r ≡ row.now) }
{
    Ok(Row {
        series: row.series.copy(alloc)?,
        time: row.time,
        point: row.point.copy(alloc)?,
    })
}

// Rows of their own, with the same texts.
fn copy_rows(alloc: Global, rows: &[Row]) -> Result<Vec<Row>, AllocError>
    ensures { IfOk result (λ v. v.items ≡ rows.now) }
{
    let mut copies = Vec::with_capacity(alloc, rows.len())?;
    for row in rows {
        copies.push(copy_row(alloc, row)?)?;
    }
    Ok(copies)
}

impl Keeper for MemKeeper {
    ghost use Rattle.std.specs.Prelude.{true};

    ghost means = { λ m. record { rows = Some m.rows; count = length m.rows; sound = true; paths = m.paths; faults = m.schedule.faults } };

    /// Notes the path, and keeps its rows, unless memory runs out.
    fn start(&mut self, path: &str) -> Result<(), KeepError>
        ensures ok { OnOk result (StartsRows (Some self.old.rows) (Some self.new.rows)) }
        ensures err { OnErr result (KeepsRows (Some self.old.rows) (Some self.new.rows)) }
        ensures err_count { OnErr result (length self.new.rows ≡ length self.old.rows) }
        ensures paths { StartsPath path.now self.old.paths self.new.paths result }
        ensures cause { HasKeepCause self.old.schedule.faults self.new.schedule.faults result }
        ensures unchanged { (self.new.rows ≡ self.old.rows) × (self.new.schedule ≡ self.old.schedule) }
        ensures sure { result ≢ Err KeepError.Failed }
    {
        note(&mut self.paths, path)?;
        Ok(())
    }

    fn size(&self) -> u64
        ensures count { result ≡ length self.now.rows }
        ensures rows { IfSome (Some self.now.rows) (λ rows. result ≡ length rows) }
    {
        self.rows.len() as u64
    }

    /// Appends copies of all the rows, or none where this call is to fail or memory runs out.
    fn commit(&mut self, added: &[Row]) -> Result<(), KeepError>
        ensures ok { OnOk result (AppendsRows (Some self.old.rows) (Some self.new.rows) added.now) }
        ensures ok_count { OnOk result (length self.new.rows ≡ length self.old.rows + length added.now) }
        ensures err { OnErr result (KeepsRows (Some self.old.rows) (Some self.new.rows)) }
        ensures err_count { OnErr result (length self.new.rows ≡ length self.old.rows) }
        ensures paths { self.new.paths ≡ self.old.paths }
        ensures cause { HasKeepCause self.old.schedule.faults self.new.schedule.faults result }
        ensures failed { (result ≡ Err KeepError.Failed) ↔ IsTrue (fails_next self.old.schedule) }
        ensures schedule { self.new.schedule ≡ after_call self.old.schedule }
    {
        if self.schedule.next_fails() {
            return Err(KeepError::Failed);
        }
        let mut copies = copy_rows(*self.rows.allocator(), added)?;
        self.rows.append(&mut copies)?;
        Ok(())
    }

    /// Copies the row of this index, unless memory runs out.
    fn load(&mut self, index: u64) -> Result<Row, KeepError>
        requires { index < length self.old.rows }
        ensures row { IfOk result (λ row. IfSome (Some self.new.rows) (λ rows. slice_get rows index ≡ Some row)) }
        ensures same { KeepsRows (Some self.old.rows) (Some self.new.rows) }
        ensures count { length self.new.rows ≡ length self.old.rows }
        ensures paths { self.new.paths ≡ self.old.paths }
        ensures cause { HasKeepCause self.old.schedule.faults self.new.schedule.faults result }
        ensures unchanged { self.new ≡ self.old }
        ensures sure { result ≢ Err KeepError.Failed }
    {
        Ok(copy_row(*self.rows.allocator(), &self.rows[index as usize])?)
    }
}
