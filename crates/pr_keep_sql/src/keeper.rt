ghost use Rattle.std.specs.Prelude.{◌≡◌, ◌≢◌, ◌+◌, ◌++◌, ◌<◌, [], length, Some, Err, IfOk, IfSome, IsSome, IsTrue, OnOk, OnErr, slice_get};
ghost use Rattle.pr_outside.specs.Causes.{HasKeepCause};
ghost use Rattle.pr_outside.specs.private.Kept.{AppendsRows, KeepsRows};
ghost use Rattle.pr_outside.specs.Paths.{Opens, StartsPath};
ghost use Rattle.pr_outside.specs.declared.keeping.KeepError.TheVariants.{Failed};
ghost use Rattle.pr_outside.specs.private.Schedule.{one_more};
ghost use Rattle.pr_keep_sql.specs.private.Counts.{CountsOne};
ghost use Rattle.pr_keep_sql.specs.private.Kept.{StaysTold};
ghost use Rattle.pr_keep_sql.specs.private.Opened.{CommitsIn, IsTrusted, LoadsIn, TellsOf, disk_faults, faults_with, rows_in, size_in, sound_in};
ghost use Rattle.pr_keep_sql.specs.declared.opened.Opened.TheVariants.{Nothing};

use crate::counts::{failed, faults_of};
use crate::opened::{Opened, in_file};
use crate::opening::Open;
use pr_outside::words_crate::Text;
use pr_outside::{KeepError, Keeper, Row, SureKeeper};
use sqlite::Alter;
use std::alloc::{AllocError, Global};

/// Rows kept in a file of SQLite, by its path, or in memory, which wants no database:
/// `SqlKeeper<_, DiskFile<..>>` over the files of the disk.
#[derive(Drop)]
pub struct SqlKeeper<S: Alter, O: Open<S>> {
    alloc: Global,
    files: O,
    opened: Opened<S>,
    paths: Vec<Text>,
    own: u64,
}

// Copies of these paths.
fn copy_paths(alloc: Global, paths: &[Text]) -> Result<Vec<Text>, AllocError>
    ensures { IfOk result (λ copies. copies.items ≡ paths.now) }
{
    let mut copies = Vec::new(alloc);
    for path in paths {
        copies.push(path.copy(alloc)?)?;
    }
    Ok(copies)
}

// These paths, and another one after them.
fn with_path(alloc: Global, paths: &[Text], path: &str) -> Result<Vec<Text>, AllocError>
    ensures { IfOk result (λ all. Opens path.now paths.now all.items) }
{
    let mut all = copy_paths(alloc, paths)?;
    all.push(Text::from_str(alloc, path)?)?;
    Ok(all)
}

// Appends rows to those in memory, where there are any to append.
fn commit_held(held: &mut SureKeeper, added: &[Row]) -> Result<(), KeepError>
    ensures ok { OnOk result (held.new.rows ≡ held.old.rows ++ added.now) }
    ensures err { OnErr result (held.new.rows ≡ held.old.rows) }
    ensures sure { result ≢ Err Failed }
{
    if added.is_empty() {
        return Ok(());
    }
    held.commit(added)
}

impl<S: Alter + Drop, O: Open<S>> SqlKeeper<S, O> {
    /// A store that has opened nothing yet, over these files.
    pub fn new(alloc: Global, files: O) -> SqlKeeper<S, O>
        ensures nothing { result.opened ≡ Nothing }
        ensures unopened { result.paths.items ≡ [] }
        ensures faultless { result.own ≡ 0 }
    {
        SqlKeeper {
            alloc,
            files,
            opened: Opened::Nothing,
            paths: Vec::new(alloc),
            own: 0,
        }
    }

    // Opens a store in memory, after which these are the paths.
    fn start_in_memory(&mut self, paths: Vec<Text>)
        ensures empty { rows_in S.Store self.new.opened ≡ Some [] }
        ensures paths { self.new.paths.items ≡ paths.items }
        ensures own { self.new.own ≡ self.old.own }
        ensures count { faults_with self.new.own self.new.opened ≡ self.old.own }
    {
        self.opened = Opened::Memory(SureKeeper::new(self.alloc));
        self.paths = paths;
    }

    // Opens the file at this path, after which these are the paths.
    fn start_at(&mut self, path: &str, paths: Vec<Text>) -> Result<(), KeepError>
        requires { self.old.opened ≡ Nothing }
        ensures told { IsTrusted S.Store self.new.opened → OnOk result (TellsOf (O.finds path.now) (rows_in S.Store self.new.opened)) }
        ensures tells { IsTrue (sound_in S.Store self.new.opened) → OnOk result (IsSome (rows_in S.Store self.new.opened)) }
        ensures paths { OnOk result (self.new.paths.items ≡ paths.items) }
        ensures err { OnErr result ((self.new.opened ≡ self.old.opened) × (self.new.paths.items ≡ self.old.paths.items)) }
        ensures cause { HasKeepCause self.old.own (faults_with self.new.own self.new.opened) result }
        ensures own { CountsOne self.old.own self.new.own result }
    {
        match in_file(&mut self.files, path, &mut self.own) {
            Ok(kept) => {
                self.opened = Opened::File(kept);
                self.paths = paths;
                Ok(())
            }
            Err(error) => Err(error),
        }
    }

    /// Opens the file at this path, or a store in memory where the path is empty. What stands in
    /// the tables of a file stays, and is told where they come first in it.
    ///
    /// # Errors
    /// `Failed` where something is open already, where the file cannot be opened, where it has
    /// tables of the store that are others or not in order, and where a statement is refused. What
    /// was open stays open.
    pub fn start(&mut self, path: &str) -> Result<(), KeepError>
        ensures first { OnOk result (self.old.opened ≡ Nothing) }
        ensures empty { OnOk result (path.now ≡ [] → rows_in S.Store self.new.opened ≡ Some []) }
        ensures told { IsTrusted S.Store self.new.opened → OnOk result (path.now ≢ [] → TellsOf (O.finds path.now) (rows_in S.Store self.new.opened)) }
        ensures err { OnErr result (self.new.opened ≡ self.old.opened) }
        // While what is open stands on what keeps its word, a call that succeeds leaves the rows told.
        ensures tells { IsTrue (sound_in S.Store self.new.opened) → OnOk result (IsSome (rows_in S.Store self.new.opened)) }
        ensures sound { IsTrue (sound_in S.Store self.new.opened) → IsTrue (sound_in S.Store self.old.opened) }
        // The path is noted where it is opened.
        ensures paths { StartsPath path.now self.old.paths.items self.new.paths.items result }
        ensures cause { HasKeepCause (faults_with self.old.own self.old.opened) (faults_with self.new.own self.new.opened) result }
        // A refusal adds one to its own count, and a start that succeeds leaves it.
        ensures own { CountsOne self.old.own self.new.own result }
        ensures second { self.old.opened ≢ Nothing → (result ≡ Err Failed) × (self.new.own ≡ one_more self.old.own) }
        // A first start in memory is refused for nothing but want of memory.
        ensures calm { path.now ≡ [] → self.old.opened ≡ Nothing → result ≢ Err Failed }
    {
        if !self.opened.is_nothing() {
            return Err(failed(&mut self.own));
        }
        let paths = with_path(self.alloc, &self.paths, path)?;
        if path.is_empty() {
            self.start_in_memory(paths);
            return Ok(());
        }
        self.start_at(path, paths)
    }

    /// How many rows there are: none before a start.
    pub fn size(&self) -> u64
        ensures count { result ≡ size_in self.now.opened }
        ensures rows { IfSome (rows_in S.Store self.now.opened) (λ rows. result ≡ length rows) }
    {
        match &self.opened {
            Opened::Nothing => 0,
            Opened::Memory(held) => held.size(),
            Opened::File(kept) => kept.size(),
        }
    }

    /// Appends all rows, in a file by one transaction. A refused call appends none.
    ///
    /// # Errors
    /// `Failed` before a start; and in a file where a number or a time is above 2^63 - 1, and where
    /// a statement is refused.
    pub fn commit(&mut self, added: &[Row]) -> Result<(), KeepError>
        ensures ok { OnOk result (AppendsRows (rows_in S.Store self.old.opened) (rows_in S.Store self.new.opened) added.now) }
        ensures ok_count { OnOk result (size_in self.new.opened ≡ size_in self.old.opened + length added.now) }
        ensures told { IsTrusted S.Store self.new.opened → OnOk result (IsSome (rows_in S.Store self.old.opened) → IsSome (rows_in S.Store self.new.opened)) }
        ensures err { OnErr result (KeepsRows (rows_in S.Store self.old.opened) (rows_in S.Store self.new.opened)) }
        ensures err_count { OnErr result (size_in self.new.opened ≡ size_in self.old.opened) }
        ensures tells { IsTrue (sound_in S.Store self.new.opened) → OnOk result (IsSome (rows_in S.Store self.new.opened)) }
        ensures sound { IsTrue (sound_in S.Store self.new.opened) → IsTrue (sound_in S.Store self.old.opened) }
        ensures paths { self.new.paths.items ≡ self.old.paths.items }
        ensures cause { HasKeepCause (faults_with self.old.own self.old.opened) (faults_with self.new.own self.new.opened) result }
        // Told rows stay told, also after a refused call, unless the disk has failed.
        ensures stays { IsTrusted S.Store self.new.opened → StaysTold (rows_in S.Store self.old.opened) (rows_in S.Store self.new.opened) (disk_faults S.Store self.old.opened) (disk_faults S.Store self.new.opened) }
        // It commits to what is open, whose count is the one that may rise.
        ensures done { CommitsIn S.Store added.now result self.old.opened self.new.opened }
        ensures own { self.old.opened ≢ Nothing → self.new.own ≡ self.old.own }
        ensures idle { self.old.opened ≡ Nothing → (result ≡ Err Failed) × (self.new.own ≡ one_more self.old.own) }
    {
        match &mut self.opened {
            Opened::Nothing => Err(failed(&mut self.own)),
            Opened::Memory(held) => commit_held(held, added),
            Opened::File(kept) => kept.commit(added),
        }
    }

    /// The row of this index. It changes no rows.
    ///
    /// # Errors
    /// `Failed` in a file where the query is refused, or the row is none of the store.
    pub fn load(&mut self, index: u64) -> Result<Row, KeepError>
        requires { index < size_in self.old.opened }
        ensures row { IfOk result (λ row. IfSome (rows_in S.Store self.new.opened) (λ rows. slice_get rows index ≡ Some row)) }
        ensures told { IsTrusted S.Store self.new.opened → OnOk result (IsSome (rows_in S.Store self.old.opened) → IsSome (rows_in S.Store self.new.opened)) }
        ensures same { KeepsRows (rows_in S.Store self.old.opened) (rows_in S.Store self.new.opened) }
        ensures count { size_in self.new.opened ≡ size_in self.old.opened }
        ensures tells { IsTrue (sound_in S.Store self.new.opened) → OnOk result (IsSome (rows_in S.Store self.new.opened)) }
        ensures sound { IsTrue (sound_in S.Store self.new.opened) → IsTrue (sound_in S.Store self.old.opened) }
        ensures paths { self.new.paths.items ≡ self.old.paths.items }
        ensures cause { HasKeepCause (faults_with self.old.own self.old.opened) (faults_with self.new.own self.new.opened) result }
        // Told rows stay told, also after a refused call, unless the disk has failed.
        ensures stays { IsTrusted S.Store self.new.opened → StaysTold (rows_in S.Store self.old.opened) (rows_in S.Store self.new.opened) (disk_faults S.Store self.old.opened) (disk_faults S.Store self.new.opened) }
        // It loads from what is open, whose count is the one that may rise.
        ensures done { LoadsIn S.Store index result self.old.opened self.new.opened }
        ensures own { self.new.own ≡ self.old.own }
    {
        match &mut self.opened {
            Opened::Nothing => Err(failed(&mut self.own)),
            Opened::Memory(held) => held.load(index),
            Opened::File(kept) => kept.load(index),
        }
    }

    /// How often a call was refused, up to 2^64 - 1. Want of memory is not counted.
    pub fn faults(&self) -> u64
        ensures { result ≡ faults_with self.now.own self.now.opened }
    {
        match &self.opened {
            Opened::Nothing | Opened::Memory(_) => self.own,
            Opened::File(kept) => faults_of(self.own, kept.faults()),
        }
    }
}

impl<S: Alter + Drop, O: Open<S>> Keeper for SqlKeeper<S, O> {
    ghost means = { λ k. record { rows = rows_in S.Store k.opened; count = size_in k.opened; sound = sound_in S.Store k.opened; paths = k.paths.items; faults = faults_with k.own k.opened } };

    #[tactic(auto, using(crate::proofs::OpenedLemmas::starts_on, crate::proofs::OpenedLemmas::stays_on))]
    fn start(&mut self, path: &str) -> Result<(), KeepError> {
        SqlKeeper::start(self, path)
    }

    fn size(&self) -> u64 {
        SqlKeeper::size(self)
    }

    fn commit(&mut self, added: &[Row]) -> Result<(), KeepError> {
        SqlKeeper::commit(self, added)
    }

    fn load(&mut self, index: u64) -> Result<Row, KeepError> {
        SqlKeeper::load(self, index)
    }
}
