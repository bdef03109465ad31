// Rows kept in the tables of a connection.
ghost use Rattle.std.specs.Prelude.{◌≡◌, ◌≢◌, ◌↔◌, ◌⊎◌, List, [], ◌+◌, ◌<◌, ◌≤◌, length, IfOk, IfSome, OnOk, OnErr, IsTrue, IsSome, Some, Err, slice_get, true, false};
ghost use Rattle.sqlite.specs.Held.{state};
ghost use Rattle.sqlite.specs.State.{HasCleanDisk, IsLive};
ghost use Rattle.sqlite.specs.View.{doubt};
ghost use Rattle.pr_outside.specs.Causes.{HasKeepCause};
ghost use Rattle.pr_outside.specs.private.Kept.{KeepsRows, AppendsRows};
ghost use Rattle.pr_outside.specs.spec_history.declared.row.Row.{Row as Line};
ghost use Rattle.pr_outside.specs.declared.keeping.KeepError.TheVariants.{Failed};
ghost use Rattle.pr_outside.specs.private.Schedule.{one_more};
ghost use Rattle.pr_keep_sql.specs.private.Counts.{AreWithin, CountsOnce};
ghost use Rattle.pr_keep_sql.specs.private.Kept.{Keeps, StaysTold, listed};
ghost use Rattle.pr_keep_sql.specs.private.Ran.{HasLoaded, HasRead, HasRun};
ghost use Rattle.pr_keep_sql.specs.private.Refusals.{IsLoadRefused, IsReadingRefused, IsRefusal, IsTransactionRefused};
ghost use Rattle.pr_keep_sql.specs.private.Statements.{Leaves};
ghost use Rattle.pr_keep_sql.specs.private.Store.{faults_in, rows_of};
ghost use Rattle.pr_keep_sql.specs.private.Tables.{HasOurs, HasOursFirst, IsFree, IsOther, schema_of};
ghost use Rattle.pr_keep_sql.specs.private.Texts.{inserts, makings};

use crate::counts::{are_within, failed, faults_of, refusal};
use crate::making::make;
use crate::reading::found;
use crate::statements::{add_all, load};
use crate::tables::{Standing, standing_of};
use pr_outside::{KeepError, Row};
use sqlite::{Alter, Connection};
use std::marker::Model;

/// Rows kept in the tables of a connection. Contracts see the connection, how many rows there are,
/// whether the tables are ready and whether they stand first, and the counts: of the statements that
/// were refused, and of the store's own refusals.
#[derive(Drop)]
pub struct Kept<S: Alter> {
    conn: Connection<S>,
    size: u64,
    is_ready: bool,
    is_first: bool,
    refused: u64,
    odd: u64,
}

impl<S: Alter> Model for Kept<S> {
    ghost use Rattle.pr_keep_sql.specs.private.Store.{KeptStore, store_code, IsKept};

    ghost Value = { KeptStore S };

    ghost coded = { store_code S.code };

    ghost view = { λ k. record { conn = k.conn; size = k.size; is_ready = k.is_ready; is_first = k.is_first; refused = k.refused; odd = k.odd } };

    ghost invariant = { λ k. IsKept S.Store k.conn k.size k.is_ready k.is_first };
}

impl<S: Alter> Kept<S> {
    /// The rows of a connection, whose tables are not ready yet.
    pub fn of(conn: Connection<S>) -> Kept<S>
        requires { conn.in_transaction ≡ false }
        ensures { result ≡ record { conn = conn; size = 0; is_ready = false; is_first = false; refused = 0; odd = 0 } }
    {
        Kept {
            conn,
            size: 0,
            is_ready: false,
            is_first: false,
            refused: 0,
            odd: 0,
        }
    }

    /// Whether the tables are ready.
    pub fn is_ready(&self) -> bool
        ensures { result ≡ self.now.is_ready }
    {
        self.is_ready
    }

    /// How many rows there are.
    pub fn size(&self) -> u64
        ensures count { result ≡ self.now.size }
        ensures rows { IfSome (rows_of S.Store self.now) (λ rows. result ≡ length rows) }
    {
        self.size
    }

    /// How often a call was refused, up to 2^64 - 1.
    pub fn faults(&self) -> u64
        ensures { result ≡ faults_in self.now }
    {
        faults_of(self.refused, self.odd)
    }

    /// How many statements were refused, up to 2^64 - 1. Want of memory is not counted.
    pub fn refused(&self) -> u64
        ensures { result ≡ self.now.refused }
    {
        self.refused
    }

    /// How often the store refused a call itself, up to 2^64 - 1.
    pub fn odd(&self) -> u64
        ensures { result ≡ self.now.odd }
    {
        self.odd
    }

    // Makes the tables.
    #[tactic(auto, using(crate::proofs::KeptLemmas::made_so, crate::proofs::KeptLemmas::made_told, crate::proofs::RanLemmas::counts_once))]
    fn make(&mut self, is_first: bool) -> Result<(), KeepError>
        requires untold { self.old.is_first ≡ false }
        requires first { IsTrue is_first → (state S.Store self.old.conn).now.schema ≡ schema_of [] }
        ensures ok { OnOk result (IsTrue self.new.is_ready × (self.new.is_first ≡ is_first)) }
        ensures made { HasCleanDisk (state S.Store self.new.conn) → OnOk result (IsTrue is_first → rows_of S.Store self.new ≡ Some []) }
        ensures err { HasCleanDisk (state S.Store self.new.conn) → OnErr result (IsTrue (state S.Store self.new.conn).is_open → (state S.Store self.new.conn).now ≡ (state S.Store self.old.conn).now) }
        ensures keeps { OnErr result ((self.new.is_ready ≡ self.old.is_ready) × (self.new.size ≡ self.old.size)) }
        ensures untold { OnErr result (self.new.is_first ≡ false) }
        ensures clean { doubt (state S.Store self.old.conn).is_clean ≤ doubt (state S.Store self.new.conn).is_clean }
        ensures cause { HasKeepCause (faults_in self.old) (faults_in self.new) result }
        ensures odd { self.new.odd ≡ self.old.odd }
        ensures ran { HasCleanDisk (state S.Store self.new.conn) → OnOk result (HasRun S.Store makings self.old.conn self.new.conn) }
        ensures size { OnOk result (self.new.size ≡ 0) }
        ensures once { CountsOnce self.old.refused self.old.odd self.new.refused self.new.odd result }
        ensures refused { HasCleanDisk (state S.Store self.new.conn) → self.new.refused ≢ self.old.refused → IsRefusal (λ e. IsTransactionRefused S.Store makings e self.old.conn self.new.conn) }
    {
        match make(&mut self.conn) {
            Ok(()) => {
                self.size = 0;
                self.is_ready = true;
                self.is_first = is_first;
                Ok(())
            }
            Err(error) => Err(refusal(&error, &mut self.refused)),
        }
    }

    // Reads the tables that are there.
    #[tactic(auto, using(crate::proofs::RanLemmas::counts_once))]
    fn read(&mut self, is_first: bool) -> Result<(), KeepError>
        requires untold { self.old.is_first ≡ false }
        requires first { IsTrue is_first → HasOursFirst (state S.Store self.old.conn).now.schema }
        requires live { IsLive (state S.Store self.old.conn) }
        ensures ok { OnOk result (IsTrue self.new.is_ready × (self.new.is_first ≡ is_first)) }
        ensures kept { HasCleanDisk (state S.Store self.new.conn) → OnOk result (IsTrue is_first → Keeps (state S.Store self.old.conn).now (listed (state S.Store self.old.conn).now) × (rows_of S.Store self.new ≡ Some (listed (state S.Store self.old.conn).now))) }
        ensures found { HasCleanDisk (state S.Store self.new.conn) → OnOk result (IsTrue is_first → (rows : List Line) → Keeps (state S.Store self.old.conn).now rows → rows_of S.Store self.new ≡ Some rows) }
        ensures same { HasCleanDisk (state S.Store self.new.conn) → IsTrue (state S.Store self.new.conn).is_open → (state S.Store self.new.conn).now ≡ (state S.Store self.old.conn).now }
        ensures keeps { OnErr result ((self.new.is_ready ≡ self.old.is_ready) × (self.new.size ≡ self.old.size)) }
        ensures untold { OnErr result (self.new.is_first ≡ false) }
        ensures clean { doubt (state S.Store self.old.conn).is_clean ≤ doubt (state S.Store self.new.conn).is_clean }
        ensures cause { HasKeepCause (faults_in self.old) (faults_in self.new) result }
        ensures odd { HasCleanDisk (state S.Store self.new.conn) → (rows : List Line) → Keeps (state S.Store self.old.conn).now rows → self.new.odd ≡ self.old.odd }
        ensures ran { HasCleanDisk (state S.Store self.new.conn) → OnOk result (HasRead S.Store (Some self.new.size) self.old.conn self.new.conn) }
        ensures odd_ran { HasCleanDisk (state S.Store self.new.conn) → self.new.odd ≢ self.old.odd → HasRead S.Store None self.old.conn self.new.conn }
        ensures once { CountsOnce self.old.refused self.old.odd self.new.refused self.new.odd result }
        ensures refused { HasCleanDisk (state S.Store self.new.conn) → self.new.refused ≢ self.old.refused → IsRefusal (λ e. IsReadingRefused S.Store e self.old.conn self.new.conn) }
    {
        match found(&mut self.conn) {
            Ok(Some(size)) => {
                self.size = size;
                self.is_ready = true;
                self.is_first = is_first;
                Ok(())
            }
            Ok(None) => Err(failed(&mut self.odd)),
            Err(error) => Err(refusal(&error, &mut self.refused)),
        }
    }

    /// Makes the tables where the database has none with their names, in one transaction, or reads
    /// those that are there: the number 1, and rows numbered from 0 on without a gap. Tables with
    /// other names are passed over, but where one stands before those of the store, or anything was
    /// there when they were made, the rows are not told. Until this has succeeded nothing is kept. A
    /// further call reads the tables anew.
    ///
    /// # Errors
    /// `Failed` where the tables, the number or the rows are others, and where a statement is
    /// refused. What is in the database then stays as it was, and so does the number of rows, which
    /// are told no more; a store that was ready stays ready.
    #[tactic(auto, using(crate::proofs::KeptLemmas::has_schema, crate::proofs::FoundLemmas::bare_is_free, crate::proofs::FoundLemmas::not_free))]
    pub fn ready(&mut self) -> Result<(), KeepError>
        ensures ok { OnOk result (IsTrue self.new.is_ready) }
        // Rows are told where the tables stand first, as in a file that a store has made.
        ensures told { HasCleanDisk (state S.Store self.new.conn) → OnOk result (IsTrue self.new.is_first → IsSome (rows_of S.Store self.new)) }
        ensures first { OnOk result (IsTrue self.new.is_first ↔ ((state S.Store self.old.conn).now.schema ≡ schema_of []) ⊎ HasOursFirst (state S.Store self.old.conn).now.schema) }
        // Where nothing was, the tables are there and keep no row.
        ensures made { HasCleanDisk (state S.Store self.new.conn) → OnOk result ((state S.Store self.old.conn).now.schema ≡ schema_of [] → rows_of S.Store self.new ≡ Some []) }
        // The rows that the tables kept are told.
        ensures found { HasCleanDisk (state S.Store self.new.conn) → OnOk result ((rows : List Line) → Keeps (state S.Store self.old.conn).now rows → rows_of S.Store self.new ≡ Some rows) }
        // Where the tables stood first, they kept a list of rows.
        ensures kept { HasCleanDisk (state S.Store self.new.conn) → OnOk result (HasOursFirst (state S.Store self.old.conn).now.schema → Keeps (state S.Store self.old.conn).now (listed (state S.Store self.old.conn).now) × (rows_of S.Store self.new ≡ Some (listed (state S.Store self.old.conn).now))) }
        // Nothing is changed where a table has a name of the store, and by a refused call.
        ensures same { HasCleanDisk (state S.Store self.new.conn) → (¬ IsFree (state S.Store self.old.conn).now.schema) → IsTrue (state S.Store self.new.conn).is_open → (state S.Store self.new.conn).now ≡ (state S.Store self.old.conn).now }
        ensures err { HasCleanDisk (state S.Store self.new.conn) → OnErr result (IsTrue (state S.Store self.new.conn).is_open → (state S.Store self.new.conn).now ≡ (state S.Store self.old.conn).now) }
        // Other tables with a name of the store are refused, and looked into no further.
        ensures others { IsOther (state S.Store self.old.conn).now.schema → (result ≡ Err Failed) × (self.new.odd ≡ one_more self.old.odd) × (self.new.refused ≡ self.old.refused) × (self.new.conn ≡ self.old.conn) }
        // So a store of which this has succeeded once stays ready.
        ensures keeps { OnErr result ((self.new.is_ready ≡ self.old.is_ready) × (self.new.size ≡ self.old.size)) }
        ensures untold { OnErr result (self.new.is_first ≡ false) }
        ensures clean { doubt (state S.Store self.old.conn).is_clean ≤ doubt (state S.Store self.new.conn).is_clean }
        ensures cause { HasKeepCause (faults_in self.old) (faults_in self.new) result }
        ensures odd { IsFree (state S.Store self.old.conn).now.schema → self.new.odd ≡ self.old.odd }
        // The tables of the store are no refusal of its own.
        ensures kept_odd { HasCleanDisk (state S.Store self.new.conn) → (rows : List Line) → Keeps (state S.Store self.old.conn).now rows → self.new.odd ≡ self.old.odd }
        // Where no table has a name of the store the tables are made, in one transaction, and where
        // its tables are there they are read, whatever stands beside them.
        ensures made_ran { HasCleanDisk (state S.Store self.new.conn) → OnOk result (IsFree (state S.Store self.old.conn).now.schema → HasRun S.Store makings self.old.conn self.new.conn × (self.new.size ≡ 0)) }
        ensures read_ran { HasCleanDisk (state S.Store self.new.conn) → OnOk result ((¬ IsFree (state S.Store self.old.conn).now.schema) → HasRead S.Store (Some self.new.size) self.old.conn self.new.conn) }
        // The refusal of tables of the store is for what they were read to hold.
        ensures odd_ran { HasCleanDisk (state S.Store self.new.conn) → HasOurs (state S.Store self.old.conn).now.schema → self.new.odd ≢ self.old.odd → HasRead S.Store None self.old.conn self.new.conn }
        ensures once { CountsOnce self.old.refused self.old.odd self.new.refused self.new.odd result }
        // What is counted as refused is a statement that makes the tables, or one that reads them.
        ensures refused { HasCleanDisk (state S.Store self.new.conn) → self.new.refused ≢ self.old.refused → IsRefusal (λ e. IsTransactionRefused S.Store makings e self.old.conn self.new.conn ⊎ IsReadingRefused S.Store e self.old.conn self.new.conn) }
    {
        self.is_first = false;
        match standing_of(self.conn.schema()) {
            Standing::Free { is_first } => self.make(is_first),
            Standing::Ours { is_first } => self.read(is_first),
            Standing::Others => Err(failed(&mut self.odd)),
        }
    }

    /// Appends all rows in one transaction. A refused call appends none.
    #[tactic(auto, using(crate::proofs::KeptLemmas::appended, crate::proofs::KeptLemmas::stays, crate::proofs::KeptLemmas::some_told, crate::proofs::KeptLemmas::still_told, crate::proofs::StateLemmas::leaves_still, crate::proofs::RanLemmas::counts_once))]
    pub fn commit(&mut self, added: &[Row]) -> Result<(), KeepError>
        ensures ok { OnOk result (AppendsRows (rows_of S.Store self.old) (rows_of S.Store self.new) added.now) }
        ensures ok_count { OnOk result (self.new.size ≡ self.old.size + length added.now) }
        ensures told { HasCleanDisk (state S.Store self.new.conn) → OnOk result (IsTrue self.old.is_first → IsSome (rows_of S.Store self.new)) }
        ensures err { OnErr result (KeepsRows (rows_of S.Store self.old) (rows_of S.Store self.new)) }
        ensures err_count { OnErr result (self.new.size ≡ self.old.size) }
        ensures cause { HasKeepCause (faults_in self.old) (faults_in self.new) result }
        ensures odd { IsTrue self.old.is_ready → AreWithin self.old.size added.now → self.new.odd ≡ self.old.odd }
        // It is one transaction, whatever stands beside the tables: each row is inserted with the next number.
        ensures ran { HasCleanDisk (state S.Store self.new.conn) → OnOk result (HasRun S.Store (inserts self.old.size added.now) self.old.conn self.new.conn) }
        // A refused call leaves the database, whatever stands beside the tables.
        ensures left { HasCleanDisk (state S.Store self.new.conn) → OnErr result (Leaves (state S.Store self.old.conn) (state S.Store self.new.conn)) }
        // Told rows stay told, also after a refused call, unless the disk has failed.
        ensures stays { HasCleanDisk (state S.Store self.new.conn) → StaysTold (rows_of S.Store self.old) (rows_of S.Store self.new) (state S.Store self.old.conn).faults (state S.Store self.new.conn).faults }
        ensures once { CountsOnce self.old.refused self.old.odd self.new.refused self.new.odd result }
        ensures refused { HasCleanDisk (state S.Store self.new.conn) → self.new.refused ≢ self.old.refused → IsRefusal (λ e. IsTransactionRefused S.Store (inserts self.old.size added.now) e self.old.conn self.new.conn) }
        ensures clean { doubt (state S.Store self.old.conn).is_clean ≤ doubt (state S.Store self.new.conn).is_clean }
        ensures ready { (self.new.is_ready ≡ self.old.is_ready) × (self.new.is_first ≡ self.old.is_first) }
    {
        if !self.is_ready || !are_within(self.size, added) {
            return Err(failed(&mut self.odd));
        }
        match add_all(&mut self.conn, self.size, added) {
            Ok(()) => {
                self.size += added.len() as u64;
                Ok(())
            }
            Err(error) => Err(refusal(&error, &mut self.refused)),
        }
    }

    /// The row of this index. It changes no rows.
    #[tactic(auto, using(crate::proofs::KeptLemmas::stays, crate::proofs::KeptLemmas::some_told, crate::proofs::RanLemmas::counts_once))]
    pub fn load(&mut self, index: u64) -> Result<Row, KeepError>
        requires { index < self.old.size }
        ensures row { IfOk result (λ row. IfSome (rows_of S.Store self.new) (λ rows. slice_get rows index ≡ Some row)) }
        ensures told { HasCleanDisk (state S.Store self.new.conn) → OnOk result (IsTrue self.old.is_first → IsSome (rows_of S.Store self.new)) }
        ensures same { KeepsRows (rows_of S.Store self.old) (rows_of S.Store self.new) }
        ensures count { self.new.size ≡ self.old.size }
        ensures cause { HasKeepCause (faults_in self.old) (faults_in self.new) result }
        ensures odd { self.new.odd ≡ self.old.odd }
        // It is one query by the number, whatever stands beside the tables, which shows the row.
        ensures ran { HasCleanDisk (state S.Store self.new.conn) → IfOk result (λ row. HasLoaded S.Store index row self.old.conn self.new.conn) }
        // It leaves the database, whatever stands beside the tables.
        ensures left { HasCleanDisk (state S.Store self.new.conn) → Leaves (state S.Store self.old.conn) (state S.Store self.new.conn) }
        // Told rows stay told, also after a refused call, unless the disk has failed.
        ensures stays { HasCleanDisk (state S.Store self.new.conn) → StaysTold (rows_of S.Store self.old) (rows_of S.Store self.new) (state S.Store self.old.conn).faults (state S.Store self.new.conn).faults }
        ensures once { CountsOnce self.old.refused self.old.odd self.new.refused self.new.odd result }
        ensures refused { HasCleanDisk (state S.Store self.new.conn) → self.new.refused ≢ self.old.refused → IsRefusal (λ e. IsLoadRefused S.Store index e self.old.conn self.new.conn) }
        ensures clean { doubt (state S.Store self.old.conn).is_clean ≤ doubt (state S.Store self.new.conn).is_clean }
        ensures ready { (self.new.is_ready ≡ self.old.is_ready) × (self.new.is_first ≡ self.old.is_first) }
    {
        match load(&mut self.conn, index) {
            Ok(row) => Ok(row),
            Err(error) => Err(refusal(&error, &mut self.refused)),
        }
    }

    /// The connection.
    pub fn into_connection(self) -> Connection<S>
        ensures { result ≡ self.conn }
    {
        let Kept {
            conn,
            size: _,
            is_ready: _,
            is_first: _,
            refused: _,
            odd: _,
        } = self;
        conn
    }
}
