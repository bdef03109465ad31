// What a store of a path has opened.
ghost use Rattle.std.specs.Prelude.{◌≡◌, ◌↔◌, ◌≤◌, [], IfOk, IsSome, IsTrue, Some, false};
ghost use Rattle.sqlite.specs.Held.{state};
ghost use Rattle.sqlite.specs.State.{HasCleanDisk};
ghost use Rattle.sqlite.specs.View.{doubt};
ghost use Rattle.pr_outside.specs.Causes.{HasKeepCause};
ghost use Rattle.pr_keep_sql.specs.private.Counts.{CountsOne, faults_of};
ghost use Rattle.pr_keep_sql.specs.private.Kept.{Keeps, listed};
ghost use Rattle.pr_keep_sql.specs.private.Opened.{TellsOf};
ghost use Rattle.pr_keep_sql.specs.private.Store.{faults_in, rows_of, sound_of};
ghost use Rattle.pr_keep_sql.specs.private.Tables.{HasOursFirst, schema_of};
ghost use Rattle.pr_keep_sql.specs.declared.opened.Opened.TheVariants.{Nothing};

use crate::counts::{faults_of, refusal};
use crate::kept::Kept;
use crate::opening::Open;
use pr_outside::{KeepError, SureKeeper};
use sqlite::{Alter, Connection};

/// What a store of a path has opened.
#[derive(Drop)]
pub(crate) enum Opened<S: Alter> {
    /// Nothing yet.
    Nothing,
    /// Rows in memory, which want no tables.
    Memory(SureKeeper),
    /// The tables of a file.
    File(Kept<S>),
}

impl<S: Alter> Opened<S> {
    /// Whether nothing is open.
    pub(crate) fn is_nothing(&self) -> bool
        ensures { IsTrue result ↔ (self.now ≡ Nothing) }
    {
        matches!(self, Opened::Nothing)
    }
}

// The rows of a connection, once its tables are ready. A refusal is counted.
#[tactic(auto, using(crate::proofs::OpenedLemmas::counts_first, crate::proofs::OpenedLemmas::counts_refusal, crate::proofs::OpenedLemmas::counts_one))]
fn readied<S: Alter + Drop>(conn: Connection<S>, own: &mut u64) -> Result<Kept<S>, KeepError>
    requires { conn.in_transaction ≡ false }
    ensures counts { IfOk result (λ k. faults_of own.new (faults_in k) ≡ own.old) }
    ensures made { IfOk result (λ k. HasCleanDisk (state S.Store k.conn) → (state S.Store conn).now.schema ≡ schema_of [] → rows_of S.Store k ≡ Some []) }
    ensures kept { IfOk result (λ k. HasCleanDisk (state S.Store k.conn) → HasOursFirst (state S.Store conn).now.schema → Keeps (state S.Store conn).now (listed (state S.Store conn).now) × (rows_of S.Store k ≡ Some (listed (state S.Store conn).now))) }
    ensures tells { IfOk result (λ k. IsTrue (sound_of S.Store k) → IsSome (rows_of S.Store k)) }
    ensures clean { IfOk result (λ k. doubt (state S.Store conn).is_clean ≤ doubt (state S.Store k.conn).is_clean) }
    ensures cause { HasKeepCause own.old own.new result }
    ensures once { CountsOne own.old own.new result }
{
    let before = *own;
    let mut kept = Kept::of(conn);
    match kept.ready() {
        Ok(()) => Ok(kept),
        Err(error) => {
            *own = faults_of(before, kept.faults());
            Err(error)
        }
    }
}

/// The tables of the file at a path. A refused opening is counted.
#[tactic(auto, using(crate::proofs::OpenedLemmas::opening_counts))]
pub(crate) fn in_file<S: Alter + Drop, O: Open<S>>(
    files: &mut O,
    path: &str,
    own: &mut u64,
) -> Result<Kept<S>, KeepError>
    ensures counts { IfOk result (λ k. faults_of own.new (faults_in k) ≡ own.old) }
    ensures told { IfOk result (λ k. HasCleanDisk (state S.Store k.conn) → TellsOf (O.finds path.now) (rows_of S.Store k)) }
    ensures tells { IfOk result (λ k. IsTrue (sound_of S.Store k) → IsSome (rows_of S.Store k)) }
    ensures cause { HasKeepCause own.old own.new result }
    ensures once { CountsOne own.old own.new result }
{
    match files.open(path) {
        Ok(conn) => readied(conn, own),
        Err(error) => Err(refusal(&error, own)),
    }
}
