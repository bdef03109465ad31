// Making the tables.
ghost use Rattle.std.specs.Prelude.{◌≡◌, ◌≤◌, [], IfErr, OnOk, OnErr, IsTrue, false};
ghost use Rattle.sqlite.specs.State.{ExecutesInside, HasCleanDisk, KeepsCommit};
ghost use Rattle.sqlite.specs.Held.{state};
ghost use Rattle.sqlite.specs.View.{doubt};
ghost use Rattle.pr_keep_sql.specs.private.Ran.{HasRun};
ghost use Rattle.pr_keep_sql.specs.private.Refusals.{IsStopped, IsTransactionRefused, RanInTurn};
ghost use Rattle.pr_keep_sql.specs.private.Statements.{Commits, GoesOn, Leaves, Makes, MakesKept, MakesVersion, Numbers};
ghost use Rattle.pr_keep_sql.specs.private.Texts.{kept_text, makings, number_text, version_text};

use sqlite::{Alter, Connection, Error, Transaction};

fn make_kept<S: Alter>(tx: &mut Transaction<'_, S>) -> Result<usize, Error>
    requires { HasCleanDisk (state S.Store tx.old.conn.now) → IsTrue (state S.Store tx.old.conn.now).in_transaction }
    ensures reference { tx.new.conn.ghost_name ≡ tx.old.conn.ghost_name }
    ensures ok { HasCleanDisk (state S.Store tx.new.conn.now) → OnOk result (GoesOn MakesKept (state S.Store tx.old.conn.now) (state S.Store tx.new.conn.now)) }
    ensures runs { HasCleanDisk (state S.Store tx.new.conn.now) → ExecutesInside 0 kept_text [] (state S.Store tx.old.conn.now) (state S.Store tx.new.conn.now) result }
    ensures kept { HasCleanDisk (state S.Store tx.new.conn.now) → KeepsCommit (state S.Store tx.old.conn.now) (state S.Store tx.new.conn.now) }
    ensures clean { doubt (state S.Store tx.old.conn.now).is_clean ≤ doubt (state S.Store tx.new.conn.now).is_clean }
{
    tx.execute(
        "CREATE TABLE kept(seq INTEGER PRIMARY KEY, series TEXT NOT NULL, time INTEGER NOT NULL, point TEXT NOT NULL)",
        &[],
    )
}

fn make_version<S: Alter>(tx: &mut Transaction<'_, S>) -> Result<usize, Error>
    requires { HasCleanDisk (state S.Store tx.old.conn.now) → IsTrue (state S.Store tx.old.conn.now).in_transaction }
    ensures reference { tx.new.conn.ghost_name ≡ tx.old.conn.ghost_name }
    ensures ok { HasCleanDisk (state S.Store tx.new.conn.now) → OnOk result (GoesOn MakesVersion (state S.Store tx.old.conn.now) (state S.Store tx.new.conn.now)) }
    ensures runs { HasCleanDisk (state S.Store tx.new.conn.now) → ExecutesInside 0 version_text [] (state S.Store tx.old.conn.now) (state S.Store tx.new.conn.now) result }
    ensures kept { HasCleanDisk (state S.Store tx.new.conn.now) → KeepsCommit (state S.Store tx.old.conn.now) (state S.Store tx.new.conn.now) }
    ensures clean { doubt (state S.Store tx.old.conn.now).is_clean ≤ doubt (state S.Store tx.new.conn.now).is_clean }
{
    tx.execute("CREATE TABLE version(n INTEGER PRIMARY KEY)", &[])
}

fn number<S: Alter>(tx: &mut Transaction<'_, S>) -> Result<usize, Error>
    requires { HasCleanDisk (state S.Store tx.old.conn.now) → IsTrue (state S.Store tx.old.conn.now).in_transaction }
    ensures reference { tx.new.conn.ghost_name ≡ tx.old.conn.ghost_name }
    ensures ok { HasCleanDisk (state S.Store tx.new.conn.now) → OnOk result (GoesOn Numbers (state S.Store tx.old.conn.now) (state S.Store tx.new.conn.now)) }
    ensures runs { HasCleanDisk (state S.Store tx.new.conn.now) → ExecutesInside 0 number_text [] (state S.Store tx.old.conn.now) (state S.Store tx.new.conn.now) result }
    ensures kept { HasCleanDisk (state S.Store tx.new.conn.now) → KeepsCommit (state S.Store tx.old.conn.now) (state S.Store tx.new.conn.now) }
    ensures clean { doubt (state S.Store tx.old.conn.now).is_clean ≤ doubt (state S.Store tx.new.conn.now).is_clean }
{
    tx.execute("INSERT INTO version (n) VALUES (1)", &[])
}

// Makes the tables inside a transaction.
#[tactic(auto, using(crate::proofs::MakingLemmas::making, crate::proofs::RefusalLemmas::made_in_turn, crate::proofs::RefusalLemmas::first_stopped, crate::proofs::RefusalLemmas::second_stopped, crate::proofs::RefusalLemmas::third_stopped))]
fn make_all<S: Alter>(tx: &mut Transaction<'_, S>) -> Result<(), Error>
    requires { HasCleanDisk (state S.Store tx.old.conn.now) → IsTrue (state S.Store tx.old.conn.now).in_transaction }
    ensures reference { tx.new.conn.ghost_name ≡ tx.old.conn.ghost_name }
    ensures ok { HasCleanDisk (state S.Store tx.new.conn.now) → OnOk result (GoesOn Makes (state S.Store tx.old.conn.now) (state S.Store tx.new.conn.now)) }
    ensures ran { HasCleanDisk (state S.Store tx.new.conn.now) → OnOk result (RanInTurn S.Store makings tx.old.conn.now tx.new.conn.now) }
    ensures stopped { HasCleanDisk (state S.Store tx.new.conn.now) → IfErr result (λ e. IsStopped S.Store makings e tx.old.conn.now tx.new.conn.now) }
    ensures kept { HasCleanDisk (state S.Store tx.new.conn.now) → KeepsCommit (state S.Store tx.old.conn.now) (state S.Store tx.new.conn.now) }
    ensures clean { doubt (state S.Store tx.old.conn.now).is_clean ≤ doubt (state S.Store tx.new.conn.now).is_clean }
{
    match make_kept(tx) {
        Ok(_) => {}
        Err(error) => return Err(error),
    }
    match make_version(tx) {
        Ok(_) => {}
        Err(error) => return Err(error),
    }
    match number(tx) {
        Ok(_) => Ok(()),
        Err(error) => Err(error),
    }
}

/// Makes the tables in one transaction, or nothing.
#[tactic(auto, using(crate::proofs::MakingLemmas::made, crate::proofs::StateLemmas::undone))]
pub(crate) fn make<S: Alter>(conn: &mut Connection<S>) -> Result<(), Error>
    requires mode { conn.old.in_transaction ≡ false }
    ensures mode { conn.new.in_transaction ≡ false }
    ensures ok { HasCleanDisk (state S.Store conn.new) → OnOk result (Commits Makes (state S.Store conn.old) (state S.Store conn.new)) }
    ensures err { HasCleanDisk (state S.Store conn.new) → OnErr result (Leaves (state S.Store conn.old) (state S.Store conn.new)) }
    ensures ran { HasCleanDisk (state S.Store conn.new) → OnOk result (HasRun S.Store makings conn.old conn.new) }
    ensures refused { HasCleanDisk (state S.Store conn.new) → IfErr result (λ e. IsTransactionRefused S.Store makings e conn.old conn.new) }
    ensures clean { doubt (state S.Store conn.old).is_clean ≤ doubt (state S.Store conn.new).is_clean }
{
    prove!(conn.is_autocommit());
    let mut tx = conn.transaction();
    match make_all(&mut tx) {
        Ok(()) => match tx.commit() {
            Ok(()) => Ok(()),
            Err(error) => Err(error),
        },
        Err(error) => Err(error),
    }
}
