// The statements over rows.
ghost use Rattle.std.specs.Prelude.{◌≡◌, ℕ, ◌+◌, ◌<◌, ◌^◌, ◌≤◌, List, ◌∷◌, [], length, IsUtf8, pos, ◌≤ℤ◌, unsigned_abs, slice_get, IfErr, IfOk, OnOk, OnErr, Some, IsTrue, false, true};
ghost use Rattle.sqlite.specs.State.{ExecutesInside, HasCleanDisk, KeepsCommit, QueriesRow};
ghost use Rattle.sqlite.specs.Held.{state};
ghost use Rattle.sqlite.specs.View.{doubt};
ghost use Rattle.pr_outside.specs.spec_history.declared.row.Row.{Row as Line};
ghost use Rattle.sqlite.specs.declared.types.Value.TheVariants.{Int, Text as Words};
ghost use Rattle.sqlite.specs.Order.{column};
ghost use Rattle.pr_keep_sql.specs.private.Counts.{AreWithin, is_want};
ghost use Rattle.pr_keep_sql.specs.private.Kept.{Keeps, listed};
ghost use Rattle.pr_keep_sql.specs.private.Ran.{HasLoaded, HasRun, IsShownAs};
ghost use Rattle.pr_keep_sql.specs.private.Refusals.{IsLoadRefused, IsStopped, IsTransactionRefused, RanInTurn};
ghost use Rattle.pr_keep_sql.specs.private.Statements.{Adds, Commits, GoesOn, Lasts, Leaves, ShowsAt, shown};
ghost use Rattle.pr_keep_sql.specs.private.Texts.{given_params, insert_text, inserts, select_text};

use pr_outside::Row;
use pr_outside::words_crate::Text;
use sqlite::{Alter, Connection, Error, Transaction, params};

// Adds one row inside a transaction.
fn insert<S: Alter>(
    tx: &mut Transaction<'_, S>,
    seq: i64,
    series: &str,
    time: i64,
    point: &str,
) -> Result<usize, Error>
    requires inside { HasCleanDisk (state S.Store tx.old.conn.now) → IsTrue (state S.Store tx.old.conn.now).in_transaction }
    requires seq { pos 0 ≤ℤ seq }
    requires time { pos 0 ≤ℤ time }
    ensures reference { tx.new.conn.ghost_name ≡ tx.old.conn.ghost_name }
    ensures ok { HasCleanDisk (state S.Store tx.new.conn.now) → OnOk result (GoesOn (Adds (unsigned_abs seq) (record { series = series.now; time = unsigned_abs time; point = point.now } ∷ []))
        (state S.Store tx.old.conn.now) (state S.Store tx.new.conn.now)) }
    ensures runs { HasCleanDisk (state S.Store tx.new.conn.now) → ExecutesInside 0 insert_text (given_params (unsigned_abs seq) (record { series = series.now; time = unsigned_abs time; point = point.now })) (state S.Store tx.old.conn.now) (state S.Store tx.new.conn.now) result }
    ensures kept { HasCleanDisk (state S.Store tx.new.conn.now) → KeepsCommit (state S.Store tx.old.conn.now) (state S.Store tx.new.conn.now) }
    ensures clean { doubt (state S.Store tx.old.conn.now).is_clean ≤ doubt (state S.Store tx.new.conn.now).is_clean }
    ensures lasts { Lasts (state S.Store tx.old.conn.now) (state S.Store tx.new.conn.now) }
{
    tx.execute(
        "INSERT INTO kept (seq, series, time, point) VALUES (?1, ?2, ?3, ?4)",
        params![seq, series, time, point],
    )
}

// Adds one row with this number inside a transaction.
fn add<S: Alter>(tx: &mut Transaction<'_, S>, seq: u64, row: &Row) -> Result<usize, Error>
    requires inside { HasCleanDisk (state S.Store tx.old.conn.now) → IsTrue (state S.Store tx.old.conn.now).in_transaction }
    requires seq { seq < 2 ^ 63 }
    requires time { row.now.time < 2 ^ 63 }
    ensures reference { tx.new.conn.ghost_name ≡ tx.old.conn.ghost_name }
    ensures ok { HasCleanDisk (state S.Store tx.new.conn.now) → OnOk result (GoesOn (Adds seq (row.now ∷ [])) (state S.Store tx.old.conn.now) (state S.Store tx.new.conn.now)) }
    ensures runs { HasCleanDisk (state S.Store tx.new.conn.now) → ExecutesInside 0 insert_text (given_params seq row.now) (state S.Store tx.old.conn.now) (state S.Store tx.new.conn.now) result }
    ensures kept { HasCleanDisk (state S.Store tx.new.conn.now) → KeepsCommit (state S.Store tx.old.conn.now) (state S.Store tx.new.conn.now) }
    ensures clean { doubt (state S.Store tx.old.conn.now).is_clean ≤ doubt (state S.Store tx.new.conn.now).is_clean }
    ensures lasts { Lasts (state S.Store tx.old.conn.now) (state S.Store tx.new.conn.now) }
{
    insert(
        tx,
        seq as i64,
        row.series.as_str(),
        row.time as i64,
        row.point.as_str(),
    )
}

// Adds all rows inside a transaction.
#[tactic(auto, using(crate::proofs::StateLemmas::lasts_still, crate::proofs::StateLemmas::lasts_then))]
fn add_rows<S: Alter>(tx: &mut Transaction<'_, S>, size: u64, rows: &[Row]) -> Result<(), Error>
    requires inside { HasCleanDisk (state S.Store tx.old.conn.now) → IsTrue (state S.Store tx.old.conn.now).in_transaction }
    requires within { AreWithin size rows.now }
    ensures reference { tx.new.conn.ghost_name ≡ tx.old.conn.ghost_name }
    ensures inside { HasCleanDisk (state S.Store tx.new.conn.now) → OnOk result (IsTrue (state S.Store tx.new.conn.now).in_transaction) }
    ensures ok { HasCleanDisk (state S.Store tx.new.conn.now) → OnOk result (IsTrue (state S.Store tx.new.conn.now).is_open → IsTrue (state S.Store tx.old.conn.now).is_open × Adds size rows.now (state S.Store tx.old.conn.now).now (state S.Store tx.new.conn.now).now) }
    ensures ran { HasCleanDisk (state S.Store tx.new.conn.now) → OnOk result (RanInTurn S.Store (inserts size rows.now) tx.old.conn.now tx.new.conn.now) }
    ensures stopped { HasCleanDisk (state S.Store tx.new.conn.now) → IfErr result (λ e. IsStopped S.Store (inserts size rows.now) e tx.old.conn.now tx.new.conn.now) }
    ensures kept { HasCleanDisk (state S.Store tx.new.conn.now) → KeepsCommit (state S.Store tx.old.conn.now) (state S.Store tx.new.conn.now) }
    ensures clean { doubt (state S.Store tx.old.conn.now).is_clean ≤ doubt (state S.Store tx.new.conn.now).is_clean }
    ensures lasts { Lasts (state S.Store tx.old.conn.now) (state S.Store tx.new.conn.now) }
{
    let mut seq = size;
    'rows: for row in rows {
        match add(tx, seq, row) {
            Ok(_) => seq += 1,
            Err(error) => return Err(error),
        }
    }
    Ok(())
}

/// Adds all rows in one transaction, or none.
#[tactic(auto, using(crate::proofs::StateLemmas::undone))]
pub(crate) fn add_all<S: Alter>(
    conn: &mut Connection<S>,
    size: u64,
    rows: &[Row],
) -> Result<(), Error>
    requires mode { conn.old.in_transaction ≡ false }
    requires within { AreWithin size rows.now }
    ensures mode { conn.new.in_transaction ≡ false }
    ensures ok { HasCleanDisk (state S.Store conn.new) → OnOk result (Commits (Adds size rows.now) (state S.Store conn.old) (state S.Store conn.new)) }
    ensures err { HasCleanDisk (state S.Store conn.new) → OnErr result (Leaves (state S.Store conn.old) (state S.Store conn.new)) }
    ensures ran { HasCleanDisk (state S.Store conn.new) → OnOk result (HasRun S.Store (inserts size rows.now) conn.old conn.new) }
    ensures refused { HasCleanDisk (state S.Store conn.new) → IfErr result (λ e. IsTransactionRefused S.Store (inserts size rows.now) e conn.old conn.new) }
    ensures clean { doubt (state S.Store conn.old).is_clean ≤ doubt (state S.Store conn.new).is_clean }
    ensures lasts { Lasts (state S.Store conn.old) (state S.Store conn.new) }
{
    prove!(conn.is_autocommit());
    let mut tx = conn.transaction();
    match add_rows(&mut tx, size, rows) {
        Ok(()) => match tx.commit() {
            Ok(()) => Ok(()),
            Err(error) => Err(error),
        },
        Err(error) => Err(error),
    }
}

// Finds one row.
fn find<S: Alter>(conn: &mut Connection<S>, seq: i64) -> Result<sqlite::Row, Error>
    requires mode { conn.old.in_transaction ≡ false }
    requires seq { pos 0 ≤ℤ seq }
    ensures mode { conn.new.in_transaction ≡ false }
    ensures ok { HasCleanDisk (state S.Store conn.new) → Keeps (state S.Store conn.old).now (listed (state S.Store conn.old).now) → IfOk result (ShowsAt (listed (state S.Store conn.old).now) (unsigned_abs seq)) }
    ensures runs { HasCleanDisk (state S.Store conn.new) → QueriesRow select_text (Int (pos (unsigned_abs seq)) ∷ []) (state S.Store conn.old) (state S.Store conn.new) result }
    ensures was_open { HasCleanDisk (state S.Store conn.new) → IsTrue (state S.Store conn.new).is_open → IsTrue (state S.Store conn.old).is_open }
    ensures same { HasCleanDisk (state S.Store conn.new) → IsTrue (state S.Store conn.new).is_open → (state S.Store conn.new).now ≡ (state S.Store conn.old).now }
    ensures open { HasCleanDisk (state S.Store conn.new) → OnOk result (IsTrue (state S.Store conn.old).is_open × IsTrue (state S.Store conn.new).is_open) }
    ensures clean { doubt (state S.Store conn.old).is_clean ≤ doubt (state S.Store conn.new).is_clean }
    ensures lasts { Lasts (state S.Store conn.old) (state S.Store conn.new) }
{
    prove!(conn.is_autocommit());
    conn.query_row(
        "SELECT series, time, point FROM kept WHERE seq = ?1",
        params![seq],
    )
}

// The text in this place of a row.
fn text_at(found: &sqlite::Row, at: usize) -> Result<Text, Error>
    ensures ok { IfOk result (λ text. column found.now at ≡ Words text) }
    ensures only { (text : List ℕ) → column found.now at ≡ Words text → at < length found.now → IsUtf8 text → IfErr result (λ e. IsTrue (is_want e)) }
{
    match found.get(at) {
        Ok(text) => Ok(Text::new(text)),
        Err(error) => Err(error),
    }
}

// The row that was found.
fn read_row(found: &sqlite::Row) -> Result<Row, Error>
    ensures ok { (row : Line) → found.now ≡ shown row → IfOk result (λ r. r ≡ row) }
    ensures as_shown { IfOk result (IsShownAs found.now) }
    ensures only { (row : Line) → found.now ≡ shown row → IsUtf8 row.series → IsUtf8 row.point → IfErr result (λ e. IsTrue (is_want e)) }
{
    Ok(Row {
        series: text_at(found, 0)?,
        time: found.get(1)?,
        point: text_at(found, 2)?,
    })
}

/// The row of this number.
pub(crate) fn load<S: Alter>(conn: &mut Connection<S>, seq: u64) -> Result<Row, Error>
    requires mode { conn.old.in_transaction ≡ false }
    requires seq { seq < 2 ^ 63 }
    ensures mode { conn.new.in_transaction ≡ false }
    ensures ok { HasCleanDisk (state S.Store conn.new) → Keeps (state S.Store conn.old).now (listed (state S.Store conn.old).now) → IfOk result (λ row. slice_get (listed (state S.Store conn.old).now) seq ≡ Some row) }
    ensures ran { HasCleanDisk (state S.Store conn.new) → IfOk result (λ row. HasLoaded S.Store seq row conn.old conn.new) }
    ensures refused { HasCleanDisk (state S.Store conn.new) → IfErr result (λ e. is_want e ≡ false → IsLoadRefused S.Store seq e conn.old conn.new) }
    ensures was_open { HasCleanDisk (state S.Store conn.new) → IsTrue (state S.Store conn.new).is_open → IsTrue (state S.Store conn.old).is_open }
    ensures same { HasCleanDisk (state S.Store conn.new) → IsTrue (state S.Store conn.new).is_open → (state S.Store conn.new).now ≡ (state S.Store conn.old).now }
    ensures open { HasCleanDisk (state S.Store conn.new) → OnOk result (IsTrue (state S.Store conn.old).is_open × IsTrue (state S.Store conn.new).is_open) }
    ensures clean { doubt (state S.Store conn.old).is_clean ≤ doubt (state S.Store conn.new).is_clean }
    ensures lasts { Lasts (state S.Store conn.old) (state S.Store conn.new) }
{
    match find(conn, seq as i64) {
        Ok(found) => read_row(&found),
        Err(error) => Err(error),
    }
}
