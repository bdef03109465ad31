// Reading the tables as they are found.
ghost use Rattle.std.specs.Prelude.{◌≡◌, ◌≢◌, ◌↔◌, ℕ, ◌<◌, ◌≤◌, ◌^◌, List, ◌∷◌, [], length, IfErr, IfOk, IfSome, IsSome, IsTrue, None, OnOk, map, pos, false};
ghost use Rattle.std.specs.List.Sorted.{IsPermutation};
ghost use Rattle.sqlite.specs.declared.types.Value.TheVariants.{Int};
ghost use Rattle.sqlite.specs.Effect.{IsDatabase};
ghost use Rattle.sqlite.specs.Held.{state};
ghost use Rattle.sqlite.specs.Order.{Row as Cells, column};
ghost use Rattle.sqlite.specs.State.{FailsToQuery, HasCleanDisk, Shown};
ghost use Rattle.sqlite.specs.View.{doubt};
ghost use Rattle.sqlite_value.specs.Value.{owned};
ghost use Rattle.pr_outside.specs.spec_history.declared.row.Row.{Row as Line};
ghost use Rattle.pr_keep_sql.specs.private.Found.{AreFound, IsFoundAt, IsText, IsTime};
ghost use Rattle.pr_keep_sql.specs.private.Kept.{Keeps, KeepsSo, versions};
ghost use Rattle.pr_keep_sql.specs.private.Ran.{HasRead, IsCount, numbers_in};
ghost use Rattle.pr_keep_sql.specs.private.Refusals.{IsReadingRefused};
ghost use Rattle.pr_keep_sql.specs.private.Tables.{HasOursFirst, stored_from};
ghost use Rattle.pr_keep_sql.specs.private.Texts.{numbers_text, rows_text};

use sqlite::{Alter, Connection, Error};
use sqlite_value::value::ValueRef;

// The number, where the value is one from 0 on.
fn number_in(value: ValueRef<'_>) -> Option<u64>
    ensures value { IfSome result (λ n. owned value.entry ≡ Int (pos n)) }
    ensures small { IfSome result (λ n. n < 2 ^ 63) }
    ensures none { result ≡ None → (n : ℕ) → owned value.entry ≢ Int (pos n) }
{
    match value {
        ValueRef::Int(n) => u64::try_from(n).ok(),
        _ => None,
    }
}

fn number_at(row: &sqlite::Row, at: usize) -> Option<u64>
    ensures value { IfSome result (λ n. column row.now at ≡ Int (pos n)) }
    ensures small { IfSome result (λ n. n < 2 ^ 63) }
    ensures none { result ≡ None → (n : ℕ) → column row.now at ≢ Int (pos n) }
{
    match row.get_ref(at) {
        Ok(value) => number_in(value),
        Err(_) => None,
    }
}

fn is_text_at(row: &sqlite::Row, at: usize) -> bool
    ensures { IsTrue result ↔ IsText (column row.now at) }
{
    matches!(row.get_ref(at), Ok(ValueRef::Text(_)))
}

fn is_time_at(row: &sqlite::Row, at: usize) -> bool
    ensures { IsTrue result ↔ IsTime (column row.now at) }
{
    match number_at(row, at) {
        Some(_) => true,
        None => false,
    }
}

// Whether the row shows this number, a text, a time and a text.
fn is_found_at(row: &sqlite::Row, seq: u64) -> bool
    ensures found { IsTrue result → IsFoundAt seq row.now }
    ensures all { IsFoundAt seq row.now → IsTrue result }
    ensures small { IsTrue result → seq < 2 ^ 63 }
{
    number_at(row, 0) == Some(seq) && is_text_at(row, 1) && is_time_at(row, 2) && is_text_at(row, 3)
}

// Whether the rows have the numbers from 0 on.
#[tactic(auto, using(crate::proofs::FoundLemmas::one_found, crate::proofs::FoundLemmas::all_found, crate::proofs::FoundLemmas::one_left))]
fn are_found(rows: &[sqlite::Row]) -> bool
    ensures found { IsTrue result → AreFound 0 rows.now }
    ensures all { AreFound 0 rows.now → IsTrue result }
    ensures few { IsTrue result → length rows.now ≤ 2 ^ 63 }
{
    let mut seq = 0u64;
    'rows: for row in rows {
        if !is_found_at(row, seq) {
            return false;
        }
        seq = seq.wrapping_add(1);
    }
    true
}

// Whether the rows are one, which shows the number 1.
fn are_one(rows: &[sqlite::Row]) -> bool
    ensures { IsTrue result ↔ (map (λ (cells : Cells). column cells 0) rows.now ≡ Int (pos 1) ∷ []) }
{
    match rows {
        [row] => number_at(row, 0) == Some(1),
        _ => false,
    }
}

// Whether the table `version` holds the number 1.
fn is_numbered<S: Alter>(conn: &mut Connection<S>) -> Result<bool, Error>
    requires mode { conn.old.in_transaction ≡ false }
    ensures mode { conn.new.in_transaction ≡ false }
    ensures ok { HasCleanDisk (state S.Store conn.new) → HasOursFirst (state S.Store conn.old).now.schema → IfOk result (λ b. IsTrue b ↔ (versions (state S.Store conn.old).now ≡ Int (pos 1) ∷ [])) }
    ensures shown { HasCleanDisk (state S.Store conn.new) → IfOk result (λ b. (rows : List Cells) × Shown numbers_text [] (state S.Store conn.old) (state S.Store conn.new) rows × (IsTrue b ↔ (numbers_in rows ≡ Int (pos 1) ∷ []))) }
    ensures refused { HasCleanDisk (state S.Store conn.new) → IfErr result (FailsToQuery numbers_text [] (state S.Store conn.old) (state S.Store conn.new)) }
    ensures was_open { HasCleanDisk (state S.Store conn.new) → IsTrue (state S.Store conn.new).is_open → IsTrue (state S.Store conn.old).is_open }
    ensures same { HasCleanDisk (state S.Store conn.new) → IsTrue (state S.Store conn.new).is_open → (state S.Store conn.new).now ≡ (state S.Store conn.old).now }
    ensures open { HasCleanDisk (state S.Store conn.new) → OnOk result (IsTrue (state S.Store conn.new).is_open) }
    ensures clean { doubt (state S.Store conn.old).is_clean ≤ doubt (state S.Store conn.new).is_clean }
{
    prove!(conn.is_autocommit());
    let found = conn.query_all("SELECT n FROM version", &[])?;
    Ok(are_one(found.as_slice()))
}

// How many the rows are, where they have the numbers from 0 on.
fn counted(rows: &[sqlite::Row]) -> Option<u64>
    ensures count { IsCount rows.now result }
    ensures small { IfSome result (λ n. n ≤ 2 ^ 63) }
{
    if are_found(rows) {
        Some(rows.len() as u64)
    } else {
        None
    }
}

// How many rows the table `kept` has, where they are rows of the store.
fn count<S: Alter>(conn: &mut Connection<S>) -> Result<Option<u64>, Error>
    requires mode { conn.old.in_transaction ≡ false }
    ensures mode { conn.new.in_transaction ≡ false }
    ensures ok { HasCleanDisk (state S.Store conn.new) → HasOursFirst (state S.Store conn.old).now.schema → versions (state S.Store conn.old).now ≡ Int (pos 1) ∷ [] → IsDatabase (state S.Store conn.old).now → IfOk result (λ o. IfSome o (λ n. KeepsSo (state S.Store conn.old).now n)) }
    ensures all { HasCleanDisk (state S.Store conn.new) → HasOursFirst (state S.Store conn.old).now.schema → (rows : List Line) → IsPermutation (stored_from 0 rows) ((state S.Store conn.old).now.trees 0) → IfOk result IsSome }
    ensures shown { HasCleanDisk (state S.Store conn.new) → IfOk result (λ o. (rows : List Cells) × Shown rows_text [] (state S.Store conn.old) (state S.Store conn.new) rows × IsCount rows o) }
    ensures refused { HasCleanDisk (state S.Store conn.new) → IfErr result (FailsToQuery rows_text [] (state S.Store conn.old) (state S.Store conn.new)) }
    ensures small { IfOk result (λ o. IfSome o (λ n. n ≤ 2 ^ 63)) }
    ensures was_open { HasCleanDisk (state S.Store conn.new) → IsTrue (state S.Store conn.new).is_open → IsTrue (state S.Store conn.old).is_open }
    ensures same { HasCleanDisk (state S.Store conn.new) → IsTrue (state S.Store conn.new).is_open → (state S.Store conn.new).now ≡ (state S.Store conn.old).now }
    ensures open { HasCleanDisk (state S.Store conn.new) → OnOk result (IsTrue (state S.Store conn.new).is_open) }
    ensures clean { doubt (state S.Store conn.old).is_clean ≤ doubt (state S.Store conn.new).is_clean }
{
    prove!(conn.is_autocommit());
    let found = conn.query_all(
        "SELECT seq, series, time, point FROM kept ORDER BY seq",
        &[],
    )?;
    Ok(counted(found.as_slice()))
}

/// How many rows the tables of the store keep, where the number and the rows are in order.
pub(crate) fn found<S: Alter>(conn: &mut Connection<S>) -> Result<Option<u64>, Error>
    requires mode { conn.old.in_transaction ≡ false }
    ensures mode { conn.new.in_transaction ≡ false }
    ensures ok { HasCleanDisk (state S.Store conn.new) → HasOursFirst (state S.Store conn.old).now.schema → IsDatabase (state S.Store conn.old).now → IfOk result (λ o. IfSome o (λ n. KeepsSo (state S.Store conn.old).now n)) }
    ensures all { HasCleanDisk (state S.Store conn.new) → (rows : List Line) → Keeps (state S.Store conn.old).now rows → IfOk result IsSome }
    ensures ran { HasCleanDisk (state S.Store conn.new) → IfOk result (λ o. HasRead S.Store o conn.old conn.new) }
    ensures refused { HasCleanDisk (state S.Store conn.new) → IfErr result (λ e. IsReadingRefused S.Store e conn.old conn.new) }
    ensures small { IfOk result (λ o. IfSome o (λ n. n ≤ 2 ^ 63)) }
    ensures was_open { HasCleanDisk (state S.Store conn.new) → IsTrue (state S.Store conn.new).is_open → IsTrue (state S.Store conn.old).is_open }
    ensures same { HasCleanDisk (state S.Store conn.new) → IsTrue (state S.Store conn.new).is_open → (state S.Store conn.new).now ≡ (state S.Store conn.old).now }
    ensures open { HasCleanDisk (state S.Store conn.new) → OnOk result (IsTrue (state S.Store conn.new).is_open) }
    ensures clean { doubt (state S.Store conn.old).is_clean ≤ doubt (state S.Store conn.new).is_clean }
{
    match is_numbered(conn) {
        Ok(true) => count(conn),
        Ok(false) => Ok(None),
        Err(error) => Err(error),
    }
}
