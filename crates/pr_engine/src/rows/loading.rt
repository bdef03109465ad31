// The history that the rows of a store tell.
ghost use Rattle.std.specs.Prelude.{◌≡◌, ◌≢◌, ℕ, ◌+◌, ◌<◌, List, [], ◌∷◌, ◌++◌, false, IfOk, IfSome, IsSome, IsTrue, OnOk, None, Some, Err};
ghost use Rattle.pr_outside.specs.spec_history.Admission.{admit};
ghost use Rattle.pr_outside.specs.spec_history.declared.append.Append.TheVariants.{Added};
ghost use Rattle.pr_outside.specs.spec_history.declared.entry.Entry.{Entry};
ghost use Rattle.pr_outside.specs.private.Kept.{KeepsRows};
ghost use Rattle.pr_outside.specs.spec_history.Puts.{is_added};
ghost use Rattle.pr_outside.specs.spec_history.Histories.{history_of};
ghost use Rattle.pr_outside.specs.spec_history.Rows.{decoded};
ghost use Rattle.pr_engine.specs.private.StartCauses.{HasStartCause, IfLoaded};
ghost use Rattle.pr_engine.specs.private.Loading.{HoldsNext, IsLoaded, IsLoadedTo, OnBadRow, next_entry};
ghost use Rattle.pr_engine.specs.private.Rows.{HoldsAll};

use crate::rows::fault::StartError;
use pr_head::Head;
use pr_outside::history::row::{RowFault, decode};
use pr_outside::history::{Append, Entry};
use pr_outside::{Keeper, Row};
use std::alloc::Global;

// Adds the entry of a row to the head.
#[tactic(auto, using(crate::proofs::Loaded::head_more, crate::proofs::Loaded::not_added))]
fn add_entry(head: &mut Head, entry: &Entry, index: u64) -> Result<(), StartError>
    ensures added { (history : List Entry) → HoldsAll head.old history → OnOk result (admit history entry.now.labels entry.now.time entry.now.point ≡ Added) }
    ensures head { (history : List Entry) → HoldsAll head.old history → OnOk result (HoldsAll head.new (history ++ entry.now ∷ [])) }
    ensures bad { (history : List Entry) → HoldsAll head.old history → OnBadRow index (is_added (admit history entry.now.labels entry.now.time entry.now.point) ≡ false) result }
    ensures never { result ≢ Err StartError.StoreFailed }
{
    match head.append(&entry.labels, entry.time, entry.point) {
        Ok(Append::Added) => Ok(()),
        Ok(_) => Err(StartError::BadRow { index }),
        Err(_) => Err(StartError::Memory),
    }
}

// Adds the entry of a row that was loaded, where it is the row of one.
#[tactic(auto, using(crate::proofs::Loaded::holds_next, crate::proofs::Loaded::bad_next, crate::proofs::Loaded::none_next))]
fn add_row(alloc: Global, head: &mut Head, row: &Row, index: u64) -> Result<(), StartError>
    ensures ok { (history : List Entry) → HoldsAll head.old history → OnOk result (HoldsNext history row.now head.new) }
    ensures bad { (history : List Entry) → HoldsAll head.old history → OnBadRow index (next_entry history (decoded row.now) ≡ None) result }
    ensures never { result ≢ Err StartError.StoreFailed }
{
    match decode(alloc, row) {
        Ok(entry) => add_entry(head, &entry, index),
        Err(RowFault::BadRow) => Err(StartError::BadRow { index }),
        Err(RowFault::Memory) => Err(StartError::Memory),
    }
}

// Loads a row, and adds its entry.
#[tactic(auto, using(crate::proofs::Loaded::no_bad_row, crate::proofs::Loaded::told_at_all, crate::proofs::Loaded::none_told))]
fn load_row<K: Keeper>(
    alloc: Global,
    keeper: &mut K,
    head: &mut Head,
    index: u64,
) -> Result<(), StartError>
    requires { index < (K.means keeper.old).count }
    ensures ok { IsLoadedTo index head.old (K.means keeper.old) → OnOk result (IsLoadedTo (index + 1) head.new (K.means keeper.new)) }
    ensures bad { IsLoadedTo index head.old (K.means keeper.old) → (at : ℕ) → result ≡ Err (StartError.BadRow at) → IfSome (K.means keeper.new).rows (λ rows. history_of rows ≡ Err at) }
    ensures same { KeepsRows (K.means keeper.old).rows (K.means keeper.new).rows }
    ensures count { (K.means keeper.new).count ≡ (K.means keeper.old).count }
    ensures tells { IsTrue (K.means keeper.new).sound → IsSome (K.means keeper.old).rows → IfLoaded result (IsSome (K.means keeper.new).rows) }
    ensures sound { IsTrue (K.means keeper.new).sound → IsTrue (K.means keeper.old).sound }
    ensures paths { (K.means keeper.new).paths ≡ (K.means keeper.old).paths }
    ensures cause { HasStartCause (K.means keeper.old).faults (K.means keeper.new).faults result }
{
    match keeper.load(index) {
        Ok(row) => add_row(alloc, head, &row, index),
        Err(error) => Err(StartError::from(error)),
    }
}

/// Reads all rows of a store, one after another.
///
/// # Errors
/// `BadRow` with the index of the first row that is the row of no entry, or is not added to those
/// before it; `StoreFailed` where the store refused a call; `Memory`.
#[tactic(auto, using(crate::proofs::Loaded::none_loaded, crate::proofs::Told::keeps_same, crate::proofs::Told::keeps_on))]
pub fn load<K: Keeper>(alloc: Global, keeper: &mut K) -> Result<Head, StartError>
    ensures ok { IfOk result (λ head. IsLoaded head (K.means keeper.new)) }
    ensures bad { (at : ℕ) → result ≡ Err (StartError.BadRow at) → IfSome (K.means keeper.new).rows (λ rows. history_of rows ≡ Err at) }
    ensures same { KeepsRows (K.means keeper.old).rows (K.means keeper.new).rows }
    ensures count { (K.means keeper.new).count ≡ (K.means keeper.old).count }
    ensures tells { IsTrue (K.means keeper.new).sound → IsSome (K.means keeper.old).rows → IfLoaded result (IsSome (K.means keeper.new).rows) }
    ensures sound { IsTrue (K.means keeper.new).sound → IsTrue (K.means keeper.old).sound }
    ensures paths { (K.means keeper.new).paths ≡ (K.means keeper.old).paths }
    ensures cause { HasStartCause (K.means keeper.old).faults (K.means keeper.new).faults result }
{
    let mut head = Head::new(alloc);
    let size = keeper.size();
    let mut index = 0;
    'loading: while index < size {
        load_row(alloc, keeper, &mut head, index)?;
        index += 1;
    }
    Ok(head)
}
