// The history of a store, with which a backfill begins.
ghost use Rattle.std.specs.Prelude.{◌≡◌, ℕ, Some, Err, IfOk, IfSome, OnErr, OnOk};
ghost use Rattle.std.specs.Io.KnownBytes.{Appends};
ghost use Rattle.pr_outside.specs.private.Kept.{KeepsRows, StartsRows};
ghost use Rattle.spec_rules.specs.spec_history.Histories.{history_of};
ghost use Rattle.pr_engine.specs.private.Loading.{IsLoaded};
ghost use Rattle.pr_outside.specs.Ends.{Ends};
ghost use Rattle.pr_outside.specs.Opening.{OpensBy};
ghost use Rattle.pr_outside.specs.Outside.{Outside};
ghost use Rattle.pr_outside.specs.declared.status.status.Stop.TheVariants as stop;
ghost use Rattle.pr_outside.specs.Stores.{IsBadIn, KeepsTelling, StartsTelling};
ghost use Rattle.pr_text.specs.BadRows.{bad_row_text};
ghost use Rattle.pr_backfill.specs.private.Opening.{IsUnopened};

use pr_engine::head::Head;
use pr_engine::rows::{StartError, load};
use pr_outside::status::Stop;
use pr_outside::{Keeper, Sink};
use pr_text::tell_bad_row;
use std::alloc::Global;

// Reads the rows of a store that is opened. Where one is bad, its line is written.
fn read_rows<K: Keeper, O: Sink>(alloc: Global, keeper: &mut K, out: &mut O) -> Result<Head, Stop>
    ensures head { IfOk result (λ head. IsLoaded head (K.means keeper.new)) }
    ensures unwritten { OnOk result (O.means out.new ≡ O.means out.old) }
    ensures front { IfSome (K.means keeper.new).rows (λ rows. OnErr result (IsUnopened (history_of rows) (O.means out.old).taken (O.means out.new).taken result)) }
    ensures bad { (at : ℕ) → result ≡ Err (stop.BadRow at) → Appends (O.means out.old).taken (O.means out.new).taken (bad_row_text at) }
    ensures rows { KeepsRows (K.means keeper.old).rows (K.means keeper.new).rows }
    ensures tells { KeepsTelling (K.means keeper.old) (K.means keeper.new) result }
    ensures paths { (K.means keeper.new).paths ≡ (K.means keeper.old).paths }
    ensures ends { (others : Outside) → Ends (IsBadIn (K.means keeper.new)) ⊥ (record others { store = K.means keeper.old; out = O.means out.old })
        (record others { store = K.means keeper.new; out = O.means out.new }) result }
{
    match load(alloc, keeper) {
        Ok(head) => Ok(head),
        Err(StartError::BadRow { index }) => {
            tell_bad_row(alloc, index, out)?;
            Err(Stop::BadRow { index })
        }
        Err(StartError::StoreFailed) => Err(Stop::Store),
        Err(StartError::Memory) => Err(Stop::Memory),
    }
}

/// Opens the store of a path, and reads its rows. Where one is bad, its line is written.
pub(crate) fn open<K: Keeper, O: Sink>(
    alloc: Global,
    path: &str,
    keeper: &mut K,
    out: &mut O,
) -> Result<Head, Stop>
    ensures head { IfOk result (λ head. IsLoaded head (K.means keeper.new)) }
    ensures unwritten { OnOk result (O.means out.new ≡ O.means out.old) }
    ensures front { IfSome (K.means keeper.new).rows (λ rows. OnErr result (IsUnopened (history_of rows) (O.means out.old).taken (O.means out.new).taken result)) }
    ensures bad { (at : ℕ) → result ≡ Err (stop.BadRow at) → Appends (O.means out.old).taken (O.means out.new).taken (bad_row_text at) }
    ensures rows { StartsRows (K.means keeper.old).rows (K.means keeper.new).rows }
    ensures tells { StartsTelling (K.means keeper.old) (K.means keeper.new) result }
    ensures opens { OpensBy path.now (K.means keeper.old).paths (K.means keeper.new).paths result }
    ensures unopened { (K.means keeper.new).paths ≡ (K.means keeper.old).paths → IfSome (K.means keeper.new).rows (λ rows. (K.means keeper.old).rows ≡ Some rows) }
    ensures ends { (others : Outside) → Ends (IsBadIn (K.means keeper.new)) ⊥ (record others { store = K.means keeper.old; out = O.means out.old })
        (record others { store = K.means keeper.new; out = O.means out.new }) result }
{
    match keeper.start(path) {
        Ok(()) => read_rows(alloc, keeper, out),
        Err(error) => Err(Stop::from(error)),
    }
}
