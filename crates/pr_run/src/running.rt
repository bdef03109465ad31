// The command `run`: one order after another is asked for, and answered before the next one.
ghost use Rattle.std.specs.Prelude.{◌≡◌, ℕ, List, [], take, Err, IfOk, IfSome, IfErr, IsSome, OnOk, OnErr};
ghost use Rattle.std.specs.Io.KnownBytes.{Appends};
ghost use Rattle.pr_queue.specs.spec_history.declared.entry.Entry.{Entry};
ghost use Rattle.pr_outside.specs.private.Kept.{StartsRows};
ghost use Rattle.pr_queue.specs.spec_history.Histories.{history_of};
ghost use Rattle.pr_outside.specs.Ends.{Ends, KnowsLength};
ghost use Rattle.pr_outside.specs.Opening.{OpensBy};
ghost use Rattle.pr_outside.specs.Outside.{AreTold, Held, Outside};
ghost use Rattle.pr_outside.specs.Status.{IsTooLong};
ghost use Rattle.pr_outside.specs.declared.status.status.Stop.TheVariants as stop;
ghost use Rattle.pr_text.specs.spec_world.World.{World};
ghost use Rattle.pr_run.specs.private.Beginning.{Begins, first_text};
ghost use Rattle.pr_text.specs.private.Plain.{IsPlain};
ghost use Rattle.pr_text.specs.BadRows.{TellsRow, bad_row_text};
ghost use Rattle.pr_text.specs.Taken.{TookWithin};
ghost use Rattle.pr_run.specs.private.Keeping.{KeepsProgress, Progress, unanswered};
ghost use Rattle.pr_outside.specs.Stores.{IsBadIn, KeepsTelling, OverRows, StartsTelling};
ghost use Rattle.pr_run.specs.Runs.{EndsBy, EndsOver};
ghost use Rattle.pr_run.specs.private.Standing.{StoreGrows, HasGrown, LeavesFront, SendsAnswer};
ghost use Rattle.pr_run.specs.Told.{told_of, turn};

use crate::session::Session;
use pr_outside::status::{Stop, send};
use pr_outside::{Files, Keeper, Sink, Source};
use pr_queue::history::row::laws::rows_decode_as_their_entries;
use pr_text::reader::Reader;
use pr_text::script::Numbered;
use pr_text::{Worlds, bad_row_of, tell_bad_row, tell_opened};
use std::alloc::Global;

// Begins over the rows of the store of a path, and writes the first line; or the only one, where a
// row is a bad one.
fn begin<E: Worlds + Drop, K: Keeper, O: Sink>(
    alloc: Global,
    path: &str,
    keeper: &mut K,
    out: &mut O,
) -> Result<Session<E>, Stop>
    ensures begins { IfOk result (λ s. Begins E.stands_for s (K.means keeper.new) (O.means out.old).taken (O.means out.new).taken) }
    ensures front { IfSome (K.means keeper.new).rows (λ rows. OnErr result ((n : ℕ) × Appends (O.means out.old).taken (O.means out.new).taken (take n (first_text (history_of rows))))) }
    ensures bad { (at : ℕ) → result ≡ Err (stop.BadRow at) → Appends (O.means out.old).taken (O.means out.new).taken (bad_row_text at) }
    ensures going { IfOk result (λ s. E.is_going s.kept) }
    ensures tells { StartsTelling (K.means keeper.old) (K.means keeper.new) result }
    ensures rows { StartsRows (K.means keeper.old).rows (K.means keeper.new).rows }
    ensures opens { OpensBy path.now (K.means keeper.old).paths (K.means keeper.new).paths result }
    ensures ends { (others : Outside) → Ends (IsBadIn (K.means keeper.new)) ⊥ (record others { store = K.means keeper.old; out = O.means out.old })
        (record others { store = K.means keeper.new; out = O.means out.new }) result }
{
    match E::start(alloc, keeper, path) {
        Ok(kept) => {
            tell_opened(alloc, keeper.size(), out)?;
            Ok(Session::new(alloc, kept))
        }
        Err(stop) => match bad_row_of(stop) {
            Some(index) => {
                tell_bad_row(alloc, index, out)?;
                Err(stop)
            }
            None => Err(stop),
        },
    }
}

// Answers one order. Where a run that begins anew finds a bad row, its line follows the answers.
fn answer_order<E: Worlds + Drop, F: Files, K: Keeper, O: Sink>(
    alloc: Global,
    session: &mut Session<E>,
    order: Numbered,
    files: &mut F,
    keeper: &mut K,
    out: &mut O,
) -> Result<(), Stop>
    requires plain { IsPlain order.order }
    requires going { E.is_going session.old.kept }
    ensures sends { (others : Outside) (held : Held) (p : Progress) → KeepsProgress E.stands_for session.old (K.means keeper.old) p
        → AreTold (F.means files.old).content held (turn held p.state order).answer.asks → IsSome (K.means keeper.new).rows
        → OnOk result (SendsAnswer E.stands_for held p order (record others { files = F.means files.old; store = K.means keeper.old; out = O.means out.old })
        (record others { files = F.means files.new; store = K.means keeper.new; out = O.means out.new }) session.new) }
    ensures leaves { (others : Outside) (held : Held) (p : Progress) → KeepsProgress E.stands_for session.old (K.means keeper.old) p
        → AreTold (F.means files.old).content held (turn held p.state order).answer.asks → IsSome (K.means keeper.new).rows
        → IfErr result (LeavesFront (turn held p.state order) p.state.world.history (record others { files = F.means files.old; store = K.means keeper.old; out = O.means out.old })
        (record others { files = F.means files.new; store = K.means keeper.new; out = O.means out.new })) }
    ensures written { OnOk result ((text : List ℕ) × Appends (O.means out.old).taken (O.means out.new).taken text) }
    ensures row { (at : ℕ) → result ≡ Err (stop.BadRow at) → Appends (O.means out.old).taken (O.means out.new).taken (bad_row_text at) }
    ensures grows { (w : World) → E.stands_for session.old.kept (K.means keeper.old) w → IsSome (K.means keeper.new).rows → StoreGrows E.stands_for w.history (K.means keeper.new) session.new.kept result }
    ensures going { OnOk result (E.is_going session.new.kept) }
    ensures tells { KeepsTelling (K.means keeper.old) (K.means keeper.new) result }
    ensures told { IsSome (K.means keeper.new).rows → IsSome (K.means keeper.old).rows }
    ensures same { (other : List ℕ) → (F.means files.new).content other ≡ (F.means files.old).content other }
    ensures paths { (K.means keeper.new).paths ≡ (K.means keeper.old).paths }
    ensures ends { (others : Outside) → Ends (IsBadIn (K.means keeper.new)) ⊥ (record others { files = F.means files.old; store = K.means keeper.old; out = O.means out.old })
        (record others { files = F.means files.new; store = K.means keeper.new; out = O.means out.new }) result }
{
    let mut text = Vec::new(alloc);
    match session.take_order(alloc, &mut text, order, files, keeper) {
        Ok(()) => {
            send(out, &text)?;
            Ok(())
        }
        Err(stop) => match bad_row_of(stop) {
            Some(index) => {
                tell_bad_row(alloc, index, out)?;
                Err(stop)
            }
            None => Err(stop),
        },
    }
}

// Answers the orders of the input, and says whether one was refused. The first line is written.
fn answer_all<E: Worlds + Drop, I: Source, F: Files, K: Keeper, O: Sink>(
    alloc: Global,
    session: &mut Session<E>,
    input: &mut I,
    files: &mut F,
    keeper: &mut K,
    out: &mut O,
) -> Result<bool, Stop>
    requires { E.is_going session.old.kept }
    // However it ends, one number of orders is answered.
    ensures over { (others : Outside) (history : List Entry) → KeepsProgress E.stands_for session.old (K.means keeper.old) (unanswered history)
        → Appends others.out.taken (O.means out.old).taken (told_of history []) → IsSome (K.means keeper.new).rows
        → IfSome (I.means input.old).left (λ bytes. EndsOver history bytes (record others { input = I.means input.old; files = F.means files.old })
        (record { input = I.means input.new; files = F.means files.new; store = K.means keeper.new; out = O.means out.new }) result) }
    ensures row { (at : ℕ) → result ≡ Err (stop.BadRow at) → TellsRow at (O.means out.old).taken (O.means out.new).taken }
    ensures grows { (w : World) → E.stands_for session.old.kept (K.means keeper.old) w → IsSome (K.means keeper.new).rows → HasGrown w.history (K.means keeper.new) }
    ensures tells { KeepsTelling (K.means keeper.old) (K.means keeper.new) result }
    ensures told { IsSome (K.means keeper.new).rows → IsSome (K.means keeper.old).rows }
    ensures same { (other : List ℕ) → (F.means files.new).content other ≡ (F.means files.old).content other }
    ensures long { KnowsLength (I.means input.old) (I.means input.new) result }
    ensures most { TookWithin (I.means input.old) (I.means input.new) 0 }
    ensures paths { (K.means keeper.new).paths ≡ (K.means keeper.old).paths }
    ensures ends { Ends (IsBadIn (K.means keeper.new)) (IsTooLong (I.means input.old) (I.means input.new))
        (record { input = I.means input.old; files = F.means files.old; store = K.means keeper.old; out = O.means out.old })
        (record { input = I.means input.new; files = F.means files.new; store = K.means keeper.new; out = O.means out.new }) result }
{
    rows_decode_as_their_entries();
    let mut reader = Reader::new(alloc);
    'answering: while let Some(order) = reader.next_order(alloc, input)? {
        answer_order(alloc, session, order, files, keeper, out)?;
    }
    Ok(session.has_refused())
}

/// Runs the script of the input over the store of a path, and says whether an order was refused.
pub fn run<E: Worlds + Drop, I: Source, F: Files, K: Keeper, O: Sink>(
    alloc: Global,
    path: &str,
    input: &mut I,
    files: &mut F,
    keeper: &mut K,
    out: &mut O,
) -> Result<bool, Stop>
    // However it ends, over the rows at the start, where the store tells its rows at the end.
    ensures over { IfSome (K.means keeper.new).rows (λ all. IfSome (I.means input.old).left (λ bytes. OverRows (K.means keeper.old).rows all (λ rows. EndsBy (history_of rows) rows bytes
        (record { input = I.means input.old; files = F.means files.old; store = K.means keeper.old; out = O.means out.old })
        (record { input = I.means input.new; files = F.means files.new; store = K.means keeper.new; out = O.means out.new }) result))) }
    // Where a row stopped it, its line is the last that was written, over any store.
    ensures row { (at : ℕ) → result ≡ Err (stop.BadRow at) → TellsRow at (O.means out.old).taken (O.means out.new).taken }
    // As long as what the store stands on keeps its word, the rows are told, unless the store or want of
    // memory stopped it.
    ensures tells { StartsTelling (K.means keeper.old) (K.means keeper.new) result }
    ensures same { (other : List ℕ) → (F.means files.new).content other ≡ (F.means files.old).content other }
    ensures long { KnowsLength (I.means input.old) (I.means input.new) result }
    ensures most { TookWithin (I.means input.old) (I.means input.new) 0 }
    ensures opens { OpensBy path.now (K.means keeper.old).paths (K.means keeper.new).paths result }
    ensures ends { Ends (IsBadIn (K.means keeper.new)) (IsTooLong (I.means input.old) (I.means input.new))
        (record { input = I.means input.old; files = F.means files.old; store = K.means keeper.old; out = O.means out.old })
        (record { input = I.means input.new; files = F.means files.new; store = K.means keeper.new; out = O.means out.new }) result }
{
    rows_decode_as_their_entries();
    let mut session = begin::<E, K, O>(alloc, path, keeper, out)?;
    answer_all(alloc, &mut session, input, files, keeper, out)
}
