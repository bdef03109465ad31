// The rows of evaluations are kept, and then it is told.
ghost use Rattle.std.specs.Prelude.{◌++◌, ◌∷◌, [], ℕ, List, Option, map};
ghost use Rattle.spec_rules.specs.spec_history.private.Laws.{IsLawful};
ghost use Rattle.spec_rules.specs.spec_history.declared.entry.Entry.{Entry};
ghost use Rattle.pr_backfill.specs.Filled.{FillStep, at_time, rows_filled};
ghost use Rattle.pr_backfill.specs.private.Standing.{FillingComes, IsPartOfFilling, FillingStands};

use crate::Stepped;
use crate::backfill_command::telling::tell_step;
use pr_ast::time::Ms;
use pr_engine::rows::{PrintedTexts, keep};
use pr_outside::status::Stop;
use pr_outside::{Keeper, Sink};
use std::alloc::Global;

// Keeps the rows of an evaluation by one commit, and then writes what is told of it.
fn keep_step<K: Keeper, O: Sink>(
    alloc: Global,
    time: Ms,
    step: Stepped,
    keeper: &mut K,
    texts: &mut PrintedTexts,
    out: &mut O,
) -> Result<(), Stop>
    ensures comes { (history : List Entry) (done : List FillStep) (first : Option (List ℕ)) → FillingStands history done (K.means keeper.old) first (O.means out.old).taken
        → IsLawful (history ++ rows_filled (done ++ at_time time step ∷ []))
        → FillingComes history (done ++ at_time time step ∷ []) (K.means keeper.new) first (O.means out.new).taken result }
    ensures part { IsPartOfFilling (K.means keeper.old) (O.means out.old) (K.means keeper.new) (O.means out.new) result }
{
    keep(alloc, keeper, texts, step.report.admitted.as_slice())?;
    tell_step(alloc, time, step, out)
}

/// So each evaluation at a time, one after another.
pub(crate) fn keep_steps<K: Keeper, O: Sink>(
    alloc: Global,
    time: Ms,
    steps: Vec<Stepped>,
    keeper: &mut K,
    texts: &mut PrintedTexts,
    out: &mut O,
) -> Result<(), Stop>
    ensures comes { (history : List Entry) (done : List FillStep) (first : Option (List ℕ)) → FillingStands history done (K.means keeper.old) first (O.means out.old).taken
        → IsLawful (history ++ rows_filled (done ++ map (at_time time) steps.items))
        → FillingComes history (done ++ map (at_time time) steps.items) (K.means keeper.new) first (O.means out.new).taken result }
    ensures part { IsPartOfFilling (K.means keeper.old) (O.means out.old) (K.means keeper.new) (O.means out.new) result }
{
    for step in steps {
        keep_step(alloc, time, step, keeper, texts, out)?;
    }
    Ok(())
}
