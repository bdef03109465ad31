// What keeps a world, and answers events.
ghost use Rattle.std.specs.Prelude.{◌≡◌, IfOk, IsSome, OnErr, OnOk};
ghost use Rattle.pr_outside.specs.private.Kept.{StartsRows};
ghost use Rattle.pr_outside.specs.Meant.{Store};
ghost use Rattle.pr_outside.specs.Opening.{OpensBy};
ghost use Rattle.spec_world.specs.Settings.{of_a_run};
ghost use Rattle.spec_world.specs.private.Laws.{HasDistinctFiles};
ghost use Rattle.spec_world.specs.Step.{next};
ghost use Rattle.spec_world.specs.World.{World};
ghost use Rattle.pr_outside.specs.Stores.{KeepEnds, KeepsTelling, StartsTelling, TellsHistory};
ghost use Rattle.pr_text.specs.private.Keeping.{Starts};

use pr_outside::Keeper;
use pr_outside::status::Stop;
use spec_world::time::Ms;
use spec_world::{Event, Report};
use std::alloc::Global;

/// What keeps a world over the rows of a store, which is handed to it at each call, and answers the
/// events of a run.
pub trait Worlds {
    /// Which worlds this stands for, with a store.
    ghost stands_for: { Self → Store → World → Type 0 };

    /// It answers events: no error has come.
    ghost is_going: { Self → Type 0 };

    /// Opens the store of a path, and begins over the rows that it has.
    ///
    /// # Errors
    /// `BadRow` with the index of the first row that is the row of no entry, or is not added to those
    /// before it; `Store` where the store refused a call; `Memory`.
    fn start<K: Keeper>(alloc: Global, keeper: &mut K, path: &str) -> Result<Self, Stop>
    where
        Self: Sized,
        ensures stands { IfOk result (λ e. Starts stands_for e (K.means keeper.new)) }
        ensures going { IfOk result is_going }
        ensures tells { StartsTelling (K.means keeper.old) (K.means keeper.new) result }
        ensures rows { StartsRows (K.means keeper.old).rows (K.means keeper.new).rows }
        ensures opens { OpensBy path.now (K.means keeper.old).paths (K.means keeper.new).paths result }
        ensures ends { KeepEnds (K.means keeper.old) (K.means keeper.new) result };

    /// The time of the last event that was accepted, where one was.
    fn last(&self) -> Option<Ms>
        ensures { (store : Store) (w : World) → stands_for self.now store w → result ≡ w.last };

    /// Answers an event. What it adds is kept before it is answered.
    ///
    /// # Errors
    /// `Store` where the store refused a call; `BadRow` of a restart, with the index of the first bad
    /// row; `Memory`. Then the store has the rows from before the event, and no further event is taken.
    fn answer<K: Keeper>(
        &mut self,
        alloc: Global,
        keeper: &mut K,
        event: Event,
    ) -> Result<Report, Stop>
        requires files { HasDistinctFiles event }
        requires going { is_going self.old }
        ensures going { OnOk result (is_going self.new) }
        ensures tells { KeepsTelling (K.means keeper.old) (K.means keeper.new) result }
        ensures report { (w : World) → stands_for self.old (K.means keeper.old) w → IfOk result (λ r. r ≡ (next of_a_run w event).report) }
        ensures world { (w : World) → stands_for self.old (K.means keeper.old) w → IsSome (K.means keeper.new).rows
            → OnOk result (stands_for self.new (K.means keeper.new) (next of_a_run w event).world) }
        ensures err { (w : World) → stands_for self.old (K.means keeper.old) w → OnErr result (TellsHistory (K.means keeper.new) w.history) }
        ensures told { IsSome (K.means keeper.new).rows → IsSome (K.means keeper.old).rows }
        ensures paths { (K.means keeper.new).paths ≡ (K.means keeper.old).paths }
        ensures ends { KeepEnds (K.means keeper.old) (K.means keeper.new) result };

    /// The rows of the store tell the history.
    ghost tells: { (e : Self) (store : Store) (w : World) → stands_for e store w → TellsHistory store w.history };
}
