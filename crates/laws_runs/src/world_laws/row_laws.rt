// The rows of events, read again.
ghost use Rattle.std.specs.Prelude.{◌≡◌, ◌<◌, ◌^◌, ◌++◌, ℕ, List, map, Ok};
ghost use Rattle.pr_labels.specs.LabelSet.{IsLabelSet};
ghost use Rattle.pr_labels.specs.declared.pair.Pair.{Pair};
ghost use Rattle.pr_num.specs.declared.value.Point.{Point};
ghost use Rattle.spec_history.specs.declared.entry.Entry.{Entry};
ghost use Rattle.pr_outside.specs.spec_history.declared.row.Row.{Row};
ghost use Rattle.spec_history.specs.private.Laws.{AreEntries};
ghost use Rattle.spec_history.specs.Histories.{history_of};
ghost use Rattle.spec_history.specs.Points.{IsFitPoint};
ghost use Rattle.spec_history.specs.Rows.{encoded};
ghost use Rattle.spec_rules.specs.Settings.{Settings};
ghost use Rattle.spec_world.specs.declared.event.Event.{Event};
ghost use Rattle.spec_world.specs.declared.event.Event.TheVariants.{Add};
ghost use Rattle.spec_world.specs.Step.{next, rows_of, world_after};
ghost use Rattle.spec_world.specs.World.{World, start};

use spec_history::row::laws::{rows_decode_as_their_entries, rows_tell_a_history};
use spec_world::a_history_is_its_rows;

/// Rows that tell a history are the rows of its entries, one after another, and no others.
pub fn rows_that_tell_a_history_are_its_encodings()
    ensures { (rows : List Row) (history : List Entry) → history_of rows ≡ Ok history → rows ≡ map encoded history }
{
    rows_decode_as_their_entries();
}

/// Rows at a start that tell a history, and behind them the rows of what events add, tell the history of
/// the world after the events, where all that is added are entries.
pub fn kept_rows_tell_the_history()
    ensures { (s : Settings) (rows : List Row) (history : List Entry) (events : List Event) → history_of rows ≡ Ok history → AreEntries (rows_of s (start history) events)
        → history_of (rows ++ map encoded (rows_of s (start history) events)) ≡ Ok (world_after s (start history) events).history }
{
    a_history_is_its_rows();
    rows_tell_a_history();
}

/// What a sample adds is an entry, where its labels are a label set, its time is one and its value is
/// fit, as all are by their types.
#[tactic(auto, using(crate::proofs::KeptRows::sample_entries))]
pub fn a_sample_adds_an_entry()
    ensures { (s : Settings) (w : World) (time : ℕ) (labels : List Pair) (point : Point) → IsLabelSet labels → time < 2 ^ 42 → IsFitPoint point
        → AreEntries (next s w (Add time labels point)).rows }
{}
