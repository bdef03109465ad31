// Laws of the world.
ghost use Rattle.std.specs.Prelude.{◌≡◌, ℕ, ◌++◌, List, [], Some, Ok, true, false};
ghost use Rattle.std.specs.List.{AllByRecursion};
ghost use Rattle.spec_vectors.specs.spec_history.private.Laws.{IsLawful};
ghost use Rattle.spec_vectors.specs.spec_history.declared.entry.Entry.{Entry};
ghost use Rattle.spec_world.specs.declared.event.Event.{Event};
ghost use Rattle.spec_rules.specs.private.Times.{IsTimely};
ghost use Rattle.spec_world.specs.declared.event.Event.TheVariants.{Alerts, Query, Reload, Restart};
ghost use Rattle.spec_world.specs.declared.event.NamedFile.{NamedFile};
ghost use Rattle.spec_world.specs.Loading.{Holding, FileToLoad, all_found, reload_asked};
ghost use Rattle.spec_world.specs.private.Laws.{is_refusal, changes_groups, changes_targets};
ghost use Rattle.spec_world.specs.Settings.{Settings};
ghost use Rattle.spec_world.specs.Step.{next, time_of, world_after, rows_of};
ghost use Rattle.spec_world.specs.World.{World, begin, start};

/// A refused event changes nothing and keeps no row. An accepted one becomes the last, and what it
/// keeps comes behind the history. A query keeps no row, and neither does
/// an order for alerts. An event that is about no target, and no
/// restart, leaves the targets; one that is about no group, and no restart, leaves the groups.
pub fn a_step_appends_or_changes_nothing()
    ensures refused { (s : Settings) (w : World) (e : Event) → (next s w e).refused ≡ true
        → ((next s w e).world ≡ w) × ((next s w e).rows ≡ []) }
    ensures accepted { (s : Settings) (w : World) (e : Event) → (next s w e).refused ≡ false
        → ((next s w e).world.last ≡ Some (time_of e)) × ((next s w e).world.history ≡ w.history ++ (next s w e).rows) }
    ensures asked { (s : Settings) (w : World) (time : ℕ) (text : List ℕ) → (next s w (Query time text)).rows ≡ [] }
    ensures alerts { (s : Settings) (w : World) (time : ℕ) → (next s w (Alerts time)).rows ≡ [] }
    ensures targets { (s : Settings) (w : World) (e : Event) → changes_targets e ≡ false → (next s w e).world.targets ≡ w.targets }
    ensures groups { (s : Settings) (w : World) (e : Event) → changes_groups e ≡ false
        → ((next s w e).world.groups ≡ w.groups) × ((next s w e).world.reloaded ≡ w.reloaded) }
{}

/// A restart leaves the history, and nothing else but the time.
#[tactic(auto, using(crate::proofs::Steps::restarted, crate::proofs::Steps::restarted_over))]
pub fn a_restart_begins_anew()
    ensures anew { (s : Settings) (w : World) (time : ℕ) → (next s w (Restart time)).refused ≡ false
        → (next s w (Restart time)).world ≡ begin (Some time) w.history }
    ensures over { (s : Settings) (rows : List Entry) (events : List Event) (time : ℕ) → (next s (world_after s (start rows) events) (Restart time)).refused ≡ false
        → (next s (world_after s (start rows) events) (Restart time)).world ≡ begin (Some time) (rows ++ rows_of s (start rows) events) }
{}

/// The history of a world is the one that it began with and then the rows of its events, and stays
/// lawful.
pub fn a_history_is_its_rows()
    ensures rows { (s : Settings) (w : World) (events : List Event)
        → (world_after s w events).history ≡ w.history ++ rows_of s w events }
    ensures lawful { (s : Settings) (w : World) (events : List Event)
        → IsLawful w.history → IsLawful (world_after s w events).history }
{}

/// What is told says whether the event was refused.
#[tactic(auto, using(crate::proofs::Refusals::refusal_is_told, crate::proofs::Refusals::refused_files_are_told))]
pub fn a_refusal_is_told()
    ensures event { (s : Settings) (w : World) (e : Event) → is_refusal (next s w e).report ≡ (next s w e).refused }
    ensures files { (s : Settings) (w : World) (time : ℕ) (content : List ℕ → Holding) (names : List FileToLoad)
        → is_refusal (reload_asked s w time content names).report ≡ (reload_asked s w time content names).refused }
{}

/// A reload that names files, all of which are there and are rule files, is the event with these
/// files.
#[tactic(auto, using(crate::proofs::Refusals::reload_of_found))]
pub fn files_that_are_found_are_reloaded()
    ensures { (s : Settings) (w : World) (time : ℕ) (content : List ℕ → Holding) (names : List FileToLoad) (files : List NamedFile) → all_found content names ≡ Ok files
        → reload_asked s w time content names ≡ next s w (Reload time files) }
{}

/// The rules of each group were evaluated at rising times, none above the group's last.
#[tactic(auto, using(crate::proofs::Timely::stay_timely))]
pub fn groups_are_evaluated_at_rising_times()
    ensures { (s : Settings) (w : World) (events : List Event) → AllByRecursion IsTimely w.groups → AllByRecursion IsTimely (world_after s w events).groups }
{}
