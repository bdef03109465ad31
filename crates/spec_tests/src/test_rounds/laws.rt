//! Laws of tests, as the contracts of functions that do nothing.
ghost use Rattle.std.specs.Prelude.{◌≡◌, ◌+◌, ◌*◌, ◌/◌, ◌<◌, ◌≤◌, ℕ, suc, List, Some, None};
ghost use Rattle.pr_testfile.specs.declared.inputs.input.Input.{Input};
ghost use Rattle.spec_world.specs.spec_rules.Groups.{Group};
ghost use Rattle.spec_world.specs.spec_rules.Reloads.{LoadedFile};
ghost use Rattle.spec_world.specs.spec_rules.Settings.{Settings};
ghost use Rattle.spec_world.specs.spec_rules.Replays.{unwaiting_groups};
ghost use Rattle.spec_world.specs.Step.{world_after};
ghost use Rattle.spec_world.specs.World.{World};
ghost use Rattle.pr_testfile.specs.Series.{entries_of, places};
ghost use Rattle.pr_testfile.specs.Tests.{PlainTest};
ghost use Rattle.spec_tests.specs.Events.{begun, by_names, last_check, settings_of, world_at};
ghost use Rattle.spec_tests.specs.private.Rounds.{AreApart, AreNew, AreToldApart, HasCome, place_events};

/// A test begins with nothing. The samples of the next place come next, where they stand before the
/// next round of evaluations or with it. And the world in which all has come up to a time is the one
/// that a check at that time sees.
#[tactic(auto, using(crate::proofs::Coming::begins))]
pub fn what_has_come_is_what_happens()
    ensures begins { (input : Input) (every : ℕ) (groups : List Group) (s : Settings) (rounds now : ℕ) → AreNew groups
        → HasCome input every groups s rounds 0 (places input.series) 0 now (begun groups) }
    ensures place { (input : Input) (every : ℕ) (groups : List Group) (s : Settings) (rounds place n round now : ℕ) (w : World) → place * input.interval ≤ now → place * input.interval ≤ round * every
        → HasCome input every groups s rounds place (suc n) round now w → HasCome input every groups s rounds (place + 1) n round now (world_after s w (place_events input place)) }
    ensures seen { (t : PlainTest) (input : Input) (every last : ℕ) (groups : List Group) (place left round now : ℕ) (w : World) → t.input ≡ entries_of input → last_check t ≡ Some last
        → now < round * every → (0 < left → now < place * input.interval)
        → HasCome input every groups (settings_of every t) (last / every + 1) place left round now w → w ≡ world_at every groups t now }
{}

/// Where files have names that differ, and so have the groups of each, the groups that a test begins
/// with are told apart by file and name, in whatever order; and none of them was evaluated.
pub fn groups_are_told_apart()
    ensures apart { (names : List (List ℕ)) (files : List LoadedFile) → AreToldApart files → AreApart (by_names names (unwaiting_groups files)) }
    ensures new { (names : List (List ℕ)) (files : List LoadedFile) → AreNew (by_names names (unwaiting_groups files)) }
{}
