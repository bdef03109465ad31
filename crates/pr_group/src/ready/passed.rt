// What was passed, and that it never falls.
ghost use Rattle.std.specs.Prelude.{◌≡◌, ℕ, ◌++◌, Bool, true, false, List, Option};
ghost use Rattle.pr_ast.specs.pr_labels.declared.pair.Pair.{Pair};
ghost use Rattle.pr_rule.specs.spec_history.declared.entry.Entry.{Entry};
ghost use Rattle.pr_ast.specs.Tree.{Tree};
ghost use Rattle.pr_rule.specs.pr_range.private.Asks.{LastAsks, Passed};
ghost use Rattle.pr_rule.specs.pr_range.private.Carried.{IsCarried, IsFresh};
ghost use Rattle.pr_rule.specs.spec_rules.private.Carried.{carried_numbers, carried_passed};
ghost use Rattle.pr_rule.specs.spec_rules.private.Passed.{ArePassed, NoneFalls};
ghost use Rattle.pr_rule.specs.pr_eval.private.Evaluated.{AreAllAsked, AreReady, KeptOfRanges, asks_of, passed_outside};
ghost use Rattle.pr_group.specs.private.Within.{ArePassedWithin};

/// Where nothing was asked, that is so over each history.
pub fn nothing_passed_fits_all()
    ensures { (history : List Entry) (last : LastAsks) (passed : Passed) → IsFresh last passed → ArePassedWithin history last passed }
{}

/// What an evaluation has passed is no more than stands until the ends of its asks.
pub fn what_is_passed_is_within()
    ensures { (keeps : Bool) (history : List Entry) (whole : Bool) (t : Tree) (time : ℕ) (before after : KeptOfRanges) → ArePassedWithin history before.last before.passed
        → AreAllAsked keeps history whole (asks_of history t time) 0 before after → ArePassedWithin history after.last after.passed }
{}

/// Nothing that was passed is passed no more after an evaluation, after one with a fault either.
pub fn none_falls()
    ensures { (keeps : Bool) (history : List Entry) (whole : Bool) (t : Tree) (time : ℕ) (before after : KeptOfRanges) → ArePassedWithin history before.last before.passed
        → AreReady before.last 0 (asks_of history t time) → AreAllAsked keeps history whole (asks_of history t time) 0 before after
        → NoneFalls (passed_outside false history before.passed) (passed_outside false history after.passed) }
{}

/// After an evaluation without fault, where asks are remembered, all is passed of each chosen
/// series until the end of its range.
pub fn all_that_is_asked_is_passed()
    ensures { (history : List Entry) (t : Tree) (time : ℕ) (before after : KeptOfRanges) → AreAllAsked true history true (asks_of history t time) 0 before after
        → ArePassed history (passed_outside false history after.passed) t 0 time }
{}

/// Over a later history no less was passed of any series, and what is known of it stays.
pub fn a_later_history_has_no_less()
    ensures within { (history more : List Entry) (last : LastAsks) (passed : Passed) → ArePassedWithin history last passed → ArePassedWithin (history ++ more) last passed }
    ensures falls { (history more : List Entry) (last : LastAsks) (passed : Passed) → ArePassedWithin history last passed
        → NoneFalls (passed_outside false history passed) (passed_outside false (history ++ more) passed) }
{}

/// At a reload an expression takes over what was passed for the old one, as a reload means it.
pub fn a_carry_keeps_what_was_passed()
    ensures within { (history : List Entry) (from : List (Option ℕ)) (last last' : LastAsks) (passed passed' : Passed) → IsCarried from last last' passed passed'
        → ArePassedWithin history last passed → ArePassedWithin history last' passed' }
    ensures is { (history : List Entry) (new old : Tree) (last last' : LastAsks) (passed passed' : Passed) → IsCarried (carried_numbers new old) last last' passed passed'
        → (k : ℕ) (labels : List Pair) → passed_outside false history passed' k labels ≡ carried_passed new old (passed_outside false history passed) k labels }
{}
