// What was asked, and what may be asked next.
ghost use Rattle.std.specs.Prelude.{◌≡◌, ℕ, ◌≤◌, Bool, List, Option, Some, IfSome};
ghost use Rattle.pr_rule.specs.spec_history.declared.entry.Entry.{Entry};
ghost use Rattle.pr_ast.specs.Tree.{Tree};
ghost use Rattle.pr_rule.specs.pr_types.private.Checking.{MayEvaluate};
ghost use Rattle.pr_rule.specs.pr_range.private.Asks.{LastAsks, Passed};
ghost use Rattle.pr_rule.specs.pr_range.private.Carried.{IsCarried, IsFresh};
ghost use Rattle.pr_rule.specs.spec_rules.private.Carried.{carried_numbers};
ghost use Rattle.pr_rule.specs.pr_eval.private.Evaluated.{AreAllAsked, AreReady, KeptOfRanges, asks_of};
ghost use Rattle.pr_group.specs.private.Asked.{WasAsked};

/// Where each last ask is that of its range selector at some time until the last evaluation, what
/// the expression asks at that time or later may be asked, over any history.
pub fn later_asks_are_ready()
    ensures { (last : LastAsks) (t : Tree) (until : Option ℕ) (history : List Entry) (time : ℕ) → WasAsked last t until → IfSome until (λ u. u ≤ time) → AreReady last 0 (asks_of history t time) }
{}

/// What an evaluation has asked was asked until its time, after faults too.
pub fn what_is_asked_was_asked()
    ensures { (keeps : Bool) (history : List Entry) (whole : Bool) (t : Tree) (time : ℕ) (until : Option ℕ) (before after : KeptOfRanges) → WasAsked before.last t until → IfSome until (λ u. u ≤ time)
        → AreAllAsked keeps history whole (asks_of history t time) 0 before after → WasAsked after.last t (Some time) }
{}

/// What was asked until a time was asked until a later one.
pub fn asked_stays_asked()
    ensures { (last : LastAsks) (t : Tree) (until : Option ℕ) (later : ℕ) → WasAsked last t until → IfSome until (λ u. u ≤ later) → WasAsked last t (Some later) }
{}

/// Where nothing was asked, that is so for each expression.
pub fn nothing_asked_fits_all()
    ensures { (last : LastAsks) (passed : Passed) (t : Tree) (until : Option ℕ) → IsFresh last passed → WasAsked last t until }
{}

/// At a reload the last asks that an expression takes over from an old one are its own: range
/// selectors that are printed alike under one function ask for one function over one range.
pub fn carried_asks_are_those_of_the_new()
    ensures { (new old : Tree) (until : Option ℕ) (last last' : LastAsks) (passed passed' : Passed) → MayEvaluate new → MayEvaluate old → IsCarried (carried_numbers new old) last last' passed passed'
        → WasAsked last old until → WasAsked last' new until }
{}
