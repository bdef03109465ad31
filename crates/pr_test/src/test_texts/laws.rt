//! When SUCCESS is told.
ghost use Rattle.std.specs.Prelude.{◌≡◌, ◌++◌, ℕ, List, [], false};
ghost use Rattle.pr_outside.specs.Outside.{Held};
ghost use Rattle.pr_text.specs.spec_rules.Reloads.{LoadedFile};
ghost use Rattle.pr_checks.specs.RulesLoaded.{all_rules};
ghost use Rattle.pr_test.specs.TestsTold.{success_line, testing_text, tests_told};
ghost use Rattle.pr_test.specs.private.Successes.{HoldRuleFiles, IsMet};

/// Nothing is told of rule files exactly where each name holds one.
#[tactic(auto, using(crate::proofs::Successes::all_read, crate::proofs::Successes::all_loaded))]
pub fn nothing_is_told_of_rule_files_that_read()
    ensures only { (held : Held) (names : List (List ℕ)) → (all_rules held names).wrong ≡ [] → HoldRuleFiles held names (all_rules held names).files }
    ensures reads { (held : Held) (names : List (List ℕ)) (files : List LoadedFile) → HoldRuleFiles held names files → all_rules held names ≡ record { wrong = []; files = files } }
{}

/// Behind the line with its name SUCCESS is told of a file exactly where the name holds a test file,
/// each name of a rule file in it holds one, and over these no check of its tests differs. Else the file
/// is refused.
#[tactic(auto, using(crate::proofs::Successes::success_is_met, crate::proofs::Successes::met_is_success, crate::proofs::Successes::refused_else, crate::proofs::Successes::met_is_taken))]
pub fn success_is_told_exactly_where_all_is_met()
    ensures only { (held : Held) (name : List ℕ) → (tests_told held name).text ≡ testing_text name ++ success_line → IsMet held name }
    ensures told { (held : Held) (name : List ℕ) → IsMet held name → (tests_told held name).text ≡ testing_text name ++ success_line }
    ensures taken { (held : Held) (name : List ℕ) → IsMet held name → (tests_told held name).refused ≡ false }
    ensures refused { (held : Held) (name : List ℕ) → (tests_told held name).refused ≡ false → IsMet held name }
{}
