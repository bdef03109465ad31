//! What is told of small test files.
ghost use Rattle.std.specs.Prelude.{◌≡◌, true, false, [], ◌∷◌, codes};
ghost use Rattle.pr_outside.specs.Loading.{is_too_large};
ghost use Rattle.pr_num.specs.declared.value.Num.TheVariants.{NaN};
ghost use Rattle.pr_checks.specs.spec_history.private.Examples.{number};
ghost use Rattle.pr_unit.specs.spec_tests.private.Worked.{down_failure, down_file, down_tests, x_failure, x_file};
ghost use Rattle.pr_test.specs.FailureText.{failure_text};
ghost use Rattle.pr_checks.specs.RulesLoaded.{all_rules, rules_held};
ghost use Rattle.pr_test.specs.TestsTold.{lines_with, tests_told, these_tests, told_of};
ghost use Rattle.pr_test.specs.private.Worked.{nothing_held};

/// A check is told with its time, what is expected and what comes.
#[tactic(auto, unfolding(crate::proofs::Computing::computing))]
pub fn failures_are_printed_so()
    ensures sample { failure_text (x_file (number 1) (number 2)) (x_failure (number 1) (number 2)) ≡ codes "test 1 promql 1 at 0s\nexpected x 2\ngot x 1\n" }
    ensures alert { failure_text (down_tests 240000) down_failure ≡ codes "test 1 alert 1 at 4m\nexpected {alertname=\"InstanceDown\",instance=\"localhost:9090\",job=\"prometheus\",severity=\"page\"} {summary=\"Instance localhost:9090 down\"}\ngot nothing\n" }
{}

/// Checks that differ are told as they are, and else that all is well. No test is run where a rule
/// file is missing.
#[tactic(auto, unfolding(crate::proofs::Computing::computing))]
pub fn a_test_file_is_told()
    ensures differs { told_of nothing_held (codes "t.yml") (these_tests (x_file (number 1) (number 2))) ≡ record { text = codes "Unit Testing:  t.yml\n  FAILED:\ntest 1 promql 1 at 0s\nexpected x 2\ngot x 1\n"; refused = true; asks = codes "t.yml" ∷ [] } }
    ensures same { told_of nothing_held (codes "t.yml") (these_tests (x_file NaN NaN)) ≡ record { text = codes "Unit Testing:  t.yml\n  SUCCESS\n"; refused = false; asks = codes "t.yml" ∷ [] } }
    ensures fires { lines_with (down_tests 600000) (record { wrong = []; files = down_file ∷ [] }) ≡ [] }
    ensures no_rules { told_of nothing_held (codes "a/t.yml") (these_tests (down_tests 600000)) ≡ record { text = codes "Unit Testing:  a/t.yml\n  FAILED:\na/alerts.yml: Missing\n"; refused = true; asks = codes "a/t.yml" ∷ codes "a/alerts.yml" ∷ [] } }
{}

/// A test file that is not there is told, and asks for no rule file.
#[tactic(auto, unfolding(crate::proofs::Computing::computing))]
pub fn a_file_that_is_missing_is_told()
    ensures { tests_told nothing_held (codes "t.yml") ≡ record { text = codes "Unit Testing:  t.yml\n  FAILED:\nt.yml: Missing\n"; refused = true; asks = codes "t.yml" ∷ [] } }
{}

/// Of each rule file that does not load there is a line.
#[tactic(auto, unfolding(crate::proofs::Computing::computing))]
pub fn each_bad_rule_file_is_told()
    ensures missing { (all_rules nothing_held (codes "a.yml" ∷ codes "b.yml" ∷ [])).wrong ≡ codes "a.yml: Missing\nb.yml: Missing\n" }
    ensures too_large { (rules_held (codes "a.yml") is_too_large).wrong ≡ codes "a.yml: TooLarge\n" }
{}
