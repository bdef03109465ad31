//! Laws of test files, each as the contract of a function that does nothing.
ghost use Rattle.std.specs.Prelude.{◌≡◌, ◌≢◌, ◌<◌, ℕ, List, []};
ghost use Rattle.pr_rulefile.specs.declared.fields.problem.Problem.{Problem};
ghost use Rattle.pr_testfile.specs.File.{PlainFile};
ghost use Rattle.pr_testfile.specs.Reading.{test_file_of, gives_file, gives_problems};

/// The groups of a test file are evaluated at an interval above 0.
#[tactic(auto, using(crate::proofs::Intervals::file_interval_is_positive))]
pub fn intervals_are_above_0()
    ensures { (text : List ℕ) (file : PlainFile) → test_file_of text ≡ gives_file file → 0 < file.interval }
{}

/// A text that is no test file has a problem that can be told.
#[tactic(auto, using(crate::proofs::SomeProblems::problem_is_told))]
pub fn a_refused_file_has_a_problem()
    ensures { (text : List ℕ) (list : List Problem) → test_file_of text ≡ gives_problems list → list ≢ [] }
{}
