//! What the words of the command line ask for.
ghost use Rattle.std.specs.Prelude.{◌≡◌, codes, [], ◌∷◌, IsSome, None, Some};
ghost use Rattle.pr_top.specs.Command.{backfills, checks_metrics, checks_rules, command_of, exercises, runs, tests_rules};

/// The forms of the words, and words that are none of them.
pub fn words_ask_for_commands()
    ensures run { command_of (codes "run" ∷ []) ≡ Some (runs []) }
    ensures store { command_of (codes "run" ∷ codes "--store" ∷ codes "s.db" ∷ []) ≡ Some (runs (codes "s.db")) }
    ensures dash_path { command_of (codes "run" ∷ codes "--store" ∷ codes "-s" ∷ []) ≡ None }
    ensures empty_path { command_of (codes "run" ∷ codes "--store" ∷ codes "" ∷ []) ≡ None }
    ensures no_path { command_of (codes "run" ∷ codes "--store" ∷ []) ≡ None }
    ensures tests { command_of (codes "test" ∷ codes "rules" ∷ codes "a" ∷ codes "b" ∷ []) ≡ Some (tests_rules (codes "a" ∷ codes "b" ∷ [])) }
    ensures rules { command_of (codes "check" ∷ codes "rules" ∷ codes "a" ∷ []) ≡ Some (checks_rules (codes "a" ∷ [])) }
    ensures no_rules { command_of (codes "check" ∷ codes "rules" ∷ []) ≡ None }
    ensures metrics { command_of (codes "check" ∷ codes "metrics" ∷ []) ≡ Some checks_metrics }
    ensures metrics_of_a_file { command_of (codes "check" ∷ codes "metrics" ∷ codes "a" ∷ []) ≡ None }
    ensures rounds { command_of (codes "exercise" ∷ codes "12" ∷ []) ≡ Some (exercises 12) }
    ensures most_rounds { command_of (codes "exercise" ∷ codes "100000" ∷ []) ≡ Some (exercises 100000) }
    ensures too_many_rounds { command_of (codes "exercise" ∷ codes "100001" ∷ []) ≡ None }
    ensures no_rounds { command_of (codes "exercise" ∷ codes "0" ∷ []) ≡ None }
    ensures leading_zero { command_of (codes "exercise" ∷ codes "012" ∷ []) ≡ None }
    ensures help { command_of (codes "--help" ∷ []) ≡ None }
    ensures none { command_of [] ≡ None }
{}

/// The forms of a backfill, and times that are none.
pub fn words_ask_for_a_backfill()
    ensures times { command_of (codes "backfill" ∷ codes "s.db" ∷ codes "0" ∷ codes "120000" ∷ codes "1m" ∷ codes "r.yml" ∷ [])
        ≡ Some (backfills (codes "s.db") (0 ∷ 60000 ∷ 120000 ∷ []) (codes "r.yml" ∷ [])) }
    ensures end_before_start { command_of (codes "backfill" ∷ codes "s.db" ∷ codes "5" ∷ codes "4" ∷ codes "1m" ∷ codes "r.yml" ∷ []) ≡ None }
    ensures no_step { command_of (codes "backfill" ∷ codes "s.db" ∷ codes "0" ∷ codes "4" ∷ codes "0" ∷ codes "r.yml" ∷ []) ≡ None }
    ensures most_times { IsSome (command_of (codes "backfill" ∷ codes "s.db" ∷ codes "0" ∷ codes "1048575" ∷ codes "1ms" ∷ codes "r.yml" ∷ [])) }
    ensures too_many_times { command_of (codes "backfill" ∷ codes "s.db" ∷ codes "0" ∷ codes "1048576" ∷ codes "1ms" ∷ codes "r.yml" ∷ []) ≡ None }
    ensures no_file { command_of (codes "backfill" ∷ codes "s.db" ∷ codes "0" ∷ codes "4" ∷ codes "1m" ∷ []) ≡ None }
{}
