//! Worked texts of backfills, each as a clause that the check computes.
ghost use Rattle.std.specs.Prelude.{◌≡◌, ◌∷◌, [], codes};
ghost use Rattle.spec_rules.specs.spec_history.declared.append.Append.TheVariants.{OutOfOrder, Same};
ghost use Rattle.pr_backfill.specs.private.Examples.{added, told_as};
ghost use Rattle.pr_backfill.specs.Text.{fill_text};

/// What is written of the backfills of pr_backfill's examples: over two rows, again over what it kept
/// then, and at no time.
#[tactic(auto, unfolding(pr_text::proofs::Computing::computing, crate::specs::Text::at_line, crate::specs::Text::backfilled_line))]
pub fn a_backfill_is_told_so()
    ensures first { fill_text 2 (added 0 1 ∷ added 60000 2 ∷ added 120000 2 ∷ [])
        ≡ codes "opened 2\nat 0 r.yml g\nrule 1 ok\nsample s 1\nevaluated rules 1 faults 0\nat 60000 r.yml g\nrule 1 ok\nsample s 2\nevaluated rules 1 faults 0\nat 120000 r.yml g\nrule 1 ok\nsample s 2\nevaluated rules 1 faults 0\nbackfilled 3\n" }
    ensures again { fill_text 5 (told_as 0 1 (OutOfOrder 120000) [] ∷ told_as 60000 2 (OutOfOrder 120000) [] ∷ told_as 120000 2 Same [] ∷ [])
        ≡ codes "opened 5\nat 0 r.yml g\nrule 1 ok\ndropped s OutOfOrder 120000\nevaluated rules 1 faults 0\nat 60000 r.yml g\nrule 1 ok\ndropped s OutOfOrder 120000\nevaluated rules 1 faults 0\nat 120000 r.yml g\nrule 1 ok\nsample s 2\nevaluated rules 1 faults 0\nbackfilled 0\n" }
    ensures nothing { fill_text 0 [] ≡ codes "opened 0\nbackfilled 0\n" }
{}
