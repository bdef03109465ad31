//! What the definitions say of the first turns.
ghost use Rattle.std.specs.Prelude.{◌≡◌, [], ◌∷◌, codes};
ghost use Rattle.pr_text.specs.spec_world.declared.event.Event.TheVariants.{Scrape, Fail, Eval, Restart};
ghost use Rattle.pr_exercise.specs.Exercise.{drawn, exercise_events, exercise_name, next_number, opening, reload_at, target, targets_from};
ghost use Rattle.pr_exercise.specs.Summary.{summary_of};

/// The first draws of two turns.
pub fn first_draws()
    ensures first { drawn (next_number 2) ≡ 908 }
    ensures second { drawn (next_number (next_number 2)) ≡ 22817 }
{}

/// The events of one turn, which begins with a reload as every run does; and a target that does not
/// answer.
#[tactic(auto, unfolding(crate::proofs::Computing::computing))]
pub fn the_first_turn_has_these_events()
    ensures one { exercise_events 1 ≡ reload_at 0
        ∷ Scrape 0 (target 0) (codes "requests_total 38\ntemp 31\n")
        ∷ Scrape 0 (target 1) (codes "requests_total 58\ntemp 44\n")
        ∷ Scrape 0 (target 2) (codes "requests_total 13\ntemp 79\n")
        ∷ Scrape 0 (target 3) (codes "requests_total 15\ntemp 36\n")
        ∷ Eval 0 exercise_name (codes "g") ∷ [] }
    ensures no_answer { (targets_from 0 0 21 (0 ∷ 0 ∷ [])).events ≡ Scrape 0 (target 0) (codes "requests_total 24\ntemp 2\n") ∷ Fail 0 (target 1) ∷ [] }
    ensures kept { (targets_from 0 0 21 (1 ∷ 2 ∷ [])).counts ≡ 25 ∷ 2 ∷ [] }
{}

/// Every hundredth turn but the first begins with a reload, and every thousandth with a restart
/// before that.
pub fn turns_begin_so()
    ensures first { opening 0 0 ≡ [] }
    ensures next { opening 99 5 ≡ [] }
    ensures hundredth { opening 100 5 ≡ reload_at 5 ∷ [] }
    ensures thousandth { opening 1000 5 ≡ Restart 5 ∷ reload_at 5 ∷ [] }
{}

/// Lines are counted by their first words; of those that tell of rules, the faults.
#[tactic(auto, unfolding(crate::proofs::Computing::computing))]
pub fn lines_are_counted()
    ensures { summary_of 2 (codes "opened 0" ∷ codes "rule 1 ok" ∷ codes "rule 2 fault TooWide at 0" ∷ codes "sample x 1" ∷ codes "send firing {} value 1 starts 0 ends 1" ∷ codes "stale x" ∷ codes "stale y" ∷ codes "samples" ∷ [])
        ≡ codes "exercise 2\nlines 8\nsamples 1\nstales 2\nsends 1\nfaults 1\n" }
{}
