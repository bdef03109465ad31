// What orders about targets come to in a small world.
ghost use Rattle.std.specs.Prelude.{◌≡◌, codes, [], ◌∷◌, Some, pos, false};
ghost use Rattle.pr_ast.specs.pr_labels.LabelSet.{metric_label, pair_of};
ghost use Rattle.pr_num.specs.declared.value.Num.TheVariants.{Finite};
ghost use Rattle.spec_vectors.specs.spec_history.private.Examples.{job, number};
ghost use Rattle.spec_vectors.specs.spec_history.private.Laws.{value_at};
ghost use Rattle.pr_expo.specs.declared.expo_line.place.ExpoKind.TheVariants.{BadLabels};
ghost use Rattle.spec_world.specs.World.{start};
ghost use Rattle.spec_world.specs.Settings.{of_a_run};
ghost use Rattle.spec_world.specs.Outcome.{accept, targets_become};
ghost use Rattle.spec_world.specs.Scrapes.{reported, sample_count_of, up_of};
ghost use Rattle.spec_world.specs.private.ScrapeExamples.{after_first, first, j, label, of_g, of_j, second, third};
ghost use Rattle.spec_world.specs.Step.{next, outcome, scrape_outcome};
ghost use Rattle.spec_world.specs.Targets.{fail_step, scraped_target};
ghost use Rattle.spec_world.specs.declared.event.Event.TheVariants.{Fail, Gone};
ghost use Rattle.spec_world.specs.declared.report.Report.TheVariants as report;

/// A scrape is answered by its counts, or by the first bad line of its body; both are accepted,
/// make the target known and add what is admitted. So is a target that does not answer.
#[tactic(auto, unfolding(crate::specs::Scrapes::scrape_of))]
pub fn a_scrape_answers_by_its_counts()
    ensures scraped { scrape_outcome (scraped_target [] j first) ≡ accept (report.Scraped 2 0 0) after_first (targets_become (record { labels = j; tracked = of_j (codes "m") ∷ of_j (codes "n") ∷ [] } ∷ [])) }
    ensures bad { scrape_outcome (scraped_target (record { labels = j; tracked = first.tracked } ∷ []) j second) ≡ accept (report.BadScrape 2 BadLabels 2) second.answer.admitted (targets_become (record { labels = j; tracked = [] } ∷ [])) }
    ensures again { scrape_outcome (scraped_target (record { labels = j; tracked = [] } ∷ []) j third) ≡ accept (report.Scraped 2 0 0) third.answer.admitted (targets_become (record { labels = j; tracked = of_j (codes "m") ∷ of_j (codes "n") ∷ [] } ∷ [])) }
    ensures failed { outcome of_a_run (start []) (Fail 0 (label (codes "a"))) ≡ accept (report.Failed 0)
        (reported (up_of (label (codes "a"))) 0 0 ∷ reported (sample_count_of (label (codes "a"))) 0 0 ∷ []) (targets_become (record { labels = label (codes "a"); tracked = [] } ∷ [])) }
{}

/// After a scrape that failed nothing is tracked of a target, and all that was is stale.
#[tactic(auto, unfolding(crate::specs::Scrapes::scrape_of))]
pub fn nothing_is_tracked_after_a_failure()
    ensures targets { (fail_step (record { labels = j; tracked = first.tracked } ∷ []) after_first j 2000).targets ≡ record { labels = j; tracked = [] } ∷ [] }
    ensures stale { (fail_step (record { labels = j; tracked = first.tracked } ∷ []) after_first j 2000).answer.stale ≡ 2 }
{}

/// A sample stands under its own labels and those of its target, of which one that it has too is
/// renamed.
pub fn a_sample_is_found_under_its_target()
    ensures added { of_g.answer.added ≡ 2 }
    ensures first { value_at of_g.answer.admitted (pos 1000) (pair_of metric_label (codes "a_bytes") ∷ job (codes "g")) ≡ Some (number 18446744073709552000) }
    ensures renamed { value_at of_g.answer.admitted (pos 1000) (pair_of metric_label (codes "b") ∷ pair_of (codes "exported_job") (codes "x") ∷ job (codes "g")) ≡ Some (Finite (pos 20541)) }
{}

/// The end of an unknown target is accepted and gives nothing, and the time moves.
pub fn an_end_without_a_target_gives_nothing()
    ensures answered { outcome of_a_run (start []) (Gone 7 j) ≡ accept (report.Gone 0) [] (targets_become []) }
    ensures after { (next of_a_run (start []) (Gone 7 j)).world ≡ record { history = []; last = Some 7; targets = []; groups = []; reloaded = false } }
    ensures taken { (next of_a_run (start []) (Gone 7 j)).refused ≡ false }
{}
