// What the definitions say of small scrapes.
ghost use Rattle.std.specs.Prelude.{◌≡◌, codes, [], ◌∷◌, Some, None, pos, negsuc, length};
ghost use Rattle.pr_ast.specs.pr_labels.LabelSet.{metric_label, named, pair_of};
ghost use Rattle.spec_vectors.specs.spec_history.Admission.{put_all};
ghost use Rattle.spec_vectors.specs.spec_history.private.Examples.{job, number, whole};
ghost use Rattle.spec_vectors.specs.spec_history.private.Laws.{value_at};
ghost use Rattle.pr_num.specs.declared.value.Point.TheVariants.{Stale};
ghost use Rattle.pr_expo.specs.declared.expo_line.place.ExpoKind.TheVariants.{BadLabels};
ghost use Rattle.spec_world.specs.Scrapes.{failed, free_name, gone_of, marker, renamed, scrape_of, scraped, scraped_labels};
ghost use Rattle.spec_world.specs.Targets.{fail_step, gone_step, nothing_scraped};
ghost use Rattle.spec_world.specs.private.ScrapeExamples.{after_first, after_second, both, fewer, first, j, label, of_j, sample, second, third, timed, two, wide};

/// A label that the target has too stands under another name: with `exported_` before it as often
/// as it takes. The labels are renamed in order of name, and one that waits still takes its name.
pub fn a_label_of_the_target_is_renamed()
    ensures once { scraped_labels j (pair_of metric_label (codes "b") ∷ job (codes "x"))
        ≡ pair_of metric_label (codes "b") ∷ pair_of (codes "exported_job") (codes "x") ∷ j }
    ensures other { scraped_labels j (named (codes "b")) ≡ of_j (codes "b") }
    ensures twice { free_name (label (codes "a")) (label (codes "exported_a")) (codes "a") ≡ codes "exported_exported_a" }
    ensures of_the_target { free_name (two (codes "a") (codes "exported_a")) (label (codes "a")) (codes "a") ≡ codes "exported_exported_a" }
    ensures in_order { renamed (two (codes "a") (codes "exported_a")) (two (codes "a") (codes "exported_a"))
        ≡ pair_of (codes "exported_exported_a") (codes "v") ∷ pair_of (codes "exported_exported_exported_a") (codes "w") ∷ [] }
{}

/// Samples are added under the target's labels; then what is said of the target.
pub fn a_scrape_adds_its_samples()
    ensures added { first.answer.added ≡ 2 }
    ensures dropped { first.answer.dropped ≡ 0 }
    ensures stale { first.answer.stale ≡ 0 }
    ensures tracked { first.tracked ≡ of_j (codes "m") ∷ of_j (codes "n") ∷ [] }
    ensures rows { first.answer.admitted ≡ after_first }
    ensures up { value_at after_first (pos 1000) (of_j (codes "up")) ≡ Some (number 1) }
    ensures samples { value_at after_first (pos 1000) (of_j (codes "scrape_samples_scraped")) ≡ Some (number 2) }
{}

/// After a body that is no exposition all that was tracked is stale, and the target is not up; a
/// later scrape goes on.
pub fn a_bad_body_leaves_nothing()
    ensures stale { second.answer.stale ≡ 2 }
    ensures fault { second.answer.fault ≡ Some (record { line = 2; kind = BadLabels }) }
    ensures tracked { second.tracked ≡ [] }
    ensures gone { value_at after_second (pos 2000) (of_j (codes "m")) ≡ None }
    ensures down { value_at after_second (pos 2000) (of_j (codes "up")) ≡ Some (number 0) }
    ensures added { third.answer.added ≡ 2 }
    ensures again { third.answer.stale ≡ 0 }
    ensures value { value_at (put_all after_second third.entries) (pos 3000) (of_j (codes "m")) ≡ Some (number 3) }
{}

/// A series that is no longer offered gets a marker, before what is said of the target; one that
/// still is gets none.
pub fn a_series_that_is_no_longer_offered_is_marked()
    ensures stale { fewer.answer.stale ≡ 1 }
    ensures tracked { fewer.tracked ≡ of_j (codes "m") ∷ [] }
    ensures rows { fewer.answer.admitted ≡ (record { labels = of_j (codes "m"); time = 2000; point = whole 2 })
        ∷ marker 2000 (of_j (codes "n"))
        ∷ (record { labels = of_j (codes "up"); time = 2000; point = whole 1 })
        ∷ (record { labels = of_j (codes "scrape_samples_scraped"); time = 2000; point = whole 1 }) ∷ [] }
{}

/// A sample with a time of its own stands at that time, and its series is not tracked. One whose
/// time is negative or above the scrape's, or whose value is too wide, is dropped.
pub fn a_time_of_its_own_is_kept()
    ensures added { (scraped j 120000 [] (timed (named (codes "m")) (number 5) (pos 30000) ∷ []) []).answer.added ≡ 1 }
    ensures untracked { (scraped j 120000 [] (timed (named (codes "m")) (number 5) (pos 30000) ∷ []) []).tracked ≡ [] }
    ensures at_the_scrape { (scraped j 1000 [] (timed (named (codes "m")) (number 5) (pos 1000) ∷ []) []).answer.added ≡ 1 }
    ensures above { (scraped j 1000 [] (timed (named (codes "m")) (number 5) (pos 1001) ∷ []) []).answer.dropped ≡ 1 }
    ensures negative { (scraped j 1000 [] (timed (named (codes "m")) (number 5) (negsuc 0) ∷ []) []).answer.dropped ≡ 1 }
    ensures too_wide { (scraped j 1000 [] (wide (named (codes "m")) ∷ []) []).answer.dropped ≡ 1 }
    ensures conflict { (scraped j 1000 [] (sample (named (codes "m")) (number 1) ∷ sample (named (codes "m")) (number 2) ∷ []) []).answer.dropped ≡ 1 }
    ensures same { (scraped j 1000 [] (sample (named (codes "m")) (number 1) ∷ sample (named (codes "m")) (number 1) ∷ []) []).answer.dropped ≡ 0 }
{}

/// A sample at or below the last time of its series is dropped, but for an equal one, which is
/// neither added nor dropped, and is tracked. A line whose value is too wide counts as a sample
/// line. A marker for a series that has a sample at this time is none.
pub fn a_refused_sample_is_dropped()
    ensures late { (scraped j 2000 [] (timed (named (codes "m")) (number 5) (pos 500) ∷ []) after_first).answer.dropped ≡ 1 }
    ensures same { (scraped j 1000 [] (sample (named (codes "m")) (number 1) ∷ []) after_first).answer.added ≡ 0 }
    ensures not_dropped { (scraped j 1000 [] (sample (named (codes "m")) (number 1) ∷ []) after_first).answer.dropped ≡ 0 }
    ensures tracked { (scraped j 1000 [] (sample (named (codes "m")) (number 1) ∷ []) after_first).tracked ≡ of_j (codes "m") ∷ [] }
    ensures counted { value_at (put_all [] (scraped j 1000 [] (wide (named (codes "m")) ∷ []) []).entries) (pos 1000) (of_j (codes "scrape_samples_scraped")) ≡ Some (number 1) }
    ensures marker { (scraped j 1000 (of_j (codes "m") ∷ []) [] after_first).answer.stale ≡ 0 }
{}

/// A failure puts the markers, then `up` and `scrape_samples_scraped` of 0; the end of a target
/// puts markers for what it left, and for these two.
#[tactic(auto, unfolding(crate::specs::Scrapes::gone_of))]
pub fn entries_stand_in_this_order()
    ensures failed { (failed j 2000 (of_j (codes "m") ∷ of_j (codes "n") ∷ []) None []).entries ≡ marker 2000 (of_j (codes "m"))
        ∷ marker 2000 (of_j (codes "n"))
        ∷ (record { labels = of_j (codes "up"); time = 2000; point = whole 0 })
        ∷ (record { labels = of_j (codes "scrape_samples_scraped"); time = 2000; point = whole 0 }) ∷ [] }
    ensures gone { (gone_of j 2000 (of_j (codes "m") ∷ []) []).entries ≡ marker 2000 (of_j (codes "m"))
        ∷ marker 2000 (of_j (codes "up")) ∷ marker 2000 (of_j (codes "scrape_samples_scraped")) ∷ [] }
{}

/// The end of an unknown target is nothing. A scrape that fails makes the target known, so that its
/// end marks what was said of it.
#[tactic(auto, unfolding(crate::specs::Scrapes::scrape_of, crate::specs::Scrapes::gone_of))]
pub fn a_target_ends()
    ensures unknown { gone_step [] [] j 0 ≡ record { targets = []; entries = []; answer = nothing_scraped } }
    ensures failed { (fail_step [] [] j 0).answer.stale ≡ 0 }
    ensures known { (fail_step [] [] j 0).targets ≡ (record { labels = j; tracked = [] }) ∷ [] }
    ensures marked { (gone_step (fail_step [] [] j 0).targets (put_all [] (fail_step [] [] j 0).entries) j 1000).answer.stale ≡ 2 }
    ensures forgotten { (gone_step (fail_step [] [] j 0).targets (put_all [] (fail_step [] [] j 0).entries) j 1000).targets ≡ [] }
    ensures twice { (gone_of j 1000 (of_j (codes "up") ∷ []) []).answer.stale ≡ 2 }
{}
