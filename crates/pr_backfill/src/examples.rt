//! Worked backfills, each as a clause that the check computes.
ghost use Rattle.std.specs.Prelude.{◌≡◌, ◌∷◌, ◌++◌, [], codes, map, None, Some};
ghost use Rattle.spec_rules.specs.spec_history.declared.append.Append.TheVariants.{OutOfOrder, Same};
ghost use Rattle.spec_rules.specs.private.Examples.{alert};
ghost use Rattle.spec_rules.specs.Groups.{rules_of};
ghost use Rattle.pr_backfill.specs.private.Examples.{added, file_of, kept, r_yml, records_s, s_rows, told_as};
ghost use Rattle.pr_backfill.specs.Filled.{filled, groups_to_fill, rows_filled};
ghost use Rattle.pr_backfill.specs.Times.{backfill_times, times_from};

/// The end may be the last time.
#[tactic(auto, unfolding(crate::specs::Times::backfill_times))]
pub fn times_are_counted_so()
    ensures three { backfill_times 0 120000 60000 ≡ Some 3 }
    ensures before_the_end { backfill_times 0 119999 60000 ≡ Some 2 }
    ensures one { backfill_times 5 5 60000 ≡ Some 1 }
    ensures no_end { backfill_times 5 4 60000 ≡ None }
    ensures no_step { backfill_times 0 120000 0 ≡ None }
    ensures most { backfill_times 0 1048575 1 ≡ Some 1048576 }
    ensures too_many { backfill_times 0 1048576 1 ≡ None }
    ensures listed { times_from 0 60000 3 ≡ 0 ∷ 60000 ∷ 120000 ∷ [] }
{}

/// A rule sees no sample of a later time. What it recorded is kept once: over the same rows again it
/// adds nothing, and what is older than the last sample of its series is dropped.
#[tactic(auto, unfolding(crate::specs::Filled::filled, crate::specs::Filled::round_at, spec_rules::specs::Evaluations::group_step, spec_rules::specs::Evaluations::rule_step, spec_rules::specs::Evaluations::rule_outcome, spec_rules::specs::Results::rule_result, pr_match::specs::Matcher::meets, pr_match::specs::Matcher::meets_all))]
pub fn a_backfill_is_so()
    ensures first { filled kept (r_yml ∷ []) (times_from 0 60000 3) ≡ added 0 1 ∷ added 60000 2 ∷ added 120000 2 ∷ [] }
    ensures rows { rows_filled (filled kept (r_yml ∷ []) (times_from 0 60000 3)) ≡ s_rows }
    ensures again { filled (kept ++ s_rows) (r_yml ∷ []) (times_from 0 60000 3) ≡ told_as 0 1 (OutOfOrder 120000) [] ∷ told_as 60000 2 (OutOfOrder 120000) [] ∷ told_as 120000 2 Same [] ∷ [] }
    ensures twice { filled kept (r_yml ∷ r_yml ∷ []) (0 ∷ []) ≡ added 0 1 ∷ told_as 0 1 Same [] ∷ [] }
{}

/// Alerts are not evaluated; their groups are, also where nothing else is in them.
pub fn alerts_are_taken_out()
    ensures rules { map rules_of (groups_to_fill (file_of (alert ∷ records_s) ∷ [])) ≡ records_s ∷ [] }
    ensures none { map rules_of (groups_to_fill (file_of (alert ∷ []) ∷ [])) ≡ [] ∷ [] }
{}
