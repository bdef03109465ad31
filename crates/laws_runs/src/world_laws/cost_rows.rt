// What the definitions say of the samples that an evaluation reads.
ghost use Rattle.std.specs.Prelude.{◌≡◌, ◌==◌, cond};
ghost use Rattle.spec_rules.specs.spec_meaning.private.Cost.{nothing_passed};
ghost use Rattle.spec_rules.specs.private.Costs.{group_cost};
ghost use Rattle.spec_rules.specs.private.Examples.{after_one, down_and_written, m_is_1, waiting};
ghost use Rattle.spec_rules.specs.Settings.{of_a_run};
ghost use Rattle.laws_runs.specs.private.Worked.{two_in_a_row};

/// A rule reads what those before it put, as far as it was not passed. The evaluation that restores
/// reads one sample more of each alert that it may move.
#[tactic(auto, unfolding(spec_rules::specs::Evaluations::group_step, spec_rules::specs::Evaluations::rule_step, spec_rules::specs::Evaluations::rule_outcome, spec_rules::specs::Results::rule_result, pr_match::specs::Matcher::meets, pr_match::specs::Matcher::meets_all, pr_num::specs::Order::compared, spec_vectors::specs::Ranges::over, spec_vectors::specs::Ranges::function_of, pr_num::specs::Total::value_of))]
pub fn evaluations_cost_so()
    ensures all { group_cost of_a_run two_in_a_row m_is_1 60000 (λ i. nothing_passed) ≡ 2 }
    ensures passed { group_cost of_a_run two_in_a_row m_is_1 60000 (λ i k labels. cond (i == 1) 1 0) ≡ 1 }
    ensures waits { group_cost of_a_run (waiting 2) down_and_written 1800000 (λ i. nothing_passed) ≡ 1 }
    ensures restores { group_cost of_a_run (after_one of_a_run (waiting 2) down_and_written 1800000) down_and_written 1860000 (λ i. nothing_passed) ≡ 2 }
{}
