// How many samples are read for small expressions.
ghost use Rattle.std.specs.Prelude.{ℕ, ◌≡◌, true, cond, ◌==◌, List, length, nat_lt, Some, None};
ghost use Rattle.spec_vectors.specs.spec_history.private.Examples.{three as m_three_times};
ghost use Rattle.pr_ast.specs.declared.names.BinOp.TheVariants as op;
ghost use Rattle.pr_ast.specs.Tree.{sub};
ghost use Rattle.pr_ast.specs.private.Places.{nowhere};
ghost use Rattle.spec_vectors.specs.Ranges.{longest};
ghost use Rattle.spec_meaning.specs.private.Cost.{cost, cost_at_each, nothing_passed};
ghost use Rattle.spec_meaning.specs.private.Examples.{operation, range_of_m};
ghost use Rattle.spec_meaning.specs.private.RowExamples.{sum_of_m};

/// A range reads its samples, but for those that were passed for it; range selectors are numbered
/// in the order of the text. Inside a subquery each range is read anew at each of its times, and of
/// a subquery with too many times nothing is read. Here m has three samples, a minute after one
/// another from 0 on.
#[tactic(auto, unfolding(pr_match::specs::Matcher::meets, pr_match::specs::Matcher::meets_all))]
pub fn reads_are_counted()
    ensures range { cost 60000 m_three_times nothing_passed (range_of_m 120000) 0 120000 ≡ 2 }
    ensures passed { cost 60000 m_three_times (λ k labels. 2) (range_of_m 120000) 0 120000 ≡ 1 }
    ensures numbered { cost 60000 m_three_times (λ k labels. cond (k == 1) 3 0) (operation op.Add (sum_of_m 120000) (sum_of_m 60000)) 0 120000 ≡ 2 }
    ensures inside { cost 60000 m_three_times (λ k labels. 3) (sub nowhere (sum_of_m 120000) 120000 (Some 60000) 0) 0 120000 ≡ 4 }
    ensures earlier { cost 60000 m_three_times nothing_passed (sub nowhere (sum_of_m 120000) 120000 None 60000) 0 120000 ≡ 3 }
    ensures too_many { (f : ℕ → ℕ) (ts : List ℕ) → nat_lt longest (length ts) ≡ true → cost_at_each f ts ≡ 0 }
{}
