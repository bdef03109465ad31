//! What the definitions say of small trees. An example is a function that does nothing, and its
//! contract is what it shows.
ghost use Rattle.std.specs.Prelude.{◌≡◌, codes, Some, None, true, false, [], ◌∷◌, ◌^◌, ◌-◌};
ghost use Rattle.pr_num.specs.declared.value.Num.TheVariants.{PosInf};
ghost use Rattle.pr_labels.specs.declared.matching.Card.TheVariants as card;
ghost use Rattle.pr_ast.specs.declared.names.BinOp.TheVariants as op;
ghost use Rattle.pr_ast.specs.declared.names.Func.TheVariants as func;
ghost use Rattle.pr_ast.specs.declared.names.AggOp.TheVariants as agg;
ghost use Rattle.pr_ast.specs.declared.selector.MatchSign.TheVariants as sign;
ghost use Rattle.pr_ast.specs.Tree.{number, text, select, range, sub, neg, binary, call, aggregate, none as no_arguments};
ghost use Rattle.pr_ast.specs.private.Places.{nowhere};
ghost use Rattle.pr_ast.specs.private.Print.{tree_text};
ghost use Rattle.pr_ast.specs.Reach.{reads_back, reach};
ghost use Rattle.pr_ast.specs.private.Steps.{has_steps};
ghost use Rattle.pr_ast.specs.private.Examples.{chosen, metric, matcher, whole_number, one, two, grouped, on_names};

/// How small trees are printed.
#[tactic(auto, unfolding(crate::specs::Names::op_text, crate::specs::Names::func_text, crate::specs::Words::word_text, pr_num::specs::Shown::shown, pr_num::specs::Shown::fraction_text))]
pub fn small_trees_are_printed_so()
    ensures grouping { tree_text (binary nowhere op.Add false None (aggregate nowhere agg.Sum (grouped (codes "a" ∷ [])) (one (metric (codes "x")))) (neg nowhere (whole_number 1))) ≡ codes "sum by (a) (x) + (-1)" }
    ensures no_grouping { tree_text (aggregate nowhere agg.TopK (grouped []) (two (whole_number 3) (metric (codes "x")))) ≡ codes "topk(3, x)" }
    ensures without { tree_text (aggregate nowhere agg.Max (record { by = false; names = [] }) (one (metric (codes "x")))) ≡ codes "max without () (x)" }
    ensures left { tree_text (binary nowhere op.Sub false None (binary nowhere op.Sub false None (metric (codes "a")) (metric (codes "b"))) (metric (codes "c"))) ≡ codes "(a - b) - c" }
    ensures right { tree_text (binary nowhere op.Mul false None (metric (codes "a")) (neg nowhere (metric (codes "b")))) ≡ codes "a * (-b)" }
    ensures many { tree_text (binary nowhere op.Div false (Some (on_names (codes "l" ∷ codes "m" ∷ []) card.ManyToOne [])) (metric (codes "a")) (metric (codes "b"))) ≡ codes "a / on (l, m) group_left () b" }
    ensures with_bool { tree_text (binary nowhere op.NotEqual true None (metric (codes "a")) (whole_number 0)) ≡ codes "a != bool 0" }
    ensures matchers { tree_text (select nowhere (chosen (codes "m") (matcher (codes "a") sign.NotLike (codes "x\"") ∷ matcher (codes "b") sign.Equal [] ∷ []) 60000)) ≡ codes "m{a!~\"x\\\"\", b=\"\"} offset 1m" }
    ensures no_name { tree_text (select nowhere (record { name = None; matchers = []; offset = 0 })) ≡ codes "{}" }
    ensures ranged { tree_text (call nowhere func.Rate (one (range nowhere (chosen (codes "m") [] 1000) 300000))) ≡ codes "rate(m[5m] offset 1s)" }
    ensures subquery { tree_text (sub nowhere (neg nowhere (metric (codes "m"))) 300000 None 0) ≡ codes "(-m)[5m:]" }
    ensures step { tree_text (sub nowhere (metric (codes "m")) 3600000 (Some 60000) 1) ≡ codes "m[1h:1m] offset 1ms" }
    ensures argument { tree_text (call nowhere func.Abs (one (neg nowhere (metric (codes "x"))))) ≡ codes "abs(-x)" }
    ensures none { tree_text (call nowhere func.Time no_arguments) ≡ codes "time()" }
    ensures infinity { tree_text (number nowhere PosInf) ≡ codes "+Inf" }
{}

/// How far back small trees read, in milliseconds, and whether their steps have a length.
pub fn small_trees_read_back_so()
    ensures number { reads_back (whole_number 1) ≡ 0 }
    ensures selector { reads_back (select nowhere (chosen (codes "x") [] 1000)) ≡ 301000 }
    ensures range { reads_back (range nowhere (chosen (codes "x") [] 1000) 60000) ≡ 61000 }
    ensures subquery { reads_back (sub nowhere (metric (codes "x")) 60000 None 7) ≡ 360007 }
    ensures greatest { reads_back (binary nowhere op.Add false None (metric (codes "x")) (range nowhere (chosen (codes "x") [] 0) 1)) ≡ 300000 }
    ensures of_an_argument { reads_back (call nowhere func.PredictLinear (two (range nowhere (chosen (codes "x") [] 0) 600000) (whole_number 1))) ≡ 600000 }
    ensures capped { reach (sub nowhere (metric (codes "x")) (2 ^ 64) None 0) ≡ 2 ^ 64 - 1 }
    ensures no_step { has_steps (sub nowhere (metric (codes "x")) 60000 None 0) ≡ true }
    ensures step_of_0 { has_steps (neg nowhere (sub nowhere (metric (codes "x")) 60000 (Some 0) 0)) ≡ false }
{}
