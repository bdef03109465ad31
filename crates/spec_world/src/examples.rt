// What the definitions say of small worlds.
ghost use Rattle.std.specs.Prelude.{◌≡◌, codes, [], ◌∷◌, Some, None, false, ◌^◌};
ghost use Rattle.pr_ast.specs.declared.names.BinOp.TheVariants as op;
ghost use Rattle.pr_ast.specs.declared.names.Func.TheVariants as func;
ghost use Rattle.pr_ast.specs.private.Examples.{chosen, metric};
ghost use Rattle.pr_ast.specs.private.Places.{nowhere};
ghost use Rattle.pr_ast.specs.Tree.{binary, call, more, none, range, text};
ghost use Rattle.spec_vectors.specs.spec_history.private.Examples.{m, whole, entry_at, one, number};
ghost use Rattle.spec_vectors.specs.spec_history.Series.{element};
ghost use Rattle.pr_ast.specs.declared.lex.fault.LexKind.TheVariants as lex;
ghost use Rattle.pr_rulefile.specs.pr_parse.declared.fault.ParseKind.TheVariants as parse;
ghost use Rattle.pr_rulefile.specs.pr_parse.Parsed.{gives_tree, gives_lex_fault, gives_fault};
ghost use Rattle.spec_rules.specs.spec_meaning.declared.fault.FaultKind.TheVariants.{TooWide};
ghost use Rattle.spec_rules.specs.spec_meaning.private.Examples.{whole as whole_number};
ghost use Rattle.pr_types.specs.declared.kind.TypeKind.TheVariants.{NotInstant};
ghost use Rattle.pr_rulefile.specs.pr_parse.declared.query_kind.QueryKind.TheVariants.{Lex, Parse, Typing};
ghost use Rattle.spec_world.specs.World.{World, start};
ghost use Rattle.spec_world.specs.Settings.{of_a_run};
ghost use Rattle.spec_world.specs.Outcome.{refuse, accept, nothing_else};
ghost use Rattle.pr_rulefile.specs.pr_parse.Expressions.{expression_by};
ghost use Rattle.spec_world.specs.Query.{expression_outcome};
ghost use Rattle.spec_world.specs.Step.{next, step_by, world_after, rows_of, outcome};
ghost use Rattle.spec_world.specs.declared.event.Event.TheVariants.{Add, Query};
ghost use Rattle.spec_world.specs.declared.report.Report.TheVariants.{Added, Same, Conflict, Scalar, Vector, QueryFault, QueryRefused, Backwards};

/// A sample adds its entry where it is admitted, and nothing where it is the same or in conflict.
pub fn a_sample_adds_its_entry()
    ensures added { outcome of_a_run (start []) (Add 0 m (whole 1)) ≡ accept Added (entry_at 0 (whole 1) ∷ []) nothing_else }
    ensures later { outcome of_a_run (start []) (Add 5 m (whole 1)) ≡ accept Added (entry_at 5 (whole 1) ∷ []) nothing_else }
    ensures same { outcome of_a_run (start one) (Add 0 m (whole 1)) ≡ accept Same [] nothing_else }
    ensures conflict { outcome of_a_run (start one) (Add 0 m (whole 2)) ≡ accept (Conflict (whole 1)) [] nothing_else }
    ensures kept { rows_of of_a_run (start []) (Add 0 m (whole 1) ∷ Add 0 m (whole 1) ∷ []) ≡ entry_at 0 (whole 1) ∷ [] }
{}

/// An expression is answered by what it gives over the history: `m`, `1`, `10^19 * 10^19`. None
/// adds anything, and a fault is accepted as a value is.
#[tactic(auto, unfolding(pr_types::specs::Operations::operation_fault, pr_match::specs::Matcher::meets, pr_match::specs::Matcher::meets_all, pr_num::specs::Arithmetic::product_of, pr_num::specs::Half::half, pr_num::specs::Half::half_abs))]
pub fn an_expression_is_answered_by_its_meaning()
    ensures vector { expression_outcome of_a_run one 299999 (expression_by (gives_tree (metric (codes "m")))) ≡ accept (Vector (element m (number 1) ∷ [])) [] nothing_else }
    ensures gone { expression_outcome of_a_run one 300000 (expression_by (gives_tree (metric (codes "m")))) ≡ accept (Vector []) [] nothing_else }
    ensures scalar { expression_outcome of_a_run [] 0 (expression_by (gives_tree (whole_number 1))) ≡ accept (Scalar (number 1)) [] nothing_else }
    ensures wide { expression_outcome of_a_run [] 0 (expression_by (gives_tree (binary (record { start = 3; end = 9 }) op.Mul false None (whole_number (10 ^ 19)) (whole_number (10 ^ 19))))) ≡ accept (QueryFault 3 TooWide) [] nothing_else }
    ensures moves { (step_by (start one) 299999 (expression_outcome of_a_run one 299999 (expression_by (gives_tree (metric (codes "m")))))).world ≡ record { history = one; last = Some 299999; targets = []; groups = []; reloaded = false } }
{}

/// What has no tokens, no tree or no type is refused with its first fault: `m !`, `m +`, `"a"`.
/// Then the time does not move.
#[tactic(auto, unfolding(pr_types::specs::Signatures::func_signature))]
pub fn a_text_that_is_no_expression_is_refused()
    ensures lexical { expression_outcome of_a_run one 6000 (expression_by (gives_lex_fault 3 lex.BadChar)) ≡ refuse (QueryRefused 3 (Lex lex.BadChar)) }
    ensures parsing { expression_outcome of_a_run one 6000 (expression_by (gives_fault 3 parse.End)) ≡ refuse (QueryRefused 3 (Parse parse.End)) }
    ensures typing { expression_outcome of_a_run one 6000 (expression_by (gives_tree (text (record { start = 1; end = 4 }) (codes "a")))) ≡ refuse (QueryRefused 1 (Typing NotInstant)) }
    ensures unchanged { (step_by (record { history = one; last = Some 5000; targets = []; groups = []; reloaded = false }) 6000 (expression_outcome of_a_run one 6000 (expression_by (gives_fault 3 parse.End)))).world ≡ record { history = one; last = Some 5000; targets = []; groups = []; reloaded = false } }
{}

/// An accepted event becomes the last one, also where it adds nothing.
pub fn a_later_event_moves_the_time()
    ensures same { (next of_a_run (start one) (Add 0 m (whole 1))).world ≡ record { history = one; last = Some 0; targets = []; groups = []; reloaded = false } }
    ensures added { (next of_a_run (start []) (Add 5 m (whole 1))).world ≡ record { history = entry_at 5 (whole 1) ∷ []; last = Some 5; targets = []; groups = []; reloaded = false } }
{}

/// An event before the last one is refused, whatever it asks for, and the last one stays the last.
pub fn an_event_before_the_last_is_refused()
    ensures refused { outcome of_a_run (record { history = one; last = Some 5000; targets = []; groups = []; reloaded = false }) (Query 4000 (codes "m +")) ≡ refuse (Backwards 5000 4000) }
    ensures unchanged { (next of_a_run (record { history = one; last = Some 5000; targets = []; groups = []; reloaded = false }) (Add 4000 [] (whole 1))).world ≡ record { history = one; last = Some 5000; targets = []; groups = []; reloaded = false } }
    ensures equal { outcome of_a_run (record { history = one; last = Some 5000; targets = []; groups = []; reloaded = false }) (Add 5000 [] (whole 1)) ≡ accept Added ((record { labels = []; time = 5000; point = whole 1 }) ∷ []) nothing_else }
{}
