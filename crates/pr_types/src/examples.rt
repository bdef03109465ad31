//! What the definitions say of small expressions. An example is a function that does nothing, and
//! its contract is what it shows.
ghost use Rattle.std.specs.Prelude.{◌≡◌, codes, Some, None, Ok, Err, true, false, [], ◌∷◌};
ghost use Rattle.pr_ast.specs.pr_labels.declared.matching.Card.TheVariants as card;
ghost use Rattle.pr_ast.specs.Tree.{call, none};
ghost use Rattle.pr_ast.specs.private.Examples.{matcher, one, two};
ghost use Rattle.pr_ast.specs.declared.names.BinOp.TheVariants as op;
ghost use Rattle.pr_ast.specs.declared.names.Func.TheVariants as func;
ghost use Rattle.pr_ast.specs.declared.names.AggOp.TheVariants as agg;
ghost use Rattle.pr_ast.specs.declared.selector.MatchSign.TheVariants as sign;
ghost use Rattle.pr_types.specs.declared.kind.ValueType.TheVariants as type;
ghost use Rattle.pr_types.specs.declared.kind.TypeKind.TheVariants as kind;
ghost use Rattle.pr_types.specs.Signatures.{fault};
ghost use Rattle.pr_types.specs.Typed.{typed, checked};
ghost use Rattle.pr_types.specs.private.Examples.{from, one_at, text_at, x_at, x_before, range_at, matchers_alone, x_with, subquery_of, negated, operation_of, compared_at, call_of, aggregate_of, four, matching_by};

/// `x`, `{}`, `{a=""}`, `{a!=""}`, `{a!="b"}`, `x{a=""}`.
#[tactic(auto, unfolding(pr_match::specs::Matcher::may_follow, pr_match::specs::Matcher::meets, pr_match::specs::Matcher::meets_all))]
pub fn selectors_have_these_types()
    ensures name { checked (x_at 0) ≡ Ok type.Vector }
    ensures nothing { checked (matchers_alone []) ≡ Err (fault 0 kind.NoMatcher) }
    ensures equal_empty { checked (matchers_alone (matcher (codes "a") sign.Equal [] ∷ [])) ≡ Err (fault 0 kind.NoMatcher) }
    ensures not_empty { checked (matchers_alone (matcher (codes "a") sign.NotEqual [] ∷ [])) ≡ Ok type.Vector }
    ensures not_equal { checked (matchers_alone (matcher (codes "a") sign.NotEqual (codes "b") ∷ [])) ≡ Err (fault 0 kind.NoMatcher) }
    ensures name_and_empty { checked (x_with (matcher (codes "a") sign.Equal [] ∷ [])) ≡ Ok type.Vector }
{}

/// `1 > 2`, `1 > bool 2`, `x > 1`, `1 + 2`; `x + bool x`, `x and 1`, `x or x`, `x and on (a)
/// group_left (b) x`, `1 + on (a) x`, `x + on (a) group_right (a) x`, `x + ignoring (a) group_right
/// (a) x`; `-x[5m]`, `x + "a"`, `-1`; `(1)[5m:]`, `x[5m:]`, and a subquery whose step is 0.
#[tactic(auto, unfolding(crate::specs::Operations::operation_fault))]
pub fn operations_have_these_types()
    ensures bool_needed { checked (operation_of op.Greater false None (one_at 0) (one_at 4)) ≡ Err (fault 0 kind.BoolNeeded) }
    ensures with_bool { checked (operation_of op.Greater true None (one_at 0) (one_at 9)) ≡ Ok type.Scalar }
    ensures filter { checked (operation_of op.Greater false None (x_at 0) (one_at 4)) ≡ Ok type.Vector }
    ensures sum { checked (operation_of op.Add false None (one_at 0) (one_at 4)) ≡ Ok type.Scalar }
    ensures bool_misplaced { checked (operation_of op.Add true None (x_at 0) (x_at 9)) ≡ Err (fault 0 kind.BoolMisplaced) }
    ensures set_on_scalar { checked (operation_of op.And false None (x_at 0) (one_at 6)) ≡ Err (fault 0 kind.SetOnScalar) }
    ensures set { checked (operation_of op.Or false None (x_at 0) (x_at 5)) ≡ Ok type.Vector }
    ensures group_on_set { checked (operation_of op.And false (matching_by true (codes "a" ∷ []) card.ManyToOne (codes "b" ∷ [])) (x_at 0) (x_at 28))
        ≡ Err (fault 0 kind.GroupOnSet) }
    ensures match_on_scalar { checked (operation_of op.Add false (matching_by true (codes "a" ∷ []) card.OneToOne []) (one_at 0) (x_at 11))
        ≡ Err (fault 0 kind.MatchOnScalar) }
    ensures copied_in_on { checked (operation_of op.Add false (matching_by true (codes "a" ∷ []) card.OneToMany (codes "a" ∷ [])) (x_at 0) (x_at 28))
        ≡ Err (fault 0 kind.CopiedInOn) }
    ensures copied_ignoring { checked (operation_of op.Add false (matching_by false (codes "a" ∷ []) card.OneToMany (codes "a" ∷ [])) (x_at 0) (x_at 34))
        ≡ Ok type.Vector }
    ensures range_negated { checked (negated 0 (range_at 1 300000)) ≡ Err (fault 1 kind.WantVector) }
    ensures text_added { checked (operation_of op.Add false None (x_at 0) (text_at 4 (codes "a"))) ≡ Err (fault 4 kind.WantVector) }
    ensures negated_number { checked (negated 0 (one_at 1)) ≡ Ok type.Scalar }
    ensures subquery_of_scalar { checked (subquery_of (one_at 1) 300000 None) ≡ Err (fault 1 kind.WantVector) }
    ensures subquery { typed (subquery_of (x_at 0) 300000 None) ≡ Ok type.Range }
    ensures zero_step { typed (subquery_of (x_at 0) 300000 (Some 0)) ≡ Err (fault 0 kind.ZeroStep) }
{}

/// `rate(x[5m])`, `scalar(x)`, `hour()`, `round(x)`, `label_join(x, "a", ",", "b")`, `topk(1, x)`;
/// `rate(x)`, `round(x, x)`, `sum(1)`, `count_values(x, 1)`, `time(x)`, `topk(x)`, `label_join(x,
/// "a")`, `count_values("a b", x)`, `label_join(x, "1", ",", "b")`, `-abs()`.
#[tactic(auto, unfolding(crate::specs::Signatures::func_signature, crate::specs::Signatures::agg_signature))]
pub fn calls_have_these_types()
    ensures rate { checked (call_of func.Rate (one (range_at 5 300000))) ≡ Ok type.Vector }
    ensures scalar { checked (call_of func.Scalar (one (x_at 7))) ≡ Ok type.Scalar }
    ensures hour { checked (call_of func.Hour none) ≡ Ok type.Vector }
    ensures round { checked (call_of func.Round (one (x_at 6))) ≡ Ok type.Vector }
    ensures label_join { checked (call_of func.LabelJoin (four (x_at 11) (text_at 14 (codes "a")) (text_at 19 (codes ",")) (text_at 24 (codes "b")))) ≡ Ok type.Vector }
    ensures topk { checked (aggregate_of agg.TopK (two (one_at 5) (x_at 8))) ≡ Ok type.Vector }
    ensures want_range { checked (call_of func.Rate (one (x_at 5))) ≡ Err (fault 5 kind.WantRange) }
    ensures want_scalar { checked (call_of func.Round (two (x_at 6) (x_at 9))) ≡ Err (fault 9 kind.WantScalar) }
    ensures want_vector { checked (aggregate_of agg.Sum (one (one_at 4))) ≡ Err (fault 4 kind.WantVector) }
    ensures want_text { checked (aggregate_of agg.CountValues (two (x_at 13) (one_at 16))) ≡ Err (fault 13 kind.WantText) }
    ensures too_many { checked (call_of func.Time (one (x_at 5))) ≡ Err (fault 0 (kind.Arguments 1 0 0)) }
    ensures too_few { checked (aggregate_of agg.TopK (one (x_at 5))) ≡ Err (fault 0 (kind.Arguments 1 2 2)) }
    ensures no_most { checked (call_of func.LabelJoin (two (x_at 11) (text_at 14 (codes "a")))) ≡ Err (fault 0 (kind.Arguments 2 4 4294967295)) }
    ensures not_at_its_start { checked (negated 0 (call (from 1) func.Abs none)) ≡ Err (fault 1 (kind.Arguments 0 1 1)) }
    ensures bad_label { checked (aggregate_of agg.CountValues (two (text_at 13 (codes "a b")) (x_at 20))) ≡ Err (fault 0 kind.BadLabel) }
    ensures bad_joined { checked (call_of func.LabelJoin (four (x_at 11) (text_at 14 (codes "1")) (text_at 19 (codes ",")) (text_at 24 (codes "b")))) ≡ Err (fault 0 kind.BadLabel) }
{}

/// `x[5m] > (1 > 2)`, `time(1 > 2)`, `abs(1, 2)`, `x and bool on (a) 1`, `1 and on (a) group_left
/// (a) x`, `1 + on (a) group_left (a) x`.
#[tactic(auto, unfolding(crate::specs::Operations::operation_fault, crate::specs::Signatures::func_signature))]
pub fn faults_come_in_order()
    ensures operands_first { checked (operation_of op.Greater false None (range_at 0 300000) (compared_at 9 op.Greater (one_at 9) (one_at 13))) ≡ Err (fault 9 kind.BoolNeeded) }
    ensures arguments_after_operands { checked (call_of func.Time (one (compared_at 5 op.Greater (one_at 5) (one_at 9)))) ≡ Err (fault 5 kind.BoolNeeded) }
    ensures arguments_before_types { checked (call_of func.Abs (two (one_at 4) (one_at 7))) ≡ Err (fault 0 (kind.Arguments 2 1 1)) }
    ensures bool_before_sets { checked (operation_of op.And true (matching_by true (codes "a" ∷ []) card.OneToOne []) (x_at 0) (one_at 18)) ≡ Err (fault 0 kind.BoolMisplaced) }
    ensures sets_before_groups { checked (operation_of op.And false (matching_by true (codes "a" ∷ []) card.ManyToOne (codes "a" ∷ [])) (one_at 0) (x_at 28)) ≡ Err (fault 0 kind.SetOnScalar) }
    ensures matching_before_copies { checked (operation_of op.Add false (matching_by true (codes "a" ∷ []) card.ManyToOne (codes "a" ∷ [])) (one_at 0) (x_at 26)) ≡ Err (fault 0 kind.MatchOnScalar) }
{}

/// `x[46d]`, `rate(x[46d])`, `rate(x[45d])`, `x offset 45d`, `(-x offset 45d)`, `(x[5m])`, and
/// `max_over_time(x[44d23h55m:])`, with one millisecond more too.
#[tactic(auto, unfolding(crate::specs::Signatures::func_signature))]
pub fn reach_ends_at_45_days()
    ensures not_instant_first { checked (range_at 0 3974400000) ≡ Err (fault 0 kind.NotInstant) }
    ensures beyond { checked (call_of func.Rate (one (range_at 5 3974400000))) ≡ Err (fault 0 (kind.Reach 3974400000 3888000000)) }
    ensures all { checked (call_of func.Rate (one (range_at 5 3888000000))) ≡ Ok type.Vector }
    ensures offset { checked (x_before 0 3888000000) ≡ Err (fault 0 (kind.Reach 3888300000 3888000000)) }
    ensures not_at_its_start { checked (negated 1 (x_before 2 3888000000)) ≡ Err (fault 0 (kind.Reach 3888300000 3888000000)) }
    ensures in_parentheses { checked (range_at 1 300000) ≡ Err (fault 1 kind.NotInstant) }
    ensures subquery { checked (call_of func.MaxOverTime (one (subquery_of (x_at 14) 3887700000 None))) ≡ Ok type.Vector }
    ensures subquery_beyond { checked (call_of func.MaxOverTime (one (subquery_of (x_at 14) 3887700001 None)))
        ≡ Err (fault 0 (kind.Reach 3888000001 3888000000)) }
{}
