// What the definitions say of small expressions over small histories.
ghost use Rattle.std.specs.Prelude.{◌≡◌, pos, negsuc, codes, true, false, [], ◌∷◌, Ok, Err, Some, None, ◌^◌, ◌*◌, ◌-◌};
ghost use Rattle.pr_num.specs.declared.value.Num.TheVariants.{Finite, NaN, PosInf};
ghost use Rattle.pr_ast.specs.pr_labels.declared.matching.Card.TheVariants as card;
ghost use Rattle.pr_ast.specs.pr_labels.LabelSet.{metric_label};
ghost use Rattle.pr_ast.specs.declared.names.BinOp.TheVariants as op;
ghost use Rattle.pr_ast.specs.Tree.{neg};
ghost use Rattle.pr_ast.specs.private.Places.{nowhere};
ghost use Rattle.spec_vectors.specs.spec_history.private.Examples.{one as m_at_0, marked as m_then_marker, three as m_three_times, m as m_labels, number};
ghost use Rattle.spec_vectors.specs.Vectors.{element};
ghost use Rattle.spec_vectors.specs.private.Examples.{x, y, z, on_names};
ghost use Rattle.spec_meaning.specs.declared.fault.FaultKind.TheVariants as kind;
ghost use Rattle.spec_meaning.specs.declared.value.Value.TheVariants.{Scalar, Vector};
ghost use Rattle.spec_meaning.specs.Answers.{fault};
ghost use Rattle.spec_meaning.specs.Meaning.{meaning};
ghost use Rattle.spec_meaning.specs.private.Cost.{cost, nothing_passed};
ghost use Rattle.spec_meaning.specs.private.Examples.{units, whole, not_a_number, operation, with_bool, matching, at, times_at, m, m_a_minute_ago, a, b, c, x_is_1, nameless, a_but_x_1, entry_of, named, x_only, one_three_five, six_two_three, many, at_0};

/// `0.000000001/2`, `0.000000003/2`, `1/0`, `0/0`, `-7 % 3`, `1 > bool 2`, `NaN == bool NaN`, `NaN
/// != bool NaN`, `10^19 * 10^19`.
#[tactic(auto, unfolding(pr_num::specs::Order::compared, pr_num::specs::Arithmetic::product_of, pr_num::specs::Arithmetic::quotient_of, pr_num::specs::Arithmetic::remainder_of, pr_num::specs::Half::half, pr_num::specs::Half::half_abs))]
pub fn operators_work_on_two_values()
    ensures half_down { at_0 [] (operation op.Div (units 1) (whole 2)) ≡ Ok (Scalar (Finite (pos 0))) }
    ensures half_up { at_0 [] (operation op.Div (units 3) (whole 2)) ≡ Ok (Scalar (Finite (pos 2))) }
    ensures infinite { at_0 [] (operation op.Div (whole 1) (whole 0)) ≡ Ok (Scalar PosInf) }
    ensures undefined { at_0 [] (operation op.Div (whole 0) (whole 0)) ≡ Ok (Scalar NaN) }
    ensures remainder { at_0 [] (operation op.Rem (neg nowhere (whole 7)) (whole 3)) ≡ Ok (Scalar (Finite (negsuc (10 ^ 9 - 1)))) }
    ensures compared { at_0 [] (with_bool op.Greater (whole 1) (whole 2)) ≡ Ok (Scalar (number 0)) }
    ensures nan_equal { at_0 [] (with_bool op.Equal not_a_number not_a_number) ≡ Ok (Scalar (number 0)) }
    ensures nan_unequal { at_0 [] (with_bool op.NotEqual not_a_number not_a_number) ≡ Ok (Scalar (number 1)) }
    ensures wide { at_0 [] (times_at 3 None (whole (10 ^ 19)) (whole (10 ^ 19))) ≡ Err (fault (at 3) kind.TooWide) }
{}

/// A selector shows the newest value of the five minutes up to its moment, and nothing behind a
/// marker; its moment is earlier by its offset. Its series meet the name and each matcher.
#[tactic(auto, unfolding(pr_match::specs::Matcher::meets, pr_match::specs::Matcher::meets_all))]
pub fn what_a_selector_shows()
    ensures seen { meaning 60000 m_at_0 m 299999 ≡ Ok (Vector (element m_labels (number 1) ∷ [])) }
    ensures gone { meaning 60000 m_at_0 m 300000 ≡ Ok (Vector []) }
    ensures marker { meaning 60000 m_then_marker m 60000 ≡ Ok (Vector []) }
    ensures earlier { meaning 60000 m_three_times m_a_minute_ago 120000 ≡ Ok (Vector (element m_labels (number 2) ∷ [])) }
    ensures before { meaning 60000 m_three_times m_a_minute_ago 59999 ≡ Ok (Vector []) }
    ensures matchers { at_0 one_three_five x_is_1 ≡ Ok (Vector (named (codes "a") (x_only (codes "1")) 1 ∷ named (codes "b") (x_only (codes "1")) 5 ∷ [])) }
    ensures unequal { at_0 one_three_five a_but_x_1 ≡ Ok (Vector (named (codes "a") (x_only (codes "2")) 3 ∷ [])) }
    ensures cost { cost 60000 one_three_five nothing_passed (operation op.Add a b) 0 0 ≡ 3 }
{}

/// `-a`, `a > 2`, `2 < a`, `a > bool 2`, `a * 10^20`, `-{x="1"}`, `{x="1"} * 10^20`, where
/// `a{x="1"}` is 1, `a{x="2"}` is 3 and `b{x="1"}` is 5.
#[tactic(auto, unfolding(pr_match::specs::Matcher::meets, pr_match::specs::Matcher::meets_all, pr_num::specs::Order::compared, pr_num::specs::Arithmetic::product_of, pr_num::specs::Half::half, pr_num::specs::Half::half_abs))]
pub fn signs_and_filters_of_vectors()
    ensures minus { at_0 one_three_five (neg nowhere a) ≡ Ok (Vector (element (x_only (codes "1")) (Finite (negsuc (10 ^ 9 - 1))) ∷ element (x_only (codes "2")) (Finite (negsuc (3 * 10 ^ 9 - 1))) ∷ [])) }
    ensures filtered { at_0 one_three_five (operation op.Greater a (whole 2)) ≡ Ok (Vector (named (codes "a") (x_only (codes "2")) 3 ∷ [])) }
    ensures turned { at_0 one_three_five (operation op.Less (whole 2) a) ≡ Ok (Vector (named (codes "a") (x_only (codes "2")) 3 ∷ [])) }
    ensures with_bool { at_0 one_three_five (with_bool op.Greater a (whole 2)) ≡ Ok (Vector (element (x_only (codes "1")) (number 0) ∷ element (x_only (codes "2")) (number 1) ∷ [])) }
    ensures same_labels { at_0 one_three_five (neg (at 5) x_is_1) ≡ Err (fault (at 5) (kind.SameLabels (x_only (codes "1")))) }
    ensures wide { at_0 one_three_five (times_at 7 None x_is_1 (whole (2 * 10 ^ 19))) ≡ Err (fault (at 7) kind.TooWide) }
{}

/// `a * on (x) b`, `b * on (x) group_left (z) a`; `a > on (x) group_right b`, `a * on () group_left
/// (__name__) {__name__="",x="1"}`, `b * on (x) group_left (y) a`.
#[tactic(auto, unfolding(pr_match::specs::Matcher::meets, pr_match::specs::Matcher::meets_all, pr_num::specs::Order::compared, pr_num::specs::Arithmetic::product_of, pr_num::specs::Half::half, pr_num::specs::Half::half_abs))]
pub fn vectors_are_matched()
    ensures refused { at_0 six_two_three (matching op.Mul (on_names (codes "x" ∷ []) card.OneToOne []) a b) ≡ Err (fault nowhere (kind.ManyToMany (x_only (codes "1")))) }
    ensures grouped { at_0 six_two_three (matching op.Mul (on_names (codes "x" ∷ []) card.ManyToOne (codes "z" ∷ [])) b a)
        ≡ Ok (Vector (element (x (codes "1") ∷ y (codes "p") ∷ z (codes "k") ∷ []) (number 12) ∷ element (x (codes "1") ∷ y (codes "q") ∷ z (codes "k") ∷ []) (number 18) ∷ [])) }
    ensures filtered { at_0 many (matching op.Greater (on_names (codes "x" ∷ []) card.OneToMany []) a b)
        ≡ Ok (Vector (named (codes "b") (x (codes "1") ∷ y (codes "p") ∷ []) 6 ∷ named (codes "b") (x (codes "1") ∷ y (codes "q") ∷ []) 6 ∷ [])) }
    ensures renamed { at_0 many (matching op.Mul (on_names [] card.ManyToOne (metric_label ∷ [])) a nameless)
        ≡ Ok (Vector (element (x_only (codes "1")) (number 30) ∷ element (x_only (codes "2")) (number 15) ∷ [])) }
    ensures not_unique { at_0 many (matching op.Mul (on_names (codes "x" ∷ []) card.ManyToOne (codes "y" ∷ [])) b a) ≡ Err (fault nowhere (kind.NotUnique (x_only (codes "1")))) }
{}

/// `a and on (x) b`, `a unless on (x) b`, `c * on () a`, `a or b`.
#[tactic(auto, unfolding(pr_match::specs::Matcher::meets, pr_match::specs::Matcher::meets_all))]
pub fn sets_are_joined_by_key()
    ensures both { at_0 one_three_five (matching op.And (on_names (codes "x" ∷ []) card.OneToOne []) a b) ≡ Ok (Vector (named (codes "a") (x_only (codes "1")) 1 ∷ [])) }
    ensures alone { at_0 one_three_five (matching op.Unless (on_names (codes "x" ∷ []) card.OneToOne []) a b) ≡ Ok (Vector (named (codes "a") (x_only (codes "2")) 3 ∷ [])) }
    ensures empty { at_0 one_three_five (matching op.Mul (on_names [] card.OneToOne []) c a) ≡ Ok (Vector []) }
    ensures either { at_0 one_three_five (operation op.Or a b) ≡ Ok (Vector (named (codes "a") (x_only (codes "1")) 1 ∷ named (codes "a") (x_only (codes "2")) 3 ∷ [])) }
{}

/// The left operand's fault comes first, then the right one's, and then that of the operation; each
/// has the place of its node.
#[tactic(auto, unfolding(pr_match::specs::Matcher::meets, pr_match::specs::Matcher::meets_all, pr_num::specs::Arithmetic::product_of, pr_num::specs::Half::half, pr_num::specs::Half::half_abs))]
pub fn first_faults_have_their_places()
    ensures left { at_0 six_two_three (times_at 1 None (times_at 2 (Some (on_names (codes "x" ∷ []) card.OneToOne [])) a b) (times_at 3 None (whole (10 ^ 19)) (whole 10)))
        ≡ Err (fault (at 2) (kind.ManyToMany (x_only (codes "1")))) }
    ensures right { at_0 six_two_three (times_at 1 None (whole (10 ^ 19)) (times_at 3 None (whole (10 ^ 19)) (whole 10))) ≡ Err (fault (at 3) kind.TooWide) }
    ensures own { at_0 six_two_three (times_at 1 None (whole (10 ^ 19)) (whole 10)) ≡ Err (fault (at 1) kind.TooWide) }
{}
