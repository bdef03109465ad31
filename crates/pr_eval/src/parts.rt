// What is known of an expression by its parts, said for the proofs: functions that do nothing.
ghost use Rattle.std.specs.Prelude.{◌≡◌, ◌≢◌, ℕ, ◌+◌, ◌<◌, true, false, [], List, Some, Ok, length, slice_get};
ghost use Rattle.pr_labels.specs.declared.pair.Pair.{Pair};
ghost use Rattle.pr_range.specs.spec_history.declared.entry.Entry.{Entry};
ghost use Rattle.pr_range.specs.pr_head.private.Stored.{Stored};
ghost use Rattle.pr_labels.specs.Names.{is_label_name};
ghost use Rattle.pr_ast.specs.declared.names.AggOp.TheVariants.{CountValues};
ghost use Rattle.pr_ast.specs.Tree.{Tree, aggregate, binary, call, more, neg, none, number, range as range_tree, select, sub, text, tree_of, trees_of};
ghost use Rattle.spec_meaning.specs.pr_types.declared.counting.SelectorCounts.{SelectorCounts};
ghost use Rattle.spec_meaning.specs.pr_types.declared.kind.ValueType.TheVariants.{Range};
ghost use Rattle.spec_meaning.specs.pr_types.private.Built.{own_patterns, patterns_in, tests_in};
ghost use Rattle.spec_meaning.specs.pr_types.Selectors.{tests_of};
ghost use Rattle.spec_meaning.specs.pr_types.Typed.{content, content_at, typed};
ghost use Rattle.pr_eval.specs.private.Calls.{is_plain_call};
ghost use Rattle.pr_eval.specs.private.Asking.{asked_for, takes_range};
ghost use Rattle.spec_meaning.specs.Selection.{moment_of};
ghost use Rattle.pr_eval.specs.private.Looks.{KeepsAt, KeepsFor};
ghost use Rattle.pr_eval.specs.private.Parts.{AreTwo, IsOne, IsPartAt, IsValued, counts_after, with_patterns};
ghost use Rattle.pr_eval.specs.private.Sizes.{is_range_node, node_count};

use pr_ast::time::Span;
use pr_ast::{AggOp, BinOp, Expr, Func, Place, Selector};
use pr_labels::words_crate::Text;
use pr_labels::{Grouping, Matching};
use pr_num::Num;
use spec_meaning::types::{Checked, SelectorCounts};

pub(crate) fn lemma_is_number(e: &Expr, value: Num)
    requires { tree_of e.now ≡ number e.now.place value }
    ensures tree { tree_of e.now ≡ number e.now.place value }
    ensures count { (n : SelectorCounts) → n ≡ counts_after n (tree_of e.now) }
{}

pub(crate) fn lemma_is_select(e: &Expr, selector: &Selector)
    requires { tree_of e.now ≡ select e.now.place selector.now }
    ensures tree { tree_of e.now ≡ select e.now.place selector.now }
    ensures within { (whole : Tree) (n : SelectorCounts) → IsPartAt whole n (tree_of e.now) → n.selectors < length (tests_in whole) }
    ensures stands { (whole : Tree) (n : SelectorCounts) → IsPartAt whole n (tree_of e.now) → slice_get (tests_in whole) n.selectors ≡ Some (tests_of selector.now) }
    ensures keeps { (head : List (List Pair × Stored)) (history : List Entry) (time : ℕ) → KeepsFor head history (tree_of e.now) time
        → KeepsAt head history (moment_of selector.now time) }
    ensures count { (n : SelectorCounts) → let m : SelectorCounts = record { selectors = n.selectors + 1; ranges = n.ranges; patterns = n.patterns } in m ≡ counts_after n (tree_of e.now) }
{}

pub(crate) fn lemma_is_neg(e: &Expr, inner: &Expr)
    requires { tree_of e.now ≡ neg e.now.place (tree_of inner.now) }
    ensures tree { tree_of e.now ≡ neg e.now.place (tree_of inner.now) }
    ensures one { IsOne (tree_of e.now) (tree_of inner.now) [] (λ f. f) }
    ensures part { (whole : Tree) (n : SelectorCounts) → IsPartAt whole n (tree_of e.now) → IsPartAt whole n (tree_of inner.now) }
    ensures valued { IsValued (tree_of e.now) → IsValued (tree_of inner.now) }
    ensures count { (n m : SelectorCounts) → m ≡ counts_after n (tree_of inner.now) → m ≡ counts_after n (tree_of e.now) }
    ensures smaller { node_count (tree_of inner.now) < node_count (tree_of e.now) }
{}

pub(crate) fn lemma_is_binary(
    e: &Expr,
    op: BinOp,
    with_bool: bool,
    matching: &Option<Matching>,
    left: &Expr,
    right: &Expr,
)
    requires { tree_of e.now ≡ binary e.now.place op with_bool matching.now (tree_of left.now) (tree_of right.now) }
    ensures tree { tree_of e.now ≡ binary e.now.place op with_bool matching.now (tree_of left.now) (tree_of right.now) }
    ensures two { AreTwo (tree_of e.now) (tree_of left.now) (tree_of right.now) }
    ensures left_part { (whole : Tree) (n : SelectorCounts) → IsPartAt whole n (tree_of e.now) → IsPartAt whole n (tree_of left.now) }
    ensures right_part { (whole : Tree) (n m : SelectorCounts) → m ≡ counts_after n (tree_of left.now) → IsPartAt whole n (tree_of e.now) → IsPartAt whole m (tree_of right.now) }
    ensures left_valued { IsValued (tree_of e.now) → IsValued (tree_of left.now) }
    ensures right_valued { IsValued (tree_of e.now) → IsValued (tree_of right.now) }
    ensures count { (n m k : SelectorCounts) → m ≡ counts_after n (tree_of left.now) → k ≡ counts_after m (tree_of right.now) → k ≡ counts_after n (tree_of e.now) }
    ensures left_smaller { node_count (tree_of left.now) < node_count (tree_of e.now) }
    ensures right_smaller { node_count (tree_of right.now) < node_count (tree_of e.now) }
{}

pub(crate) fn lemma_is_text(e: &Expr, written: &Text)
    requires { tree_of e.now ≡ text e.now.place written.now }
    ensures tree { tree_of e.now ≡ text e.now.place written.now }
    ensures count { (n : SelectorCounts) → n ≡ counts_after n (tree_of e.now) }
{}

// An aggregation without a parameter.
pub(crate) fn lemma_is_aggregate(e: &Expr, op: AggOp, by: &Grouping, inner: &Expr)
    requires { tree_of e.now ≡ aggregate e.now.place op by.now (more none (tree_of inner.now)) }
    ensures tree { tree_of e.now ≡ aggregate e.now.place op by.now (more none (tree_of inner.now)) }
    ensures one { IsOne (tree_of e.now) (tree_of inner.now) [] (λ f. f) }
    ensures part { (whole : Tree) (n : SelectorCounts) → IsPartAt whole n (tree_of e.now) → IsPartAt whole n (tree_of inner.now) }
    ensures valued { IsValued (tree_of e.now) → IsValued (tree_of inner.now) }
    ensures count { (n m : SelectorCounts) → m ≡ counts_after n (tree_of inner.now) → m ≡ counts_after n (tree_of e.now) }
    ensures op { IsValued (tree_of e.now) → op ≢ CountValues }
    ensures smaller { node_count (tree_of inner.now) < node_count (tree_of e.now) }
{}

// One with a parameter.
pub(crate) fn lemma_is_aggregate_by(e: &Expr, op: AggOp, by: &Grouping, param: &Expr, inner: &Expr)
    requires { tree_of e.now ≡ aggregate e.now.place op by.now (more (more none (tree_of param.now)) (tree_of inner.now)) }
    ensures tree { tree_of e.now ≡ aggregate e.now.place op by.now (more (more none (tree_of param.now)) (tree_of inner.now)) }
    ensures two { AreTwo (tree_of e.now) (tree_of param.now) (tree_of inner.now) }
    ensures param_part { (whole : Tree) (n : SelectorCounts) → IsPartAt whole n (tree_of e.now) → IsPartAt whole n (tree_of param.now) }
    ensures inner_part { (whole : Tree) (n m : SelectorCounts) → m ≡ counts_after n (tree_of param.now) → IsPartAt whole n (tree_of e.now) → IsPartAt whole m (tree_of inner.now) }
    ensures param_valued { IsValued (tree_of e.now) → IsValued (tree_of param.now) }
    ensures inner_valued { IsValued (tree_of e.now) → IsValued (tree_of inner.now) }
    ensures count { (n m k : SelectorCounts) → m ≡ counts_after n (tree_of param.now) → k ≡ counts_after m (tree_of inner.now) → k ≡ counts_after n (tree_of e.now) }
    ensures label { IsValued (tree_of e.now) → op ≡ CountValues → is_label_name (content (tree_of param.now)) ≡ true }
    ensures param_smaller { node_count (tree_of param.now) < node_count (tree_of e.now) }
    ensures inner_smaller { node_count (tree_of inner.now) < node_count (tree_of e.now) }
{}

pub(crate) fn lemma_is_call(e: &Expr, func: Func, args: &[Expr])
    requires { tree_of e.now ≡ call e.now.place func (trees_of args.now) }
    ensures tree { tree_of e.now ≡ call e.now.place func (trees_of args.now) }
    ensures one { IsOne (tree_of e.now) (trees_of args.now) (own_patterns func (trees_of args.now)) (λ g. asked_for func) }
    ensures part { (whole : Tree) (n : SelectorCounts) → IsPartAt whole n (tree_of e.now) → IsPartAt whole n (trees_of args.now) }
    ensures valued { IsValued (tree_of e.now) → is_plain_call func (trees_of args.now) ≡ true → (i : ℕ) (a : Expr) → slice_get args.now i ≡ Some a → IsValued (tree_of a) }
    ensures count { (n m k : SelectorCounts) → m ≡ counts_after n (trees_of args.now) → k ≡ with_patterns m (own_patterns func (trees_of args.now)) → k ≡ counts_after n (tree_of e.now) }
    ensures replaced { IsValued (tree_of e.now) → func ≡ Func.LabelReplace → is_label_name (content_at (trees_of args.now) 1) ≡ true }
    ensures joined { IsValued (tree_of e.now) → func ≡ Func.LabelJoin → is_label_name (content_at (trees_of args.now) 1) ≡ true }
    ensures pattern { (whole : Tree) (n m : SelectorCounts) → IsPartAt whole n (tree_of e.now) → m ≡ counts_after n (trees_of args.now) → func ≡ Func.LabelReplace
        → slice_get (patterns_in whole) m.patterns ≡ Some (content_at (trees_of args.now) 4) }
    ensures smaller { node_count (trees_of args.now) < node_count (tree_of e.now) }
{}

// `timestamp` of a selector.
pub(crate) fn lemma_is_stamped(e: &Expr, place: Place, selector: &Selector)
    requires { tree_of e.now ≡ call e.now.place Func.Timestamp (more none (select place selector.now)) }
    ensures tree { tree_of e.now ≡ call e.now.place Func.Timestamp (more none (select place selector.now)) }
    ensures within { (whole : Tree) (n : SelectorCounts) → IsPartAt whole n (tree_of e.now) → n.selectors < length (tests_in whole) }
    ensures stands { (whole : Tree) (n : SelectorCounts) → IsPartAt whole n (tree_of e.now) → slice_get (tests_in whole) n.selectors ≡ Some (tests_of selector.now) }
    ensures keeps { (head : List (List Pair × Stored)) (history : List Entry) (time : ℕ) → KeepsFor head history (tree_of e.now) time
        → KeepsAt head history (moment_of selector.now time) }
    ensures count { (n : SelectorCounts) → let m : SelectorCounts = record { selectors = n.selectors + 1; ranges = n.ranges; patterns = n.patterns } in m ≡ counts_after n (tree_of e.now) }
{}

pub(crate) fn lemma_is_range(e: &Expr, selector: &Selector, span: Span)
    requires { tree_of e.now ≡ range_tree e.now.place selector.now span }
    ensures tree { tree_of e.now ≡ range_tree e.now.place selector.now span }
    ensures within { (whole : Tree) (n : SelectorCounts) → IsPartAt whole n (tree_of e.now) → n.selectors < length (tests_in whole) }
    ensures ranges { (whole : Tree) (n : SelectorCounts) → IsPartAt whole n (tree_of e.now) → n.ranges < length (tests_in whole) }
    ensures stands { (whole : Tree) (n : SelectorCounts) → IsPartAt whole n (tree_of e.now) → slice_get (tests_in whole) n.selectors ≡ Some (tests_of selector.now) }
    ensures count { (n : SelectorCounts) → let m : SelectorCounts = record { selectors = n.selectors + 1; ranges = n.ranges + 1; patterns = n.patterns } in m ≡ counts_after n (tree_of e.now) }
{}

pub(crate) fn lemma_is_sub(e: &Expr, inner: &Expr, span: Span, step: Option<Span>, offset: Span)
    requires { tree_of e.now ≡ sub e.now.place (tree_of inner.now) span step offset }
    ensures tree { tree_of e.now ≡ sub e.now.place (tree_of inner.now) span step offset }
    ensures valued { typed (tree_of e.now) ≡ Ok Range → IsValued (tree_of inner.now) }
    ensures smaller { node_count (tree_of inner.now) < node_count (tree_of e.now) }
{}

// A call of a function of a range has no pattern of its own.
pub(crate) fn lemma_is_range_call(e: &Expr, func: Func, args: &[Expr])
    requires tree { tree_of e.now ≡ call e.now.place func (trees_of args.now) }
    requires range { takes_range func ≡ true }
    ensures tree { tree_of e.now ≡ call e.now.place func (trees_of args.now) }
    ensures one { IsOne (tree_of e.now) (trees_of args.now) [] (λ f. asked_for func) }
    ensures part { (whole : Tree) (n : SelectorCounts) → IsPartAt whole n (tree_of e.now) → IsPartAt whole n (trees_of args.now) }
    ensures count { (n m : SelectorCounts) → m ≡ counts_after n (trees_of args.now) → m ≡ counts_after n (tree_of e.now) }
    ensures smaller { node_count (trees_of args.now) < node_count (tree_of e.now) }
{}

// One argument, and two.
pub(crate) fn lemma_is_alone(args: &[Expr], only: &Expr)
    requires { trees_of args.now ≡ more none (tree_of only.now) }
    ensures args { trees_of args.now ≡ more none (tree_of only.now) }
    ensures one { IsOne (trees_of args.now) (tree_of only.now) [] (λ f. f) }
    ensures part { (whole : Tree) (n : SelectorCounts) → IsPartAt whole n (trees_of args.now) → IsPartAt whole n (tree_of only.now) }
    ensures count { (n m : SelectorCounts) → m ≡ counts_after n (tree_of only.now) → m ≡ counts_after n (trees_of args.now) }
    ensures smaller { node_count (tree_of only.now) < node_count (trees_of args.now) }
{}

pub(crate) fn lemma_are_pair(args: &[Expr], first: &Expr, second: &Expr)
    requires { trees_of args.now ≡ more (more none (tree_of first.now)) (tree_of second.now) }
    ensures args { trees_of args.now ≡ more (more none (tree_of first.now)) (tree_of second.now) }
    ensures two { AreTwo (trees_of args.now) (tree_of first.now) (tree_of second.now) }
    ensures first_part { (whole : Tree) (n : SelectorCounts) → IsPartAt whole n (trees_of args.now) → IsPartAt whole n (tree_of first.now) }
    ensures second_part { (whole : Tree) (n m : SelectorCounts) → m ≡ counts_after n (tree_of first.now) → IsPartAt whole n (trees_of args.now) → IsPartAt whole m (tree_of second.now) }
    ensures count { (n m k : SelectorCounts) → m ≡ counts_after n (tree_of first.now) → k ≡ counts_after m (tree_of second.now) → k ≡ counts_after n (trees_of args.now) }
    ensures first_smaller { node_count (tree_of first.now) < node_count (trees_of args.now) }
    ensures second_smaller { node_count (tree_of second.now) < node_count (trees_of args.now) }
{}

// That a part stands at these numbers.
pub(crate) fn lemma_stands_at(checked: &Checked, e: &Expr, number: SelectorCounts)
    requires { IsPartAt (tree_of checked.now) number (tree_of e.now) }
    ensures { IsPartAt (tree_of checked.now) number (tree_of e.now) }
{}

// That an argument may be evaluated at these numbers.
pub(crate) fn lemma_arg_stands_at(checked: &Checked, e: &Expr, number: SelectorCounts)
    requires part { IsPartAt (tree_of checked.now) number (tree_of e.now) }
    requires valued { IsValued (tree_of e.now) }
    ensures part { IsPartAt (tree_of checked.now) number (tree_of e.now) }
    ensures valued { IsValued (tree_of e.now) }
{}

// That an argument is smaller than all of them.
pub(crate) fn lemma_is_among(args: &[Expr], arg: &Expr)
    requires { node_count (tree_of arg.now) < node_count (trees_of args.now) }
    ensures { node_count (tree_of arg.now) < node_count (trees_of args.now) }
{}

// That all arguments may be.
pub(crate) fn lemma_args_stand_at(checked: &Checked, args: &[Expr], number: SelectorCounts)
    requires part { IsPartAt (tree_of checked.now) number (trees_of args.now) }
    requires valued { (i : ℕ) (a : Expr) → slice_get args.now i ≡ Some a → IsValued (tree_of a) }
    ensures part { IsPartAt (tree_of checked.now) number (trees_of args.now) }
    ensures valued { (i : ℕ) (a : Expr) → slice_get args.now i ≡ Some a → IsValued (tree_of a) }
{}

// That all arguments stand at these numbers.
pub(crate) fn lemma_all_stand_at(checked: &Checked, args: &[Expr], number: SelectorCounts)
    requires { IsPartAt (tree_of checked.now) number (trees_of args.now) }
    ensures { IsPartAt (tree_of checked.now) number (trees_of args.now) }
{}

// An expression of the type of a range is a range selector or a subquery.
pub(crate) fn lemma_is_a_range(e: &Expr)
    requires { typed (tree_of e.now) ≡ Ok Range }
    ensures { is_range_node (tree_of e.now) ≡ true }
{}
