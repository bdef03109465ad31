// Selectors, and `timestamp` of one.
ghost use Rattle.std.specs.Prelude.{◌≡◌, ◌+◌, ◌<◌, ◌≤◌, ◌^◌, true, false, [], List, IfOk, IfSome, Some, None, Ok, length, map, slice_get};
ghost use Rattle.pr_labels.specs.Rising.{IsRising};
ghost use Rattle.pr_range.specs.spec_history.declared.entry.Entry.{Entry};
ghost use Rattle.pr_range.specs.pr_head.private.Holds.{Holds};
ghost use Rattle.pr_ast.specs.Tree.{call, more, none, select, tree_of, trees_of};
ghost use Rattle.spec_meaning.specs.pr_types.private.Built.{tests_in};
ghost use Rattle.spec_meaning.specs.pr_types.Selectors.{tests_of};
ghost use Rattle.spec_meaning.specs.private.Laws.{IsAnswer};
ghost use Rattle.spec_meaning.specs.Answers.{function_at};
ghost use Rattle.spec_meaning.specs.Calls.{selector_in, stamped};
ghost use Rattle.spec_meaning.specs.Meaning.{meaning};
ghost use Rattle.spec_meaning.specs.Selection.{chosen_by, moment_of, selection, selected_spots};
ghost use Rattle.pr_eval.specs.private.Answers.{AnswersTo};
ghost use Rattle.pr_eval.specs.private.Calls.{is_plain_call};
ghost use Rattle.pr_eval.specs.private.Asking.{takes_range};
ghost use Rattle.pr_eval.specs.private.Looks.{KeepsAt, KeepsFor};
ghost use Rattle.pr_eval.specs.private.Parts.{IsPartAt, counts_after};

use crate::parts::{lemma_is_select, lemma_is_stamped};
use crate::scope::Scope;
use crate::select::{selected_spots, valued};
use crate::values::{EvalError, stamped, vector};
use pr_ast::{Expr, ExprKind, Func, Place, Selector};
use pr_labels::Item;
use pr_labels::words_crate::Steps;
use pr_range::history::Spot;
use spec_meaning::Value;
use spec_meaning::types::SelectorCounts;
use std::alloc::AllocError;
use std::sync::ledger::Ledger;

// What a selector shows, with the times of the values; its number is that among the selectors of
// the whole expression.
fn spots<G: Ledger>(
    scope: &Scope<'_>,
    selector: &Selector,
    number: usize,
    reads: &mut Steps<G>,
) -> Result<Vec<Item<Spot>>, AllocError>
    requires { slice_get (tests_in (tree_of scope.now.checked.now)) number ≡ Some (tests_of selector.now) }
    ensures items { (history : List Entry) → KeepsAt scope.now.head.now history (moment_of selector.now scope.now.time) → IfOk result (λ v. v.items ≡ selected_spots history selector.now scope.now.time) }
    ensures rising { IfOk result (λ v. IsRising (map (λ e. e.labels) v.items)) }
    ensures reads { (history : List Entry) → Holds scope.now.head.now history → reads.new ≤ reads.old + length (chosen_by selector.now history) }
{
    let matchers = scope.checked.matchers(number);
    selected_spots(
        scope.alloc,
        scope.head,
        selector,
        matchers,
        scope.time,
        reads,
    )
}

// The values that a selector shows.
fn shown<G: Ledger>(
    scope: &Scope<'_>,
    selector: &Selector,
    number: usize,
    reads: &mut Steps<G>,
) -> Result<Value, EvalError>
    requires { slice_get (tests_in (tree_of scope.now.checked.now)) number ≡ Some (tests_of selector.now) }
    ensures answer { (history : List Entry) → KeepsAt scope.now.head.now history (moment_of selector.now scope.now.time)
        → AnswersTo (Ok (Value.Vector (selection history selector.now scope.now.time))) result }
    ensures vector { IfOk result IsAnswer }
    ensures reads { (history : List Entry) → Holds scope.now.head.now history → reads.new ≤ reads.old + length (chosen_by selector.now history) }
{
    let spots = spots(scope, selector, number, reads)?;
    let items = valued(scope.alloc, spots)?;
    Ok(vector(items))
}

// The times of the values that a selector shows.
fn stamps<G: Ledger>(
    scope: &Scope<'_>,
    place: Place,
    selector: &Selector,
    number: usize,
    reads: &mut Steps<G>,
) -> Result<Value, EvalError>
    requires { slice_get (tests_in (tree_of scope.now.checked.now)) number ≡ Some (tests_of selector.now) }
    ensures answer { (history : List Entry) → KeepsAt scope.now.head.now history (moment_of selector.now scope.now.time)
        → AnswersTo (function_at place (stamped history scope.now.time [] (Some selector.now))) result }
    ensures vector { IfOk result IsAnswer }
    ensures reads { (history : List Entry) → Holds scope.now.head.now history → reads.new ≤ reads.old + length (chosen_by selector.now history) }
{
    let spots = spots(scope, selector, number, reads)?;
    stamped(scope.alloc, place, spots)
}

/// What a selector gives.
pub(crate) fn selected<G: Ledger>(
    scope: &Scope<'_>,
    e: &Expr,
    selector: &Selector,
    number: &mut SelectorCounts,
    reads: &mut Steps<G>,
) -> Result<Value, EvalError>
    requires tree { tree_of e.now ≡ select e.now.place selector.now }
    requires part { IsPartAt (tree_of scope.now.checked.now) number.old (tree_of e.now) }
    requires few { length (tests_in (tree_of scope.now.checked.now)) < 2 ^ 64 }
    ensures tree { tree_of e.now ≡ select e.now.place selector.now }
    ensures count { number.new ≡ counts_after number.old (tree_of e.now) }
    ensures vector { IfOk result IsAnswer }
    ensures answer { (history : List Entry) → KeepsFor scope.now.head.now history (tree_of e.now) scope.now.time → AnswersTo (meaning scope.now.step history (tree_of e.now) scope.now.time) result }
    ensures reads { (history : List Entry) → Holds scope.now.head.now history → reads.new ≤ reads.old + length (chosen_by selector.now history) }
{
    lemma_is_select(e, selector);
    let at = number.selectors;
    number.selectors = at + 1;
    shown(scope, selector, at, reads)
}

/// The one argument of `timestamp`, which is a selector.
#[derive(Drop)]
pub(crate) struct Stamped<'a> {
    pub(crate) place: Place,
    pub(crate) selector: &'a Selector,
}

fn as_selector(e: &Expr) -> Option<Stamped<'_>>
    ensures some { IfSome result (λ s. tree_of e.now ≡ select s.place s.selector.now) }
    ensures none { result ≡ None → selector_in (tree_of e.now) ≡ None }
{
    match &e.kind {
        ExprKind::Select { selector } => Some(Stamped {
            place: e.place,
            selector,
        }),
        _ => None,
    }
}

/// The selector that `timestamp` is called with, if it is one.
pub(crate) fn stamped_selector(func: Func, args: &[Expr]) -> Option<Stamped<'_>>
    ensures some { IfSome result (λ s. (func ≡ Func.Timestamp) × (trees_of args.now ≡ more none (select s.place s.selector.now))) }
    ensures none { result ≡ None → takes_range func ≡ false → is_plain_call func (trees_of args.now) ≡ true }
{
    match func {
        Func::Timestamp => match args {
            [only] => as_selector(only),
            _ => None,
        },
        _ => None,
    }
}

/// `timestamp` of a selector: the times of the values that it shows.
pub(crate) fn timestamps<G: Ledger>(
    scope: &Scope<'_>,
    e: &Expr,
    argument: &Stamped<'_>,
    number: &mut SelectorCounts,
    reads: &mut Steps<G>,
) -> Result<Value, EvalError>
    requires tree { tree_of e.now ≡ call e.now.place Func.Timestamp (more none (select argument.now.place argument.now.selector.now)) }
    requires part { IsPartAt (tree_of scope.now.checked.now) number.old (tree_of e.now) }
    requires few { length (tests_in (tree_of scope.now.checked.now)) < 2 ^ 64 }
    ensures count { number.new ≡ counts_after number.old (tree_of e.now) }
    ensures vector { IfOk result IsAnswer }
    ensures answer { (history : List Entry) → KeepsFor scope.now.head.now history (tree_of e.now) scope.now.time → AnswersTo (meaning scope.now.step history (tree_of e.now) scope.now.time) result }
    ensures reads { (history : List Entry) → Holds scope.now.head.now history → reads.new ≤ reads.old + length (chosen_by argument.now.selector.now history) }
{
    lemma_is_stamped(e, argument.place, argument.selector);
    let at = number.selectors;
    number.selectors = at + 1;
    stamps(scope, e.place, argument.selector, at, reads)
}
