// What is absent, and vectors of one element.
ghost use Rattle.std.specs.Prelude.{◌≡◌, ◌&&◌, [], ◌∷◌, IfOk};
ghost use Rattle.std.specs.List.{list_any};
ghost use Rattle.pr_ast.specs.Tree.{tree_of, trees_of};
ghost use Rattle.pr_labels.specs.Edits.{labels_of};
ghost use Rattle.pr_range.specs.spec_vectors.Vectors.{element};
ghost use Rattle.pr_range.specs.spec_vectors.private.Laws.{IsVector};
ghost use Rattle.spec_meaning.specs.Absence.{absent_labels, absent_of, is_equality, is_on, labels_of_argument, tells, told_pairs};
ghost use Rattle.spec_meaning.specs.private.Laws.{IsAnswer};
ghost use Rattle.spec_meaning.specs.Calls.{vector_at};
ghost use Rattle.spec_meaning.specs.Given.{elements_given, number_given};
ghost use Rattle.pr_eval.specs.private.Answers.{AnswersTo};
ghost use Rattle.pr_eval.specs.private.Plain.{all_plain};

use crate::values::arguments::{elements_given, number_given};
use crate::values::error::EvalError;
use crate::values::vectors::vector;
use pr_ast::{Expr, ExprKind, MatchSign, MatchText};
use pr_labels::words_crate::Text;
use pr_labels::{Item, Labels, METRIC_LABEL, Pair, is_label_name};
use pr_num::Num;
use spec_meaning::Value;
use std::alloc::{AllocError, Global};

fn is_equality(sign: MatchSign) -> bool
    ensures { result ≡ is_equality sign }
{
    matches!(sign, MatchSign::Equal)
}

fn is_on(label: &str, matcher: &MatchText) -> bool
    ensures { result ≡ is_on label.now matcher.now }
{
    matcher.label.as_str() == label
}

fn any_on(label: &str, matchers: &[MatchText]) -> bool
    ensures { result ≡ list_any (is_on label.now) matchers.now }
{
    matchers.iter().any(|m| is_on(label, m))
}

fn is_equality_on(label: &str, matcher: &MatchText) -> bool
    ensures { result ≡ (is_on label.now matcher.now && is_equality matcher.now.op) }
{
    is_on(label, matcher) && is_equality(matcher.op)
}

fn any_equality_on(label: &str, matchers: &[MatchText]) -> bool
    ensures { result ≡ list_any (λ m. is_on label.now m && is_equality m.op) matchers.now }
{
    matchers.iter().any(|m| is_equality_on(label, m))
}

// Whether a matcher tells a label of what is absent, by those before and after it.
fn tells(before: &[MatchText], matcher: &MatchText, after: &[MatchText]) -> bool
    ensures { result ≡ tells before.now matcher.now after.now }
{
    let label = matcher.label.as_str();
    is_equality(matcher.op)
        && is_label_name(label.as_bytes())
        && label != METRIC_LABEL
        && !any_on(label, after)
        && !any_equality_on(label, before)
}

// The pairs of the matchers that tell labels.
fn told_pairs(alloc: Global, matchers: &[MatchText]) -> Result<Vec<Pair>, AllocError>
    ensures { IfOk result (λ v. v.items ≡ told_pairs [] matchers.now) }
{
    let mut pairs = Vec::new(alloc);
    for i in 0..matchers.len() {
        let matcher = &matchers[i];
        if tells(&matchers[..i], matcher, &matchers[i + 1..]) {
            pairs.push(Pair {
                name: Text::from_str(alloc, matcher.label.as_str())?,
                value: Text::from_str(alloc, matcher.text.as_str())?,
            })?;
        }
    }
    Ok(pairs)
}

// The labels that matchers tell.
#[tactic(auto, using(crate::proofs::Absences::told_once))]
fn told_labels(alloc: Global, matchers: &[MatchText]) -> Result<Labels, AllocError>
    ensures { IfOk result (λ l. l ≡ labels_of (told_pairs [] matchers.now)) }
{
    Labels::from_distinct(told_pairs(alloc, matchers)?)
}

fn absent_labels(alloc: Global, e: &Expr) -> Result<Labels, AllocError>
    ensures { IfOk result (λ l. l ≡ absent_labels (tree_of e.now)) }
{
    match &e.kind {
        ExprKind::Select { selector } => told_labels(alloc, selector.matchers.as_slice()),
        ExprKind::Range { selector, .. } => told_labels(alloc, selector.matchers.as_slice()),
        _ => Ok(Labels::empty(alloc)),
    }
}

/// The labels that what is absent has, by the one argument of a call: those that its matchers by
/// `=` tell, where it is a selector or a range selector. (Prometheus: Querying, Functions,
/// `absent`.)
#[tactic(auto, using(crate::proofs::Absences::none_told, crate::proofs::Absences::many_told))]
pub fn labels_of_argument(alloc: Global, args: &[Expr]) -> Result<Labels, AllocError>
    ensures { IfOk result (λ l. l ≡ labels_of_argument (trees_of args.now)) }
{
    match args {
        [] => Ok(Labels::empty(alloc)),
        [only] => absent_labels(alloc, only),
        [_, _, ..] => Ok(Labels::empty(alloc)),
    }
}

// A vector of one element.
fn single(alloc: Global, labels: Labels, value: Num) -> Result<Vec<Item<Num>>, AllocError>
    ensures items { IfOk result (λ v. v.items ≡ element labels value ∷ []) }
    ensures vector { IfOk result (λ v. IsVector v.items) }
{
    let mut items = Vec::new(alloc);
    items.push(Item { labels, value })?;
    Ok(items)
}

/// One element of value 1 with these labels where there are no elements, and none else.
pub fn absent_of(
    alloc: Global,
    labels: Labels,
    items: &[Item<Num>],
) -> Result<Vec<Item<Num>>, AllocError>
    ensures items { IfOk result (λ v. v.items ≡ absent_of labels items.now) }
    ensures vector { IfOk result (λ v. IsVector v.items) }
{
    if items.is_empty() {
        return single(alloc, labels, Num::whole(1));
    }
    Ok(Vec::new(alloc))
}

/// What is absent, by the values of an argument.
pub(crate) fn absent(alloc: Global, args: &[Expr], given: &[Value]) -> Result<Value, EvalError>
    ensures answer { AnswersTo (vector_at (absent_of (labels_of_argument (trees_of args.now)) (elements_given (all_plain given.now) 0))) result }
    ensures vector { IfOk result IsAnswer }
{
    let labels = labels_of_argument(alloc, args)?;
    let items = absent_of(alloc, labels, elements_given(given, 0))?;
    Ok(vector(items))
}

/// A scalar as a vector.
pub(crate) fn of_scalar(alloc: Global, given: &[Value]) -> Result<Value, EvalError>
    ensures answer { AnswersTo (vector_at (element [] (number_given (all_plain given.now) 0) ∷ [])) result }
    ensures vector { IfOk result IsAnswer }
{
    let items = single(alloc, Labels::empty(alloc), number_given(given, 0))?;
    Ok(vector(items))
}
