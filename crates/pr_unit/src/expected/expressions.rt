// Checks of expressions.
ghost use Rattle.std.specs.Prelude.{◌≡◌, ◌<◌, ◌∷◌, [], List, Result, IfOk};
ghost use Rattle.pr_slide.specs.spec_history.declared.entry.Entry.{Entry};
ghost use Rattle.pr_ast.specs.Tree.{tree_of};
ghost use Rattle.pr_group.specs.spec_meaning.declared.fault.Fault.{Fault};
ghost use Rattle.pr_group.specs.spec_meaning.declared.value.Value.{Value};
ghost use Rattle.pr_group.specs.spec_meaning.Meaning.{meaning};
ghost use Rattle.pr_group.specs.spec_rules.Results.{value_elements};
ghost use Rattle.pr_group.specs.pr_eval.private.Answers.{AnswersTo};
ghost use Rattle.pr_group.specs.pr_eval.private.Looks.{KeepsFor};
ghost use Rattle.spec_tests.specs.declared.failure.Shown.TheVariants.{Samples};
ghost use Rattle.spec_tests.specs.Verdict.{expr_failure, failure, given_by, meets};

use crate::expected::compare::are_same_items;
use pr_ast::labels::{Item, Labels};
use pr_ast::time::{Ms, Span};
use pr_ast::words_crate::{Items, Steps};
use pr_group::eval::{EvalError, Value, eval};
use pr_num::Num;
use pr_slide::head::Head;
use pr_slide::range::PlainRanges;
use spec_tests::types::Checked;
use spec_tests::{Failure, Shown};
use std::alloc::{AllocError, Global};
use std::marker::Brand;
use std::sync::ledger::{Blank, Ledger};

// A number is one sample without labels.
fn scalar_items(alloc: Global, value: Num) -> Result<Items<Item<Num>>, AllocError>
    ensures { IfOk result (λ list. list ≡ (record { labels = []; value = value }) ∷ []) }
{
    let mut items = Items::empty(alloc);
    items.push(Item {
        labels: Labels::empty(alloc),
        value,
    })?;
    Ok(items)
}

fn value_elements(alloc: Global, value: Value) -> Result<Items<Item<Num>>, AllocError>
    ensures { IfOk result (λ list. list ≡ value_elements value) }
{
    match value {
        Value::Scalar { value } => scalar_items(alloc, value),
        Value::Vector { items } => Ok(items),
    }
}

#[tactic(auto, using(crate::proofs::Meant::given_value, crate::proofs::Meant::given_fault))]
fn given_by(alloc: Global, answer: Result<Value, EvalError>) -> Result<Shown, AllocError>
    ensures { (meant : Result Value Fault) → AnswersTo meant answer → IfOk result (λ s. s ≡ given_by meant) }
{
    match answer {
        Ok(value) => Ok(Shown::Samples {
            list: value_elements(alloc, value)?,
        }),
        Err(EvalError::Fault { place, kind }) => Ok(Shown::Fault { place, kind }),
        Err(EvalError::Memory) => Err(AllocError),
    }
}

// What an expression gives; its reads are counted for the proofs alone.
fn given_with<G: Ledger>(
    alloc: Global,
    head: &Head,
    expr: &Checked,
    time: Ms,
    step: Span,
    blank: Blank,
) -> Result<Shown, AllocError>
    requires step { 0 < step }
    requires name { blank.name ≡ G.name }
    requires parts { blank.parts ≡ G.parts }
    requires some { 0 < G.parts }
    ensures { (history : List Entry) → KeepsFor head.now history (tree_of expr.now) time → IfOk result (λ s. s ≡ given_by (meaning step history (tree_of expr.now) time)) }
{
    let mut reads: Steps<G> = Steps::new(blank);
    let mut ranges = PlainRanges::new(alloc);
    given_by(
        alloc,
        eval(alloc, expr, head, time, step, &mut ranges, &mut reads),
    )
}

/// What an expression gives at a time, over a head that keeps all that it looks at: samples in label
/// order, of which a number is one without labels, or its first fault.
///
/// # Errors
/// Want of memory.
pub fn given(
    alloc: Global,
    head: &Head,
    expr: &Checked,
    time: Ms,
    step: Span,
) -> Result<Shown, AllocError>
    requires { 0 < step }
    ensures { (history : List Entry) → KeepsFor head.now history (tree_of expr.now) time → IfOk result (λ s. s ≡ given_by (meaning step history (tree_of expr.now) time)) }
{
    given_with::<Brand>(alloc, head, expr, time, step, Blank::new(1))
}

// A fault differs from all that can be expected.
fn meets(expected: &[Item<Num>], got: &Shown) -> bool
    ensures { result ≡ meets expected.now got.now }
{
    match got {
        Shown::Samples { list } => are_same_items(expected, list.as_slice()),
        Shown::Alerts { .. } | Shown::Fault { .. } => false,
    }
}

fn copy_items(alloc: Global, items: &[Item<Num>]) -> Result<Items<Item<Num>>, AllocError>
    ensures { IfOk result (λ list. list ≡ items.now) }
{
    let mut copies = Vec::new(alloc);
    for item in items {
        copies.push(Item {
            labels: item.labels.copy(alloc)?,
            value: item.value,
        })?;
    }
    Ok(Items::new(copies))
}

fn differing(
    alloc: Global,
    test: u64,
    check: u64,
    expected: &[Item<Num>],
    got: Shown,
) -> Result<Items<Failure>, AllocError>
    ensures { IfOk result (λ list. list ≡ failure test check (Samples expected.now) got ∷ []) }
{
    let expected = Shown::Samples {
        list: copy_items(alloc, expected)?,
    };
    let mut failures = Items::empty(alloc);
    failures.push(Failure {
        test,
        check,
        expected,
        got,
    })?;
    Ok(failures)
}

/// The failure of a check of an expression, if what it gives differs from what is expected: exactly,
/// by labels and values. (Own choice: values are exact, so no tolerance is needed.)
///
/// # Errors
/// Want of memory.
pub fn expr_failure(
    alloc: Global,
    test: u64,
    check: u64,
    expected: &[Item<Num>],
    got: Shown,
) -> Result<Items<Failure>, AllocError>
    ensures { IfOk result (λ list. list ≡ expr_failure test check expected.now got) }
{
    if meets(expected, &got) {
        return Ok(Items::empty(alloc));
    }
    differing(alloc, test, check, expected, got)
}
