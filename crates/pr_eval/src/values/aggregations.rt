// Aggregations.
ghost use Rattle.std.specs.Prelude.{◌≡◌, true, ℕ, List, Result, IfOk, MatchResult, Ok, Err};
ghost use Rattle.std.specs.List.{All};
ghost use Rattle.pr_labels.specs.Names.{is_label_name};
ghost use Rattle.pr_labels.specs.declared.item.Item.{Item};
ghost use Rattle.pr_num.specs.declared.value.Num.{Num};
ghost use Rattle.pr_num.specs.declared.value.TooWide.{TooWide};
ghost use Rattle.pr_num.specs.Arithmetic.{too_wide};
ghost use Rattle.pr_join.specs.pr_agg.declared.fault.AggFault.TheVariants as fault;
ghost use Rattle.pr_ast.specs.Tree.{Tree};
ghost use Rattle.pr_range.specs.spec_vectors.Aggregation.{of_groups, always, count_of_values, counted, first_of_parts, greatest_first, greatest_of_values, least_first, least_of_values, mean_of_values, one_of_values, quantile_of_values, sum_of_values};
ghost use Rattle.pr_range.specs.spec_vectors.private.Laws.{IsVector};
ghost use Rattle.spec_meaning.specs.Aggregations.{aggregated_at, summed_up};
ghost use Rattle.spec_meaning.specs.private.Laws.{IsAnswer};
ghost use Rattle.spec_meaning.specs.Given.{elements_given, number_given};
ghost use Rattle.spec_meaning.specs.pr_types.Typed.{content_at};
ghost use Rattle.pr_eval.specs.private.Answers.{AnswersTo};
ghost use Rattle.pr_eval.specs.private.Plain.{all_plain};

use crate::values::arguments::{elements_given, number_given};
use crate::values::error::EvalError;
use crate::values::vectors::vector;
use pr_ast::{AggOp, Place};
use pr_join::agg::{
    AggFault, avg, bottomk, count, count_values, group, max, min, quantile, sum, topk,
};
use pr_labels::{Grouping, Item};
use pr_num::Num;
use spec_meaning::{FaultKind, Value};
use std::alloc::{AllocError, Global};

// A vector that was made.
fn made(items: Result<Vec<Item<Num>>, AllocError>) -> Result<Value, EvalError>
    ensures answer { (meant : List (Item Num)) → IfOk items (λ v. v.items ≡ meant) → AnswersTo (Ok (Value.Vector meant)) result }
    ensures vector { IfOk items (λ v. IsVector v.items) → IfOk result IsAnswer }
{
    match items {
        Ok(items) => Ok(vector(items)),
        Err(_) => Err(EvalError::Memory),
    }
}

// A vector of groups that was made.
fn grouped(place: Place, items: Result<Vec<Item<Num>>, AllocError>) -> Result<Value, EvalError>
    ensures answer { (meant : Result (List (Item Num)) TooWide) → IfOk items (λ v. meant ≡ Ok v.items) → AnswersTo (aggregated_at place meant) result }
    ensures vector { IfOk items (λ v. IsVector v.items) → IfOk result IsAnswer }
{
    match items {
        Ok(items) => Ok(vector(items)),
        Err(_) => Err(EvalError::Memory),
    }
}

// A vector of groups that was made, or its fault.
fn made_at(place: Place, items: Result<Vec<Item<Num>>, AggFault>) -> Result<Value, EvalError>
    ensures answer { (meant : Result (List (Item Num)) TooWide) → MatchResult items (λ v. meant ≡ Ok v.items) (λ e. e ≡ fault.TooWide → meant ≡ Err too_wide) → AnswersTo (aggregated_at place meant) result }
    ensures vector { IfOk items (λ v. IsVector v.items) → IfOk result IsAnswer }
{
    match items {
        Ok(items) => Ok(vector(items)),
        Err(AggFault::TooWide) => Err(EvalError::Fault {
            place,
            kind: FaultKind::TooWide,
        }),
        Err(AggFault::Memory) => Err(EvalError::Memory),
    }
}

// The sum of each group.
fn sums(alloc: Global, place: Place, by: &Grouping, given: &[Value]) -> Result<Value, EvalError>
    ensures answer { AnswersTo (aggregated_at place (of_groups sum_of_values by.now (elements_given (all_plain given.now) 0))) result }
    ensures vector { IfOk result IsAnswer }
{
    let items = elements_given(given, 0);
    let made = sum(alloc, items, by);
    made_at(place, made)
}

// The mean of each group.
fn means(alloc: Global, place: Place, by: &Grouping, given: &[Value]) -> Result<Value, EvalError>
    ensures answer { AnswersTo (aggregated_at place (of_groups (always mean_of_values) by.now (elements_given (all_plain given.now) 0))) result }
    ensures vector { IfOk result IsAnswer }
{
    let items = elements_given(given, 0);
    let made = avg(alloc, items, by);
    grouped(place, made)
}

// The least value of each group.
fn least(alloc: Global, place: Place, by: &Grouping, given: &[Value]) -> Result<Value, EvalError>
    ensures answer { AnswersTo (aggregated_at place (of_groups (always least_of_values) by.now (elements_given (all_plain given.now) 0))) result }
    ensures vector { IfOk result IsAnswer }
{
    let items = elements_given(given, 0);
    let made = min(alloc, items, by);
    grouped(place, made)
}

// The greatest value of each group.
fn greatest(alloc: Global, place: Place, by: &Grouping, given: &[Value]) -> Result<Value, EvalError>
    ensures answer { AnswersTo (aggregated_at place (of_groups (always greatest_of_values) by.now (elements_given (all_plain given.now) 0))) result }
    ensures vector { IfOk result IsAnswer }
{
    let items = elements_given(given, 0);
    let made = max(alloc, items, by);
    grouped(place, made)
}

// How many elements each group has.
fn counts(alloc: Global, place: Place, by: &Grouping, given: &[Value]) -> Result<Value, EvalError>
    ensures answer { AnswersTo (aggregated_at place (of_groups (always count_of_values) by.now (elements_given (all_plain given.now) 0))) result }
    ensures vector { IfOk result IsAnswer }
{
    let items = elements_given(given, 0);
    let made = count(alloc, items, by);
    grouped(place, made)
}

// One for each group.
fn ones(alloc: Global, place: Place, by: &Grouping, given: &[Value]) -> Result<Value, EvalError>
    ensures answer { AnswersTo (aggregated_at place (of_groups (always one_of_values) by.now (elements_given (all_plain given.now) 0))) result }
    ensures vector { IfOk result IsAnswer }
{
    let items = elements_given(given, 0);
    let made = group(alloc, items, by);
    grouped(place, made)
}

// The greatest elements of each part.
fn greatest_first(alloc: Global, by: &Grouping, given: &[Value]) -> Result<Value, EvalError>
    requires { All IsAnswer given.now }
    ensures answer { AnswersTo (Ok (Value.Vector (first_of_parts greatest_first (number_given (all_plain given.now) 0) by.now (elements_given (all_plain given.now) 1)))) result }
    ensures vector { IfOk result IsAnswer }
{
    let k = number_given(given, 0);
    let items = elements_given(given, 1);
    let first = topk(alloc, k, items, by);
    made(first)
}

// The least elements of each part.
fn least_first(alloc: Global, by: &Grouping, given: &[Value]) -> Result<Value, EvalError>
    requires { All IsAnswer given.now }
    ensures answer { AnswersTo (Ok (Value.Vector (first_of_parts least_first (number_given (all_plain given.now) 0) by.now (elements_given (all_plain given.now) 1)))) result }
    ensures vector { IfOk result IsAnswer }
{
    let k = number_given(given, 0);
    let items = elements_given(given, 1);
    let first = bottomk(alloc, k, items, by);
    made(first)
}

// A quantile of each group.
fn quantiles(
    alloc: Global,
    place: Place,
    by: &Grouping,
    given: &[Value],
) -> Result<Value, EvalError>
    ensures answer { AnswersTo (aggregated_at place (of_groups (always (quantile_of_values (number_given (all_plain given.now) 0))) by.now (elements_given (all_plain given.now) 1))) result }
    ensures vector { IfOk result IsAnswer }
{
    let phi = number_given(given, 0);
    let items = elements_given(given, 1);
    let made = quantile(alloc, phi, items, by);
    grouped(place, made)
}

// How often each group has each value.
fn counted(alloc: Global, by: &Grouping, label: &str, given: &[Value]) -> Result<Value, EvalError>
    requires { is_label_name label.now ≡ true }
    ensures answer { (text : List ℕ) → text ≡ label.now → AnswersTo (Ok (Value.Vector (counted text by.now (elements_given (all_plain given.now) 1)))) result }
    ensures vector { IfOk result IsAnswer }
{
    let items = elements_given(given, 1);
    let counts = count_values(alloc, label, items, by);
    made(counts)
}

/// What an aggregation gives of the values of its arguments, which are its parameter, where it has
/// one, and a vector. The label of `count_values` is given beside them, since it is a text.
/// (Prometheus: Querying, Operators, Aggregation operators.)
///
/// # Errors
/// `Fault` where a sum is too wide, or `Memory` where memory runs out.
pub fn aggregated(
    alloc: Global,
    place: Place,
    op: AggOp,
    by: &Grouping,
    label: &str,
    given: &[Value],
) -> Result<Value, EvalError>
    requires named { op ≡ AggOp.CountValues → is_label_name label.now ≡ true }
    requires vectors { All IsAnswer given.now }
    ensures answer { (ts : Tree) → (op ≡ AggOp.CountValues → content_at ts 0 ≡ label.now) → AnswersTo (summed_up place op by.now ts (all_plain given.now)) result }
    ensures vector { IfOk result IsAnswer }
{
    match op {
        AggOp::Sum => sums(alloc, place, by, given),
        AggOp::Avg => means(alloc, place, by, given),
        AggOp::Min => least(alloc, place, by, given),
        AggOp::Max => greatest(alloc, place, by, given),
        AggOp::Count => counts(alloc, place, by, given),
        AggOp::Group => ones(alloc, place, by, given),
        AggOp::TopK => greatest_first(alloc, by, given),
        AggOp::BottomK => least_first(alloc, by, given),
        AggOp::Quantile => quantiles(alloc, place, by, given),
        AggOp::CountValues => counted(alloc, by, label, given),
    }
}
