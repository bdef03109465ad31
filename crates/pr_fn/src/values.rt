// Functions of each value, and the scalar of a vector.
ghost use Rattle.std.specs.Prelude.{◌≡◌, ◌≢◌, ◌++◌, List, true, false, Ok, Err, IfOk, IfSome, MatchResult, map};
ghost use Rattle.std.specs.List.{filter_map, list_any};
ghost use Rattle.std.specs.Option.{option_to_list};
ghost use Rattle.pr_num.specs.declared.value.Num.{Num};
ghost use Rattle.pr_num.specs.Order.{compared};
ghost use Rattle.pr_match.specs.pr_labels.declared.item.Item.{Item};
ghost use Rattle.pr_match.specs.pr_labels.SeriesText.{unnamed};
ghost use Rattle.spec_vectors.specs.private.Laws.{IsVector};
ghost use Rattle.spec_vectors.specs.Functions.{ValueFunction, are_crossed, clamped, is_too_wide, mapped, scalar_of, sign_of, at_least, at_most, told_apart, within, with_value};
ghost use Rattle.pr_fn.specs.private.Faults.{function_told};
ghost use Rattle.pr_fn.specs.private.Rows.{AreRows, without_metric};
ghost use Rattle.pr_fn.specs.private.ValueFunctions.{WorksBy};

use crate::fn_fault::FnFault;
use crate::rows::{DistinctElements, no_rows, put, told_apart};
use pr_match::labels::{Item, Labels, METRIC_LABEL};
use pr_num::{Num, TooWide};
use std::alloc::{AllocError, Global};
use std::cmp::Ordering;

// The labels without the metric's name.
fn unnamed(alloc: Global, labels: &Labels) -> Result<Labels, AllocError>
    ensures { IfOk result (λ l. l ≡ unnamed labels.now) }
{
    let mut others = labels.copy(alloc)?;
    others.remove(alloc, METRIC_LABEL)?;
    Ok(others)
}

// Puts what the function gives of an element among the rows.
fn map_one<O: Fn(Num) -> Result<Num, TooWide>>(
    alloc: Global,
    rows: &mut DistinctElements,
    item: &Item<Num>,
    op: &O,
) -> Result<(), FnFault>
    requires { O.IsAlwaysCallable op.now }
    ensures { (f : ValueFunction) (front : List (Item Num)) → WorksBy O.Fn op.now f → AreRows front rows.old → MatchResult result
        (λ _. (is_too_wide f item.now ≡ false) × AreRows (front ++ option_to_list (with_value f item.now)) rows.new)
        (λ e. e ≢ FnFault.Memory → (e ≡ FnFault.TooWide) × (is_too_wide f item.now ≡ true)) }
{
    match op(item.value) {
        Err(_) => Err(FnFault::TooWide),
        Ok(value) => {
            let labels = unnamed(alloc, &item.labels)?;
            put(rows, labels, value)?;
            Ok(())
        }
    }
}

// The rows of what the function gives.
fn map_all<O: Fn(Num) -> Result<Num, TooWide>>(
    alloc: Global,
    vector: &[Item<Num>],
    op: &O,
) -> Result<DistinctElements, FnFault>
    requires { O.IsAlwaysCallable op.now }
    ensures { (f : ValueFunction) → WorksBy O.Fn op.now f → MatchResult result
        (λ rows. (list_any (is_too_wide f) vector.now ≡ false) × AreRows (filter_map (with_value f) vector.now) rows)
        (λ e. e ≢ FnFault.Memory → (e ≡ FnFault.TooWide) × (list_any (is_too_wide f) vector.now ≡ true)) }
{
    let mut rows = no_rows(alloc, vector.len())?;
    for item in vector {
        if let Err(fault) = map_one(alloc, &mut rows, item, op) {
            return Err(fault);
        }
    }
    Ok(rows)
}

/// What a function gives of each value, in label order, without the metric's name. (Prometheus:
/// Querying, Functions.)
///
/// # Errors
/// `TooWide` exactly where the function answers so of a value; else `SameLabels` exactly where two
/// elements have equal labels without their names, with the least such. `Memory` where memory runs
/// out.
pub fn map_values<O: Fn(Num) -> Result<Num, TooWide>>(
    alloc: Global,
    vector: &[Item<Num>],
    op: &O,
) -> Result<Vec<Item<Num>>, FnFault>
    requires { O.IsAlwaysCallable op.now }
    ensures mapped { (f : ValueFunction) → WorksBy O.Fn op.now f → MatchResult result
        (λ v. mapped f vector.now ≡ Ok v.items)
        (λ e. IfSome (function_told e) (λ fault. mapped f vector.now ≡ Err fault)) }
    ensures vector { IfOk result (λ v. IsVector v.items) }
{
    match map_all(alloc, vector, op) {
        Ok(rows) => told_apart(rows),
        Err(fault) => Err(fault),
    }
}

/// The elements in label order, without the metric's name.
///
/// # Errors
/// `SameLabels` exactly where two elements have equal labels without their names, with the least
/// such. `Memory` where memory runs out.
pub fn without_metrics(alloc: Global, vector: &[Item<Num>]) -> Result<Vec<Item<Num>>, FnFault>
    ensures told { MatchResult result
        (λ v. told_apart (map without_metric vector.now) ≡ Ok v.items)
        (λ e. IfSome (function_told e) (λ fault. told_apart (map without_metric vector.now) ≡ Err fault)) }
    ensures vector { IfOk result (λ v. IsVector v.items) }
{
    let mut rows = no_rows(alloc, vector.len())?;
    for item in vector {
        let labels = unnamed(alloc, &item.labels)?;
        put(&mut rows, labels, item.value)?;
    }
    told_apart(rows)
}

/// The sign of a value: -1, 0 or 1. NaN stays. (Prometheus: Querying, Functions, `sgn`.)
pub fn sign(value: Num) -> Num
    ensures { result ≡ sign_of value }
{
    match value {
        Num::Finite(number) => Num::whole(number.units().signum() as i64),
        Num::NaN => Num::NaN,
        Num::PosInf => Num::whole(1),
        Num::NegInf => Num::whole(-1),
    }
}

/// The greater of a value and a limit, and NaN where one of them is. (Prometheus: Querying,
/// Functions, `clamp_min`; NaN is own choice.)
pub fn at_least(least: &Num, value: &Num) -> Num
    ensures { result ≡ at_least least.now value.now }
{
    match value.compare(*least) {
        None => Num::NaN,
        Some(Ordering::Less) => *least,
        Some(_) => *value,
    }
}

/// The lesser of a value and a limit, and NaN where one of them is. (Prometheus: Querying,
/// Functions, `clamp_max`; NaN is own choice.)
pub fn at_most(most: &Num, value: &Num) -> Num
    ensures { result ≡ at_most most.now value.now }
{
    match value.compare(*most) {
        None => Num::NaN,
        Some(Ordering::Greater) => *most,
        Some(_) => *value,
    }
}

/// A value brought between two limits, and NaN where one of the three is. (Prometheus: Querying,
/// Functions, `clamp`; NaN is own choice.)
pub fn within(least: &Num, most: &Num, value: &Num) -> Num
    ensures { result ≡ within least.now most.now value.now }
{
    at_most(most, &at_least(least, value))
}

fn are_crossed(least: &Num, most: &Num) -> bool
    ensures { result ≡ are_crossed (compared least.now most.now) }
{
    matches!(least.compare(*most), Some(Ordering::Greater))
}

/// Each value brought between two limits, without the metric's name, and nothing where the lower
/// limit is above the upper one. (Prometheus: Querying, Functions, `clamp`.)
///
/// # Errors
/// `SameLabels` exactly where two elements have equal labels without their names, with the least
/// such. `Memory` where memory runs out.
pub fn clamp(
    alloc: Global,
    vector: &[Item<Num>],
    least: Num,
    most: Num,
) -> Result<Vec<Item<Num>>, FnFault>
    ensures clamped { MatchResult result
        (λ v. clamped least most vector.now ≡ Ok v.items)
        (λ e. IfSome (function_told e) (λ fault. clamped least most vector.now ≡ Err fault)) }
    ensures vector { IfOk result (λ v. IsVector v.items) }
{
    if are_crossed(&least, &most) {
        return Ok(Vec::new(alloc));
    }
    map_values(
        alloc,
        vector,
        &|value: Num| Ok(within(&least, &most, &value)),
    )
}

/// The value of the only element, and NaN where there is none or more than one. (Prometheus:
/// Querying, Functions, `scalar`.)
pub fn scalar(vector: &[Item<Num>]) -> Num
    ensures { result ≡ scalar_of vector.now }
{
    match vector {
        [only] => only.value,
        _ => Num::NaN,
    }
}
