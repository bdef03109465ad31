// Aggregations that fold the values of each part.
ghost use Rattle.std.specs.Prelude.{◌≡◌, ◌≢◌, Ok, Err, IfOk, IfErr, MatchResult};
ghost use Rattle.pr_num.specs.Arithmetic.{too_wide, whole_of};
ghost use Rattle.pr_window.specs.spec_vectors.private.Laws.{IsVector};
ghost use Rattle.pr_window.specs.spec_vectors.Aggregation.{of_groups, always, count_of_values, greatest_of_values, least_of_values, mean_of_values, one_of_values, sum_of_values};
ghost use Rattle.pr_agg.specs.declared.fault.AggFault.TheVariants as fault;

use crate::fault::AggFault;
use crate::folds::group_fold;
use crate::numbers::whole;
use pr_labels::{Grouping, Item};
use pr_num::{Num, TooWide, Total};
use pr_window::Fold;
use pr_window::folds::{greater, lesser};
use std::alloc::{AllocError, Global};

/// Values are folded to their total, for `sum` and `avg`: lift by `Total::zero().plus(v)`, combine
/// by `Total::join`.
pub struct Totals;

impl Fold<Num, Total> for Totals {
    ghost use Rattle.pr_num.specs.Total.{joined, one_value};
    ghost use Rattle.pr_window.specs.private.Totals.{joined_assoc, joined_count, one_count, tally_count};

    ghost lift = { one_value };

    ghost combine = { joined };

    ghost weight = { tally_count };

    ghost associative = { joined_assoc };

    ghost lifted = { one_count };

    ghost combined = { joined_count };
}

/// Values are folded to the greatest one: each is its own summary, combined by `greater`.
pub struct Greatest;

impl Fold<Num, Num> for Greatest {
    ghost use Rattle.pr_window.specs.private.Extremes.{greater, greater_assoc, greater_weightless, no_weight};
    ghost use Rattle.pr_agg.specs.private.Alone.{itself, itself_weightless};

    ghost lift = { itself };

    ghost combine = { greater };

    ghost weight = { no_weight };

    ghost associative = { greater_assoc };

    ghost lifted = { itself_weightless };

    ghost combined = { greater_weightless };
}

/// Values are folded to the least one: each is its own summary, combined by `lesser`.
pub struct Least;

impl Fold<Num, Num> for Least {
    ghost use Rattle.pr_window.specs.private.Extremes.{lesser, lesser_assoc, lesser_weightless, no_weight};
    ghost use Rattle.pr_agg.specs.private.Alone.{itself, itself_weightless};

    ghost lift = { itself };

    ghost combine = { lesser };

    ghost weight = { no_weight };

    ghost associative = { lesser_assoc };

    ghost lifted = { itself_weightless };

    ghost combined = { lesser_weightless };
}

/// Values are folded to their number: each is one, combined by addition.
pub struct CountFold;

impl Fold<Num, u64> for CountFold {
    ghost use Rattle.pr_agg.specs.private.Counts.{as_many, both_assoc, both_parts, both_weigh, one_each, one_weighs_one};

    ghost lift = { one_each };

    ghost combine = { both_parts };

    ghost weight = { as_many };

    ghost associative = { both_assoc };

    ghost lifted = { one_weighs_one };

    ghost combined = { both_weigh };
}

/// That there are values is all that is kept of them, for `group`.
pub struct Presence;

impl Fold<Num, ()> for Presence {
    ghost use Rattle.pr_agg.specs.private.Presence.{any, both, both_assoc, nothing, weighs_nothing, both_weigh_nothing};

    ghost lift = { any };

    ghost combine = { both };

    ghost weight = { nothing };

    ghost associative = { both_assoc };

    ghost lifted = { weighs_nothing };

    ghost combined = { both_weigh_nothing };
}

// An answer that has no values that are too wide.
fn never_wide(answer: Result<Vec<Item<Num>>, AggFault>) -> Result<Vec<Item<Num>>, AllocError>
    requires { IfErr answer (λ e. e ≢ fault.TooWide) }
    ensures { IfOk result (λ v. answer ≡ Ok v) }
{
    match answer {
        Ok(items) => Ok(items),
        Err(AggFault::Memory) => Err(AllocError),
        Err(AggFault::TooWide) => unreachable!(),
    }
}

/// The exact sum of each group's values: NaN where one is or both infinities are there, else an
/// infinity that is there. (Prometheus: Querying, Operators, Aggregation operators; exact sums are
/// own choice.)
///
/// # Errors
/// `TooWide` exactly where the sum of a group is 10^20 or more in magnitude.
pub fn sum(alloc: Global, vector: &[Item<Num>], by: &Grouping) -> Result<Vec<Item<Num>>, AggFault>
    ensures aggregated { MatchResult result
        (λ v. of_groups sum_of_values by.now vector.now ≡ Ok v.items)
        (λ e. e ≡ fault.TooWide → of_groups sum_of_values by.now vector.now ≡ Err too_wide) }
    ensures vector { IfOk result (λ v. IsVector v.items) }
{
    group_fold::<Total, Totals, _, _, _>(
        alloc,
        vector,
        by,
        &|v: &Num| Total::zero().plus(*v),
        &|a: &Total, b: &Total| a.join(*b),
        &|t: &Total| t.value(),
    )
}

/// The mean of each group's values: the exact sum over their number, rounded once, half to even. It
/// is never too wide, though the sum may be. (Prometheus: Aggregation operators; the rounding is
/// own choice.)
pub fn avg(alloc: Global, vector: &[Item<Num>], by: &Grouping) -> Result<Vec<Item<Num>>, AllocError>
    ensures aggregated { IfOk result (λ v. of_groups (always mean_of_values) by.now vector.now ≡ Ok v.items) }
    ensures vector { IfOk result (λ v. IsVector v.items) }
{
    let answer = group_fold::<Total, Totals, _, _, _>(
        alloc,
        vector,
        by,
        &|v: &Num| Total::zero().plus(*v),
        &|a: &Total, b: &Total| a.join(*b),
        &|t: &Total| -> Result<Num, TooWide> { Ok(t.mean()) },
    );
    never_wide(answer)
}

/// The greatest of each group's values; NaN only where all are. (Prometheus: Aggregation
/// operators.)
pub fn max(alloc: Global, vector: &[Item<Num>], by: &Grouping) -> Result<Vec<Item<Num>>, AllocError>
    ensures aggregated { IfOk result (λ v. of_groups (always greatest_of_values) by.now vector.now ≡ Ok v.items) }
    ensures vector { IfOk result (λ v. IsVector v.items) }
{
    let answer = group_fold::<Num, Greatest, _, _, _>(
        alloc,
        vector,
        by,
        &|v: &Num| *v,
        &|a: &Num, b: &Num| greater(a, b),
        &|v: &Num| -> Result<Num, TooWide> { Ok(*v) },
    );
    never_wide(answer)
}

/// The least of each group's values; NaN only where all are. (Prometheus: Aggregation operators.)
pub fn min(alloc: Global, vector: &[Item<Num>], by: &Grouping) -> Result<Vec<Item<Num>>, AllocError>
    ensures aggregated { IfOk result (λ v. of_groups (always least_of_values) by.now vector.now ≡ Ok v.items) }
    ensures vector { IfOk result (λ v. IsVector v.items) }
{
    let answer = group_fold::<Num, Least, _, _, _>(
        alloc,
        vector,
        by,
        &|v: &Num| *v,
        &|a: &Num, b: &Num| lesser(a, b),
        &|v: &Num| -> Result<Num, TooWide> { Ok(*v) },
    );
    never_wide(answer)
}

/// The number of each group's elements. (Prometheus: Aggregation operators.)
pub fn count(
    alloc: Global,
    vector: &[Item<Num>],
    by: &Grouping,
) -> Result<Vec<Item<Num>>, AllocError>
    ensures aggregated { IfOk result (λ v. of_groups (always count_of_values) by.now vector.now ≡ Ok v.items) }
    ensures vector { IfOk result (λ v. IsVector v.items) }
{
    let answer = group_fold::<u64, CountFold, _, _, _>(
        alloc,
        vector,
        by,
        &|_: &Num| 1u64,
        &|a: &u64, b: &u64| *a + *b,
        &|n: &u64| -> Result<Num, TooWide> { Ok(whole(*n)) },
    );
    never_wide(answer)
}

/// One for each group. (Prometheus: Aggregation operators.)
pub fn group(
    alloc: Global,
    vector: &[Item<Num>],
    by: &Grouping,
) -> Result<Vec<Item<Num>>, AllocError>
    ensures aggregated { IfOk result (λ v. of_groups (always one_of_values) by.now vector.now ≡ Ok v.items) }
    ensures vector { IfOk result (λ v. IsVector v.items) }
{
    let answer = group_fold::<(), Presence, _, _, _>(
        alloc,
        vector,
        by,
        &|_: &Num| (),
        &|_: &(), _: &()| (),
        &|_: &()| -> Result<Num, TooWide> { Ok(whole(1)) },
    );
    never_wide(answer)
}
