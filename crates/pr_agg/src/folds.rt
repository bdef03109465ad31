// Aggregations that fold.
ghost use Rattle.std.specs.Prelude.{◌≡◌, ◌++◌, ◌∷◌, [], Result, Ok, Err, IfOk, OnOk, MatchResult};
ghost use Rattle.indexmap.specs.IndexMap.{keys};
ghost use Rattle.pr_num.specs.declared.value.Num.{Num};
ghost use Rattle.pr_num.specs.declared.value.TooWide.{TooWide};
ghost use Rattle.pr_num.specs.Arithmetic.{too_wide};
ghost use Rattle.pr_window.specs.spec_vectors.private.Laws.{IsVector};
ghost use Rattle.pr_window.specs.spec_vectors.Vectors.{element, label_sets};
ghost use Rattle.pr_window.specs.spec_vectors.Aggregation.{of_groups};
ghost use Rattle.pr_window.specs.private.Folding.{Lifts, Combines};
ghost use Rattle.pr_agg.specs.declared.fault.AggFault.TheVariants as fault;
ghost use Rattle.pr_agg.specs.private.Parts.{Finishes, finished_all, fold_and_finish};

use crate::fault::AggFault;
use crate::parts::fold_parts;
use indexmap::IndexMap;
use pr_labels::{Grouping, Item, Labels};
use pr_num::{Num, TooWide};
use pr_window::Fold;
use std::alloc::{AllocError, Global};

// Puts an element at the end.
fn push_element(items: &mut Vec<Item<Num>>, labels: Labels, value: Num) -> Result<(), AllocError>
    ensures { OnOk result (items.new.items ≡ items.old.items ++ element labels value ∷ []) }
{
    items.push(Item { labels, value })?;
    Ok(())
}

// What the summaries are finished to, in label order.
fn finish_all<A: Copy, E: Fn(&A) -> Result<Num, TooWide>>(
    alloc: Global,
    parts: IndexMap<Labels, A>,
    finish: &E,
) -> Result<Vec<Item<Num>>, AggFault>
    requires { E.IsAlwaysCallable finish.now }
    ensures finished { (f : A → Result Num TooWide) → Finishes E.Fn finish.now f → MatchResult result
        (λ v. finished_all f parts.entries ≡ Ok v.items)
        (λ e. e ≡ fault.TooWide → finished_all f parts.entries ≡ Err too_wide) }
    ensures labels { IfOk result (λ v. label_sets v.items ≡ keys parts) }
{
    let mut items = Vec::new(alloc);
    for (labels, summary) in parts {
        match finish(&summary) {
            Ok(value) => push_element(&mut items, labels, value)?,
            Err(_) => return Err(AggFault::TooWide),
        }
    }
    Ok(items)
}

/// What the parts of a vector give, in label order: the values of each are lifted, combined in
/// order, and finished. The closures for lifting and combining meet the definitions of `M`;
/// `combine` is called only on summaries whose weights add up to less than 2^64. The work grows as
/// n log n with the elements. (Prometheus: Querying, Operators, Aggregation operators.)
///
/// # Errors
/// `TooWide` exactly where `finish` answers it for a part.
pub fn group_fold<
    A: Copy,
    M: Fold<Num, A>,
    L: Fn(&Num) -> A,
    C: Fn(&A, &A) -> A,
    E: Fn(&A) -> Result<Num, TooWide>,
>(
    alloc: Global,
    vector: &[Item<Num>],
    by: &Grouping,
    lift: &L,
    combine: &C,
    finish: &E,
) -> Result<Vec<Item<Num>>, AggFault>
    requires lift { Lifts L.Fn lift.now M.lift }
    requires combine { Combines C.Fn combine.now M.combine M.weight }
    requires finish { E.IsAlwaysCallable finish.now }
    ensures aggregated { (f : A → Result Num TooWide) → Finishes E.Fn finish.now f → MatchResult result
        (λ v. of_groups (fold_and_finish M.lift M.combine f) by.now vector.now ≡ Ok v.items)
        (λ e. e ≡ fault.TooWide → of_groups (fold_and_finish M.lift M.combine f) by.now vector.now ≡ Err too_wide) }
    ensures vector { IfOk result (λ v. IsVector v.items) }
{
    let parts = fold_parts::<A, M, L, C>(alloc, vector, by, lift, combine)?;
    finish_all(alloc, parts, finish)
}
