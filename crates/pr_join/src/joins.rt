// Arithmetic and comparisons between two vectors.
ghost use Rattle.std.specs.Prelude.{◌≡◌, ◌≢◌, ◌<◌, length, List, [], ◌∷◌, Ok, Err, Some, None, IfOk, IfSome, MatchResult, OnOk};
ghost use Rattle.pr_join.specs.declared.join_fault.JoinFault.TheVariants.{Memory};
ghost use Rattle.spec_vectors.specs.pr_labels.declared.item.Item.{Item};
ghost use Rattle.spec_vectors.specs.pr_num.declared.value.Num.{Num};
ghost use Rattle.spec_vectors.specs.private.Laws.{IsVector};
ghost use Rattle.spec_vectors.specs.Matching.{Operator, KeptPair, worked, paired, pair_outcome, fault_of_outcomes, key_of, least_shared, outcomes_of, joined, joined_sides};
ghost use Rattle.pr_join.specs.private.Faults.{match_told};
ghost use Rattle.pr_join.specs.private.Operators.{AnswersBy};
ghost use Rattle.pr_join.specs.private.Places.{IsIndexOf, IsOnlyAt};
ghost use Rattle.pr_join.specs.private.Rows.{HasKept, AreRowsTaken, outcomes_with};

use crate::join_fault::JoinFault;
use crate::labels::result_labels;
use crate::places::{KeyPlace, choose_key, first_shared, place_of, places_of};
use crate::rows::{JoinedElements, no_rows, take};
use indexmap::IndexMap;
use pr_agg::ChosenLabels;
use spec_vectors::labels::{Card, Item, Matching};
use spec_vectors::num::{Num, TooWide};
use std::alloc::Global;

// What the operator answers to a pair; it takes the left value first.
fn worked<O: Fn(Num, Num) -> Result<Option<Num>, TooWide>>(
    card: Card,
    op: &O,
    many: &Item<Num>,
    one: &Item<Num>,
) -> Result<Option<Num>, TooWide>
    requires { O.IsAlwaysCallable op.now }
    ensures { (f : Operator) → AnswersBy O.Fn op.now f → result ≡ worked card f (paired many.now one.now) }
{
    match card {
        Card::OneToMany => op(one.value, many.value),
        Card::OneToOne | Card::ManyToOne => op(many.value, one.value),
    }
}

// Takes what a pair gives. Of the one side the element at the place alone has the key.
fn join_pair<O: Fn(Num, Num) -> Result<Option<Num>, TooWide>>(
    alloc: Global,
    how: &Matching,
    keep_name: bool,
    op: &O,
    many: &Item<Num>,
    one: &Item<Num>,
    place: usize,
    rows: &mut JoinedElements,
) -> Result<(), JoinFault>
    requires callable { O.IsAlwaysCallable op.now }
    requires place { place < length rows.old.taken.items }
    ensures taken { (f : Operator) (ones : List (Item Num)) (before : List KeptPair) → AnswersBy O.Fn op.now f → IsOnlyAt how.now ones (key_of how.now many.now) place → HasKept how.now ones before rows.old → MatchResult result
        (λ _. AreRowsTaken how.now ones before (pair_outcome how.now keep_name f (paired many.now one.now) ∷ []) rows.new)
        (λ e. e ≢ Memory → fault_of_outcomes how.now.card before (pair_outcome how.now keep_name f (paired many.now one.now) ∷ []) ≡ match_told e) }
    ensures room { OnOk result (length rows.new.taken.items ≡ length rows.old.taken.items) }
{
    match worked(how.card, op, many, one) {
        Err(_) => Err(JoinFault::TooWide),
        Ok(None) => Ok(()),
        Ok(Some(value)) => {
            let labels = result_labels(alloc, how, keep_name, many, one)?;
            take(alloc, how, many, rows, place, labels, value)
        }
    }
}

// Takes what an element of the many side gives with the element of its key.
fn join_one<'a, O: Fn(Num, Num) -> Result<Option<Num>, TooWide>>(
    alloc: Global,
    how: &Matching,
    keep_name: bool,
    op: &O,
    ones: &[Item<Num>],
    places: &IndexMap<ChosenLabels<'a>, KeyPlace>,
    key: &ChosenLabels<'a>,
    many: &Item<Num>,
    rows: &mut JoinedElements,
) -> Result<(), JoinFault>
    requires callable { O.IsAlwaysCallable op.now }
    requires places { IsIndexOf how.now ones.now ones.now places.now }
    requires key { key.now ≡ key_of how.now many.now }
    requires unshared { least_shared how.now ones.now ≡ None }
    requires room { length rows.old.taken.items ≡ length ones.now }
    ensures taken { (f : Operator) (before : List KeptPair) → AnswersBy O.Fn op.now f → HasKept how.now ones.now before rows.old → MatchResult result
        (λ _. AreRowsTaken how.now ones.now before (outcomes_with how.now keep_name f ones.now many.now) rows.new)
        (λ e. e ≢ Memory → fault_of_outcomes how.now.card before (outcomes_with how.now keep_name f ones.now many.now) ≡ match_told e) }
    ensures room { OnOk result (length rows.new.taken.items ≡ length ones.now) }
{
    match place_of(how, ones, places, key) {
        None => Ok(()),
        Some(place) => {
            let one = &ones[place];
            join_pair(alloc, how, keep_name, op, many, one, place, rows)
        }
    }
}

// Takes what the elements of the many side give, one after the other.
fn join_all<'a, O: Fn(Num, Num) -> Result<Option<Num>, TooWide>>(
    alloc: Global,
    how: &Matching,
    keep_name: bool,
    op: &O,
    manys: &'a [Item<Num>],
    ones: &[Item<Num>],
    places: &IndexMap<ChosenLabels<'a>, KeyPlace>,
) -> Result<JoinedElements, JoinFault>
    requires callable { O.IsAlwaysCallable op.now }
    requires places { IsIndexOf how.now ones.now ones.now places.now }
    requires unshared { least_shared how.now ones.now ≡ None }
    ensures { (f : Operator) → AnswersBy O.Fn op.now f → MatchResult result
        (AreRowsTaken how.now ones.now [] (outcomes_of how.now keep_name f manys.now ones.now))
        (λ e. e ≢ Memory → fault_of_outcomes how.now.card [] (outcomes_of how.now keep_name f manys.now ones.now) ≡ match_told e) }
{
    let mut rows = no_rows(alloc, ones)?;
    let mut key = ChosenLabels::new(alloc);
    for many in manys {
        choose_key(&mut key, how, many)?;
        if let Err(fault) = join_one(
            alloc, how, keep_name, op, ones, places, &key, many, &mut rows,
        ) {
            return Err(fault);
        }
    }
    Ok(rows)
}

// The same of the two sides by what they are.
fn join_sides<'a, O: Fn(Num, Num) -> Result<Option<Num>, TooWide>>(
    alloc: Global,
    how: &Matching,
    keep_name: bool,
    op: &O,
    manys: &'a [Item<Num>],
    ones: &'a [Item<Num>],
) -> Result<Vec<Item<Num>>, JoinFault>
    requires { O.IsAlwaysCallable op.now }
    ensures joined { (f : Operator) → AnswersBy O.Fn op.now f → MatchResult result
        (λ v. joined_sides how.now keep_name f manys.now ones.now ≡ Ok v.items)
        (λ e. IfSome (match_told e) (λ fault. joined_sides how.now keep_name f manys.now ones.now ≡ Err fault)) }
    ensures vector { IfOk result (λ v. IsVector v.items) }
{
    if manys.is_empty() {
        return Ok(Vec::new(alloc));
    }
    let places = places_of(alloc, how, ones)?;
    if let Some(key) = first_shared(alloc, how, ones, &places)? {
        return Err(JoinFault::ManyToMany { key });
    }
    match join_all(alloc, how, keep_name, op, manys, ones, &places) {
        Ok(rows) => Ok(rows.items.into_items()?),
        Err(fault) => Err(fault),
    }
}

/// What an operator gives of two vectors, in label order: by the key of `how` each element of one
/// side is paired with the one of the other side that has this key, and the operator is applied to
/// the left and the right value. It answers a value, none where a filter drops the pair, or that
/// the value is too wide. The metric's name is kept where `keep_name` says so. (Prometheus:
/// Querying, Operators, Vector matching.)
///
/// # Errors
/// `ManyToMany` with the least key that two elements of the one side have, unless the other side is
/// empty; else what befalls the first element of the other side that has a fault: `TooWide` where
/// the operator answers so, `ManyToMany` where in one-to-one matching its key was kept before,
/// `NotUnique` where its labels were. `Memory` where memory runs out.
pub fn join<O: Fn(Num, Num) -> Result<Option<Num>, TooWide>>(
    alloc: Global,
    left: &[Item<Num>],
    right: &[Item<Num>],
    how: &Matching,
    keep_name: bool,
    op: &O,
) -> Result<Vec<Item<Num>>, JoinFault>
    requires { O.IsAlwaysCallable op.now }
    ensures joined { (f : Operator) → AnswersBy O.Fn op.now f → MatchResult result
        (λ v. joined how.now keep_name f left.now right.now ≡ Ok v.items)
        (λ e. IfSome (match_told e) (λ fault. joined how.now keep_name f left.now right.now ≡ Err fault)) }
    ensures vector { IfOk result (λ v. IsVector v.items) }
{
    match how.card {
        Card::OneToMany => join_sides(alloc, how, keep_name, op, right, left),
        Card::OneToOne | Card::ManyToOne => join_sides(alloc, how, keep_name, op, left, right),
    }
}
