// The records after an evaluation: records and elements in label order, merged.
ghost use Rattle.std.specs.Prelude.{◌≡◌, ℕ, ◌+◌, ◌<◌, ◌≤◌, ◌∷◌, ◌++◌, [], length, vec_len, vec_capacity, Some, None};
ghost use Rattle.std.specs.Option.{option_to_list};
ghost use Rattle.std.specs.VecDeque.{deque_len};
ghost use Rattle.std.specs.declared.cmp.Ordering.TheVariants as order;
ghost use Rattle.pr_rule.specs.private.Merging.{merged, moment};
ghost use Rattle.pr_rule.specs.private.Turns.{HasTurn, turn};

use crate::alert::going::{found, missing};
use pr_ast::time::{Ms, Span};
use spec_rules::alerts_crate::{Record, RuleElement};
use std::cmp::Ordering;
use std::collections::VecDeque;

// Which stands first.
#[tactic(auto, using(crate::proofs::MergeSteps::both_first))]
fn turn_of(old: &VecDeque<Record>, elements: &VecDeque<RuleElement>) -> Ordering
    ensures turn { result ≡ turn old.now.items elements.now.items }
    ensures first { HasTurn result (deque_len old.now) (deque_len elements.now) }
{
    match old.front() {
        None => match elements.front() {
            None => Ordering::Equal,
            Some(_) => Ordering::Greater,
        },
        Some(r) => match elements.front() {
            None => Ordering::Less,
            Some(f) => r.labels.cmp(&f.labels),
        },
    }
}

// Puts a record at the end, where there is room.
fn put(out: &mut Vec<Record>, r: Record)
    requires { vec_len out.old < vec_capacity out.old }
    ensures items { out.new.items ≡ out.old.items ++ r ∷ [] }
    ensures len { vec_len out.new ≡ vec_len out.old + 1 }
    ensures room { vec_capacity out.old ≤ vec_capacity out.new }
{
    let _put = out.push(r);
}

// Puts one, if there is one.
fn put_if_any(out: &mut Vec<Record>, r: Option<Record>)
    requires { vec_len out.old < vec_capacity out.old }
    ensures items { out.new.items ≡ out.old.items ++ option_to_list r }
    ensures len { vec_len out.new ≤ vec_len out.old + 1 }
    ensures room { vec_capacity out.old ≤ vec_capacity out.new }
{
    if let Some(r) = r {
        put(out, r);
    }
}

// The first record goes on without an element.
#[tactic(auto, using(crate::proofs::MergeSteps::step_less))]
fn pass_missing(
    old: &mut VecDeque<Record>,
    elements: &VecDeque<RuleElement>,
    out: &mut Vec<Record>,
    now: Ms,
    hold: Span,
    keep: Span,
)
    requires room { vec_len out.old + deque_len old.old ≤ vec_capacity out.old }
    requires some { 0 < deque_len old.old }
    requires first { turn old.old.items elements.now.items ≡ order.Less }
    ensures merged { out.new.items ++ merged (moment now hold keep) elements.now.items old.new.items
        ≡ out.old.items ++ merged (moment now hold keep) elements.now.items old.old.items }
    ensures less { deque_len old.new + 1 ≡ deque_len old.old }
    ensures room { vec_len out.new ≤ vec_len out.old + 1 }
    ensures capacity { vec_capacity out.old ≤ vec_capacity out.new }
{
    if let Some(r) = old.pop_front() {
        put_if_any(out, missing(r, now, keep));
    }
}

// The first record goes on with the first element, which has its labels.
#[tactic(auto, using(crate::proofs::MergeSteps::step_both))]
fn pass_both(
    old: &mut VecDeque<Record>,
    elements: &mut VecDeque<RuleElement>,
    out: &mut Vec<Record>,
    now: Ms,
    hold: Span,
    keep: Span,
)
    requires room { vec_len out.old + deque_len old.old ≤ vec_capacity out.old }
    requires some { 0 < deque_len old.old }
    requires some_element { 0 < deque_len elements.old }
    requires first { turn old.old.items elements.old.items ≡ order.Equal }
    ensures merged { out.new.items ++ merged (moment now hold keep) elements.new.items old.new.items
        ≡ out.old.items ++ merged (moment now hold keep) elements.old.items old.old.items }
    ensures less { deque_len old.new + 1 ≡ deque_len old.old }
    ensures less_elements { deque_len elements.new + 1 ≡ deque_len elements.old }
    ensures room { vec_len out.new ≤ vec_len out.old + 1 }
    ensures capacity { vec_capacity out.old ≤ vec_capacity out.new }
{
    if let Some(r) = old.pop_front() {
        if let Some(f) = elements.pop_front() {
            put(out, found(Some(r), f, now, hold));
        }
    }
}

// The first element has no record yet.
#[tactic(auto, using(crate::proofs::MergeSteps::step_high))]
fn pass_found(
    old: &VecDeque<Record>,
    elements: &mut VecDeque<RuleElement>,
    out: &mut Vec<Record>,
    now: Ms,
    hold: Span,
    keep: Span,
)
    requires room { vec_len out.old + deque_len elements.old ≤ vec_capacity out.old }
    requires some { 0 < deque_len elements.old }
    requires first { turn old.now.items elements.old.items ≡ order.Greater }
    ensures merged { out.new.items ++ merged (moment now hold keep) elements.new.items old.now.items
        ≡ out.old.items ++ merged (moment now hold keep) elements.old.items old.now.items }
    ensures less { deque_len elements.new + 1 ≡ deque_len elements.old }
    ensures room { vec_len out.new ≤ vec_len out.old + 1 }
    ensures capacity { vec_capacity out.old ≤ vec_capacity out.new }
{
    if let Some(f) = elements.pop_front() {
        put(out, found(None, f, now, hold));
    }
}

// One step: what stands first goes on.
fn merge_one(
    old: &mut VecDeque<Record>,
    elements: &mut VecDeque<RuleElement>,
    out: &mut Vec<Record>,
    now: Ms,
    hold: Span,
    keep: Span,
)
    requires room { vec_len out.old + (deque_len old.old + deque_len elements.old) ≤ vec_capacity out.old }
    requires some { 0 < deque_len old.old + deque_len elements.old }
    ensures merged { out.new.items ++ merged (moment now hold keep) elements.new.items old.new.items
        ≡ out.old.items ++ merged (moment now hold keep) elements.old.items old.old.items }
    ensures less { deque_len old.new + deque_len elements.new < deque_len old.old + deque_len elements.old }
    ensures room { vec_len out.new + (deque_len old.new + deque_len elements.new) ≤ vec_capacity out.new }
{
    match turn_of(old, elements) {
        Ordering::Less => pass_missing(old, elements, out, now, hold, keep),
        Ordering::Equal => pass_both(old, elements, out, now, hold, keep),
        Ordering::Greater => pass_found(old, elements, out, now, hold, keep),
    }
}

/// Puts the records after an evaluation behind others, where there is room: of the records before
/// it and what it found, both in label order. The work grows with the number of both.
pub(crate) fn merge(
    old: Vec<Record>,
    found: Vec<RuleElement>,
    out: &mut Vec<Record>,
    now: Ms,
    hold: Span,
    keep: Span,
)
    requires { vec_len out.old + (vec_len old + vec_len found) ≤ vec_capacity out.old }
    ensures { out.new.items ≡ out.old.items ++ merged (moment now hold keep) found.items old.items }
{
    let mut rest = VecDeque::from(old);
    let mut elements = VecDeque::from(found);
    'merging: while !(rest.is_empty() && elements.is_empty()) {
        merge_one(&mut rest, &mut elements, out, now, hold, keep);
    }
}
