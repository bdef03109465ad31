// Series that are asked one after another.
ghost use Rattle.std.specs.Prelude.{◌≡◌, ◌≢◌, ◌+◌, ◌<◌, ◌≤◌, ◌≤ℤ◌, ◌++◌, ◌∷◌, [], ℕ, List, map, option_to_list, take, IfOk, OnOk, MatchResult, Err, Ok, length};
ghost use Rattle.std.specs.List.{All};
ghost use Rattle.std.specs.Option.{option_map};
ghost use Rattle.pr_labels.specs.declared.pair.Pair.{Pair};
ghost use Rattle.pr_labels.specs.Rising.{IsRising};
ghost use Rattle.pr_range.specs.spec_history.declared.entry.Entry.{Entry};
ghost use Rattle.pr_range.specs.pr_head.private.Holds.{arrivals, labels_at};
ghost use Rattle.pr_range.specs.spec_vectors.private.Laws.{answer_to};
ghost use Rattle.pr_range.specs.declared.fault.RangeFault.TheVariants.{Memory};
ghost use Rattle.pr_range.specs.private.Asks.{HasArgument};
ghost use Rattle.pr_eval.specs.private.RangeCallsAsking.{AreAsked, MayAskEach, AreOnce, numbers_cost};
ghost use Rattle.pr_eval.specs.private.Answering.{FaultIs, answer, answers_of};

use pr_labels::words_crate::Steps;
use pr_num::Num;
use pr_range::head::Head;
use pr_range::vectors_crate::Ask;
use pr_range::{RangeFault, Ranges};
use std::alloc::{AllocError, Global};
use std::sync::ledger::Ledger;

/// What a function of a range gives of a series.
#[derive(Clone, Copy, Drop)]
pub(crate) struct RangeAnswer {
    pub(crate) series: usize,
    pub(crate) value: Num,
}

fn push_answer(
    answers: &mut Vec<RangeAnswer>,
    series: usize,
    given: Option<Num>,
) -> Result<(), AllocError>
    ensures { OnOk result (answers.new.items ≡ answers.old.items ++ map (answer series) (option_to_list given)) }
{
    if let Some(value) = given {
        answers.push(RangeAnswer { series, value })?;
    }
    Ok(())
}

/// Asks for each of these series, in order, and ends with the first fault.
pub(crate) fn ask_each<R: Ranges, G: Ledger>(
    alloc: Global,
    head: &Head,
    node: usize,
    numbers: &[usize],
    ask: &Ask,
    ranges: &mut R,
    reads: &mut Steps<G>,
) -> Result<Vec<RangeAnswer>, RangeFault>
    requires there { All (λ i. i < length head.now) numbers.now }
    requires ordered { ask.now.from ≤ℤ ask.now.to }
    requires argument { HasArgument ask.now }
    ensures answer { (history : List Entry) → MayAskEach head.now history ask.now (R.fits ranges.old history) (R.last ranges.old) node → AreOnce numbers.now
        → let meant = answers_of (λ n. answer_to history (labels_at (arrivals history) n) ask.now) numbers.now in MatchResult result (λ v. meant ≡ Ok v.items) (FaultIs meant) }
    ensures known { IfOk result (λ v. All (λ x. x.series < length head.now) v.items) }
    ensures rising { (f : ℕ → List Pair) → IsRising (map f numbers.now) → IfOk result (λ v. IsRising (map (λ x. f x.series) v.items)) }
    ensures reads { (history : List Entry) → MayAskEach head.now history ask.now (R.fits ranges.old history) (R.last ranges.old) node → AreOnce numbers.now
        → reads.new ≤ reads.old + numbers_cost history ask.now (R.passed ranges.old node) numbers.now }
    ensures fits { (history : List Entry) → MayAskEach head.now history ask.now (R.fits ranges.old history) (R.last ranges.old) node → AreOnce numbers.now → result ≢ Err Memory
        → R.fits ranges.new history }
    ensures asked { (history : List Entry) → MayAskEach head.now history ask.now (R.fits ranges.old history) (R.last ranges.old) node → AreOnce numbers.now
        → OnOk result (AreAsked history R.keeps node ask.now numbers.now (R.last ranges.old) (R.last ranges.new) (R.passed ranges.old) (R.passed ranges.new)) }
    ensures until { (history : List Entry) → MayAskEach head.now history ask.now (R.fits ranges.old history) (R.last ranges.old) node → AreOnce numbers.now → result ≢ Err Memory
        → (n : ℕ) × AreAsked history R.keeps node ask.now (take n numbers.now) (R.last ranges.old) (R.last ranges.new) (R.passed ranges.old) (R.passed ranges.new) }
{
    let mut answers = Vec::new(alloc);
    for series in numbers {
        match ranges.ask(head, node, *series, ask, reads) {
            Ok(given) => {
                if push_answer(&mut answers, *series, given).is_err() {
                    return Err(RangeFault::Memory);
                }
            }
            Err(fault) => return Err(fault),
        }
    }
    Ok(answers)
}
