// What the summary of the values of a range answers.
ghost use Rattle.std.specs.Prelude.{◌≡◌, ◌≢◌, ◌<◌, ◌≤◌, ◌^◌, true, List, length, Err, IfSome};
ghost use Rattle.spec_vectors.specs.pr_num.Total.{joined};
ghost use Rattle.pr_head.specs.spec_history.declared.spot.Spot.{Spot};
ghost use Rattle.spec_vectors.specs.declared.range.Ask.{Ask};
ghost use Rattle.spec_vectors.specs.declared.range.RangeFn.TheVariants.{MaxOverTime, MinOverTime};
ghost use Rattle.spec_vectors.specs.Ranges.{over, with_fault};
ghost use Rattle.pr_window.specs.private.Folding.{folded};
ghost use Rattle.pr_window.specs.private.Answers.{is_of_neighbours, is_of_total};
ghost use Rattle.pr_window.specs.private.Extremes.{greater, lesser, value_alone};
ghost use Rattle.pr_window.specs.private.Neighbours.{beside, spot_alone, weight_of};
ghost use Rattle.pr_window.specs.private.Totals.{total_alone};
ghost use Rattle.pr_range.specs.declared.fault.RangeFault.TheVariants.{Memory};
ghost use Rattle.pr_range.specs.private.Answers.{AnswersAsk};
ghost use Rattle.pr_range.specs.private.Spots.{AreWithin};

use crate::fault::RangeFault;
use pr_window::folds::{Neighbours, from_neighbours, from_total};
use spec_vectors::Ask;
use spec_vectors::num::{Num, TooWide, Total};

/// The most values of a range.
pub(crate) const LONGEST: usize = 1 << 20;

// An answer as that of an ask.
fn told(answer: Result<Option<Num>, TooWide>) -> Result<Option<Num>, RangeFault>
    ensures answer { AnswersAsk (with_fault answer) result }
    ensures memory { result ≢ Err Memory }
{
    match answer {
        Ok(value) => Ok(value),
        Err(_) => Err(RangeFault::TooWide),
    }
}

/// The answer of a function of the total, from that of so many values.
///
/// # Errors
/// `RangeTooLong` exactly where there are more than 2^20 values, else `TooWide`.
pub fn answer_from_total(
    ask: &Ask,
    count: usize,
    total: Option<Total>,
) -> Result<Option<Num>, RangeFault>
    requires func { is_of_total ask.now.func ≡ true }
    requires count { IfSome total (λ t. t.count ≡ count) }
    ensures answer { (spots : List Spot) → length spots ≡ count → folded total_alone joined spots ≡ total → AnswersAsk (over ask.now spots) result }
    ensures memory { result ≢ Err Memory }
{
    if count > LONGEST {
        return Err(RangeFault::RangeTooLong { have: count as u64 });
    }
    match total {
        Some(total) => told(from_total(ask.func, &total, count as u64)),
        None => Ok(None),
    }
}

/// The greatest or the least of so many values.
///
/// # Errors
/// `RangeTooLong` exactly where there are more than 2^20 values.
pub fn answer_from_extreme(count: usize, value: Option<Num>) -> Result<Option<Num>, RangeFault>
    ensures greatest { (ask : Ask) (spots : List Spot) → ask.func ≡ MaxOverTime → length spots ≡ count → folded value_alone greater spots ≡ value → AnswersAsk (over ask spots) result }
    ensures least { (ask : Ask) (spots : List Spot) → ask.func ≡ MinOverTime → length spots ≡ count → folded value_alone lesser spots ≡ value → AnswersAsk (over ask spots) result }
    ensures memory { result ≢ Err Memory }
{
    if count > LONGEST {
        return Err(RangeFault::RangeTooLong { have: count as u64 });
    }
    match value {
        Some(value) => Ok(Some(value)),
        None => Ok(None),
    }
}

/// The answer of a function of neighbours, from what is kept of so many values.
///
/// # Errors
/// `RangeTooLong` exactly where there are more than 2^20 values, else `TooWide`.
pub fn answer_from_neighbours(
    ask: &Ask,
    count: usize,
    kept: Option<Neighbours>,
) -> Result<Option<Num>, RangeFault>
    requires func { is_of_neighbours ask.now.func ≡ true }
    requires light { IfSome kept (λ s. weight_of s ≤ count) }
    ensures answer { (spots : List Spot) → AreWithin ask.now.from ask.now.to spots → length spots ≡ count → folded spot_alone beside spots ≡ kept → AnswersAsk (over ask.now spots) result }
    ensures memory { result ≢ Err Memory }
{
    if count > LONGEST {
        return Err(RangeFault::RangeTooLong { have: count as u64 });
    }
    match kept {
        Some(kept) => told(from_neighbours(ask.func, ask, &kept)),
        None => Ok(None),
    }
}
