// Values one after another, with what is counted of them, so that an ask need not go over them.
ghost use Rattle.std.specs.Prelude.{◌≡◌, ◌+◌, ◌≤◌, ◌<◌, ◌++◌, ◌∷◌, [], IfOk, IfSome, IfNone, OnOk, Some, length, nat_lt, true};
ghost use Rattle.pr_num.specs.Total.{total_of};
ghost use Rattle.pr_range.specs.spec_vectors.Ranges.{differ};
ghost use Rattle.pr_range.specs.spec_vectors.Spots.{last_of, numbers_of};
ghost use Rattle.pr_range.specs.pr_window.private.Folding.{folded};
ghost use Rattle.pr_range.specs.pr_window.private.Neighbours.{beside, one_if, spot_alone};
ghost use Rattle.pr_slide.specs.private.Later.{later};
ghost use Rattle.pr_slide.specs.private.Successions.{AreCounted, before_fall, changes_at, changes_in, is_rising, specials_in};

use crate::kept::Kept;
use crate::listed::{Listed, is_after};
use pr_head::history::Spot;
use pr_head::words_crate::Steps;
use pr_num::{Num, Total};
use pr_range::last_of;
use pr_range::window_crate::folds::{Neighbours, Totals, differ, falls, is_special, one_if};
use std::alloc::{AllocError, Global};
use std::marker::Model;
use std::sync::ledger::Ledger;

/// What is counted of values one after another.
#[derive(Drop)]
pub struct SuccessiveCounts {
    /// The values that stand before a lower one, with their total.
    fallen: Kept<Total, Totals>,
    /// How many values differ from the one before.
    changes: u64,
    /// How many values are no finite number.
    special: u64,
}

/// Values with what is counted of them. Contracts see the values, how many looks are saved up, and
/// whether the values are counted.
#[derive(Drop)]
pub struct Successive {
    spots: Listed,
    counts: SuccessiveCounts,
    // Whether the counts are those of the values, whose times then rise.
    counted: bool,
}

impl Model for Successive {
    ghost use Rattle.std.specs.Prelude.{◌≡◌, ◌+◌, true};
    ghost use Rattle.pr_slide.specs.private.Succession.{Succession};
    ghost use Rattle.pr_slide.specs.private.Successions.{AreCounted};

    ghost Value = { Succession };

    ghost view = { λ s. record { items = s.spots.items; saved = s.spots.saved + s.counts.fallen.saved; counted = s.counted } };

    ghost invariant = { λ s. s.counted ≡ true → AreCounted s.spots.items s.counts };
}

// One more if a test holds. The values bound the count, so that it cannot wrap.
fn one_more(count: u64, test: bool, rest: &[Spot]) -> u64
    requires { count ≤ length rest.now + 1 }
    ensures { result ≡ count + one_if test }
{
    // Its type bounds it.
    let _count = rest.len();
    count + one_if(test)
}

// One less if a test holds.
fn one_less(count: u64, test: bool) -> u64
    requires { one_if test ≤ count }
    ensures { result + one_if test ≡ count }
{
    count - one_if(test)
}

// Whether the value behind the first one differs from it.
fn changes_at(first: &Spot, rest: &[Spot]) -> bool
    ensures { result ≡ changes_at first.now rest.now }
{
    match rest.first() {
        Some(next) => differ(&first.value, &next.value),
        None => false,
    }
}

// One more value that stands before a lower one, if the next one is lower.
fn push_fallen<L: Ledger>(
    fallen: &mut Kept<Total, Totals>,
    last: &Spot,
    spot: &Spot,
    looks: &mut Steps<L>,
) -> Result<(), AllocError>
    ensures items { OnOk result (fallen.new.items ≡ fallen.old.items ++ before_fall last.now spot.now) }
    ensures looks { looks.new + fallen.new.saved ≤ looks.old + fallen.old.saved + 2 }
{
    if falls(&last.value, &spot.value) {
        fallen.push(*last, looks)?;
    }
    Ok(())
}

// What the values that stand before a lower one add up to.
#[tactic(auto, using(crate::proofs::Successions::lost_none))]
fn lost<L: Ledger>(fallen: &Kept<Total, Totals>, looks: &mut Steps<L>) -> Total
    ensures value { result ≡ total_of (numbers_of fallen.now.items) }
    ensures looks { looks.new ≤ looks.old + 1 }
{
    match fallen.summary(looks) {
        Some(total) => total,
        None => Total::zero(),
    }
}

// The first value.
fn count_first(counts: &mut SuccessiveCounts, spot: &Spot)
    requires { AreCounted [] counts.old }
    ensures counted { AreCounted (spot.now ∷ []) counts.new }
    ensures fallen { counts.new.fallen ≡ counts.old.fallen }
{
    counts.special = one_if(is_special(&spot.value));
}

// One more value, which comes after the last one.
fn count_behind<L: Ledger>(
    counts: &mut SuccessiveCounts,
    first: &Spot,
    rest: &[Spot],
    spot: &Spot,
    looks: &mut Steps<L>,
) -> Result<(), AllocError>
    requires counted { AreCounted (first.now ∷ rest.now) counts.old }
    requires later { (last_of first.now rest.now).time < spot.now.time }
    ensures counted { OnOk result (AreCounted ((first.now ∷ rest.now) ++ spot.now ∷ []) counts.new) }
    ensures looks { looks.new + counts.new.fallen.saved ≤ looks.old + counts.old.fallen.saved + 2 }
{
    let last = last_of(first, rest);
    push_fallen(&mut counts.fallen, last, spot, looks)?;
    counts.changes = one_more(counts.changes, differ(&last.value, &spot.value), rest);
    counts.special = one_more(counts.special, is_special(&spot.value), rest);
    Ok(())
}

// Whether a value comes after the last of others.
fn comes_behind(first: &Spot, rest: &[Spot], spot: &Spot) -> bool
    ensures { result ≡ nat_lt (last_of first.now rest.now).time spot.now.time }
{
    last_of(first, rest).time < spot.time
}

// One more value, and whether it is counted: only where it comes after the last one.
fn count_one_more<L: Ledger>(
    counts: &mut SuccessiveCounts,
    spots: &[Spot],
    spot: &Spot,
    counted: bool,
    looks: &mut Steps<L>,
) -> Result<bool, AllocError>
    requires { counted ≡ true → AreCounted spots.now counts.old }
    ensures counted { IfOk result (λ c. c ≡ true → AreCounted (spots.now ++ spot.now ∷ []) counts.new) }
    ensures goes_on { IfOk result (λ c. counted ≡ true → is_rising (spots.now ++ spot.now ∷ []) ≡ true → c ≡ true) }
    ensures looks { looks.new + counts.new.fallen.saved ≤ looks.old + counts.old.fallen.saved + 2 }
{
    if !counted {
        return Ok(false);
    }
    match spots.split_first() {
        Some((first, rest)) => {
            if comes_behind(first, rest, spot) {
                count_behind(counts, first, rest, spot, looks)?;
                Ok(true)
            } else {
                Ok(false)
            }
        }
        None => {
            count_first(counts, spot);
            Ok(true)
        }
    }
}

// The first value is counted no more, but for that it may stand before a lower one.
fn uncount_first(counts: &mut SuccessiveCounts, first: &Spot, rest: &[Spot])
    requires changes { counts.old.changes ≡ changes_in (first.now ∷ rest.now) }
    requires special { counts.old.special ≡ specials_in (first.now ∷ rest.now) }
    ensures fallen { counts.new.fallen ≡ counts.old.fallen }
    ensures changes { counts.new.changes ≡ changes_in rest.now }
    ensures special { counts.new.special ≡ specials_in rest.now }
{
    counts.changes = one_less(counts.changes, changes_at(first, rest));
    counts.special = one_less(counts.special, is_special(&first.value));
}

// The same of the first values that are not after a moment.
fn uncount_leading(counts: &mut SuccessiveCounts, spots: &[Spot], time: i64)
    requires changes { counts.old.changes ≡ changes_in spots.now }
    requires special { counts.old.special ≡ specials_in spots.now }
    ensures fallen { counts.new.fallen ≡ counts.old.fallen }
    ensures changes { counts.new.changes ≡ changes_in (later time spots.now) }
    ensures special { counts.new.special ≡ specials_in (later time spots.now) }
{
    for (place, spot) in spots.iter().enumerate() {
        if is_after(time, spot) {
            return;
        }
        uncount_first(counts, spot, &spots[place + 1..]);
    }
}

// The first values that are not after a moment are counted no more.
fn uncount_until<L: Ledger>(
    counts: &mut SuccessiveCounts,
    spots: &[Spot],
    time: i64,
    looks: &mut Steps<L>,
)
    requires { AreCounted spots.now counts.old }
    ensures counted { AreCounted (later time spots.now) counts.new }
    ensures looks { looks.new + counts.new.fallen.saved ≤ looks.old + counts.old.fallen.saved }
{
    uncount_leading(counts, spots, time);
    counts.fallen.drop_until(time, looks);
}

// The same, if they are counted.
fn uncount_if<L: Ledger>(
    counted: bool,
    counts: &mut SuccessiveCounts,
    spots: &[Spot],
    time: i64,
    looks: &mut Steps<L>,
)
    requires { counted ≡ true → AreCounted spots.now counts.old }
    ensures counted { counted ≡ true → AreCounted (later time spots.now) counts.new }
    ensures looks { looks.new + counts.new.fallen.saved ≤ looks.old + counts.old.fallen.saved }
{
    if counted {
        uncount_until(counts, spots, time, looks);
    }
}

// What some values fold to.
fn counted_neighbours<L: Ledger>(
    counts: &SuccessiveCounts,
    first: &Spot,
    rest: &[Spot],
    count: u64,
    looks: &mut Steps<L>,
) -> Neighbours
    requires counted { AreCounted (first.now ∷ rest.now) counts.now }
    requires all { count ≡ length (first.now ∷ rest.now) }
    ensures value { Some result ≡ folded spot_alone beside (first.now ∷ rest.now) }
    ensures looks { looks.new ≤ looks.old + 1 }
{
    Neighbours {
        first: *first,
        last: *last_of(first, rest),
        count,
        lost: lost(&counts.fallen, looks),
        resets: counts.fallen.len() as u64,
        changes: counts.changes,
        special: counts.special > 0,
    }
}

// What values fold to, if there are any.
fn summary_of<L: Ledger>(
    counts: &SuccessiveCounts,
    spots: &[Spot],
    looks: &mut Steps<L>,
) -> Option<Neighbours>
    requires { AreCounted spots.now counts.now }
    ensures value { result ≡ folded spot_alone beside spots.now }
    ensures none { IfNone result (spots.now ≡ []) }
    ensures looks { looks.new ≤ looks.old + 1 }
{
    let (first, rest) = spots.split_first()?;
    let count = spots.len() as u64;
    Some(counted_neighbours(counts, first, rest, count, looks))
}

impl Successive {
    /// No values.
    pub(crate) fn new(alloc: Global) -> Successive
        ensures items { result.items ≡ [] }
        ensures saved { result.saved ≡ 0 }
        ensures counted { result.counted ≡ true }
    {
        Successive {
            spots: Listed::new(alloc),
            counts: SuccessiveCounts {
                fallen: Kept::new(alloc),
                changes: 0,
                special: 0,
            },
            counted: true,
        }
    }

    /// How many values there are.
    pub(crate) fn len(&self) -> usize
        ensures { result ≡ length self.now.items }
    {
        self.spots.len()
    }

    /// The values, to go over them.
    pub(crate) fn all<L: Ledger>(&self, looks: &mut Steps<L>) -> &[Spot]
        ensures value { result.now ≡ self.now.items }
        ensures looks { looks.new ≡ looks.old + length self.now.items }
    {
        self.spots.all(looks)
    }

    /// One more value. Where those before it are counted, and all rise in time, it is counted too.
    pub(crate) fn push<L: Ledger>(
        &mut self,
        spot: Spot,
        looks: &mut Steps<L>,
    ) -> Result<(), AllocError>
        ensures items { OnOk result (self.new.items ≡ self.old.items ++ spot ∷ []) }
        ensures counted { OnOk result (self.old.counted ≡ true → is_rising (self.old.items ++ spot ∷ []) ≡ true → self.new.counted ≡ true) }
        ensures looks { looks.new + self.new.saved ≤ looks.old + self.old.saved + 3 }
    {
        // Names the type of a value to the check.
        let _value: Num = spot.value;
        let counted = self.counted;
        self.counted = false;
        let counted = count_one_more(&mut self.counts, self.spots.ends(), &spot, counted, looks)?;
        self.spots.push(spot)?;
        self.counted = counted;
        Ok(())
    }

    /// Lets the first values go that are not after a moment.
    pub(crate) fn drop_until<L: Ledger>(&mut self, time: i64, looks: &mut Steps<L>)
        ensures items { self.new.items ≡ later time self.old.items }
        ensures counted { self.new.counted ≡ self.old.counted }
        ensures looks { looks.new + self.new.saved ≤ looks.old + self.old.saved }
    {
        uncount_if(
            self.counted,
            &mut self.counts,
            self.spots.ends(),
            time,
            looks,
        );
        self.spots.drop_until(time, looks);
    }

    /// What the values fold to, without going over them, where they are counted: as long as there
    /// are some and each came after the one before.
    pub(crate) fn summary<L: Ledger>(&self, looks: &mut Steps<L>) -> Option<Neighbours>
        ensures value { IfSome result (λ s. folded spot_alone beside self.now.items ≡ Some s) }
        ensures none { IfNone result (self.now.counted ≡ true → self.now.items ≡ []) }
        ensures looks { looks.new ≤ looks.old + 1 }
    {
        if self.counted {
            summary_of(&self.counts, self.spots.ends(), looks)
        } else {
            None
        }
    }
}
