// A test while it runs.
ghost use Rattle.std.specs.Prelude.{◌≡◌, ℕ, ◌+◌, ◌*◌, ◌<◌, ◌≤◌, ◌^◌, ◌↔◌, List, IsTrue, IfOk, OnOk};
ghost use Rattle.spec_tests.specs.pr_testfile.declared.inputs.input.Input.{Input};
ghost use Rattle.pr_group.specs.spec_rules.Groups.{Group};
ghost use Rattle.pr_group.specs.spec_rules.Settings.{Settings};
ghost use Rattle.spec_tests.specs.private.Rounds.{AreApart, AreNew};
ghost use Rattle.pr_slide.specs.spec_history.declared.entry.Entry.{Entry};
ghost use Rattle.pr_unit.specs.private.Kept.{KeepsGroups};
ghost use Rattle.pr_unit.specs.private.Run.{HasRun};

use crate::feeding::{Feed, places};
use crate::round::evaluate_all;
use pr_ast::time::{Ms, Span};
use pr_group::{GroupOver, a_kept_group_stays};
use pr_slide::head::Head;
use pr_slide::range::Ranges;
use spec_tests::testfile::inputs::Input;
use std::alloc::{AllocError, Global};

/// What a test has come to.
#[derive(Drop)]
pub(crate) struct Run<R> {
    pub(crate) head: Head,
    pub(crate) groups: Vec<GroupOver<R>>,
    pub(crate) feed: Feed,
    /// When the samples of the next place come, in milliseconds, and how many places are left.
    pub(crate) place: u64,
    pub(crate) left: u128,
    /// When the next round of evaluations is, in milliseconds.
    pub(crate) round: u64,
}

impl<R: Ranges + Drop> Run<R> {
    /// A test before anything happens.
    pub(crate) fn begin(
        alloc: Global,
        groups: Vec<GroupOver<R>>,
        input: &Input,
    ) -> Result<Run<R>, AllocError>
        ensures { (every : ℕ) (gs : List Group) (s : Settings) (rounds now : ℕ) → AreNew gs → ((history : List Entry) → KeepsGroups R.fits R.last R.passed groups.items history s gs)
            → IfOk result (λ r. HasRun R.fits R.last R.passed input.now every gs s rounds now r) }
    {
        let series = input.series.as_slice();
        Ok(Run {
            head: Head::new(alloc),
            groups,
            feed: Feed::new(alloc, series)?,
            place: 0,
            left: places(series),
            round: 0,
        })
    }

    // The samples of the next place come in.
    fn put_place(&mut self, input: &Input, time: Ms) -> Result<(), AllocError>
        requires some { 0 < self.old.left }
        requires time { time ≡ self.old.place }
        ensures run { (every : ℕ) (gs : List Group) (s : Settings) (rounds now : ℕ) → self.old.place ≤ self.old.round → time ≤ now → HasRun R.fits R.last R.passed input.now every gs s rounds now self.old
            → OnOk result (HasRun R.fits R.last R.passed input.now every gs s rounds now self.new) }
        ensures fewer { OnOk result (self.new.left + 1 ≡ self.old.left) }
        ensures round { OnOk result (self.new.round ≡ self.old.round) }
    {
        a_kept_group_stays::<R>();
        self.feed
            .put_place(&mut self.head, input.series.as_slice(), time)?;
        self.place += input.interval.get();
        self.left -= 1;
        Ok(())
    }

    // The next round of evaluations.
    fn evaluate_round(&mut self, alloc: Global, every: Span, time: Ms) -> Result<(), AllocError>
        requires { time ≡ self.old.round }
        ensures run { (input : Input) (gs : List Group) (s : Settings) (rounds now : ℕ) → AreApart gs → 0 < every → (self.old.round < rounds * every) → time ≤ now → (0 < self.old.left → time < self.old.place)
            → HasRun R.fits R.last R.passed input every gs s rounds now self.old → OnOk result (HasRun R.fits R.last R.passed input every gs s rounds now self.new) }
        ensures later { OnOk result (self.new.round ≡ self.old.round + every) }
        ensures left { OnOk result (self.new.left ≡ self.old.left) }
        ensures place { OnOk result (self.new.place ≡ self.old.place) }
    {
        evaluate_all(alloc, &mut self.groups, time, &mut self.head)?;
        self.round += every.get();
        Ok(())
    }

    // The next place comes before the next round or with it, and until a time.
    fn is_place_next(&self, until: Ms) -> bool
        ensures { IsTrue result ↔ ((0 < self.now.left) × (self.now.place ≤ self.now.round) × (self.now.place ≤ until)) }
    {
        self.left > 0 && self.place <= self.round && self.place <= until.get()
    }

    /// All happens that happens until a time: places and rounds in their order, and at one time the
    /// place first.
    ///
    /// # Errors
    /// Want of memory: then it is used no more.
    pub(crate) fn advance(
        &mut self,
        alloc: Global,
        input: &Input,
        every: Span,
        until: Ms,
    ) -> Result<(), AllocError>
        requires { 0 < every }
        ensures run { (gs : List Group) (s : Settings) (rounds now : ℕ) → AreApart gs → now ≤ until → until < rounds * every
            → HasRun R.fits R.last R.passed input.now every gs s rounds now self.old → OnOk result (HasRun R.fits R.last R.passed input.now every gs s rounds until self.new) }
        ensures round { OnOk result (until < self.new.round) }
        ensures place { OnOk result (0 < self.new.left → until < self.new.place) }
    {
        'events: loop {
            if self.is_place_next(until) {
                self.put_place(input, time_of(self.place))?;
            } else if self.round <= until.get() {
                self.evaluate_round(alloc, every, time_of(self.round))?;
            } else {
                return Ok(());
            }
        }
    }
}

// A time that is early enough to be one.
fn time_of(ms: u64) -> Ms
    requires { ms < 2 ^ 42 }
    ensures { result ≡ ms }
{
    Ms::new(ms).unwrap()
}
