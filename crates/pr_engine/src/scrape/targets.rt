// The targets that are known.
ghost use Rattle.std.specs.Prelude.{◌≡◌, [], ◌<◌, ◌^◌, List, OnOk, OnErr, IfOk, length};
ghost use Rattle.std.specs.Option.{ForSome, option_copied};
ghost use Rattle.pr_head.specs.spec_history.declared.entry.Entry.{Entry};
ghost use Rattle.pr_head.specs.private.Holds.{Holds};
ghost use Rattle.pr_manager.specs.spec_world.Scrapes.{gone_of, scrape_of};
ghost use Rattle.pr_manager.specs.spec_world.Targets.{Target, fail_step, gone_step, tracked_at, nothing_scraped, scrape_step, tracked_of, with_tracked, without_target};
ghost use Rattle.pr_head.specs.private.Intake.{HasTaken, HasTakenFront};
ghost use Rattle.pr_engine.specs.private.Knowing.{Knows};

use crate::scrape::calls;
use crate::scrape::known::Known;
use indexmap::IndexMap;
use pr_head::Head;
use pr_labels::Labels;
use pr_manager::world::Scraped;
use pr_time::Ms;
use pr_words::Items;
use std::alloc::{AllocError, Global};
use std::marker::Model;

/// The targets that are known. Contracts see a list of them, each with the series that are tracked
/// of it, and say of each list of targets that it stands for what becomes of it.
#[derive(Drop)]
pub struct Targets {
    known: IndexMap<Labels, Known>,
}

impl Model for Targets {
    ghost use Rattle.pr_engine.specs.private.Knowing.{Tracked};

    ghost Value = { Tracked };

    ghost view = { λ t. t.known.entries };
}

// What comes of an order about an unknown target.
fn nothing_scraped(alloc: Global) -> Scraped
    ensures { result ≡ nothing_scraped }
{
    Scraped {
        admitted: Items::empty(alloc),
        fault: None,
        added: 0,
        dropped: 0,
        stale: 0,
    }
}

// Ends a target of which this is known.
fn end(
    alloc: Global,
    head: &mut Head,
    known: Known,
    target: &Labels,
    time: Ms,
) -> Result<Scraped, AllocError>
    ensures taken { (history : List Entry) → Holds head.old history → OnOk result (HasTaken head.old head.new history (gone_of target.now time known history).entries) }
    ensures answer { (history : List Entry) → Holds head.old history → IfOk result (λ s. s ≡ (gone_of target.now time known history).answer) }
    ensures front { (history : List Entry) → Holds head.old history → OnErr result (HasTakenFront head.old head.new history (gone_of target.now time known history).entries) }
{
    let mut tracked = known.into_vec();
    calls::gone(alloc, head, &mut tracked, target, time)
}

impl Targets {
    /// No target is known yet.
    pub fn new(alloc: Global) -> Targets
        ensures { Knows result [] }
    {
        Targets {
            known: IndexMap::new(alloc),
        }
    }

    // Makes a target unknown, and hands out what was known of it, where it was known.
    fn take(&mut self, target: &Labels) -> Option<Known>
        ensures found { (targets : List Target) → Knows self.old targets → result ≡ tracked_at targets target.now }
        ensures others { (targets : List Target) → Knows self.old targets → Knows self.new (without_target targets target.now) }
    {
        self.known.swap_remove(target)
    }

    // Makes a target unknown, and hands out what was known of it; of an unknown one nothing is
    // tracked.
    fn take_known(&mut self, alloc: Global, target: &Labels) -> Known
        ensures found { (targets : List Target) → Knows self.old targets → result ≡ tracked_of targets target.now }
        ensures others { (targets : List Target) → Knows self.old targets → Knows self.new (without_target targets target.now) }
    {
        match self.take(target) {
            Some(known) => known,
            None => Known::new(alloc, Vec::new(alloc)),
        }
    }

    // Makes a target known that is not.
    fn set(&mut self, target: Labels, known: Known) -> Result<(), AllocError>
        ensures { (targets : List Target) → Knows self.old (without_target targets target) → OnOk result (Knows self.new (with_tracked targets target known)) }
    {
        self.known.insert(target, known)?;
        Ok(())
    }

    // Scrapes a target, which makes it known. No body is a scrape that failed.
    fn scrape_by(
        &mut self,
        alloc: Global,
        head: &mut Head,
        target: Labels,
        time: Ms,
        body: Option<&[u8]>,
    ) -> Result<Scraped, AllocError>
        requires { ForSome body (λ b. length b.now < 2 ^ 32) }
        ensures taken { (targets : List Target) (history : List Entry) → Knows self.old targets → Holds head.old history
            → OnOk result (HasTaken head.old head.new history (scrape_of target time (tracked_of targets target) (option_copied body.entry) history).entries) }
        ensures answer { (targets : List Target) (history : List Entry) → Knows self.old targets → Holds head.old history
            → IfOk result (λ s. s ≡ (scrape_of target time (tracked_of targets target) (option_copied body.entry) history).answer) }
        ensures targets { (targets : List Target) (history : List Entry) → Knows self.old targets → Holds head.old history
            → OnOk result (Knows self.new (with_tracked targets target (scrape_of target time (tracked_of targets target) (option_copied body.entry) history).tracked)) }
        ensures front { (targets : List Target) (history : List Entry) → Knows self.old targets → Holds head.old history
            → OnErr result (HasTakenFront head.old head.new history (scrape_of target time (tracked_of targets target) (option_copied body.entry) history).entries) }
    {
        let mut known = self.take_known(alloc, &target);
        let scraped = calls::scrape_known(alloc, head, &mut known, &target, time, body)?;
        self.set(target, known)?;
        Ok(scraped)
    }

    /// Scrapes a target that offers this body. What it offers is put into the head, and the target
    /// is known from then on. (Prometheus: Jobs and instances.) The work grows with the body and
    /// with what was tracked of the target, and not with the number of targets.
    ///
    /// # Errors
    /// Want of memory: then the head has the first ones of the entries, and the targets are of no
    /// use any more.
    pub fn scrape(
        &mut self,
        alloc: Global,
        head: &mut Head,
        target: Labels,
        time: Ms,
        body: &[u8],
    ) -> Result<Scraped, AllocError>
        requires { length body.now < 2 ^ 32 }
        ensures taken { (targets : List Target) (history : List Entry) → Knows self.old targets → Holds head.old history
            → OnOk result (HasTaken head.old head.new history (scrape_step targets history target time body.now).entries) }
        ensures answer { (targets : List Target) (history : List Entry) → Knows self.old targets → Holds head.old history
            → IfOk result (λ s. s ≡ (scrape_step targets history target time body.now).answer) }
        ensures targets { (targets : List Target) (history : List Entry) → Knows self.old targets → Holds head.old history
            → OnOk result (Knows self.new (scrape_step targets history target time body.now).targets) }
        ensures front { (targets : List Target) (history : List Entry) → Knows self.old targets → Holds head.old history
            → OnErr result (HasTakenFront head.old head.new history (scrape_step targets history target time body.now).entries) }
    {
        self.scrape_by(alloc, head, target, time, Some(body))
    }

    /// Notes that a target did not answer. It is known from then on too.
    ///
    /// # Errors
    /// Want of memory: then the head has the first ones of the entries, and the targets are of no
    /// use any more.
    pub fn fail(
        &mut self,
        alloc: Global,
        head: &mut Head,
        target: Labels,
        time: Ms,
    ) -> Result<Scraped, AllocError>
        ensures taken { (targets : List Target) (history : List Entry) → Knows self.old targets → Holds head.old history
            → OnOk result (HasTaken head.old head.new history (fail_step targets history target time).entries) }
        ensures answer { (targets : List Target) (history : List Entry) → Knows self.old targets → Holds head.old history
            → IfOk result (λ s. s ≡ (fail_step targets history target time).answer) }
        ensures targets { (targets : List Target) (history : List Entry) → Knows self.old targets → Holds head.old history
            → OnOk result (Knows self.new (fail_step targets history target time).targets) }
        ensures front { (targets : List Target) (history : List Entry) → Knows self.old targets → Holds head.old history
            → OnErr result (HasTakenFront head.old head.new history (fail_step targets history target time).entries) }
    {
        self.scrape_by(alloc, head, target, time, None)
    }

    /// Ends a target: what was tracked of it goes stale, and it is unknown from then on. That of an
    /// unknown target is nothing.
    ///
    /// # Errors
    /// Want of memory: then the head has the first ones of the markers, and the targets are of no
    /// use any more.
    pub fn gone(
        &mut self,
        alloc: Global,
        head: &mut Head,
        target: &Labels,
        time: Ms,
    ) -> Result<Scraped, AllocError>
        ensures taken { (targets : List Target) (history : List Entry) → Knows self.old targets → Holds head.old history
            → OnOk result (HasTaken head.old head.new history (gone_step targets history target.now time).entries) }
        ensures answer { (targets : List Target) (history : List Entry) → Knows self.old targets → Holds head.old history
            → IfOk result (λ s. s ≡ (gone_step targets history target.now time).answer) }
        ensures targets { (targets : List Target) (history : List Entry) → Knows self.old targets → Holds head.old history
            → OnOk result (Knows self.new (gone_step targets history target.now time).targets) }
        ensures front { (targets : List Target) (history : List Entry) → Knows self.old targets → Holds head.old history
            → OnErr result (HasTakenFront head.old head.new history (gone_step targets history target.now time).entries) }
    {
        match self.take(target) {
            Some(known) => end(alloc, head, known, target, time),
            None => Ok(nothing_scraped(alloc)),
        }
    }
}
