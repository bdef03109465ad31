// What is remembered of the samples of a target's last scrape.
ghost use Rattle.std.specs.Prelude.{◌≡◌, [], true, List, IfOk, IfSome, OnOk};
ghost use Rattle.pr_labels.specs.declared.pair.Pair.{Pair};
ghost use Rattle.pr_manager.specs.spec_world.Scrapes.{scraped_labels};
ghost use Rattle.pr_engine.specs.private.Making.{AreMade};

use crate::scrape::named::scraped_labels;
use pr_labels::Labels;
use std::alloc::{AllocError, Global};
use std::marker::Model;

// The labels of a sample, and those that it has under the target.
#[derive(Drop)]
struct Made {
    from: Labels,
    to: Labels,
}

/// What is remembered of the samples of a target's last scrape: for each place the labels of the
/// sample and those that it has under the target, so that these are shared where a sample with the
/// same labels comes to the place again. Contracts see the target.
#[derive(Drop)]
pub(crate) struct ScrapedLabels {
    target: Labels,
    made: Vec<Made>,
    // The place of the next sample.
    next: usize,
}

impl Model for ScrapedLabels {
    ghost use Rattle.std.specs.Prelude.{List};
    ghost use Rattle.pr_labels.specs.declared.pair.Pair.{Pair};
    ghost use Rattle.pr_engine.specs.private.Making.{AreMade};

    ghost Value = { List Pair };

    ghost view = { λ s. s.target };

    ghost invariant = { λ s. AreMade s.target s.made.items };
}

// Which labels the sample at a place has under the target, where it had these.
fn remembered<'a>(made: &'a [Made], place: usize, from: &Labels) -> Option<&'a Labels>
    ensures { (target : List Pair) → AreMade target made.now → IfSome result (λ to. to.now ≡ scraped_labels target from.now) }
{
    match made.get(place) {
        Some(one) => {
            if one.from == *from {
                Some(&one.to)
            } else {
                None
            }
        }
        None => None,
    }
}

// Remembers a sample, at its place or behind all places.
fn remember(made: &mut Vec<Made>, place: usize, one: Made) -> Result<(), AllocError>
    ensures { (target : List Pair) → AreMade target made.old.items → one.to ≡ scraped_labels target one.from → AreMade target made.new.items }
{
    if place < made.len() {
        made[place] = one;
        return Ok(());
    }
    made.push(one)?;
    Ok(())
}

impl ScrapedLabels {
    /// Nothing is remembered, of a target without labels.
    pub(crate) fn new(alloc: Global) -> ScrapedLabels
        ensures { result ≡ [] }
    {
        ScrapedLabels {
            target: Labels::empty(alloc),
            made: Vec::new(alloc),
            next: 0,
        }
    }

    // Nothing is remembered of a target.
    fn of_target(alloc: Global, target: &Labels) -> Result<ScrapedLabels, AllocError>
        ensures { IfOk result (λ s. s ≡ target.now) }
    {
        Ok(ScrapedLabels {
            target: target.copy(alloc)?,
            made: Vec::new(alloc),
            next: 0,
        })
    }

    // Whether it is of a target.
    fn is_of(&self, target: &Labels) -> bool
        ensures { result ≡ true → self.now ≡ target.now }
    {
        self.target == *target
    }

    // The next sample is the first one.
    fn rewind(&mut self)
        ensures { self.new ≡ self.old }
    {
        self.next = 0;
    }

    /// Begins a scrape of a target. What is remembered of another one is forgotten.
    pub(crate) fn begin(&mut self, alloc: Global, target: &Labels) -> Result<(), AllocError>
        ensures { OnOk result (self.new ≡ target.now) }
    {
        if self.is_of(target) {
            self.rewind();
            return Ok(());
        }
        *self = ScrapedLabels::of_target(alloc, target)?;
        Ok(())
    }

    // The place of the next sample, which is then the one behind it.
    fn step(&mut self) -> usize
        ensures { self.new ≡ self.old }
    {
        let place = self.next;
        self.next = place.saturating_add(1);
        place
    }

    // Makes the labels that the sample at a place has, and remembers them.
    fn make(&mut self, alloc: Global, place: usize, from: &Labels) -> Result<Labels, AllocError>
        ensures made { IfOk result (λ to. to ≡ scraped_labels self.old from.now) }
        ensures stays { self.new ≡ self.old }
    {
        let to = scraped_labels(alloc, &self.target, from)?;
        let one = Made {
            from: from.copy(alloc)?,
            to: to.copy(alloc)?,
        };
        remember(&mut self.made, place, one)?;
        Ok(to)
    }

    // The same, or those of the last scrape, where the sample at the place had the same.
    fn labels_at(
        &mut self,
        alloc: Global,
        place: usize,
        from: &Labels,
    ) -> Result<Labels, AllocError>
        ensures made { IfOk result (λ to. to ≡ scraped_labels self.old from.now) }
        ensures stays { self.new ≡ self.old }
    {
        match remembered(&self.made, place, from) {
            Some(to) => to.copy(alloc),
            None => self.make(alloc, place, from),
        }
    }

    /// The labels that the next sample, which has these, has under the target.
    pub(crate) fn next_labels(&mut self, alloc: Global, from: &Labels) -> Result<Labels, AllocError>
        ensures made { IfOk result (λ to. to ≡ scraped_labels self.old from.now) }
        ensures stays { self.new ≡ self.old }
    {
        let place = self.step();
        self.labels_at(alloc, place, from)
    }

    /// Ends a scrape. What is remembered behind its samples is forgotten.
    pub(crate) fn end(&mut self)
        ensures { self.new ≡ self.old }
    {
        self.made.truncate(self.next);
    }
}
