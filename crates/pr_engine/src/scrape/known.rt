// What is known of a target.
ghost use Rattle.std.specs.Prelude.{◌≡◌, [], List, true, IfOk, IfSome, OnOk, OnErr, fold};
ghost use Rattle.pr_labels.specs.declared.pair.Pair.{Pair};
ghost use Rattle.pr_labels.specs.Rising.{with_labels};
ghost use Rattle.pr_head.specs.spec_history.declared.entry.Entry.{Entry};
ghost use Rattle.pr_head.specs.private.Holds.{Holds};
ghost use Rattle.pr_manager.specs.spec_world.Scrapes.{dropped_count, kept_sets, markers, offered_entries, offers};
ghost use Rattle.pr_head.specs.private.Intake.{HasTakenFront, Puts};

use crate::scrape::made::ScrapedLabels;
use crate::scrape::tally::{Tally, put_lines};
use pr_head::Head;
use pr_head::history::Entry;
use pr_head::intake::{put_markers, set_of};
use pr_labels::Labels;
use pr_manager::expo::Line;
use pr_time::Ms;
use pr_words::Items;
use std::alloc::{AllocError, Global};
use std::collections::BTreeSet;
use std::marker::Model;

/// What is known of a target: the series that are tracked of it, in label order. So that the next
/// scrape finds them again by comparison, also the same series in the order of the samples that
/// offered them, and what was made of the labels of these samples. Contracts see the series that
/// are tracked.
#[derive(Drop)]
pub(crate) struct Known {
    tracked: Items<Labels>,
    // Nothing, where the order is not known.
    kept: Option<Items<Labels>>,
    made: ScrapedLabels,
}

impl Model for Known {
    ghost use Rattle.std.specs.Prelude.{◌≡◌, [], List, IfSome, fold};
    ghost use Rattle.pr_labels.specs.declared.pair.Pair.{Pair};
    ghost use Rattle.pr_labels.specs.Rising.{with_labels};

    ghost Value = { List (List Pair) };

    ghost view = { λ k. k.tracked };

    ghost invariant = { λ k. IfSome k.kept (λ sets. k.tracked ≡ fold with_labels [] sets) };
}

// Whether these are the same series in the same order.
fn are_same(known: &Option<Items<Labels>>, kept: &[Labels]) -> bool
    ensures { (tracked : List (List Pair)) → IfSome known.now (λ sets. tracked ≡ fold with_labels [] sets) → result ≡ true → tracked ≡ fold with_labels [] kept.now }
{
    match known {
        Some(sets) => sets.as_slice() == kept,
        None => false,
    }
}

// The label sets of a set, in order.
fn in_order(alloc: Global, sets: BTreeSet<Labels>) -> Result<Vec<Labels>, AllocError>
    ensures { IfOk result (λ v. v.items ≡ sets.keys) }
{
    sets.into_iter().collect(alloc)
}

impl Known {
    /// A target of which these series are tracked.
    pub(crate) fn new(alloc: Global, tracked: Vec<Labels>) -> Known
        ensures { result ≡ tracked.items }
    {
        Known {
            tracked: Items::new(tracked),
            kept: None,
            made: ScrapedLabels::new(alloc),
        }
    }

    /// The series that are tracked.
    pub(crate) fn as_slice(&self) -> &[Labels]
        ensures { result.now ≡ self.now }
    {
        self.tracked.as_slice()
    }

    /// The vector of these.
    pub(crate) fn into_vec(self) -> Vec<Labels>
        ensures { result.items ≡ self }
    {
        self.tracked.into_vec()
    }

    /// No series is tracked any more.
    pub(crate) fn clear(&mut self, alloc: Global)
        ensures { self.new ≡ [] }
    {
        self.kept = None;
        self.tracked = Items::empty(alloc);
    }

    /// Puts the samples of a body of the target in order, and counts them.
    pub(crate) fn put_lines(
        &mut self,
        alloc: Global,
        head: &mut Head,
        rows: &mut Vec<Entry>,
        target: &Labels,
        now: Ms,
        lines: &[Line],
    ) -> Result<Tally, AllocError>
        ensures puts { (history : List Entry) → Holds head.old history → OnOk result (Puts head.old head.new rows.old.items rows.new.items history (offered_entries (offers target.now now lines.now))) }
        ensures dropped { (history : List Entry) → Holds head.old history → IfOk result (λ t. t.dropped ≡ dropped_count target.now now lines.now history) }
        ensures kept { (history : List Entry) → Holds head.old history → IfOk result (λ t. t.kept.items ≡ kept_sets history (offers target.now now lines.now)) }
        ensures front { (history : List Entry) → Holds head.old history → OnErr result (HasTakenFront head.old head.new history (offered_entries (offers target.now now lines.now))) }
        ensures stays { self.new ≡ self.old }
    {
        put_lines(alloc, head, rows, &mut self.made, target, now, lines)
    }

    // Whether the series that are tracked are those that samples offered, in the same order.
    fn has_kept(&self, kept: &[Labels]) -> bool
        ensures { result ≡ true → self.now ≡ fold with_labels [] kept.now }
    {
        are_same(&self.kept, kept)
    }

    // Tracks the series of a set, which samples offered in this order.
    fn set(
        &mut self,
        alloc: Global,
        sets: BTreeSet<Labels>,
        kept: Vec<Labels>,
    ) -> Result<(), AllocError>
        requires { sets.keys ≡ fold with_labels [] kept.items }
        ensures { OnOk result (self.new ≡ sets.keys) }
    {
        let tracked = in_order(alloc, sets)?;
        self.tracked = Items::new(tracked);
        self.kept = Some(Items::new(kept));
        Ok(())
    }

    // Puts a marker for each series that is not among those that samples offered, and tracks these.
    fn change(
        &mut self,
        alloc: Global,
        head: &mut Head,
        rows: &mut Vec<Entry>,
        now: Ms,
        kept: Vec<Labels>,
    ) -> Result<(), AllocError>
        ensures puts { (history : List Entry) → Holds head.old history → OnOk result (Puts head.old head.new rows.old.items rows.new.items history (markers now self.old (fold with_labels [] kept.items))) }
        ensures tracked { OnOk result (self.new ≡ fold with_labels [] kept.items) }
        ensures front { (history : List Entry) → Holds head.old history → OnErr result (HasTakenFront head.old head.new history (markers now self.old (fold with_labels [] kept.items))) }
    {
        let sets = set_of(alloc, &kept)?;
        put_markers(alloc, head, rows, now, self.as_slice(), &sets)?;
        self.set(alloc, sets, kept)
    }

    /// Puts a marker for each series that is tracked and is not among those that samples offered,
    /// and tracks these. So nothing is to be done where they are the same in the same order, as is
    /// usual.
    pub(crate) fn track(
        &mut self,
        alloc: Global,
        head: &mut Head,
        rows: &mut Vec<Entry>,
        now: Ms,
        kept: Vec<Labels>,
    ) -> Result<(), AllocError>
        ensures puts { (history : List Entry) → Holds head.old history → OnOk result (Puts head.old head.new rows.old.items rows.new.items history (markers now self.old (fold with_labels [] kept.items))) }
        ensures tracked { OnOk result (self.new ≡ fold with_labels [] kept.items) }
        ensures front { (history : List Entry) → Holds head.old history → OnErr result (HasTakenFront head.old head.new history (markers now self.old (fold with_labels [] kept.items))) }
    {
        if self.has_kept(&kept) {
            return Ok(());
        }
        self.change(alloc, head, rows, now, kept)
    }
}
