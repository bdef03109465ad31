// A group that goes on from an older one at a reload.
ghost use Rattle.std.specs.Prelude.{◌≡◌, ◌++◌, ℕ, List, IfOk, OnOk, flat_map};
ghost use Rattle.pr_ast.specs.pr_labels.declared.pair.Pair.{Pair};
ghost use Rattle.pr_rule.specs.spec_history.declared.entry.Entry.{Entry};
ghost use Rattle.pr_rule.specs.spec_vectors.Vectors.{in_label_order};
ghost use Rattle.pr_rule.specs.spec_rules.Definitions.{group_of_def};
ghost use Rattle.pr_rule.specs.spec_rules.private.Carried.{carried_by_group};
ghost use Rattle.pr_rule.specs.spec_rules.Groups.{Group, fresh};
ghost use Rattle.pr_rule.specs.spec_rules.Reloads.{carried};
ghost use Rattle.pr_group.specs.private.Keeping.{KeepsGroup, passed_by, settings_of};
ghost use Rattle.pr_group.specs.private.Carrying.{HasGoneOn, previous_in};

use crate::carried::{carry_rules, to_take};
use crate::group::GroupOver;
use crate::matching::continued_numbers;
use crate::written::{add_all, add_spared, listed};
use pr_ast::labels::Labels;
use pr_ast::words_crate::Items;
use pr_rule::Remembered;
use pr_rule::range::Ranges;
use std::alloc::{AllocError, Global};
use std::collections::BTreeSet;

// What was left over before, and what those wrote last that none goes on from.
#[tactic(auto, using(crate::proofs::Wrote::in_two_parts))]
fn left_over<R: Ranges + Drop>(
    alloc: Global,
    leftovers: &[Labels],
    olds: &[Option<Remembered<R>>],
) -> Result<Items<Labels>, AllocError>
    ensures { IfOk result (λ v. v ≡ in_label_order (leftovers.now ++ flat_map previous_in olds.now)) }
{
    let mut sets = BTreeSet::new(alloc);
    add_all(alloc, &mut sets, leftovers)?;
    add_spared(alloc, &mut sets, olds)?;
    Ok(Items::new(listed(alloc, sets)?))
}

impl<R: Ranges + Drop> GroupOver<R> {
    // Takes over what an older group leaves to it.
    fn take_over(&mut self, alloc: Global, old: GroupOver<R>) -> Result<(), AllocError>
        ensures { OnOk result (HasGoneOn R.fits R.last R.passed self.old old self.new) }
    {
        let rules = self.def.rules.as_slice();
        let from = continued_numbers(alloc, rules, old.def.rules.as_slice())?;
        let mut olds = to_take(alloc, old.rules)?;
        let older = old.def.rules.as_slice();
        carry_rules(alloc, rules, &mut self.rules, older, &mut olds, &from)?;
        self.leftovers = left_over(alloc, old.leftovers.as_slice(), &olds)?;
        self.last = old.last;
        self.waits = old.waits;
        Ok(())
    }
}

impl<R: Ranges + Drop> GroupOver<R> {
    /// Goes on from an older group, as a new one of its file and name does at a reload: with its last
    /// evaluation and its waiting. Each rule goes on from the first older one of its kind with its
    /// name and its labels that none before it goes on from, with what is remembered of it. What the
    /// others wrote is left over. (Prometheus: rules/group.go, CopyState.)
    ///
    /// # Errors
    /// Want of memory: then nothing is said of the group, and it is used no more.
    pub fn carry(&mut self, alloc: Global, old: GroupOver<R>) -> Result<(), AllocError>
        ensures keeps { (history : List Entry) (waits : ℕ) (was : Group) → KeepsGroup R.fits R.last R.passed self.old history (fresh waits self.old.file (group_of_def self.old.def))
            → KeepsGroup R.fits R.last R.passed old history was → OnOk result (KeepsGroup R.fits R.last R.passed self.new history (carried (fresh waits self.old.file (group_of_def self.old.def)) was)) }
        ensures passed { (history : List Entry) (waits : ℕ) (was : Group) → KeepsGroup R.fits R.last R.passed self.old history (fresh waits self.old.file (group_of_def self.old.def))
            → KeepsGroup R.fits R.last R.passed old history was → (i n : ℕ) (labels : List Pair)
            → OnOk result (passed_by R.passed self.new history i n labels ≡ carried_by_group (fresh waits self.old.file (group_of_def self.old.def)) was (passed_by R.passed old history) i n labels) }
        ensures def { OnOk result (self.new.def ≡ self.old.def) }
        ensures file { OnOk result (self.new.file ≡ self.old.file) }
        ensures settings { OnOk result (settings_of self.new ≡ settings_of self.old) }
    {
        self.take_over(alloc, old)
    }
}
