// What a rule remembers of its last result.
ghost use Rattle.std.specs.Prelude.{◌≡◌, [], ℕ, true, List, IfOk, IfSome, OnOk, length, map, slice_get, Some};
ghost use Rattle.pr_labels.specs.declared.pair.Pair.{Pair};
ghost use Rattle.pr_labels.specs.Rising.{IsRising};
ghost use Rattle.spec_rules.specs.Definitions.{rule_of_def};
ghost use Rattle.spec_rules.specs.Results.{made_labels, sets_in};
ghost use Rattle.pr_rule.specs.private.Making.{AreMade, AreRecorded, IsOfRule, alert_made, recorded_under, sets_made};

use crate::rule_result::alert_labels::{AlertLabels, known_alert};
use crate::rule_result::labels::made_labels;
use pr_ast::num::Num;
use pr_labels::words_crate::{Items, Text};
use pr_labels::{Item, Labels, Pair, copy_pairs};
use spec_rules::RuleDef;
use spec_rules::alerts_crate::RuleElement;
use std::alloc::{AllocError, Global};
use std::marker::Model;

// The labels of an element, and those under which it was recorded.
#[derive(Drop)]
struct Made {
    from: Labels,
    to: Labels,
}

/// What a rule remembers of its last result. One that records: for each place the labels of the
/// element and those under which it was recorded, so that these are shared where an element with the
/// same labels comes to the place again; and whether those under which they were recorded rise, so
/// that what is recorded of the same elements need not be put in order. One that alerts: for each
/// place the labels of the alert. Contracts see the name and the labels of a rule that records: what
/// is remembered only saves work, and no clause counts it.
#[derive(Drop)]
pub struct MadeLabels {
    name: Text,
    labels: Items<Pair>,
    made: Vec<Made>,
    // Whether the label sets that were made are known to rise in the order of their places.
    rises: bool,
    // The labels of the alert at each place, where the rule is one.
    alerts: Vec<AlertLabels>,
}

impl Model for MadeLabels {
    ghost use Rattle.std.specs.Prelude.{ℕ, List};
    ghost use Rattle.pr_labels.specs.declared.pair.Pair.{Pair};
    ghost use Rattle.pr_rule.specs.private.Making.{IsRemembered};

    ghost Value = { List ℕ × List Pair };

    ghost view = { λ s. (s.name, s.labels) };

    ghost invariant = { λ s. IsRemembered s.name s.labels s.made.items s.rises };
}

// Under which labels the element at a place was recorded, where it had these.
fn known<'a>(made: &'a [Made], place: usize, from: &Labels) -> Option<&'a Labels>
    ensures there { IfSome result (λ to. slice_get (sets_made made.now) place ≡ Some to.now) }
    ensures made { (name : List ℕ) (labels : List Pair) → AreMade name labels made.now → IfSome result (λ to. to.now ≡ made_labels name labels from.now) }
{
    match made.get(place) {
        Some(one) => {
            if one.from == *from {
                Some(&one.to)
            } else {
                None
            }
        }
        None => None,
    }
}

// Remembers an element, at its place or behind all places.
fn remember(made: &mut Vec<Made>, place: usize, one: Made) -> Result<(), AllocError>
    ensures { (name : List ℕ) (labels : List Pair) → AreMade name labels made.old.items → one.to ≡ made_labels name labels one.from → AreMade name labels made.new.items }
{
    if place < made.len() {
        made[place] = one;
        return Ok(());
    }
    made.push(one)?;
    Ok(())
}

// Whether each label set that was made is below the next one.
fn rise(made: &[Made]) -> bool
    ensures { result ≡ true → IsRising (sets_made made.now) }
{
    for place in 1..made.len() {
        if made[place - 1].to >= made[place].to {
            return false;
        }
    }
    true
}

// What is recorded of an element, by the labels that were made of those that it has.
fn recorded_as(alloc: Global, to: &Labels, value: Num) -> Result<RuleElement, AllocError>
    ensures { IfOk result (λ f. f ≡ record { labels = to.now; notes = []; value = value }) }
{
    Ok(RuleElement {
        labels: to.copy(alloc)?,
        notes: Items::empty(alloc),
        value,
    })
}

// What is recorded of elements, where each has the labels that are remembered at its place.
fn recorded_again(
    alloc: Global,
    made: &[Made],
    items: &[Item<Num>],
) -> Result<Option<Vec<RuleElement>>, AllocError>
    requires { length made.now ≡ length items.now }
    ensures founds { (name : List ℕ) (labels : List Pair) → AreMade name labels made.now
        → IfOk result (λ all. IfSome all (λ v. v.items ≡ map (recorded_under name labels) items.now)) }
    ensures sets { IfOk result (λ all. IfSome all (λ v. sets_in v.items ≡ sets_made made.now)) }
{
    let mut founds = Vec::with_capacity(alloc, items.len())?;
    for (place, item) in items.iter().enumerate() {
        match known(made, place, &item.labels) {
            Some(to) => founds.push(recorded_as(alloc, to, item.value)?)?,
            None => return Ok(None),
        }
    }
    Ok(Some(founds))
}

impl MadeLabels {
    /// Nothing is remembered, of a rule that has neither name nor labels.
    pub fn new(alloc: Global) -> MadeLabels
        ensures { result ≡ ([], []) }
    {
        MadeLabels {
            name: Text::new(String::new(alloc)),
            labels: Items::empty(alloc),
            made: Vec::new(alloc),
            rises: true,
            alerts: Vec::new(alloc),
        }
    }

    // Nothing is remembered of a rule.
    fn of_rule(alloc: Global, rule: &RuleDef) -> Result<MadeLabels, AllocError>
        ensures { IfOk result (λ s. s ≡ (rule.now.name, rule.now.labels)) }
    {
        Ok(MadeLabels {
            name: rule.name.copy(alloc)?,
            labels: Items::new(copy_pairs(alloc, rule.labels.as_slice())?),
            made: Vec::new(alloc),
            rises: true,
            alerts: Vec::new(alloc),
        })
    }

    // Whether it is of a rule.
    fn is_of(&self, rule: &RuleDef) -> bool
        ensures { result ≡ true → self.now ≡ (rule.now.name, rule.now.labels) }
    {
        self.name == rule.name && self.labels.as_slice() == rule.labels.as_slice()
    }

    /// Forgets what is remembered of another rule that records. An alert leaves it alone: its labels
    /// stand with all that they were made of.
    pub(crate) fn fit(&mut self, alloc: Global, rule: &RuleDef) -> Result<(), AllocError>
        ensures { OnOk result (IsOfRule self.new (rule_of_def rule.now)) }
    {
        if rule.alert {
            return Ok(());
        }
        if self.is_of(rule) {
            return Ok(());
        }
        *self = MadeLabels::of_rule(alloc, rule)?;
        Ok(())
    }

    // Makes the labels under which the element at a place is recorded, and remembers them.
    fn make(&mut self, alloc: Global, place: usize, from: &Labels) -> Result<Labels, AllocError>
        ensures made { IfOk result (λ to. to ≡ made_labels self.old.0 self.old.1 from.now) }
        ensures stays { self.new ≡ self.old }
    {
        let to = made_labels(alloc, self.name.as_str(), self.labels.as_slice(), from)?;
        let one = Made {
            from: from.copy(alloc)?,
            to: to.copy(alloc)?,
        };
        self.rises = false;
        remember(&mut self.made, place, one)?;
        Ok(to)
    }

    /// The labels under which the rule records the element at a place, which has these. They are
    /// those of the last result, where the element at the place had the same.
    pub(crate) fn recorded(
        &mut self,
        alloc: Global,
        place: usize,
        from: &Labels,
    ) -> Result<Labels, AllocError>
        ensures made { IfOk result (λ to. to ≡ made_labels self.old.0 self.old.1 from.now) }
        ensures stays { self.new ≡ self.old }
    {
        match known(&self.made, place, from) {
            Some(to) => to.copy(alloc),
            None => self.make(alloc, place, from),
        }
    }

    // Makes the labels of the alert at a place, and remembers them.
    fn make_alert(
        &mut self,
        alloc: Global,
        place: usize,
        name: &Text,
        over: Items<Pair>,
        from: &Labels,
    ) -> Result<Labels, AllocError>
        ensures made { IfOk result (λ to. to ≡ alert_made name.now over from.now) }
        ensures stays { self.new ≡ self.old }
    {
        let one = AlertLabels::new(alloc, name, over, from)?;
        let to = one.labels().copy(alloc)?;
        if place < self.alerts.len() {
            self.alerts[place] = one;
        } else {
            self.alerts.push(one)?;
        }
        Ok(to)
    }

    /// The labels of the alert at a place, of a rule of this name, made of what the templates of its
    /// labels come to and of the labels of the element. They are those of the last result, where
    /// they were made of the same.
    pub(crate) fn alert(
        &mut self,
        alloc: Global,
        place: usize,
        name: &Text,
        over: Items<Pair>,
        from: &Labels,
    ) -> Result<Labels, AllocError>
        ensures made { IfOk result (λ to. to ≡ alert_made name.now over from.now) }
        ensures stays { self.new ≡ self.old }
    {
        match known_alert(&self.alerts, place, name, over.as_slice(), from) {
            Some(to) => to.copy(alloc),
            None => self.make_alert(alloc, place, name, over, from),
        }
    }

    /// What the rule records of elements, in label order: where each of them has the labels that
    /// are remembered at its place, no others are remembered, and what was made of them rises.
    pub(crate) fn all_recorded(
        &self,
        alloc: Global,
        items: &[Item<Num>],
    ) -> Result<Option<Vec<RuleElement>>, AllocError>
        ensures { IfOk result (λ all. IfSome all (λ v. AreRecorded self.now.0 self.now.1 items.now v.items)) }
    {
        if self.rises && self.made.len() == items.len() {
            recorded_again(alloc, &self.made, items)
        } else {
            Ok(None)
        }
    }

    /// Forgets the elements behind so many places, and looks whether what was recorded of the others
    /// rises. That only saves work later: no clause counts what is remembered.
    pub(crate) fn truncate(&mut self, places: usize)
        ensures { self.new ≡ self.old }
    {
        self.made.truncate(places);
        self.alerts.truncate(places);
        self.rises = rise(&self.made);
    }
}
