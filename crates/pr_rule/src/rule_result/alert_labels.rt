// The labels of an alert, and what they were made of.
ghost use Rattle.std.specs.Prelude.{◌≡◌, true, IfOk, IfSome};
ghost use Rattle.pr_rule.specs.private.Making.{alert_made};

use crate::rule_result::labels::alert_made;
use pr_labels::words_crate::{Items, Text};
use pr_labels::{Labels, Pair};
use std::alloc::{AllocError, Global};
use std::marker::Model;

/// The labels of an alert, with what they were made of: the name of its rule, what the templates of
/// the rule's labels came to, and the labels of the element. Contracts see the labels of the alert.
#[derive(Drop)]
pub(crate) struct AlertLabels {
    name: Text,
    over: Items<Pair>,
    from: Labels,
    to: Labels,
}

impl Model for AlertLabels {
    ghost use Rattle.std.specs.Prelude.{◌≡◌, List};
    ghost use Rattle.pr_labels.specs.declared.pair.Pair.{Pair};
    ghost use Rattle.pr_rule.specs.private.Making.{alert_made};

    ghost Value = { List Pair };

    ghost view = { λ a. a.to };

    ghost invariant = { λ a. a.to ≡ alert_made a.name a.over a.from };
}

impl AlertLabels {
    /// Makes the labels of an alert.
    pub(crate) fn new(
        alloc: Global,
        name: &Text,
        over: Items<Pair>,
        from: &Labels,
    ) -> Result<AlertLabels, AllocError>
        ensures { IfOk result (λ a. a ≡ alert_made name.now over from.now) }
    {
        let to = alert_made(alloc, name.as_str(), over.as_slice(), from)?;
        Ok(AlertLabels {
            name: name.copy(alloc)?,
            over,
            from: from.copy(alloc)?,
            to,
        })
    }

    /// The labels of the alert.
    pub(crate) fn labels(&self) -> &Labels
        ensures { result.now ≡ self.now }
    {
        &self.to
    }

    // Whether they were made of these.
    fn is_of(&self, name: &Text, over: &[Pair], from: &Labels) -> bool
        ensures { result ≡ true → self.now ≡ alert_made name.now over.now from.now }
    {
        self.name == *name && self.over.as_slice() == over && self.from == *from
    }
}

/// The labels of the alert at a place, where they were made of these.
pub(crate) fn known_alert<'a>(
    alerts: &'a [AlertLabels],
    place: usize,
    name: &Text,
    over: &[Pair],
    from: &Labels,
) -> Option<&'a Labels>
    ensures { IfSome result (λ to. to.now ≡ alert_made name.now over.now from.now) }
{
    match alerts.get(place) {
        Some(one) => {
            if one.is_of(name, over, from) {
                Some(one.labels())
            } else {
                None
            }
        }
        None => None,
    }
}
