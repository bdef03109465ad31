// The alerts of a group.
ghost use Rattle.std.specs.Prelude.{◌≡◌, ℕ, List, false, is_some, option_copied, slice_get, Some, IfSome};
ghost use Rattle.std.specs.Option.{option_map_or};
ghost use Rattle.pr_rule.specs.spec_history.declared.entry.Entry.{Entry};
ghost use Rattle.pr_rule.specs.private.AlertStanding.{StandsFor};
ghost use Rattle.pr_rule.specs.spec_rules.Groups.{Group, RuleState};
ghost use Rattle.pr_group.specs.private.Keeping.{KeepsGroup, alerts_at};

use crate::group::GroupOver;
use pr_rule::alert::Records;
use pr_rule::range::Ranges;

impl<R: Ranges + Drop> GroupOver<R> {
    // The alerts of the rule with a number, where it is an alert.
    fn alerts(&self, rule: usize) -> Option<&Records>
        ensures { option_copied result ≡ alerts_at self.now rule }
    {
        let definition = self.def.rules.as_slice().get(rule)?;
        if !definition.alert {
            return None;
        }
        Some(self.rules.get(rule)?.records())
    }

    /// The alerts of the rule with this number, counted from 0; none exactly where no alerting rule
    /// has it.
    pub fn records(&self, rule: usize) -> Option<&Records>
        ensures same { option_copied result ≡ alerts_at self.now rule }
        ensures some { (history : List Entry) (g : Group) → KeepsGroup R.fits R.last R.passed self.now history g
            → is_some (option_copied result) ≡ option_map_or (λ r. r.rule.alert) (slice_get g.rules rule) false }
        ensures stands { (history : List Entry) (g : Group) (r : RuleState) → KeepsGroup R.fits R.last R.passed self.now history g → slice_get g.rules rule ≡ Some r
            → IfSome (option_copied result) (λ records. StandsFor records r.lineage) }
    {
        self.alerts(rule)
    }
}
