// Laws of kept groups.
ghost use Rattle.std.specs.Prelude.{◌≡◌, ◌++◌, List};
ghost use Rattle.pr_rule.specs.spec_history.declared.entry.Entry.{Entry};
ghost use Rattle.pr_rule.specs.spec_history.private.Laws.{IsLawful};
ghost use Rattle.pr_rule.specs.spec_rules.Groups.{Group};
ghost use Rattle.pr_group.specs.private.Keeping.{KeepsGroup, KeptGroup, passed_by};

use pr_rule::range::Ranges;

/// A kept group stands for its group over each later history too, and as much counts as passed
/// then.
pub fn a_kept_group_stays<R: Ranges>()
    ensures keeps { (k : KeptGroup R) (history more : List Entry) (g : Group) → KeepsGroup R.fits R.last R.passed k history g → IsLawful (history ++ more)
        → KeepsGroup R.fits R.last R.passed k (history ++ more) g }
    ensures passed { (k : KeptGroup R) (history more : List Entry) (g : Group) → KeepsGroup R.fits R.last R.passed k history g
        → passed_by R.passed k (history ++ more) ≡ passed_by R.passed k history }
{}
