// Laws of kept groups.
ghost use Rattle.std.specs.Prelude.{◌≡◌, ◌++◌, Bool, List};
ghost use Rattle.spec_world.specs.spec_history.private.Laws.{IsLawful};
ghost use Rattle.spec_world.specs.spec_history.declared.entry.Entry.{Entry};
ghost use Rattle.spec_world.specs.spec_rules.Groups.{Group};
ghost use Rattle.pr_manager.specs.private.Keeping.{ManagesGroups, KeptManager};
ghost use Rattle.pr_manager.specs.private.Naming.{passed_by_named};

use pr_group::a_kept_group_stays;
use pr_group::range::Ranges;

/// What is kept of all groups stands for them over each later history too, and as much counts as
/// passed then.
pub fn kept_groups_stay<R: Ranges>()
    ensures keeps { (k : KeptManager R) (history more : List Entry) (groups : List Group) (reloaded : Bool) → ManagesGroups R.fits R.last R.passed k history groups reloaded → IsLawful (history ++ more)
        → ManagesGroups R.fits R.last R.passed k (history ++ more) groups reloaded }
    ensures passed { (k : KeptManager R) (history more : List Entry) (groups : List Group) (reloaded : Bool) → ManagesGroups R.fits R.last R.passed k history groups reloaded
        → passed_by_named R.passed k (history ++ more) ≡ passed_by_named R.passed k history }
{
    a_kept_group_stays::<R>();
}
