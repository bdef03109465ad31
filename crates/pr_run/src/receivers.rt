// What orders do to the receivers of notices.
ghost use Rattle.std.specs.Prelude.{◌≡◌, List, OnOk};
ghost use Rattle.pr_queue.specs.spec_alerts.Receivers.{Receiver, after_offer};
ghost use Rattle.pr_queue.specs.private.Standing as waiting;
ghost use Rattle.pr_run.specs.Replies.{all_sent, is_not_new, receivers_after};

use pr_queue::{Joined, Notifier};
use pr_text::rules_crate::RuleReport;
use pr_text::world::Report;
use std::alloc::AllocError;

/// Whether a name that was to be added is refused.
pub(crate) fn is_not_new(joined: Joined) -> bool
    ensures { result ≡ is_not_new joined }
{
    match joined {
        Joined::New => false,
        Joined::Known | Joined::Full => true,
    }
}

// Offers all that rules sent, one rule after another.
fn offer_sent(notifier: &mut Notifier, rules: &[RuleReport]) -> Result<(), AllocError>
    ensures { OnOk result ((rs : List Receiver) → waiting.StandsFor notifier.old rs → waiting.StandsFor notifier.new (after_offer (all_sent rules.now) rs)) }
{
    for rule in rules {
        notifier.offer(rule.sent.as_slice())?;
    }
    Ok(())
}

/// Offers what an evaluation sent to all receivers. A run that begins anew has none. The work grows
/// with the numbers of rules, notices and receivers.
pub(crate) fn notify(notifier: &mut Notifier, report: &Report) -> Result<(), AllocError>
    ensures { OnOk result ((rs : List Receiver) → waiting.StandsFor notifier.old rs → waiting.StandsFor notifier.new (receivers_after report.now rs)) }
{
    match report {
        Report::Evaluated { group } => offer_sent(notifier, group.rules.as_slice()),
        Report::Restarted { .. } => {
            notifier.clear();
            Ok(())
        }
        _ => Ok(()),
    }
}
