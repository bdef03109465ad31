// When an alert is sent. (Prometheus: rules/alerting.go, needsSending.)
ghost use Rattle.std.specs.Prelude.{◌≡◌};
ghost use Rattle.spec_rules.specs.spec_alerts.Records.{is_due, is_due_since};

use pr_ast::time::Ms;
use spec_rules::alerts_crate::{Record, State};

/// How long an alert that was sent is not sent again, in milliseconds. (Prometheus: the flag
/// rules.alert.resend-delay.)
const RESEND_DELAY: u64 = 60_000;

// Whether an alert that fires or is over is sent.
fn is_due_again(resolved: Option<Ms>, sent: Option<Ms>, now: Ms) -> bool
    ensures { result ≡ is_due_since resolved sent now }
{
    match sent {
        None => true,
        Some(last) => match resolved {
            None => last.get() + RESEND_DELAY < now.get(),
            Some(at) => last.get() < at.get() || last.get() + RESEND_DELAY < now.get(),
        },
    }
}

/// Whether an alert is sent at a time.
pub(crate) fn needs_sending(r: &Record, now: Ms) -> bool
    ensures { result ≡ is_due now r.now }
{
    match r.state {
        State::Pending => false,
        State::Firing => is_due_again(r.resolved, r.sent, now),
        State::Resolved => is_due_again(r.resolved, r.sent, now),
    }
}
