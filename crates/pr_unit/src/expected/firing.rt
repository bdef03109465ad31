// The alerts of a rule that fire.
ghost use Rattle.std.specs.Prelude.{◌≡◌, ◌++◌, ◌∷◌, [], OnOk, IfOk, filter, map};
ghost use Rattle.pr_group.specs.spec_alerts.Records.{is_firing};
ghost use Rattle.spec_tests.specs.Verdict.{found_of};

use pr_ast::labels::{Pair, copy_pairs};
use pr_ast::words_crate::Items;
use pr_group::alerts_crate::{Record, RuleElement, State};
use std::alloc::{AllocError, Global};

fn is_firing(state: State) -> bool
    ensures { result ≡ is_firing state }
{
    match state {
        State::Firing => true,
        State::Pending | State::Resolved => false,
    }
}

/// The same annotations again.
pub(crate) fn copy_notes(alloc: Global, notes: &[Pair]) -> Result<Items<Pair>, AllocError>
    ensures { IfOk result (λ list. list ≡ notes.now) }
{
    Ok(Items::new(copy_pairs(alloc, notes)?))
}

fn found_of(alloc: Global, alert: &Record) -> Result<RuleElement, AllocError>
    ensures { IfOk result (λ f. f ≡ found_of alert.now) }
{
    Ok(RuleElement {
        labels: alert.labels.copy(alloc)?,
        notes: copy_notes(alloc, alert.notes.as_slice())?,
        value: alert.value,
    })
}

// Puts an alert behind others, if it fires.
fn push_if_firing(
    alloc: Global,
    alert: &Record,
    founds: &mut Vec<RuleElement>,
) -> Result<(), AllocError>
    ensures { OnOk result (founds.new.items ≡ founds.old.items ++ map found_of (filter (λ r. is_firing r.state) (alert.now ∷ []))) }
{
    if is_firing(alert.state) {
        founds.push(found_of(alloc, alert)?)?;
    }
    Ok(())
}

/// Puts those of a rule's alerts that fire behind others. An alert that is pending, or over, is not
/// among them. (Prometheus: cmd/promtool/unittest.go, where only firing alerts are compared.)
///
/// # Errors
/// Want of memory.
#[tactic(auto, using(crate::proofs::FiringAlerts::one_more))]
pub fn push_firing(
    alloc: Global,
    records: &[Record],
    founds: &mut Vec<RuleElement>,
) -> Result<(), AllocError>
    ensures { OnOk result (founds.new.items ≡ founds.old.items ++ map found_of (filter (λ r. is_firing r.state) records.now)) }
{
    let mut rest = records;
    'alerts: while let Some((alert, after)) = rest.split_first() {
        push_if_firing(alloc, alert, founds)?;
        rest = after;
    }
    Ok(())
}
