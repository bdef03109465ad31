// What a rule comes to before anything is put.
ghost use Rattle.std.specs.Prelude.{◌≡◌, [], map, true, unwrap_or, List, IfOk, OnOk, Ok};
ghost use Rattle.spec_rules.specs.spec_history.declared.entry.Entry.{Entry};
ghost use Rattle.spec_rules.specs.spec_alerts.declared.found.RuleElement.{RuleElement};
ghost use Rattle.spec_rules.specs.spec_alerts.Records.{sendings_at};
ghost use Rattle.pr_rule.specs.private.AlertStanding.{StandsFor, marked_if};
ghost use Rattle.spec_rules.specs.Definitions.{rule_of_def};
ghost use Rattle.spec_rules.specs.Evaluations.{recorded, rule_outcome, rule_samples_by};
ghost use Rattle.spec_rules.specs.Groups.{Group, RuleState};
ghost use Rattle.spec_rules.specs.private.Laws.{FoundsRise};
ghost use Rattle.spec_rules.specs.Results.{rule_result};
ghost use Rattle.spec_rules.specs.Settings.{Settings};
ghost use Rattle.pr_rule.specs.private.Outcomes.{Offers};
ghost use Rattle.pr_rule.specs.private.Standing.{IsEvaluationOf};

use crate::alert::{
    AlertFault, Records, no_records_stand_after_the_limit, records_of_a_lineage_stand_for_it,
    what_is_sent_is_marked,
};
use crate::evaluation::Evaluation;
use crate::rule_result::{RuleError, limit_exceeded};
use crate::sending::{interval_of, send_due};
use pr_ast::num::Num;
use pr_labels::Item;
use pr_labels::words_crate::Items;
use spec_rules::RuleDef;
use spec_rules::alerts_crate::{RuleElement, Sending};
use std::alloc::{AllocError, Global};

/// What a rule comes to: the samples that it puts, in label order, and where that is told what it
/// sends.
#[derive(Drop)]
pub(crate) struct Offered {
    pub(crate) samples: Items<Item<Num>>,
    pub(crate) sent: Items<Sending>,
}

// The elements of what a rule records.
fn elements(alloc: Global, founds: Vec<RuleElement>) -> Result<Vec<Item<Num>>, AllocError>
    ensures { IfOk result (λ v. v.items ≡ recorded founds.items) }
{
    let mut items = Vec::with_capacity(alloc, founds.len())?;
    for found in founds {
        items.push(Item {
            labels: found.labels,
            value: found.value,
        })?;
    }
    Ok(items)
}

// What a rule that records comes to.
fn recorded(alloc: Global, founds: Vec<RuleElement>) -> Result<Offered, AllocError>
    ensures samples { IfOk result (λ o. o.samples ≡ recorded founds.items) }
    ensures sent { IfOk result (λ o. o.sent ≡ []) }
{
    Ok(Offered {
        samples: Items::new(elements(alloc, founds)?),
        sent: Items::empty(alloc),
    })
}

// What is written of alerts: nothing, while their group waits.
fn alert_samples(at: &Evaluation<'_>, records: &mut Records) -> Result<Items<Item<Num>>, AllocError>
    ensures samples { (founds : List RuleElement) → IfOk result (λ v. v ≡ rule_samples_by true at.now.waits founds records.old) }
    ensures same { records.new ≡ records.old }
{
    if at.waits {
        return Ok(Items::empty(at.alloc));
    }
    Ok(Items::new(records.samples()?))
}

// Sends what is due of alerts, and marks it, and tells what is written of them.
fn told(at: &Evaluation<'_>, records: &mut Records) -> Result<Offered, AllocError>
    ensures marked { OnOk result (records.new ≡ map (marked_if at.now.time) records.old) }
    ensures sent { IfOk result (λ o. at.now.tells ≡ true → o.sent ≡ sendings_at (unwrap_or at.now.interval 60000) at.now.time records.old) }
    ensures samples { (founds : List RuleElement) → IfOk result (λ o. o.samples ≡ rule_samples_by true at.now.waits founds records.new) }
{
    let sent = send_due(at, records, interval_of(at.interval))?;
    Ok(Offered {
        samples: alert_samples(at, records)?,
        sent: Items::new(sent),
    })
}

// What an alerting rule comes to: its alerts go on, unless they are more than the limit.
fn alerted(
    at: &Evaluation<'_>,
    rule: &RuleDef,
    records: &mut Records,
    founds: Vec<RuleElement>,
) -> Result<Offered, RuleError>
    ensures { (s : Settings) (g : Group) (r : RuleState) (history : List Entry) → IsEvaluationOf at.now.step at.now.external.now at.now.limit at.now.interval at.now.waits s g
        → rule_of_def rule.now ≡ r.rule → r.rule.alert ≡ true → StandsFor records.old r.lineage → FoundsRise founds.items → rule_result s g.limit r.rule history at.now.time ≡ Ok founds.items
        → Offers at.now.tells (rule_outcome s g r history at.now.time) records.new g r at.now.time result }
{
    what_is_sent_is_marked();
    records_of_a_lineage_stand_for_it();
    no_records_stand_after_the_limit();
    match records.evaluate(founds, at.time, rule.hold, rule.keep, at.limit) {
        Ok(()) => Ok(told(at, records)?),
        Err(AlertFault::LimitExceeded { limit, have }) => Err(RuleError::Failed {
            failure: limit_exceeded(limit, have),
        }),
        Err(AlertFault::Memory) => Err(RuleError::Memory),
    }
}

/// What a rule comes to whose expression gives these elements. Its alerts go on, and what is due
/// of them is sent.
///
/// # Errors
/// `LimitExceeded` where its alerts are more than the limit; then they are forgotten. Want of
/// memory.
pub(crate) fn offer(
    at: &Evaluation<'_>,
    rule: &RuleDef,
    records: &mut Records,
    founds: Vec<RuleElement>,
) -> Result<Offered, RuleError>
    ensures { (s : Settings) (g : Group) (r : RuleState) (history : List Entry) → IsEvaluationOf at.now.step at.now.external.now at.now.limit at.now.interval at.now.waits s g
        → rule_of_def rule.now ≡ r.rule → (r.rule.alert ≡ true → StandsFor records.old r.lineage) → FoundsRise founds.items → rule_result s g.limit r.rule history at.now.time ≡ Ok founds.items
        → Offers at.now.tells (rule_outcome s g r history at.now.time) records.new g r at.now.time result }
{
    if rule.alert {
        return alerted(at, rule, records, founds);
    }
    Ok(recorded(at.alloc, founds)?)
}
