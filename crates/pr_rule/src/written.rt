// What a rule comes to is put.
ghost use Rattle.std.specs.Prelude.{◌≡◌, ℕ, List, IfOk, OnOk};
ghost use Rattle.spec_rules.specs.spec_history.declared.entry.Entry.{Entry};
ghost use Rattle.pr_eval.specs.pr_head.private.Holds.{Holds};
ghost use Rattle.spec_rules.specs.spec_alerts.declared.found.RuleElement.{RuleElement};
ghost use Rattle.spec_rules.specs.spec_alerts.declared.record.Record.{Record};
ghost use Rattle.spec_rules.specs.spec_alerts.Lineage.{previous};
ghost use Rattle.spec_rules.specs.declared.fault.RuleFailure.{RuleFailure};
ghost use Rattle.spec_rules.specs.Evaluations.{failed_step, fine_step, rule_samples};
ghost use Rattle.spec_rules.specs.Groups.{Group, RuleState};
ghost use Rattle.pr_rule.specs.private.Outcomes.{IsOffered};
ghost use Rattle.pr_rule.specs.private.Standing.{HasStepped};
ghost use Rattle.pr_rule.specs.private.Written.{HasWritten};

use crate::evaluation::Evaluation;
use crate::offered::Offered;
use crate::samples::put_samples;
use pr_ast::num::Num;
use pr_eval::head::Head;
use pr_eval::head::intake::mark_if;
use pr_labels::words_crate::Items;
use pr_labels::{Item, Labels};
use spec_rules::history::Entry;
use spec_rules::{Put, RuleFailure, RuleOutcome, RuleReport};
use std::alloc::{AllocError, Global};

// What is told of the samples of a rule, and of the series that got a marker.
#[derive(Drop)]
struct Written {
    told: Items<Put>,
    stale: Items<Labels>,
}

// Puts the samples of a rule, and then a marker for each series that it wrote last and now not.
fn write(
    at: &Evaluation<'_>,
    head: &mut Head,
    rows: &mut Vec<Entry>,
    last: &mut Items<Labels>,
    items: &[Item<Num>],
) -> Result<Written, AllocError>
    ensures { (history : List Entry) → Holds head.old history
        → IfOk result (λ w. HasWritten at.now.tells head.old head.new rows.old.items rows.new.items last.old last.new w.told w.stale history at.now.time items.now) }
{
    let mut told = Vec::new(at.alloc);
    let mut wrote = Vec::with_capacity(at.alloc, items.len())?;
    put_samples(at, head, rows, &mut told, &mut wrote, items)?;
    let stale = mark_if(
        at.alloc,
        at.tells,
        head,
        rows,
        at.time,
        last.as_slice(),
        &wrote,
    )?;
    *last = Items::new(wrote);
    Ok(Written {
        told: Items::new(told),
        stale: Items::new(stale),
    })
}

/// Puts what a rule comes to, and answers what is told of it. The series that it wrote last are now
/// those that show its samples.
pub(crate) fn tell(
    at: &Evaluation<'_>,
    head: &mut Head,
    rows: &mut Vec<Entry>,
    last: &mut Items<Labels>,
    offered: Offered,
) -> Result<RuleReport, AllocError>
    ensures steps { (history : List Entry) (g : Group) (r : RuleState) (founds : List RuleElement) (alerts : List Record) → Holds head.old history → last.old ≡ previous r.lineage → IsOffered at.now.tells offered alerts g r at.now.time founds
        → IfOk result (λ report. HasStepped at.now.tells head.old head.new rows.old.items rows.new.items report history (fine_step g r at.now.time founds history (rule_samples g r at.now.time founds))) }
    ensures wrote { (history : List Entry) (g : Group) (r : RuleState) (founds : List RuleElement) (alerts : List Record) → Holds head.old history → last.old ≡ previous r.lineage → IsOffered at.now.tells offered alerts g r at.now.time founds
        → OnOk result (last.new ≡ previous (fine_step g r at.now.time founds history (rule_samples g r at.now.time founds)).lineage) }
{
    let written = write(at, head, rows, last, offered.samples.as_slice())?;
    Ok(RuleReport {
        outcome: RuleOutcome::Fine,
        samples: written.told,
        stale: written.stale,
        sent: offered.sent,
    })
}

/// What is told of a rule that has a fault.
pub(crate) fn failed(alloc: Global, failure: RuleFailure) -> RuleReport
    ensures { (r : RuleState) (now : ℕ) → result ≡ (failed_step r now failure).report }
{
    RuleReport {
        outcome: RuleOutcome::Fault {
            place: failure.place,
            kind: failure.kind,
        },
        samples: Items::empty(alloc),
        stale: Items::empty(alloc),
        sent: Items::empty(alloc),
    }
}
