// The rules of a group, one after the other.
ghost use Rattle.std.specs.Prelude.{◌≡◌, ℕ, ◌+◌, ◌++◌, ◌∷◌, [], ◌<◌, ◌≤◌, false, true, List, Option, IfOk, IfSome, OnOk, length};
ghost use Rattle.pr_rule.specs.spec_history.declared.entry.Entry.{Entry};
ghost use Rattle.pr_rule.specs.spec_meaning.private.Cost.{cost};
ghost use Rattle.pr_rule.specs.pr_eval.private.Evaluated.{passed_outside};
ghost use Rattle.pr_rule.specs.private.Standing.{IsEvaluationOf};
ghost use Rattle.pr_rule.specs.spec_rules.private.Costs.{rules_cost};
ghost use Rattle.pr_rule.specs.spec_rules.Evaluations.{all_rules, begun};
ghost use Rattle.pr_rule.specs.spec_rules.Groups.{Group, RuleState};
ghost use Rattle.pr_rule.specs.spec_rules.Settings.{Settings};
ghost use Rattle.pr_group.specs.private.Evaluating.{HasCome, HasDone, MayEvaluateRules};
ghost use Rattle.pr_group.specs.private.Keeping.{KeepsRule, MayEvaluateOver, passed_of};

use pr_ast::words_crate::Steps;
use pr_rule::head::Head;
use pr_rule::history::Entry;
use pr_rule::range::Ranges;
use pr_rule::rules_crate::{RuleDef, RuleReport};
use pr_rule::{Evaluation, Remembered};
use std::alloc::AllocError;
use std::sync::ledger::Ledger;

// Evaluates a rule.
fn evaluate_rule<R: Ranges, G: Ledger>(
    at: &Evaluation<'_>,
    definition: &RuleDef,
    kept: &mut Remembered<R>,
    head: &mut Head,
    rows: &mut Vec<Entry>,
    reads: &mut Steps<G>,
) -> Result<RuleReport, AllocError>
    requires { 0 < at.now.step }
    ensures done { (s : Settings) (g : Group) (r : RuleState) (history : List Entry) (until : Option ℕ) → IsEvaluationOf at.now.step at.now.external.now at.now.limit at.now.interval at.now.waits s g
        → MayEvaluateOver head.old history at.now.time → IfSome until (λ u. u ≤ at.now.time) → KeepsRule R.fits R.last R.passed history until definition.now kept.old r
        → IfOk result (λ report. HasDone R.fits R.last R.passed R.keeps at.now.tells s g r history at.now.time definition.now kept.old kept.new head.old head.new rows.old.items rows.new.items report) }
    ensures reads { (s : Settings) (g : Group) (r : RuleState) (history : List Entry) (until : Option ℕ) → IsEvaluationOf at.now.step at.now.external.now at.now.limit at.now.interval at.now.waits s g
        → MayEvaluateOver head.old history at.now.time → IfSome until (λ u. u ≤ at.now.time) → KeepsRule R.fits R.last R.passed history until definition.now kept.old r
        → reads.new ≤ reads.old + cost s.subquery_step history (passed_outside false history (R.passed kept.old.ranges)) r.rule.expr 0 at.now.time }
{
    let _checked = definition.expr.expr();
    kept.evaluate(at, definition, head, rows, reads)
}

// Notes what is told of a rule.
fn note_report(
    tells: bool,
    told: &mut Vec<RuleReport>,
    report: RuleReport,
) -> Result<(), AllocError>
    ensures { OnOk result (tells ≡ true → told.new.items ≡ told.old.items ++ report ∷ []) }
{
    if tells {
        told.push(report)?;
    }
    Ok(())
}

/// Evaluates the rules of a group in order, each over the head as those before it leave it. Where
/// that is told, what is added stands behind the rows, and it answers what is told of each.
///
/// # Errors
/// Want of memory.
pub(crate) fn evaluate_rules<R: Ranges, G: Ledger>(
    at: &Evaluation<'_>,
    definitions: &[RuleDef],
    rules: &mut Vec<Remembered<R>>,
    head: &mut Head,
    rows: &mut Vec<Entry>,
    reads: &mut Steps<G>,
) -> Result<Vec<RuleReport>, AllocError>
    requires some { 0 < at.now.step }
    requires each { length rules.old.items ≡ length definitions.now }
    ensures come { (s : Settings) (g : Group) (history : List Entry) (until : Option ℕ)
        → MayEvaluateRules R.fits R.last R.passed at.now.step at.now.external.now at.now.limit at.now.interval at.now.waits s g head.old history at.now.time until definitions.now rules.old.items
        → IfOk result (λ told. HasCome R.fits R.last R.passed R.keeps at.now.tells s g history at.now.time definitions.now rules.old.items rules.new.items head.old head.new rows.old.items rows.new.items told.items (length g.rules) (all_rules s g history at.now.time)) }
    ensures reads { (s : Settings) (g : Group) (history : List Entry) (until : Option ℕ)
        → MayEvaluateRules R.fits R.last R.passed at.now.step at.now.external.now at.now.limit at.now.interval at.now.waits s g head.old history at.now.time until definitions.now rules.old.items
        → reads.new ≤ reads.old + rules_cost s g at.now.time (passed_of R.passed history rules.old.items) 0 g.rules (begun history) }
    ensures many { length rules.new.items ≡ length rules.old.items }
{
    let mut told = Vec::new(at.alloc);
    for index in 0..definitions.len() {
        let report = evaluate_rule(
            at,
            &definitions[index],
            &mut rules[index],
            head,
            rows,
            reads,
        )?;
        note_report(at.tells, &mut told, report)?;
    }
    Ok(told)
}
