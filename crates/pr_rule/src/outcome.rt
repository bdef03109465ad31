// What a rule comes to at a time, over a head.
ghost use Rattle.std.specs.Prelude.{◌≡◌, ◌≢◌, ◌+◌, ◌≤◌, ◌<◌, false, true, is_ok, List, IfOk, Err};
ghost use Rattle.spec_rules.specs.spec_history.declared.entry.Entry.{Entry};
ghost use Rattle.pr_ast.specs.Tree.{tree_of};
ghost use Rattle.spec_rules.specs.spec_meaning.private.Cost.{cost};
ghost use Rattle.spec_rules.specs.spec_meaning.Meaning.{meaning};
ghost use Rattle.pr_eval.specs.private.Evaluated.{AreAllAsked, MayBegin, asks_of, kept_by, passed_outside};
ghost use Rattle.pr_rule.specs.private.AlertStanding.{StandsFor};
ghost use Rattle.spec_rules.specs.Definitions.{rule_of_def};
ghost use Rattle.spec_rules.specs.Evaluations.{rule_outcome};
ghost use Rattle.spec_rules.specs.Groups.{Group, RuleState};
ghost use Rattle.spec_rules.specs.private.Laws.{FoundsRise};
ghost use Rattle.spec_rules.specs.Results.{failed_by, rule_result_by};
ghost use Rattle.spec_rules.specs.Settings.{Settings};
ghost use Rattle.pr_rule.specs.declared.rule_result.error.RuleError.TheVariants.{Memory};
ghost use Rattle.pr_rule.specs.private.Coming.{ComesTo};
ghost use Rattle.pr_rule.specs.private.Templates.{IsTemplatesOf};
ghost use Rattle.pr_rule.specs.private.Outcomes.{Offers};
ghost use Rattle.pr_rule.specs.private.Standing.{IsEvaluationOf};

use crate::alert::{Records, a_fault_leaves_the_records};
use crate::evaluation::Evaluation;
use crate::offered::{Offered, offer};
use crate::rule_result::{MadeLabels, RuleError, RuleTemplates, rule_result};
use pr_eval::eval;
use pr_eval::head::Head;
use pr_eval::range::Ranges;
use pr_labels::words_crate::Steps;
use spec_rules::RuleDef;
use spec_rules::alerts_crate::RuleElement;
use std::sync::ledger::Ledger;

// What the expression of a rule comes to in it.
fn found<R: Ranges, G: Ledger>(
    at: &Evaluation<'_>,
    rule: &RuleDef,
    templates: &RuleTemplates,
    made: &mut MadeLabels,
    head: &Head,
    ranges: &mut R,
    reads: &mut Steps<G>,
) -> Result<Vec<RuleElement>, RuleError>
    requires { 0 < at.now.step }
    ensures comes { (history : List Entry) → MayBegin head.now history (tree_of rule.now.expr) at.now.time (R.fits ranges.old history) (R.last ranges.old) → IsTemplatesOf templates.now (rule_of_def rule.now)
        → ComesTo (rule_result_by at.now.external.now at.now.limit (rule_of_def rule.now) (failed_by (meaning at.now.step history (tree_of rule.now.expr) at.now.time))) result }
    ensures rising { IfOk result (λ v. FoundsRise v.items) }
    ensures reads { (history : List Entry) → MayBegin head.now history (tree_of rule.now.expr) at.now.time (R.fits ranges.old history) (R.last ranges.old)
        → reads.new ≤ reads.old + cost at.now.step history (passed_outside false history (R.passed ranges.old)) (tree_of rule.now.expr) 0 at.now.time }
    ensures fits { (history : List Entry) → MayBegin head.now history (tree_of rule.now.expr) at.now.time (R.fits ranges.old history) (R.last ranges.old)
        → result ≢ Err Memory → R.fits ranges.new history }
    ensures asked { (history : List Entry) → MayBegin head.now history (tree_of rule.now.expr) at.now.time (R.fits ranges.old history) (R.last ranges.old)
        → result ≢ Err Memory → AreAllAsked R.keeps history (is_ok (meaning at.now.step history (tree_of rule.now.expr) at.now.time)) (asks_of history (tree_of rule.now.expr) at.now.time) 0
        (kept_by (R.last ranges.old) (R.passed ranges.old)) (kept_by (R.last ranges.new) (R.passed ranges.new)) }
{
    let given = eval(at.alloc, &rule.expr, head, at.time, at.step, ranges, reads);
    rule_result(
        at.alloc,
        at.external,
        at.limit,
        rule,
        templates,
        made,
        given,
    )
}

/// What a rule comes to at a time, over a head, before anything is put: its samples, and what is
/// sent of its alerts, which go on.
///
/// # Errors
/// The fault of the rule; `LimitExceeded` with an alert forgets its alerts. Want of memory.
pub(crate) fn outcome<R: Ranges, G: Ledger>(
    at: &Evaluation<'_>,
    rule: &RuleDef,
    templates: &RuleTemplates,
    made: &mut MadeLabels,
    records: &mut Records,
    head: &Head,
    ranges: &mut R,
    reads: &mut Steps<G>,
) -> Result<Offered, RuleError>
    requires { 0 < at.now.step }
    ensures offers { (s : Settings) (g : Group) (r : RuleState) (history : List Entry) → IsEvaluationOf at.now.step at.now.external.now at.now.limit at.now.interval at.now.waits s g
        → rule_of_def rule.now ≡ r.rule → IsTemplatesOf templates.now r.rule → (r.rule.alert ≡ true → StandsFor records.old r.lineage)
        → MayBegin head.now history (tree_of rule.now.expr) at.now.time (R.fits ranges.old history) (R.last ranges.old)
        → Offers at.now.tells (rule_outcome s g r history at.now.time) records.new g r at.now.time result }
    ensures reads { (history : List Entry) → MayBegin head.now history (tree_of rule.now.expr) at.now.time (R.fits ranges.old history) (R.last ranges.old)
        → reads.new ≤ reads.old + cost at.now.step history (passed_outside false history (R.passed ranges.old)) (tree_of rule.now.expr) 0 at.now.time }
    ensures fits { (history : List Entry) → MayBegin head.now history (tree_of rule.now.expr) at.now.time (R.fits ranges.old history) (R.last ranges.old)
        → result ≢ Err Memory → R.fits ranges.new history }
    ensures asked { (history : List Entry) → MayBegin head.now history (tree_of rule.now.expr) at.now.time (R.fits ranges.old history) (R.last ranges.old)
        → result ≢ Err Memory → AreAllAsked R.keeps history (is_ok (meaning at.now.step history (tree_of rule.now.expr) at.now.time)) (asks_of history (tree_of rule.now.expr) at.now.time) 0
        (kept_by (R.last ranges.old) (R.passed ranges.old)) (kept_by (R.last ranges.new) (R.passed ranges.new)) }
{
    a_fault_leaves_the_records();
    match found(at, rule, templates, made, head, ranges, reads) {
        Ok(founds) => offer(at, rule, records, founds),
        Err(error) => Err(error),
    }
}
