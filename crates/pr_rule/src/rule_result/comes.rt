// What the answer of its expression comes to in a rule.
ghost use Rattle.std.specs.Prelude.{◌≡◌, IfOk, Err, Result};
ghost use Rattle.spec_rules.specs.spec_meaning.declared.fault.Fault.{Fault};
ghost use Rattle.spec_rules.specs.spec_meaning.declared.value.Value.{Value};
ghost use Rattle.pr_eval.specs.private.Answers.{AnswersTo};
ghost use Rattle.pr_eval.specs.declared.values.error.EvalError.TheVariants as evaluation;
ghost use Rattle.spec_rules.specs.Definitions.{rule_of_def};
ghost use Rattle.spec_rules.specs.declared.fault.RuleFault.TheVariants.{Eval};
ghost use Rattle.spec_rules.specs.private.Laws.{FoundsRise};
ghost use Rattle.spec_rules.specs.Results.{failed_by, failure, rule_result_by, value_elements};
ghost use Rattle.pr_rule.specs.declared.rule_result.error.RuleError.TheVariants.{Memory};
ghost use Rattle.pr_rule.specs.private.Coming.{ComesTo};
ghost use Rattle.pr_rule.specs.private.Templates.{IsTemplatesOf};

use crate::rule_result::error::RuleError;
use crate::rule_result::made::MadeLabels;
use crate::rule_result::ruled::ruled;
use crate::rule_result::templates::RuleTemplates;
use pr_ast::Place;
use pr_ast::num::Num;
use pr_eval::values::EvalError;
use pr_labels::{Item, Labels};
use spec_rules::alerts_crate::RuleElement;
use spec_rules::meaning::{FaultKind, Value};
use spec_rules::tmpl::External;
use spec_rules::{RuleDef, RuleFailure, RuleFault};
use std::alloc::{AllocError, Global};

// The elements of a value: a number is one without labels.
fn value_elements(alloc: Global, value: Value) -> Result<Vec<Item<Num>>, AllocError>
    ensures { IfOk result (λ v. v.items ≡ value_elements value) }
{
    match value {
        Value::Scalar { value } => {
            let mut items = Vec::new(alloc);
            items.push(Item {
                labels: Labels::empty(alloc),
                value,
            })?;
            Ok(items)
        }
        Value::Vector { items } => Ok(items.into_vec()),
    }
}

// A fault of the expression has the place at which its part begins.
fn eval_failure(place: Place, kind: FaultKind) -> RuleFailure
    ensures { result ≡ failure place.start (Eval kind) }
{
    RuleFailure {
        place: place.start,
        kind: RuleFault::Eval { kind },
    }
}

/// What the answer of its expression comes to in a rule, in a group with this limit: labels,
/// annotations and values in label order. What is recorded gets the rule's name and labels; an
/// alert loses the metric's name, and gets the rule's labels and annotations with their templates
/// expanded. (Prometheus: Recording rules; Alerting rules; rules/alerting.go, Eval.) The labels
/// that a rule made last are shared where its elements have the same labels again, and what its
/// templates expand to is the same; where all elements of a rule that records have them, and what
/// was made is in label order, it is not put in order again.
///
/// # Errors
/// The fault of the expression, with its place. Two elements that have the same labels once the
/// rule has set its own, the least such; or more of what is recorded than the limit, where it is
/// not 0. Want of memory, also where the expression's answer is that.
#[tactic(auto, using(crate::proofs::Ruling::by_value, crate::proofs::Ruling::by_fault))]
pub fn rule_result(
    alloc: Global,
    external: &External,
    limit: u32,
    rule: &RuleDef,
    templates: &RuleTemplates,
    made: &mut MadeLabels,
    given: Result<Value, EvalError>,
) -> Result<Vec<RuleElement>, RuleError>
    ensures comes { (meant : Result Value Fault) → AnswersTo meant given → IsTemplatesOf templates.now (rule_of_def rule.now)
        → ComesTo (rule_result_by external.now limit (rule_of_def rule.now) (failed_by meant)) result }
    ensures memory { given ≡ Err evaluation.Memory → result ≡ Err Memory }
    ensures rising { IfOk result (λ v. FoundsRise v.items) }
{
    match given {
        Ok(value) => {
            made.fit(alloc, rule)?;
            let elements = value_elements(alloc, value)?;
            ruled(alloc, external, limit, rule, templates, made, &elements)
        }
        Err(EvalError::Fault { place, kind }) => Err(RuleError::Failed {
            failure: eval_failure(place, kind),
        }),
        Err(EvalError::Memory) => Err(RuleError::Memory),
    }
}
