// What a rule makes of an element.
ghost use Rattle.std.specs.Prelude.{◌≡◌, false, true, IfOk};
ghost use Rattle.spec_rules.specs.Definitions.{Rule, rule_of_def};
ghost use Rattle.spec_rules.specs.pr_tmpl.declared.template.External.{External};
ghost use Rattle.spec_rules.specs.Results.{found_by, found_of};
ghost use Rattle.pr_rule.specs.private.Making.{IsOfRule};
ghost use Rattle.pr_rule.specs.private.Templates.{IsTemplatesOf};

use crate::rule_result::labels::{alerting_labels, expanded_pairs};
use crate::rule_result::made::MadeLabels;
use crate::rule_result::templates::RuleTemplates;
use pr_ast::num::Num;
use pr_labels::Item;
use pr_labels::words_crate::Items;
use spec_rules::RuleDef;
use spec_rules::alerts_crate::RuleElement;
use spec_rules::tmpl::External;
use std::alloc::{AllocError, Global};

// What a rule that records makes of the element at a place, by what is remembered of it.
#[tactic(auto, using(crate::proofs::Making::recorded_so))]
fn recorded(
    alloc: Global,
    made: &mut MadeLabels,
    place: usize,
    item: &Item<Num>,
) -> Result<RuleElement, AllocError>
    ensures found { (external : External) (rule : Rule) → made.old ≡ (rule.name, rule.labels) → IfOk result (λ f. f ≡ found_by external rule false item.now) }
    ensures stays { made.new ≡ made.old }
{
    Ok(RuleElement {
        labels: made.recorded(alloc, place, &item.labels)?,
        notes: Items::empty(alloc),
        value: item.value,
    })
}

// The alert that the element at a place is, by what is remembered of its labels.
#[tactic(auto, using(crate::proofs::Templated::expanded_so))]
fn alerting(
    alloc: Global,
    external: &External,
    rule: &RuleDef,
    templates: &RuleTemplates,
    made: &mut MadeLabels,
    place: usize,
    item: &Item<Num>,
) -> Result<RuleElement, AllocError>
    ensures found { rule.now.alert ≡ true → IsTemplatesOf templates.now (rule_of_def rule.now)
        → IfOk result (λ f. f ≡ found_by external.now (rule_of_def rule.now) true item.now) }
    ensures stays { made.new ≡ made.old }
{
    let named = templates.labels.as_slice();
    let labels = alerting_labels(alloc, external, rule, named, made, place, item)?;
    let notes = expanded_pairs(alloc, external, templates.notes.as_slice(), item)?;
    Ok(RuleElement {
        labels,
        notes,
        value: item.value,
    })
}

/// What a rule makes of the element at a place: what it records of it, or the alert that it is.
pub(crate) fn found_of(
    alloc: Global,
    external: &External,
    rule: &RuleDef,
    templates: &RuleTemplates,
    made: &mut MadeLabels,
    place: usize,
    item: &Item<Num>,
) -> Result<RuleElement, AllocError>
    ensures found { IsTemplatesOf templates.now (rule_of_def rule.now) → IsOfRule made.old (rule_of_def rule.now)
        → IfOk result (λ f. f ≡ found_of external.now (rule_of_def rule.now) item.now) }
    ensures stays { made.new ≡ made.old }
{
    if rule.alert {
        alerting(alloc, external, rule, templates, made, place, item)
    } else {
        recorded(alloc, made, place, item)
    }
}
