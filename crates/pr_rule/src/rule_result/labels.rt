// The labels and annotations that a rule gives an element.
ghost use Rattle.std.specs.Prelude.{◌≡◌, IfOk};
ghost use Rattle.spec_rules.specs.pr_tmpl.Expansion.{expansion};
ghost use Rattle.spec_rules.specs.Definitions.{rule_of_def};
ghost use Rattle.spec_rules.specs.Results.{alerting_labels, made_labels};
ghost use Rattle.pr_rule.specs.private.Making.{alert_made};
ghost use Rattle.pr_rule.specs.private.Templates.{AreTemplatesOf, all_expanded_by, expanded_pair_by};

use crate::rule_result::made::MadeLabels;
use crate::rule_result::setting::set_all;
use crate::rule_result::templates::NamedTemplate;
use pr_ast::num::Num;
use pr_labels::words_crate::{Items, Text};
use pr_labels::{Item, Labels, METRIC_LABEL, Pair};
use spec_rules::RuleDef;
use spec_rules::tmpl::{External, Template};
use std::alloc::{AllocError, Global};

// The name under which the alert's name stands.
const ALERT_LABEL: &str = "alertname";

/// The labels that a rule of this name and with these labels makes of those of an element.
pub(crate) fn made_labels(
    alloc: Global,
    name: &str,
    over: &[Pair],
    from: &Labels,
) -> Result<Labels, AllocError>
    ensures { IfOk result (λ l. l ≡ made_labels name.now over.now from.now) }
{
    let mut labels = from.copy(alloc)?;
    labels.assign(alloc, METRIC_LABEL, name)?;
    set_all(alloc, &mut labels, over)?;
    Ok(labels)
}

// What a template expands to, which sees the element as its expression gives it.
fn expanded(
    alloc: Global,
    external: &External,
    template: &Template,
    item: &Item<Num>,
) -> Result<Text, AllocError>
    ensures { IfOk result (λ text. text ≡ expansion item.now.labels item.now.value external.now template.now) }
{
    let text = template.expand(alloc, &item.labels, item.value, external)?;
    Ok(Text::new(text))
}

fn expanded_pair(
    alloc: Global,
    external: &External,
    named: &NamedTemplate,
    item: &Item<Num>,
) -> Result<Pair, AllocError>
    ensures { IfOk result (λ p. p ≡ expanded_pair_by external.now item.now named.now) }
{
    Ok(Pair {
        name: named.name.copy(alloc)?,
        value: expanded(alloc, external, &named.template, item)?,
    })
}

/// What the templates of labels or annotations expand to, in their order.
pub(crate) fn expanded_pairs(
    alloc: Global,
    external: &External,
    templates: &[NamedTemplate],
    item: &Item<Num>,
) -> Result<Items<Pair>, AllocError>
    ensures { IfOk result (λ pairs. pairs ≡ all_expanded_by external.now item.now templates.now) }
{
    let mut pairs = Items::empty(alloc);
    for named in templates {
        pairs.push(expanded_pair(alloc, external, named, item)?)?;
    }
    Ok(pairs)
}

/// The labels of an alert of a rule of this name, made of those of its element and of what the
/// templates of the rule's labels come to.
pub(crate) fn alert_made(
    alloc: Global,
    name: &str,
    over: &[Pair],
    from: &Labels,
) -> Result<Labels, AllocError>
    ensures { IfOk result (λ l. l ≡ alert_made name.now over.now from.now) }
{
    let mut labels = from.copy(alloc)?;
    labels.remove(alloc, METRIC_LABEL)?;
    set_all(alloc, &mut labels, over)?;
    labels.assign(alloc, ALERT_LABEL, name)?;
    Ok(labels)
}

/// The labels of the alert that the element at a place is. They are those of the last result, where
/// they were made of the same.
pub(crate) fn alerting_labels(
    alloc: Global,
    external: &External,
    rule: &RuleDef,
    templates: &[NamedTemplate],
    made: &mut MadeLabels,
    place: usize,
    item: &Item<Num>,
) -> Result<Labels, AllocError>
    ensures labels { AreTemplatesOf templates.now rule.now.labels → IfOk result (λ l. l ≡ alerting_labels external.now (rule_of_def rule.now) item.now) }
    ensures stays { made.new ≡ made.old }
{
    let over = expanded_pairs(alloc, external, templates, item)?;
    made.alert(alloc, place, &rule.name, over, &item.labels)
}
