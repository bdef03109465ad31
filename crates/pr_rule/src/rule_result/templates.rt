// The templates of an alert's labels and annotations.
ghost use Rattle.std.specs.Prelude.{◌≡◌, IfOk, IsSome, Some};
ghost use Rattle.spec_rules.specs.pr_tmpl.TemplateReading.{template_parts};
ghost use Rattle.spec_rules.specs.Definitions.{AreTemplates, rule_of_def};
ghost use Rattle.pr_rule.specs.private.Templates.{AreTemplatesOf, HasTemplates, IsTemplateOf, IsTemplatesOf};

use pr_labels::Pair;
use pr_labels::words_crate::{Items, Text};
use spec_rules::RuleDef;
use spec_rules::tmpl::{Template, TmplError};
use std::alloc::{AllocError, Global};

/// A label or an annotation of an alert, read as a template.
#[derive(Debug, Drop)]
pub struct NamedTemplate {
    /// The name of the label or the annotation.
    pub name: Text,
    /// What its value is as a template.
    pub template: Template,
}

/// The templates of a rule. One that records has none.
#[derive(Debug, Drop)]
pub struct RuleTemplates {
    /// Those of its labels, in order of name.
    pub labels: Items<NamedTemplate>,
    /// Those of its annotations, in order of name.
    pub notes: Items<NamedTemplate>,
}

// The template that a text is.
fn template_of(alloc: Global, text: &str) -> Result<Template, AllocError>
    requires { IsSome (template_parts text.now) }
    ensures { IfOk result (λ t. template_parts text.now ≡ Some t) }
{
    match Template::parse(alloc, text) {
        Ok(template) => Ok(template),
        Err(TmplError::Memory) => Err(AllocError),
        Err(TmplError::BadTemplate { .. }) => unreachable!(),
    }
}

// A pair whose value is a template.
fn named_template(alloc: Global, pair: &Pair) -> Result<NamedTemplate, AllocError>
    requires { IsSome (template_parts pair.now.value) }
    ensures { IfOk result (λ t. IsTemplateOf t pair.now) }
{
    Ok(NamedTemplate {
        name: pair.name.copy(alloc)?,
        template: template_of(alloc, pair.value.as_str())?,
    })
}

// Pairs whose values are templates.
fn named_templates(alloc: Global, pairs: &[Pair]) -> Result<Items<NamedTemplate>, AllocError>
    requires { AreTemplates pairs.now }
    ensures { IfOk result (λ ts. AreTemplatesOf ts pairs.now) }
{
    let mut templates = Items::empty(alloc);
    for pair in pairs {
        templates.push(named_template(alloc, pair)?)?;
    }
    Ok(templates)
}

/// The templates of a rule, so that they are read once and not at each evaluation. (Prometheus:
/// Alerting rules, "Templating".)
pub fn templates_of(alloc: Global, rule: &RuleDef) -> Result<RuleTemplates, AllocError>
    requires { HasTemplates (rule_of_def rule.now) }
    ensures { IfOk result (λ t. IsTemplatesOf t (rule_of_def rule.now)) }
{
    if !rule.alert {
        return Ok(RuleTemplates {
            labels: Items::empty(alloc),
            notes: Items::empty(alloc),
        });
    }
    Ok(RuleTemplates {
        labels: named_templates(alloc, rule.labels.as_slice())?,
        notes: named_templates(alloc, rule.notes.as_slice())?,
    })
}
