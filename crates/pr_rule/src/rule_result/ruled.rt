// What a rule makes of a vector.
ghost use Rattle.std.specs.Prelude.{◌≡◌, ◌++◌, false, List, [], ◌∷◌, IfOk, OnOk, map};
ghost use Rattle.spec_rules.specs.spec_alerts.declared.found.RuleElement.{RuleElement};
ghost use Rattle.spec_rules.specs.Definitions.{rule_of_def};
ghost use Rattle.spec_rules.specs.declared.fault.RuleFault.TheVariants.{LimitExceeded};
ghost use Rattle.spec_rules.specs.private.Laws.{FoundsRise};
ghost use Rattle.spec_rules.specs.Results.{failure, found_of, ruled, within_limit, without_place};
ghost use Rattle.pr_rule.specs.private.Coming.{ComesTo};
ghost use Rattle.pr_rule.specs.private.Rows.{AreRows};
ghost use Rattle.pr_rule.specs.private.Making.{IsOfRule};
ghost use Rattle.pr_rule.specs.private.Templates.{IsTemplatesOf};

use crate::rule_result::error::RuleError;
use crate::rule_result::found::found_of;
use crate::rule_result::made::MadeLabels;
use crate::rule_result::rows::{DistinctElements, founds_apart, no_rows, put};
use crate::rule_result::templates::RuleTemplates;
use pr_ast::num::Num;
use pr_labels::Item;
use spec_rules::alerts_crate::RuleElement;
use spec_rules::tmpl::External;
use spec_rules::{RuleDef, RuleFailure, RuleFault};
use std::alloc::{AllocError, Global};

// Puts what the rule makes of the element at a place.
fn put_found(
    alloc: Global,
    rows: &mut DistinctElements,
    external: &External,
    rule: &RuleDef,
    templates: &RuleTemplates,
    made: &mut MadeLabels,
    place: usize,
    item: &Item<Num>,
) -> Result<(), AllocError>
    ensures puts { (front : List RuleElement) → IsTemplatesOf templates.now (rule_of_def rule.now) → IsOfRule made.old (rule_of_def rule.now) → AreRows front rows.old
        → OnOk result (AreRows (front ++ found_of external.now (rule_of_def rule.now) item.now ∷ []) rows.new) }
    ensures stays { made.new ≡ made.old }
{
    let found = found_of(alloc, external, rule, templates, made, place, item)?;
    put(rows, found)
}

// What the rule makes of all elements. What is remembered beyond them is forgotten.
fn all_found(
    alloc: Global,
    external: &External,
    rule: &RuleDef,
    templates: &RuleTemplates,
    made: &mut MadeLabels,
    items: &[Item<Num>],
) -> Result<DistinctElements, AllocError>
    ensures { IsTemplatesOf templates.now (rule_of_def rule.now) → IsOfRule made.old (rule_of_def rule.now)
        → IfOk result (AreRows (map (found_of external.now (rule_of_def rule.now)) items.now)) }
{
    let mut rows = no_rows(alloc, items.len())?;
    for (place, item) in items.iter().enumerate() {
        put_found(
            alloc, &mut rows, external, rule, templates, made, place, item,
        )?;
    }
    made.truncate(items.len());
    Ok(rows)
}

/// The failure of a rule that comes to more than its limit.
pub fn limit_exceeded(limit: u32, have: u64) -> RuleFailure
    ensures { result ≡ failure 0 (LimitExceeded limit have) }
{
    RuleFailure {
        place: 0,
        kind: RuleFault::LimitExceeded { limit, have },
    }
}

// No more elements than the limit, of which 0 is none.
fn limited(limit: u32, founds: Vec<RuleElement>) -> Result<Vec<RuleElement>, RuleError>
    ensures comes { ComesTo (without_place (within_limit false limit founds.items)) result }
    ensures rising { FoundsRise founds.items → IfOk result (λ v. FoundsRise v.items) }
{
    let have = founds.len() as u64;
    if limit == 0 || have <= limit as u64 {
        return Ok(founds);
    }
    Err(RuleError::Failed {
        failure: limit_exceeded(limit, have),
    })
}

// What a rule makes of a vector, by the labels of each element.
fn ruled_anew(
    alloc: Global,
    external: &External,
    limit: u32,
    rule: &RuleDef,
    templates: &RuleTemplates,
    made: &mut MadeLabels,
    items: &[Item<Num>],
) -> Result<Vec<RuleElement>, RuleError>
    ensures comes { IsTemplatesOf templates.now (rule_of_def rule.now) → IsOfRule made.old (rule_of_def rule.now)
        → ComesTo (without_place (ruled external.now limit (rule_of_def rule.now) items.now)) result }
    ensures rising { IfOk result (λ v. FoundsRise v.items) }
{
    let rows = all_found(alloc, external, rule, templates, made, items)?;
    match founds_apart(alloc, rows) {
        Ok(founds) => {
            if rule.alert {
                Ok(founds)
            } else {
                limited(limit, founds)
            }
        }
        Err(error) => Err(error),
    }
}

/// What a rule makes of a vector, in label order. The limit is one on what is recorded: of an alert
/// not the elements are counted. A rule that records the elements of its last result again has what
/// it made of them in order.
pub(crate) fn ruled(
    alloc: Global,
    external: &External,
    limit: u32,
    rule: &RuleDef,
    templates: &RuleTemplates,
    made: &mut MadeLabels,
    items: &[Item<Num>],
) -> Result<Vec<RuleElement>, RuleError>
    ensures comes { IsTemplatesOf templates.now (rule_of_def rule.now) → IsOfRule made.old (rule_of_def rule.now)
        → ComesTo (without_place (ruled external.now limit (rule_of_def rule.now) items.now)) result }
    ensures rising { IfOk result (λ v. FoundsRise v.items) }
{
    if !rule.alert {
        if let Some(founds) = made.all_recorded(alloc, items)? {
            return limited(limit, founds);
        }
    }
    ruled_anew(alloc, external, limit, rule, templates, made, items)
}
