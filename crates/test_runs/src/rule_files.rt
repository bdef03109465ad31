// The groups of rule files.
use pr_ast::labels::Pair;
use pr_top::rulefile::read;
use pr_top::rules_crate::RuleDef;
use std::alloc::{AllocError, Global};

fn show_pairs(alloc: Global, out: &mut String, pairs: &[Pair]) -> Result<(), AllocError> {
    for pair in pairs {
        let (name, value) = (pair.name.as_str(), pair.value.as_str());
        out.push_str(&format!(in alloc; " {name}={value}")?)?;
    }
    Ok(())
}

fn show_rule(alloc: Global, out: &mut String, rule: &RuleDef) -> Result<(), AllocError> {
    let kind = if rule.alert { "alert" } else { "record" };
    let name = rule.name.as_str();
    out.push_str(&format!(in alloc; " {kind} {name} {}", rule.hold.get())?)?;
    if rule.keep.get() > 0 {
        out.push_str(&format!(in alloc; " keep {}", rule.keep.get())?)?;
    }
    out.push_str(" labels")?;
    show_pairs(alloc, out, rule.labels.as_slice())?;
    out.push_str(" notes")?;
    show_pairs(alloc, out, rule.notes.as_slice())?;
    out.push('\n')
}

/// The groups of a text and their rules, a line each.
pub(crate) fn groups_shown(alloc: Global, text: &str) -> Result<String, AllocError> {
    let mut out = String::new(alloc);
    if text.len() >= 1 << 32 {
        return Ok(out);
    }
    let Ok(file) = read(alloc, text.as_bytes()) else {
        return Ok(out);
    };
    for group in file.groups.as_slice() {
        let name = group.name.as_str();
        out.push_str(&match group.interval {
            Some(span) => format!(in alloc; "{name} {} {}\n", span.get(), group.limit)?,
            None => format!(in alloc; "{name} none {}\n", group.limit)?,
        })?;
        for rule in group.rules.as_slice() {
            show_rule(alloc, &mut out, rule)?;
        }
    }
    Ok(out)
}
