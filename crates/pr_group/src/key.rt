// What tells a rule's kind, its name and its labels.
ghost use Rattle.std.specs.Prelude.{◌≡◌, ◌++◌, IfOk, OnOk};
ghost use Rattle.pr_rule.specs.spec_rules.Definitions.{name_key};
ghost use Rattle.pr_group.specs.private.Matching.{key_of, labels_key, pair_key};

use crate::continued::KeyBytes;
use pr_ast::labels::Pair;
use pr_ast::words_crate::strings::write_string;
use pr_rule::rules_crate::RuleDef;
use std::alloc::{AllocError, Global};

fn push_pair(out: &mut Vec<u8>, pair: &Pair) -> Result<(), AllocError>
    ensures { OnOk result (out.new.items ≡ out.old.items ++ pair_key pair.now) }
{
    write_string(pair.name.as_str().as_bytes(), out)?;
    write_string(pair.value.as_str().as_bytes(), out)
}

fn push_labels(out: &mut Vec<u8>, labels: &[Pair]) -> Result<(), AllocError>
    ensures { OnOk result (out.new.items ≡ out.old.items ++ labels_key labels.now) }
{
    for pair in labels {
        push_pair(out, pair)?;
    }
    Ok(())
}

fn kind_word(alert: bool) -> &'static str
    ensures { result.now ≡ name_key alert }
{
    if alert { "alert" } else { "record" }
}

/// What tells which rules may go on from one another: those of one key have one kind, one name and
/// the same labels.
pub(crate) fn key(alloc: Global, rule: &RuleDef) -> Result<KeyBytes, AllocError>
    ensures { IfOk result (λ k. k ≡ key_of rule.now) }
{
    let mut key = Vec::new(alloc);
    key.extend_from_slice(kind_word(rule.alert).as_bytes())?;
    write_string(rule.name.as_str().as_bytes(), &mut key)?;
    push_labels(&mut key, rule.labels.as_slice())?;
    Ok(KeyBytes::new(key))
}
