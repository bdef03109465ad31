// Which older rules new ones go on from.
ghost use Rattle.std.specs.Prelude.{◌≡◌, IfOk, length};
ghost use Rattle.pr_rule.specs.pr_range.private.Carried.{IsOnce};
ghost use Rattle.pr_rule.specs.spec_rules.private.Laws.{numbered, numbers_taken};
ghost use Rattle.pr_group.specs.private.Named.{AreBelow};
ghost use Rattle.pr_group.specs.private.Waiting.{AreWaiting};
ghost use Rattle.pr_group.specs.private.Matching.{continues_def, key_of};

use crate::continued::NumbersByKey;
use crate::key::key;
use pr_rule::rules_crate::RuleDef;
use std::alloc::{AllocError, Global};

// All older ones wait.
fn waiting(alloc: Global, old: &[RuleDef]) -> Result<NumbersByKey, AllocError>
    ensures { IfOk result (λ w. AreWaiting key_of w (numbered old.now)) }
{
    let mut waiting = NumbersByKey::new(alloc);
    for (number, rule) in old.iter().enumerate() {
        waiting.push(alloc, key(alloc, rule)?, number)?;
    }
    Ok(waiting)
}

/// For each new rule the number of the older one that it goes on from: the first of its kind with
/// its name and its labels that none before it goes on from.
pub(crate) fn continued_numbers(
    alloc: Global,
    new: &[RuleDef],
    old: &[RuleDef],
) -> Result<Vec<Option<usize>>, AllocError>
    ensures answer { IfOk result (λ v. v.items ≡ numbers_taken continues_def new.now old.now) }
{
    let mut waiting = waiting(alloc, old)?;
    let mut numbers = Vec::new(alloc);
    for rule in new {
        numbers.push(waiting.take(&key(alloc, rule)?))?;
    }
    Ok(numbers)
}
