// Which older range selector each one goes on from.
ghost use Rattle.std.specs.Prelude.{◌≡◌, IfOk, length};
ghost use Rattle.pr_ast.specs.Tree.{tree_of};
ghost use Rattle.pr_rule.specs.pr_range.private.Carried.{IsOnce};
ghost use Rattle.pr_rule.specs.spec_rules.private.Carried.{carried_numbers, range_uses, same_use};
ghost use Rattle.pr_rule.specs.spec_rules.private.Laws.{numbered, numbers_taken};
ghost use Rattle.pr_group.specs.private.Named.{AreBelow};
ghost use Rattle.pr_group.specs.private.Waiting.{AreWaiting, key_of};

use crate::continued::gathering::sources;
use crate::continued::source::Source;
use crate::continued::waiting::NumbersByKey;
use pr_ast::Expr;
use std::alloc::{AllocError, Global};

// All older ones wait.
fn waiting(alloc: Global, old: &[Source]) -> Result<NumbersByKey, AllocError>
    ensures { IfOk result (λ w. AreWaiting key_of w (numbered old.now)) }
{
    let mut waiting = NumbersByKey::new(alloc);
    for (number, source) in old.iter().enumerate() {
        waiting.push(alloc, source.key(alloc)?, number)?;
    }
    Ok(waiting)
}

// For each new one the first older one that is equal and not yet taken.
fn continued(
    alloc: Global,
    new: &[Source],
    old: &[Source],
) -> Result<Vec<Option<usize>>, AllocError>
    ensures answer { IfOk result (λ v. v.items ≡ numbers_taken same_use new.now old.now) }
{
    let mut waiting = waiting(alloc, old)?;
    let mut numbers = Vec::new(alloc);
    for source in new {
        numbers.push(waiting.take(&source.key(alloc)?))?;
    }
    Ok(numbers)
}

/// For each range selector of a new expression, in the order of their numbers, the number of the
/// one of an old expression whose windows it takes over: the first that is printed alike under the
/// same function and that none before it takes. Range selectors inside subqueries are among them.
/// (Own choice: windows that go on change no answer.)
pub fn carried(alloc: Global, new: &Expr, old: &Expr) -> Result<Vec<Option<usize>>, AllocError>
    ensures answer { IfOk result (λ v. v.items ≡ carried_numbers (tree_of new.now) (tree_of old.now)) }
    // No old one is named twice, and each that is named is there.
    ensures once { IfOk result (λ v. IsOnce v.items) }
    ensures below { IfOk result (λ v. AreBelow (length (range_uses (tree_of old.now))) v.items) }
{
    let old = sources(alloc, old)?;
    let new = sources(alloc, new)?;
    continued(alloc, &new, &old)
}
