// The series that rules wrote last, in label order.
ghost use Rattle.std.specs.Prelude.{◌≡◌, List, IfOk, OnOk, flat_map, fold};
ghost use Rattle.pr_ast.specs.pr_labels.Rising.{with_labels};
ghost use Rattle.pr_group.specs.private.Carrying.{previous_in};

use pr_ast::labels::Labels;
use pr_rule::Remembered;
use pr_rule::head::intake::add_labels;
use pr_rule::range::Ranges;
use std::alloc::{AllocError, Global};
use std::collections::BTreeSet;

/// Puts label sets among those that are there, each once.
pub(crate) fn add_all(
    alloc: Global,
    sets: &mut BTreeSet<Labels>,
    more: &[Labels],
) -> Result<(), AllocError>
    ensures { OnOk result (sets.new.keys ≡ fold with_labels sets.old.keys more.now) }
{
    for labels in more {
        add_labels(sets, labels.copy(alloc)?)?;
    }
    Ok(())
}

/// Adds what rules wrote last.
#[tactic(auto, using(crate::proofs::Wrote::in_two_parts))]
pub(crate) fn add_written<R: Ranges + Drop>(
    alloc: Global,
    sets: &mut BTreeSet<Labels>,
    rules: &[Remembered<R>],
) -> Result<(), AllocError>
    ensures { OnOk result (sets.new.keys ≡ fold with_labels sets.old.keys (flat_map (λ m. m.previous) rules.now)) }
{
    for rule in rules {
        add_all(alloc, sets, rule.previous())?;
    }
    Ok(())
}

// Adds what one wrote last that may be gone.
fn add_spared_one<R: Ranges + Drop>(
    alloc: Global,
    sets: &mut BTreeSet<Labels>,
    rule: &Option<Remembered<R>>,
) -> Result<(), AllocError>
    ensures { OnOk result (sets.new.keys ≡ fold with_labels sets.old.keys (previous_in rule.now)) }
{
    match rule {
        None => Ok(()),
        Some(rule) => add_all(alloc, sets, rule.previous()),
    }
}

/// Adds what those wrote last that are left.
#[tactic(auto, using(crate::proofs::Wrote::in_two_parts))]
pub(crate) fn add_spared<R: Ranges + Drop>(
    alloc: Global,
    sets: &mut BTreeSet<Labels>,
    rules: &[Option<Remembered<R>>],
) -> Result<(), AllocError>
    ensures { OnOk result (sets.new.keys ≡ fold with_labels sets.old.keys (flat_map previous_in rules.now)) }
{
    for rule in rules {
        add_spared_one(alloc, sets, rule)?;
    }
    Ok(())
}

/// The label sets of a set.
pub(crate) fn listed(alloc: Global, sets: BTreeSet<Labels>) -> Result<Vec<Labels>, AllocError>
    ensures { IfOk result (λ v. v.items ≡ sets.keys) }
{
    let mut list = Vec::new(alloc);
    for labels in sets {
        list.push(labels)?;
    }
    Ok(list)
}
