// What is found at checks, each in its slot.
ghost use Rattle.std.specs.Prelude.{◌≡◌, ◌++◌, IfOk, OnOk, length};
ghost use Rattle.std.specs.List.{flat_map};
ghost use Rattle.pr_unit.specs.private.Slots.{empty_slots};

use pr_ast::words_crate::Items;
use spec_tests::Failure;
use std::alloc::{AllocError, Global};

/// So many slots in which nothing is found.
pub(crate) fn empty_slots(alloc: Global, count: usize) -> Result<Vec<Items<Failure>>, AllocError>
    ensures { IfOk result (λ v. v.items ≡ empty_slots count) }
{
    let mut slots = Vec::new(alloc);
    for _slot in 0..count {
        slots.push(Items::empty(alloc))?;
    }
    Ok(slots)
}

fn push_all(list: Items<Failure>, failures: &mut Vec<Failure>) -> Result<(), AllocError>
    ensures { OnOk result (failures.new.items ≡ failures.old.items ++ list) }
{
    for failure in list.into_vec() {
        failures.push(failure)?;
    }
    Ok(())
}

/// Puts what is found behind others, slot by slot.
pub(crate) fn gather(
    slots: Vec<Items<Failure>>,
    failures: &mut Vec<Failure>,
) -> Result<(), AllocError>
    ensures { OnOk result (failures.new.items ≡ failures.old.items ++ flat_map (λ list. list) slots.items) }
{
    for list in slots {
        push_all(list, failures)?;
    }
    Ok(())
}
