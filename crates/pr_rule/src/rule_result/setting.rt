// The labels of a rule, set over those of an element.
ghost use Rattle.std.specs.Prelude.{◌≡◌, None, not, IfOk, OnOk};
ghost use Rattle.pr_labels.specs.Edits.{first_fault, has_value, labels_of, set_label, union_labels};
ghost use Rattle.pr_rule.specs.private.Setting.{emptied};

use pr_labels::words_crate::Text;
use pr_labels::{LabelFault, Labels, Pair};
use std::alloc::{AllocError, Global};

// Labels are set one by one where a rule has so few. Else they are made a label set first.
const FEW: usize = 16;

// Sets the value of a name of the rule's own labels, which is that of a label: a rule file has no
// others.
fn set(alloc: Global, labels: &mut Labels, name: &str, value: &str) -> Result<(), AllocError>
    ensures { OnOk result (labels.new ≡ set_label labels.old name.now value.now) }
{
    match labels.set(alloc, name, value) {
        Ok(()) => Ok(()),
        Err(_) => Err(AllocError),
    }
}

// Sets labels one by one.
fn set_each(alloc: Global, labels: &mut Labels, over: &[Pair]) -> Result<(), AllocError>
    ensures { OnOk result (labels.new ≡ union_labels labels.old over.now) }
{
    for pair in over {
        set(alloc, labels, pair.name.as_str(), pair.value.as_str())?;
    }
    Ok(())
}

// Whether the pair's value is empty.
#[tactic(auto, using(crate::proofs::SettingAtOnce::no_value))]
fn is_empty(pair: &Pair) -> bool
    ensures { result ≡ not (has_value pair.now) }
{
    pair.value.as_str().is_empty()
}

// The names whose values are empty, which are taken out.
fn emptied(alloc: Global, over: &[Pair]) -> Result<Vec<Text>, AllocError>
    ensures { IfOk result (λ v. v.items ≡ emptied over.now) }
{
    let mut names = Vec::new(alloc);
    for pair in over {
        if is_empty(pair) {
            names.push(pair.name.copy(alloc)?)?;
        }
    }
    Ok(names)
}

// Sets the labels of a set, which is that of these labels: those whose values are empty are taken
// out, and the set is gone over once with the labels that stay.
#[tactic(auto, using(crate::proofs::SettingAtOnce::in_turn_or_at_once))]
fn set_at_once(
    alloc: Global,
    labels: &mut Labels,
    over: &[Pair],
    set: &Labels,
) -> Result<(), AllocError>
    requires names { first_fault over.now ≡ None }
    requires set { set.now ≡ labels_of over.now }
    ensures { OnOk result (labels.new ≡ union_labels labels.old over.now) }
{
    let others = labels.without(alloc, &emptied(alloc, over)?)?;
    *labels = others.union(alloc, set)?;
    Ok(())
}

// Sets many labels: at once, where they have label names, each once. A rule file has no others.
fn set_many(alloc: Global, labels: &mut Labels, over: &[Pair]) -> Result<(), AllocError>
    ensures { OnOk result (labels.new ≡ union_labels labels.old over.now) }
{
    match Labels::from_pairs(alloc, over) {
        Ok(set) => set_at_once(alloc, labels, over, &set),
        Err(LabelFault::Memory) => Err(AllocError),
        Err(_) => set_each(alloc, labels, over),
    }
}

/// Sets the labels that a rule gives: few one by one, and many at once, in time that grows with
/// those of both.
pub(crate) fn set_all(alloc: Global, labels: &mut Labels, over: &[Pair]) -> Result<(), AllocError>
    ensures { OnOk result (labels.new ≡ union_labels labels.old over.now) }
{
    if over.len() <= FEW {
        set_each(alloc, labels, over)
    } else {
        set_many(alloc, labels, over)
    }
}
