// What is remembered of rules goes on from that of older ones.
ghost use Rattle.std.specs.Prelude.{◌≡◌, ℕ, ◌<◌, List, Option, Some, None, IfOk, OnOk, length, map, slice_get, slice_set};
ghost use Rattle.pr_ast.specs.Tree.{tree_of};
ghost use Rattle.pr_rule.specs.pr_range.private.Carried.{IsOnce};
ghost use Rattle.pr_group.specs.private.Named.{AreBelow};
ghost use Rattle.pr_rule.specs.declared.remembered.Remembered.{Remembered as Kept};
ghost use Rattle.pr_group.specs.private.Carrying.{GoesOn, HaveGoneOn, MayGoOn, without_named};
ghost use Rattle.pr_group.specs.private.Matching.{spared};

use crate::continued::carried;
use pr_rule::Remembered;
use pr_rule::range::Ranges;
use pr_rule::rules_crate::RuleDef;
use std::alloc::{AllocError, Global};

/// What is remembered of older rules, to be taken one by one.
pub(crate) fn to_take<R: Ranges + Drop>(
    alloc: Global,
    rules: Vec<Remembered<R>>,
) -> Result<Vec<Option<Remembered<R>>>, AllocError>
    ensures { IfOk result (λ v. v.items ≡ map Some rules.items) }
{
    let mut all = Vec::new(alloc);
    for rule in rules {
        all.push(Some(rule))?;
    }
    Ok(all)
}

// Takes what is remembered of the older rule with a number.
fn take_old<R: Ranges + Drop>(
    olds: &mut Vec<Option<Remembered<R>>>,
    number: usize,
) -> Option<Remembered<R>>
    requires { number < length olds.old.items }
    ensures there { slice_get olds.old.items number ≡ Some result }
    ensures left { olds.new.items ≡ slice_set olds.old.items number None }
{
    olds[number].take()
}

// Lets what is remembered of a rule go on from that of an older one.
fn carry_rule<R: Ranges + Drop>(
    alloc: Global,
    rule: &RuleDef,
    older: &RuleDef,
    own: &mut Remembered<R>,
    old: Remembered<R>,
) -> Result<(), AllocError>
    ensures { OnOk result (GoesOn R.fits R.last R.passed (tree_of rule.now.expr) (tree_of older.now.expr) own.old old own.new) }
{
    let from = carried(alloc, rule.expr.expr(), older.expr.expr())?;
    own.carry(old, &from);
    Ok(())
}

// Lets it go on from the older one that is named for it, which is taken; where none is, it stays.
fn carry_named<R: Ranges + Drop>(
    alloc: Global,
    rule: &RuleDef,
    own: &mut Remembered<R>,
    older: &[RuleDef],
    olds: &mut Vec<Option<Remembered<R>>>,
    named: Option<usize>,
) -> Result<(), AllocError>
    requires code { (n : ℕ) → named ≡ Some n → n < length older.now }
    requires there { (n : ℕ) → named ≡ Some n → n < length olds.old.items }
    ensures goes_on { OnOk result (MayGoOn R.fits R.last R.passed rule.now older.now olds.old.items named own.old own.new) }
    ensures left { olds.new.items ≡ without_named named olds.old.items }
{
    match named {
        None => Ok(()),
        Some(number) => match take_old(olds, number) {
            Some(old) => carry_rule(alloc, rule, &older[number], own, old),
            None => Ok(()),
        },
    }
}

/// Lets each rule go on from the older one that is named for it, which is taken.
pub(crate) fn carry_rules<R: Ranges + Drop>(
    alloc: Global,
    rules: &[RuleDef],
    own: &mut Vec<Remembered<R>>,
    older: &[RuleDef],
    olds: &mut Vec<Option<Remembered<R>>>,
    from: &[Option<usize>],
) -> Result<(), AllocError>
    requires once { IsOnce from.now }
    requires below { AreBelow (length older.now) from.now }
    requires olds { length olds.old.items ≡ length older.now }
    requires own { length own.old.items ≡ length rules.now }
    requires each { length from.now ≡ length rules.now }
    ensures size { length own.new.items ≡ length own.old.items }
    ensures gone_on { (befores : List (Kept R)) → olds.old.items ≡ map Some befores → OnOk result (HaveGoneOn R.fits R.last R.passed rules.now older.now befores from.now own.old.items own.new.items) }
    ensures spared { (befores : List (Kept R)) → olds.old.items ≡ map Some befores → OnOk result (olds.new.items ≡ spared from.now befores) }
{
    for index in 0..from.len() {
        carry_named(
            alloc,
            &rules[index],
            &mut own[index],
            older,
            olds,
            from[index],
        )?;
    }
    Ok(())
}
