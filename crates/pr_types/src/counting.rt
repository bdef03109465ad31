//! How many selectors, range selectors and patterns expressions have.
ghost use Rattle.std.specs.Prelude.{◌≡◌, if◌then◌else◌};
ghost use Rattle.pr_ast.specs.Tree.{tree_of, trees_of};
ghost use Rattle.pr_types.specs.Typed.{replaces};
ghost use Rattle.pr_types.specs.private.Numbers.{counts_in, counts_together};

use crate::texts::replaces;
use pr_ast::{Expr, ExprKind, Func};

/// How many selectors an expression has, ranges among them, how many range selectors, and how often
/// it calls `label_replace`. Each of the three is numbered from 0 on its own.
#[derive(Clone, Copy, PartialEq, Eq, Debug)]
pub struct SelectorCounts {
    pub selectors: usize,
    pub ranges: usize,
    pub patterns: usize,
}

const NONE: SelectorCounts = SelectorCounts {
    selectors: 0,
    ranges: 0,
    patterns: 0,
};

fn counts_together(one: SelectorCounts, other: SelectorCounts) -> SelectorCounts
    ensures { result ≡ counts_together one other }
{
    SelectorCounts {
        selectors: one.selectors.saturating_add(other.selectors),
        ranges: one.ranges.saturating_add(other.ranges),
        patterns: one.patterns.saturating_add(other.patterns),
    }
}

// What a call has of its own.
fn own(func: Func) -> SelectorCounts
    ensures { result ≡ record { selectors = 0; ranges = 0; patterns = if replaces func then 1 else 0 } }
{
    if replaces(func) {
        SelectorCounts {
            patterns: 1,
            ..NONE
        }
    } else {
        NONE
    }
}

/// The counts of an expression or of a part of one; each is 2^64 - 1 where there are more. They
/// tell how far the numbers go on over a part that is not visited.
#[cycle(counting)]
pub fn counts_in(e: &Expr) -> SelectorCounts
    ensures { result ≡ counts_in (tree_of e.now) }
{
    match &e.kind {
        ExprKind::Number { .. } | ExprKind::Text { .. } => NONE,
        ExprKind::Select { .. } => SelectorCounts {
            selectors: 1,
            ..NONE
        },
        ExprKind::Range { .. } => SelectorCounts {
            selectors: 1,
            ranges: 1,
            ..NONE
        },
        ExprKind::Sub { inner, .. } | ExprKind::Neg { inner } => counts_in(inner),
        ExprKind::Binary { left, right, .. } => counts_together(counts_in(left), counts_in(right)),
        ExprKind::Call { func, args } => counts_together(counts_of(args), own(*func)),
        ExprKind::Aggregate { param, inner, .. } => match param {
            Some(first) => counts_together(counts_in(first), counts_in(inner)),
            None => counts_in(inner),
        },
    }
}

#[cycle(counting)]
fn counts_of(args: &[Expr]) -> SelectorCounts
    ensures { result ≡ counts_in (trees_of args.now) }
{
    let mut found = NONE;
    for arg in args {
        found = counts_together(found, counts_in(arg));
    }
    found
}
