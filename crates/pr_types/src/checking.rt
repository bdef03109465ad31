//! Checked expressions.
ghost use Rattle.std.specs.Prelude.{◌≡◌, true, Some, Ok, ◌<◌, length, slice_get, if◌then◌else◌, IfOk, OnOk};
ghost use Rattle.pr_ast.specs.Tree.{tree_of};
ghost use Rattle.pr_types.specs.Typed.{within_kept, not_instant, whole, checked};
ghost use Rattle.pr_types.specs.private.Answered.{Answers};
ghost use Rattle.pr_types.specs.private.Built.{Adds, tests_in, patterns_in};
ghost use Rattle.pr_types.specs.private.Numbers.{exact_counts};
ghost use Rattle.pr_types.specs.private.Checking.{MayEvaluate, Verdict};

use crate::building::Built;
use crate::counting::{SelectorCounts, counts_in};
use crate::kind::{TypeError, TypeFault, TypeKind, ValueType};
use crate::typing::{start, type_of};
use pr_ast::words_crate::Items;
use pr_ast::{Expr, reach};
use pr_match::{Matcher, Pattern};
use std::alloc::Global;
use std::marker::Model;

/// How long samples are kept, in milliseconds: 45 days. (Own choice.)
const KEPT: u64 = 3_888_000_000;

/// An expression that has a type, with its matchers and patterns, so that nothing builds one again.
/// Contracts see the expression.
#[derive(Drop)]
pub struct Checked {
    expr: Expr,
    gives: ValueType,
    selectors: Items<Items<Matcher>>,
    patterns: Items<Pattern>,
}

impl Model for Checked {
    ghost use Rattle.pr_ast.specs.declared.tree.Expr.{Expr};
    ghost use Rattle.pr_ast.specs.Tree.{tree_of};
    ghost use Rattle.pr_ast.specs.contracts.tree.ExprKind as kinds;
    ghost use Rattle.std.specs.Coded.{codes};

    ghost Value = { Expr };

    ghost coded = { Prim.hlevel (codes, kinds.the_row.coded) };

    ghost use Rattle.pr_types.specs.private.Checking.{IsChecked};

    ghost view = { λ c. c.expr };

    ghost invariant = { λ c. IsChecked (tree_of c.expr) c.gives c.selectors c.patterns };
}

impl Checked {
    /// The expression. It has a type, and looks back at most 45 days.
    pub fn expr(&self) -> &Expr
        ensures same { result.now ≡ self.now }
        ensures checked { MayEvaluate (tree_of self.now) }
    {
        &self.expr
    }

    /// Whether it gives a scalar; it gives a vector otherwise.
    pub fn is_scalar(&self) -> bool
        ensures { checked (tree_of self.now) ≡ Ok (if result then ValueType.Scalar else ValueType.Vector) }
    {
        matches!(self.gives, ValueType::Scalar)
    }

    /// How many selectors, range selectors and patterns it has.
    pub fn counts(&self) -> SelectorCounts
        ensures { result ≡ exact_counts (tree_of self.now) }
    {
        let selectors = self.selectors.as_slice().len();
        let patterns = self.patterns.as_slice().len();
        counts_with(&self.expr, selectors, patterns)
    }

    /// The matchers of a selector: selectors, ranges among them, are numbered from 0 in the order
    /// of the text. (Range selectors have numbers of their own, under which windows are kept: this
    /// is not that number.) The first matcher is that of the metric's name, where a name stands
    /// before the braces.
    pub fn matchers(&self, selector: usize) -> &[Matcher]
        requires { selector < length (tests_in (tree_of self.now)) }
        ensures { slice_get (tests_in (tree_of self.now)) selector ≡ Some result.now }
    {
        self.selectors.as_slice()[selector].as_slice()
    }

    /// The pattern of a `label_replace`: calls of it are numbered from 0, each after those in its
    /// arguments.
    pub fn pattern(&self, place: usize) -> &Pattern
        requires { place < length (patterns_in (tree_of self.now)) }
        ensures { slice_get (patterns_in (tree_of self.now)) place ≡ Some result.now }
    {
        &self.patterns.as_slice()[place]
    }
}

// The counts of an expression with so many selectors and patterns.
fn counts_with(e: &Expr, selectors: usize, patterns: usize) -> SelectorCounts
    requires selectors { selectors ≡ length (tests_in (tree_of e.now)) }
    requires patterns { patterns ≡ length (patterns_in (tree_of e.now)) }
    ensures { result ≡ exact_counts (tree_of e.now) }
{
    let ranges = counts_in(e).ranges;
    SelectorCounts {
        selectors,
        ranges,
        patterns,
    }
}

fn within_kept(e: &Expr, gives: ValueType) -> Result<ValueType, TypeFault>
    ensures { result ≡ within_kept (tree_of e.now) gives }
{
    let needed = reach(e);
    if needed <= KEPT {
        return Ok(gives);
    }
    let kind = TypeKind::Reach { needed, kept: KEPT };
    Err(TypeFault { at: 0, kind })
}

fn not_instant(e: &Expr) -> Result<ValueType, TypeFault>
    ensures { result ≡ not_instant (tree_of e.now) }
{
    let kind = TypeKind::NotInstant;
    Err(TypeFault { at: start(e), kind })
}

fn whole(e: &Expr, gives: ValueType) -> Result<ValueType, TypeFault>
    ensures { result ≡ whole (tree_of e.now) gives }
{
    match gives {
        ValueType::Scalar => within_kept(e, ValueType::Scalar),
        ValueType::Vector => within_kept(e, ValueType::Vector),
        ValueType::Range | ValueType::Text => not_instant(e),
    }
}

fn type_of_whole(alloc: Global, e: &Expr, built: &mut Built) -> Result<ValueType, TypeError>
    ensures checked { Answers (checked (tree_of e.now)) result }
    ensures built { OnOk result (Adds (tree_of e.now) built.old built.new) }
{
    let gives = type_of(alloc, e, built)?;
    Ok(whole(e, gives)?)
}

/// The expression with its matchers and patterns, where it has a type, is a scalar or a vector, and
/// looks back at most 45 days; or else its first fault, unless memory ran out.
pub fn check(alloc: Global, e: Expr) -> Result<Checked, TypeError>
    ensures same { IfOk result (λ c. c ≡ e) }
    ensures verdict { Verdict (tree_of e) result }
{
    let mut built = Built {
        selectors: Items::empty(alloc),
        patterns: Items::empty(alloc),
    };
    let gives = type_of_whole(alloc, &e, &mut built)?;
    let Built {
        selectors,
        patterns,
    } = built;
    Ok(Checked {
        expr: e,
        gives,
        selectors,
        patterns,
    })
}
