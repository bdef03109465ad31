// The range selectors of an expression.
ghost use Rattle.std.specs.Prelude.{◌≡◌, ◌++◌, ◌∷◌, [], IfOk, OnOk};
ghost use Rattle.pr_ast.specs.Tree.{tree_of, trees_of};
ghost use Rattle.pr_ast.specs.private.Print.{tree_text};
ghost use Rattle.pr_rule.specs.spec_rules.private.Carried.{range_uses, uses_under};

use crate::continued::source::Source;
use pr_ast::words_crate::Items;
use pr_ast::{Expr, ExprKind, Func, print};
use std::alloc::{AllocError, Global};

// The printed text of an expression.
fn printed(alloc: Global, e: &Expr) -> Result<Items<u8>, AllocError>
    ensures { IfOk result (λ text. text ≡ tree_text (tree_of e.now)) }
{
    let mut text = Vec::new(alloc);
    print(e, &mut text)?;
    Ok(Items::new(text))
}

// Those of an expression, which may be an argument of a function.
#[cycle(sources)]
fn push_sources(
    alloc: Global,
    func: Option<Func>,
    e: &Expr,
    out: &mut Vec<Source>,
) -> Result<(), AllocError>
    ensures { OnOk result (out.new.items ≡ out.old.items ++ uses_under func (tree_of e.now)) }
{
    match &e.kind {
        ExprKind::Number { .. } | ExprKind::Text { .. } | ExprKind::Select { .. } => Ok(()),
        ExprKind::Range { .. } => {
            out.push(Source::new(printed(alloc, e)?, func))?;
            Ok(())
        }
        ExprKind::Sub { inner, .. } => push_sources(alloc, None, inner, out),
        ExprKind::Neg { inner } => push_sources(alloc, None, inner, out),
        ExprKind::Binary { left, right, .. } => {
            push_sources(alloc, None, left, out)?;
            push_sources(alloc, None, right, out)
        }
        ExprKind::Call { func, args } => push_all(alloc, Some(*func), args, out),
        ExprKind::Aggregate { param, inner, .. } => {
            if let Some(first) = param {
                push_sources(alloc, None, first, out)?;
            }
            push_sources(alloc, None, inner, out)
        }
    }
}

// Those of the arguments of a function.
#[cycle(sources)]
fn push_all(
    alloc: Global,
    func: Option<Func>,
    args: &[Expr],
    out: &mut Vec<Source>,
) -> Result<(), AllocError>
    ensures { OnOk result (out.new.items ≡ out.old.items ++ uses_under func (trees_of args.now)) }
{
    for arg in args {
        push_sources(alloc, func, arg, out)?;
    }
    Ok(())
}

/// The range selectors of an expression, in the order of their numbers, those inside subqueries
/// among them.
pub(crate) fn sources(alloc: Global, e: &Expr) -> Result<Vec<Source>, AllocError>
    ensures { IfOk result (λ v. v.items ≡ range_uses (tree_of e.now)) }
{
    let mut out = Vec::new(alloc);
    push_sources(alloc, None, e, &mut out)?;
    Ok(out)
}
