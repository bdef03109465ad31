// Texts among arguments.
ghost use Rattle.std.specs.Prelude.{◌≡◌, drop, map, IfOk};
ghost use Rattle.pr_ast.specs.Tree.{tree_of, trees_of};
ghost use Rattle.spec_meaning.specs.pr_types.Typed.{content, contents};

use pr_ast::Expr;
use pr_labels::words_crate::Text;
use spec_meaning::types::content;
use std::alloc::{AllocError, Global};

// The contents of arguments.
fn contents(alloc: Global, args: &[Expr]) -> Result<Vec<Text>, AllocError>
    ensures { IfOk result (λ v. v.items ≡ map (λ e. content (tree_of e)) args.now) }
{
    let mut texts = Vec::new(alloc);
    for arg in args {
        texts.push(Text::from_str(alloc, content(arg))?)?;
    }
    Ok(texts)
}

/// The contents of the arguments from the fourth on.
pub(crate) fn contents_after_three(alloc: Global, args: &[Expr]) -> Result<Vec<Text>, AllocError>
    ensures { IfOk result (λ v. v.items ≡ drop 3 (contents (trees_of args.now))) }
{
    if args.len() < 3 {
        return Ok(Vec::new(alloc));
    }
    let rest = &args[3..];
    contents(alloc, rest)
}
