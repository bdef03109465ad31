// The expression that a text is.
ghost use Rattle.std.specs.Prelude.{◌≡◌, Ok, MatchResult};
ghost use Rattle.pr_ast.specs.Tree.{tree_of};
ghost use Rattle.pr_types.specs.Typed.{checked};
ghost use Rattle.pr_parse.specs.Expressions.{IsExpressionFault, expression_of, typed_tree};

use crate::fault::ParseError;
use crate::parsing::parse;
use crate::query_kind::{QueryError, QueryKind};
use pr_ast::Expr;
use pr_types::{Checked, TypeError, check};
use std::alloc::Global;

// A tree that has a type, or its first fault.
#[tactic(auto, using(crate::proofs::Typing::typed_so))]
fn typed(alloc: Global, expr: Expr) -> Result<Checked, QueryError>
    ensures { MatchResult result (λ e. typed_tree (tree_of expr) (checked (tree_of expr)) ≡ Ok (tree_of e)) (IsExpressionFault (typed_tree (tree_of expr) (checked (tree_of expr)))) }
{
    match check(alloc, expr) {
        Ok(checked) => Ok(checked),
        Err(TypeError::Fault { at, kind }) => Err(QueryError::Fault {
            at,
            kind: QueryKind::Typing { kind },
        }),
        Err(TypeError::Memory) => Err(QueryError::Memory),
    }
}

/// The expression that a text is, with its type. (Prometheus: Querying, Basics.)
///
/// # Errors
/// The first fault of the tokens, of the tree or of the types; want of memory.
#[tactic(auto, unfolding(crate::specs::Expressions::expression_of))]
pub fn read_expression(alloc: Global, text: &str) -> Result<Checked, QueryError>
    ensures { MatchResult result (λ e. expression_of text.now ≡ Ok (tree_of e)) (IsExpressionFault (expression_of text.now)) }
{
    match parse(alloc, text) {
        Ok(expr) => typed(alloc, expr),
        Err(ParseError::Lex { at, kind }) => Err(QueryError::Fault {
            at,
            kind: QueryKind::Lex { kind },
        }),
        Err(ParseError::Fault { at, kind }) => Err(QueryError::Fault {
            at,
            kind: QueryKind::Parse { kind },
        }),
        Err(ParseError::Memory) => Err(QueryError::Memory),
    }
}
