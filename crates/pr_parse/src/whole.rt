// The tree of all tokens.
ghost use Rattle.std.specs.Prelude.{◌≡◌, length, IfOk, MatchResult, []};
ghost use Rattle.pr_forms.specs.Form.{rule, Reads};
ghost use Rattle.pr_ast.specs.Tree.{tree_of};
ghost use Rattle.pr_parse.specs.Seen.{seen};
ghost use Rattle.pr_parse.specs.Grammar.{QueryValue, production, expression};
ghost use Rattle.pr_parse.specs.GrammarWhole.{Derives, IsBadPlace};
ghost use Rattle.pr_parse.specs.private.Whole.{HasTree, RefusesTokens, MissesTokens};

use crate::grammar::{Level, Lexed};
use crate::parser::binary_at;
use pr_ast::Expr;
use pr_forms::{Fault, place_of};
use std::alloc::Global;

/// Why tokens have no tree.
#[derive(Clone, Copy, PartialEq, Eq, Debug)]
pub(crate) enum TreeFault {
    /// The tokens before this index can go on, and with the one there they cannot. The number of
    /// tokens, where they end too early.
    Bad { index: usize },
    Memory,
}

/// The tree of the tokens, or the first bad place.
pub(crate) fn whole_tree(alloc: Global, tokens: &[Lexed]) -> Result<Expr, TreeFault>
    // A tree that is answered is derived.
    ensures tree { IfOk result (λ e. Derives (seen tokens.now) (tree_of e)) }
    // Where one is derived, it is answered, unless memory runs out.
    ensures only { (v : QueryValue) → Reads production (rule expression) (seen tokens.now) v [] → MatchResult result (λ e. HasTree v (tree_of e)) MissesTokens }
    // Else the fault says which token is the first bad one.
    ensures place { MatchResult result (λ _. IsBadPlace (seen tokens.now) (length tokens.now)) (RefusesTokens (seen tokens.now)) }
{
    match binary_at(alloc, Level::Or, true, tokens) {
        Ok((whole, left)) => {
            if left.is_empty() {
                Ok(whole.expr)
            } else {
                Err(TreeFault::Bad {
                    index: place_of(tokens, left),
                })
            }
        }
        Err(Fault::Bad(rest)) => Err(TreeFault::Bad {
            index: place_of(tokens, rest),
        }),
        Err(Fault::Memory) => Err(TreeFault::Memory),
    }
}
