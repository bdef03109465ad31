// The tree of all tokens.
ghost use Rattle.std.specs.Prelude.{◌≡◌, Some, length, IfOk, MatchResult};
ghost use Rattle.pr_yaml.specs.Tree.{tree_of};
ghost use Rattle.pr_yaml.specs.Grammar.{letters};
ghost use Rattle.pr_yaml.specs.Trees.{stop, goes_on, tree_in, IsNoTree};

use crate::node::Node;
use crate::trees::node_at;
use crate::yaml_scan::Token;
use pr_words::forms::{Fault, place_of};
use std::alloc::{AllocError, Global};

/// Why tokens have no tree.
#[derive(Clone, Copy)]
pub(crate) enum TreeFault {
    /// The tokens before this index can go on, and with the one there they cannot. The number of
    /// tokens, where they end too early.
    Bad { index: usize },
    Memory,
}

/// The tree of the tokens, where there is room for so many maps and lists in one another.
pub(crate) fn whole_tree(
    alloc: Global,
    distinct: bool,
    room: u32,
    tokens: &[Token],
) -> Result<Node, TreeFault>
    ensures { MatchResult result (λ n. (stop distinct room (letters tokens.now) ≡ length tokens.now) × (tree_in distinct room (letters tokens.now) ≡ Some (tree_of n))) (IsNoTree distinct room (letters tokens.now)) }
{
    match node_at(alloc, distinct, 1, 0, room, tokens) {
        Ok((whole, left)) => {
            if left.is_empty() {
                Ok(whole)
            } else {
                Err(TreeFault::Bad {
                    index: place_of(tokens, left),
                })
            }
        }
        Err(Fault::Bad(rest)) => Err(TreeFault::Bad {
            index: place_of(tokens, rest),
        }),
        Err(Fault::Memory) => Err(TreeFault::Memory),
    }
}

/// Whether all tokens can go on.
pub(crate) fn goes_on(
    alloc: Global,
    distinct: bool,
    room: u32,
    tokens: &[Token],
) -> Result<bool, AllocError>
    ensures { IfOk result (λ b. b ≡ goes_on distinct room (letters tokens.now)) }
{
    match whole_tree(alloc, distinct, room, tokens) {
        Ok(_tree) => Ok(true),
        Err(TreeFault::Bad { index }) => Ok(tokens.len() <= index),
        Err(TreeFault::Memory) => Err(AllocError),
    }
}
