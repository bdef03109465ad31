//! Reading a text.
ghost use Rattle.std.specs.Prelude.{◌≡◌, ◌<◌, ◌^◌, length, IfOk, IfErr, MatchResult};
ghost use Rattle.pr_yaml.specs.Tree.{Tree, tree_of};
ghost use Rattle.pr_yaml.specs.Read.{gives_tree, read_tokens, read_of, IsFaultOf};
ghost use Rattle.pr_yaml.specs.private.Derived.{IsTree, Refuses, Misses};

use crate::fault::YamlError;
use crate::kinds::{LEVELS, end_line_of, scan_kind, token_kind};
use crate::node::Node;
use crate::whole::{TreeFault, whole_tree};
use crate::yaml_scan::{BadPlace, Token, YamlKind, scan_places};
use std::alloc::Global;

/// What a text with these tokens, and this bad place or none after them, is read as.
#[tactic(auto, unfolding(crate::specs::Read::read_tokens))]
fn read_tokens(
    alloc: Global,
    text: &[u8],
    tokens: Vec<Token>,
    bad: Option<BadPlace>,
) -> Result<Node, YamlError>
    requires { length text.now < 2 ^ 32 }
    ensures { MatchResult result (λ n. read_tokens text.now tokens.items bad ≡ gives_tree (tree_of n)) (IsFaultOf (read_tokens text.now tokens.items bad)) }
{
    let found = match whole_tree(alloc, true, LEVELS, tokens.as_slice()) {
        Ok(tree) => Some(tree),
        Err(TreeFault::Bad { index }) => {
            if let Some(token) = tokens.get(index) {
                return Err(YamlError::Fault {
                    line: token.line,
                    kind: token_kind(alloc, text, tokens.as_slice(), index, token)?,
                });
            }
            None
        }
        Err(TreeFault::Memory) => return Err(YamlError::Memory),
    };
    match (bad, found) {
        (Some(place), _) => Err(YamlError::Fault {
            line: place.fault.line,
            kind: scan_kind(alloc, tokens, place)?,
        }),
        (None, Some(tree)) => Ok(tree),
        (None, None) => Err(YamlError::Fault {
            line: end_line_of(text),
            kind: YamlKind::Flow,
        }),
    }
}

fn read_text(alloc: Global, bytes: &[u8]) -> Result<Node, YamlError>
    requires { length bytes.now < 2 ^ 32 }
    ensures { MatchResult result (λ n. read_of bytes.now ≡ gives_tree (tree_of n)) (IsFaultOf (read_of bytes.now)) }
{
    let found = scan_places(alloc, bytes)?;
    read_tokens(alloc, bytes, found.tokens, found.bad)
}

/// The tree of a YAML text in the profile of rule files. (YAML 1.2, cut down; what is cut is an own
/// choice.)
///
/// # Errors
/// The line of the first fault and its kind. It is the first token up to which no text can go on,
/// as one that repeats a key of its map, or begins a node inside 64 others; else the first byte
/// after the tokens that begins none; else the end of the text. Also want of memory.
pub fn read(alloc: Global, bytes: &[u8]) -> Result<Node, YamlError>
    requires { length bytes.now < 2 ^ 32 }
    // What is answered is what the text gives, unless memory runs out.
    ensures given { MatchResult result (λ n. read_of bytes.now ≡ gives_tree (tree_of n)) (IsFaultOf (read_of bytes.now)) }

    // A tree that is answered is that of the text.
    ensures tree { IfOk result (λ n. IsTree bytes.now (tree_of n)) }
    // The tree of a text is answered, unless memory runs out.
    ensures only { (t : Tree) → IsTree bytes.now t → MatchResult result (λ n. tree_of n ≡ t) Misses }
    // Else the fault is the first one.
    ensures fault { IfErr result (Refuses bytes.now) }
{
    read_text(alloc, bytes)
}
