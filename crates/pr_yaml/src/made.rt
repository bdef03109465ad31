// The nodes of a tree.
ghost use Rattle.std.specs.Prelude.{◌≡◌, IfOk, map};
ghost use Rattle.pr_yaml.specs.Tree.{text_node, list_node, map_node, absent_node, trees_from, entries_from, tree_of, entry_tree_of};

use crate::node::{MapEntry, Node, NodeKind};
use pr_words::Text;
use std::alloc::{AllocError, Global};

/// A scalar.
pub(crate) fn text_made(
    alloc: Global,
    line: u32,
    text: &str,
    quoted: bool,
) -> Result<Node, AllocError>
    ensures { IfOk result (λ n. tree_of n ≡ text_node line text.now quoted) }
{
    Ok(Node {
        line,
        kind: NodeKind::Text {
            text: Text::from_str(alloc, text)?,
            quoted,
        },
    })
}

/// The node of a value that is absent.
pub(crate) fn absent_made(alloc: Global, line: u32) -> Node
    ensures { tree_of result ≡ absent_node line }
{
    Node {
        line,
        kind: NodeKind::Text {
            text: Text::new(String::new(alloc)),
            quoted: false,
        },
    }
}

pub(crate) fn list_made(line: u32, items: Vec<Node>) -> Node
    ensures { tree_of result ≡ list_node line (trees_from (map tree_of items.items)) }
{
    Node {
        line,
        kind: NodeKind::List { items },
    }
}

pub(crate) fn map_made(line: u32, entries: Vec<MapEntry>) -> Node
    ensures { tree_of result ≡ map_node line (entries_from (map entry_tree_of entries.items)) }
{
    Node {
        line,
        kind: NodeKind::Map { entries },
    }
}
