//! The tree of a YAML text.
ghost use Rattle.std.specs.Prelude.{◌≡◌};
ghost use Rattle.pr_yaml.specs.Tree.{is_absent_text};

use pr_words::Text;

/// A node of the tree of a text.
#[cycle(tree)]
#[derive(Drop, Debug)]
pub struct Node {
    /// The line of its first token, from 1. An absent node has the line of the key or dash that it
    /// is the value of, and 1 where it is the whole text.
    pub line: u32,
    pub kind: NodeKind,
}

/// What a node is.
#[cycle(tree)]
#[derive(Drop, Debug)]
pub enum NodeKind {
    /// A scalar, which is quoted, or a block scalar, or neither. An absent node is the text of no
    /// byte that is not quoted.
    Text { text: Text, quoted: bool },
    List { items: Vec<Node> },
    /// Entries in the order of the text. No key stands twice.
    Map { entries: Vec<MapEntry> },
}

/// A key of a map, with its value.
#[cycle(tree)]
#[derive(Drop, Debug)]
pub struct MapEntry {
    pub key: Text,
    /// The line of the key, from 1.
    pub line: u32,
    pub value: Node,
}

impl Node {
    ghost use Rattle.std.specs.Prelude.{◌≡◌};
    ghost use Rattle.pr_yaml.specs.Tree.{is_absent, tree_of};

    /// Whether the node says that there is no value: it is not quoted, and empty, `~` or `null`.
    /// (Own choice, after the null of the core schema of YAML 1.2.)
    pub fn is_absent(&self) -> bool
        ensures { result ≡ is_absent (tree_of self.now) }
    {
        match &self.kind {
            NodeKind::Text { text, quoted } => !*quoted && is_absent_text(text.as_str()),
            _ => false,
        }
    }
}

/// Whether a text that is not quoted says that there is no value.
#[tactic(auto, unfolding(crate::specs::Tree::is_absent_text))]
fn is_absent_text(text: &str) -> bool
    ensures { result ≡ is_absent_text text.now }
{
    text == "" || text == "~" || text == "null"
}
