// What a node of a YAML tree is, and the fields of a map.
ghost use Rattle.std.specs.Prelude.{◌≡◌, map, Option, Some, None, unwrap_or};
ghost use Rattle.std.specs.Option.{option_copied, option_map};
ghost use Rattle.pr_yaml.specs.Tree.{tree_of, entry_tree_of};
ghost use Rattle.pr_rulefile.specs.Nodes.{line_of, text_of, items_of, fields_of, items_in, fields_in, is_field, field, is_empty_text, says_nothing, is_written, written, text_or_empty, items_under, fields_under};

use pr_yaml::{MapEntry, Node, NodeKind};

/// The line of a node.
pub fn line_of(node: &Node) -> u32
    ensures { result ≡ line_of (tree_of node.now) }
{
    match &node.kind {
        NodeKind::Text { .. } | NodeKind::List { .. } | NodeKind::Map { .. } => node.line,
    }
}

/// The text of a scalar.
pub fn text_of(node: &Node) -> Option<&str>
    ensures { option_copied result ≡ text_of (tree_of node.now) }
{
    match &node.kind {
        NodeKind::Text { text, .. } => Some(text.as_str()),
        _ => None,
    }
}

/// The items of a list.
pub fn items_of(node: &Node) -> Option<&[Node]>
    ensures { option_map (λ ns. map tree_of ns.now) result ≡ items_of (tree_of node.now) }
{
    match &node.kind {
        NodeKind::List { items } => Some(items.as_slice()),
        _ => None,
    }
}

/// The fields of a map.
pub fn fields_of(node: &Node) -> Option<&[MapEntry]>
    ensures { option_map (λ es. map entry_tree_of es.now) result ≡ fields_of (tree_of node.now) }
{
    match &node.kind {
        NodeKind::Map { entries } => Some(entries.as_slice()),
        _ => None,
    }
}

/// The items of a list; no other node has any.
pub fn items_in(node: &Node) -> &[Node]
    ensures { map tree_of result.now ≡ items_in (tree_of node.now) }
{
    match items_of(node) {
        Some(items) => items,
        None => &[],
    }
}

/// The fields of a map; no other node has any.
pub fn fields_in(node: &Node) -> &[MapEntry]
    ensures { map entry_tree_of result.now ≡ fields_in (tree_of node.now) }
{
    match fields_of(node) {
        Some(entries) => entries,
        None => &[],
    }
}

/// The key of a field.
pub fn key_of(entry: &MapEntry) -> &str
    ensures { result.now ≡ (entry_tree_of entry.now).key }
{
    entry.key.as_str()
}

/// The line of a field's key.
pub fn key_line_of(entry: &MapEntry) -> u32
    ensures { result ≡ (entry_tree_of entry.now).line }
{
    entry.line
}

/// The value of a field.
pub fn value_of(entry: &MapEntry) -> &Node
    ensures { tree_of result.now ≡ (entry_tree_of entry.now).value }
{
    &entry.value
}

fn is_field(key: &str, entry: &MapEntry) -> bool
    ensures { result ≡ is_field key.now (entry_tree_of entry.now) }
{
    key_of(entry) == key && !value_of(entry).is_absent()
}

/// The value of the field of this name, where it has one that is not absent.
#[tactic(auto, unfolding(crate::specs::Nodes::field))]
pub fn field<'a>(key: &str, entries: &'a [MapEntry]) -> Option<&'a Node>
    ensures { option_map (λ n. tree_of n.now) result ≡ field key.now (map entry_tree_of entries.now) }
{
    let mut rest = entries;
    'fields: while let Some((entry, after)) = rest.split_first() {
        if is_field(key, entry) {
            return Some(value_of(entry));
        }
        rest = after;
    }
    None
}

fn is_empty(text: Option<&str>) -> bool
    ensures { result ≡ is_empty_text (option_copied text.entry) }
{
    match text {
        Some(text) => text.is_empty(),
        None => false,
    }
}

pub(crate) fn says_nothing(node: &Node) -> bool
    ensures { result ≡ says_nothing (tree_of node.now) }
{
    node.is_absent() || is_empty(text_of(node))
}

fn is_written(key: &str, entry: &MapEntry) -> bool
    ensures { result ≡ is_written key.now (entry_tree_of entry.now) }
{
    key_of(entry) == key && !says_nothing(value_of(entry))
}

/// The value of the field of this name, where it has one that is neither absent nor an empty text.
#[tactic(auto, unfolding(crate::specs::Nodes::written))]
pub fn written<'a>(key: &str, entries: &'a [MapEntry]) -> Option<&'a Node>
    ensures { option_map (λ n. tree_of n.now) result ≡ written key.now (map entry_tree_of entries.now) }
{
    let mut rest = entries;
    'fields: while let Some((entry, after)) = rest.split_first() {
        if is_written(key, entry) {
            return Some(value_of(entry));
        }
        rest = after;
    }
    None
}

/// The text of the field of this name, empty where it has none.
pub fn written_text<'a>(key: &str, entries: &'a [MapEntry]) -> &'a str
    ensures { result.now ≡ text_or_empty (written key.now (map entry_tree_of entries.now)) }
{
    match written(key, entries) {
        Some(node) => text_or_empty(node),
        None => "",
    }
}

fn text_or_empty(node: &Node) -> &str
    ensures { result.now ≡ text_or_empty (Some (tree_of node.now)) }
{
    match text_of(node) {
        Some(text) => text,
        None => "",
    }
}

/// The items under the field of this name.
pub fn items_under<'a>(key: &str, entries: &'a [MapEntry]) -> &'a [Node]
    ensures { map tree_of result.now ≡ items_under (field key.now (map entry_tree_of entries.now)) }
{
    match field(key, entries) {
        Some(node) => items_in(node),
        None => &[],
    }
}

/// The fields under the field of this name.
pub fn fields_under<'a>(key: &str, entries: &'a [MapEntry]) -> &'a [MapEntry]
    ensures { map entry_tree_of result.now ≡ fields_under (field key.now (map entry_tree_of entries.now)) }
{
    match field(key, entries) {
        Some(node) => fields_in(node),
        None => &[],
    }
}
