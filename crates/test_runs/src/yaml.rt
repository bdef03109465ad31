// The trees of YAML texts. A tree is shown so: a plain text as it is, a quoted text or block scalar in
// quotes, a list in brackets, a map in braces, and `_` for an absent value.
use pr_yaml::{Node, NodeKind, read};
use std::alloc::{AllocError, Global};

fn show_line(alloc: Global, out: &mut String, lines: bool, line: u32) -> Result<(), AllocError> {
    if lines {
        out.push_str(&format!(in alloc; "@{line}")?)?;
    }
    Ok(())
}

fn show(alloc: Global, out: &mut String, lines: bool, node: &Node) -> Result<(), AllocError> {
    match &node.kind {
        NodeKind::Text { text, quoted: true } => {
            out.push_str(&format!(in alloc; "'{}'", text.as_str())?)?;
        }
        NodeKind::Text { text, .. } if text.as_str().is_empty() => out.push('_')?,
        NodeKind::Text { text, .. } => out.push_str(text.as_str())?,
        NodeKind::List { items } => {
            for (n, item) in items.iter().enumerate() {
                out.push_str(if n == 0 { "[" } else { ", " })?;
                show(alloc, out, lines, item)?;
            }
            out.push_str(if items.is_empty() { "[]" } else { "]" })?;
        }
        NodeKind::Map { entries } => {
            for (n, entry) in entries.iter().enumerate() {
                out.push_str(if n == 0 { "{" } else { ", " })?;
                out.push_str(entry.key.as_str())?;
                show_line(alloc, out, lines, entry.line)?;
                out.push_str(": ")?;
                show(alloc, out, lines, &entry.value)?;
            }
            out.push_str(if entries.is_empty() { "{}" } else { "}" })?;
        }
    }
    show_line(alloc, out, lines, node.line)
}

/// The tree of a text.
pub(crate) fn tree_shown(alloc: Global, text: &str, lines: bool) -> Result<String, AllocError> {
    let mut out = String::new(alloc);
    if text.len() < 1 << 32 {
        if let Ok(node) = read(alloc, text.as_bytes()) {
            show(alloc, &mut out, lines, &node)?;
        }
    }
    Ok(out)
}
