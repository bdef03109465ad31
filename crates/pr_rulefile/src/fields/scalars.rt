// Texts, spans and limits.
ghost use Rattle.std.specs.Prelude.{◌≡◌, ◌++◌, OnOk, map};
ghost use Rattle.pr_yaml.specs.Tree.{tree_of, entry_tree_of};
ghost use Rattle.pr_rulefile.specs.Nodes.{field};
ghost use Rattle.pr_rulefile.specs.Scalars.{text_problems, short_span, span_problems, limit_of, limit_problems, node_span, limit_in, span_under, limit_under};

use crate::fields::access::{field, line_of, text_of};
use crate::fields::found::push;
use crate::fields::problem::{Problem, ProblemKind};
use pr_ast::time::{Span, read_span};
use pr_words::plain_decimal;
use pr_yaml::{MapEntry, Node};
use std::alloc::AllocError;

/// Any text will do.
pub fn text_problems(node: &Node, found: &mut Vec<Problem>) -> Result<(), AllocError>
    ensures { OnOk result (found.new.items ≡ found.old.items ++ text_problems (tree_of node.now)) }
{
    match text_of(node) {
        Some(_text) => Ok(()),
        None => push(found, line_of(node), ProblemKind::WantText),
    }
}

/// The length of time that a text writes, where it is not too long.
#[tactic(auto, using(crate::proofs::Spans::short_read))]
pub fn short_span(text: &str) -> Option<Span>
    ensures { result ≡ short_span text.now }
{
    match read_span(text.as_bytes()) {
        Ok(span) => Some(span),
        Err(_) => None,
    }
}

/// A length of time is wanted.
#[tactic(auto, unfolding(crate::specs::Scalars::span_problems))]
pub fn span_problems(node: &Node, found: &mut Vec<Problem>) -> Result<(), AllocError>
    ensures { OnOk result (found.new.items ≡ found.old.items ++ span_problems (tree_of node.now)) }
{
    match text_of(node) {
        Some(text) => match short_span(text) {
            Some(_span) => Ok(()),
            None => push(found, line_of(node), ProblemKind::BadSpan),
        },
        None => push(found, line_of(node), ProblemKind::WantText),
    }
}

#[tactic(auto, unfolding(crate::specs::Scalars::limit_of))]
fn limit_of(text: &str) -> Option<u32>
    ensures { result ≡ limit_of text.now }
{
    match plain_decimal(text.as_bytes(), 1 << 32) {
        Some(limit) => Some(limit as u32),
        None => None,
    }
}

/// A whole number below 2^32 is wanted.
#[tactic(auto, unfolding(crate::specs::Scalars::limit_problems))]
pub fn limit_problems(node: &Node, found: &mut Vec<Problem>) -> Result<(), AllocError>
    ensures { OnOk result (found.new.items ≡ found.old.items ++ limit_problems (tree_of node.now)) }
{
    match text_of(node) {
        Some(text) => match limit_of(text) {
            Some(_limit) => Ok(()),
            None => push(found, line_of(node), ProblemKind::BadLimit),
        },
        None => push(found, line_of(node), ProblemKind::WantText),
    }
}

fn node_span(node: &Node) -> Option<Span>
    ensures { result ≡ node_span (tree_of node.now) }
{
    match text_of(node) {
        Some(text) => short_span(text),
        None => None,
    }
}

fn limit_in(node: &Node) -> Option<u32>
    ensures { result ≡ limit_in (tree_of node.now) }
{
    match text_of(node) {
        Some(text) => limit_of(text),
        None => None,
    }
}

/// The length of time that stands under the field of this name.
#[tactic(auto, unfolding(crate::specs::Scalars::span_under))]
pub fn span_under(key: &str, entries: &[MapEntry]) -> Option<Span>
    ensures { result ≡ span_under (field key.now (map entry_tree_of entries.now)) }
{
    match field(key, entries) {
        Some(node) => node_span(node),
        None => None,
    }
}

/// The number that stands under the field of this name.
#[tactic(auto, unfolding(crate::specs::Scalars::limit_under))]
pub fn limit_under(key: &str, entries: &[MapEntry]) -> Option<u32>
    ensures { result ≡ limit_under (field key.now (map entry_tree_of entries.now)) }
{
    match field(key, entries) {
        Some(node) => limit_in(node),
        None => None,
    }
}
