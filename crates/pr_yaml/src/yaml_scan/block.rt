// Block scalars.
ghost use Rattle.std.specs.Prelude.{◌≡◌, ◌≤◌, ◌<◌, ◌+◌, ◌^◌, ◌&&◌, not, if◌then◌else◌, ◌++◌, [], length, take, drop, map, IfOk, OnOk, Some, None};
ghost use Rattle.pr_yaml.specs.Bytes.{has_no_text, spaces_len};
ghost use Rattle.pr_yaml.specs.Lines.{Cursor, is_deeper};
ghost use Rattle.pr_yaml.specs.Block.{chomp_of, after_chomp, header_fault, ends_block, indentation, belongs, row_of, begins_with_blank, earlier_of, row_break, last_feeds, chomped, block_lines, block_below};

use crate::yaml_scan::bytes::{NO_TEXT, blanks_len, has_no_text, is_spaces, spaces_len};
use crate::yaml_scan::fault::YamlKind;
use crate::yaml_scan::line::{Spot, is_deeper, is_sign, push_break, push_feeds};
use crate::yaml_scan::scalar::Scalar;
use pr_words::{Items, is_blank};
use std::alloc::{AllocError, Global};

/// Whether a block scalar keeps its lines, or folds them.
#[derive(Clone, Copy)]
pub(crate) enum Style {
    /// `|`
    Kept,
    /// `>`
    Folded,
}

/// Which line feeds at a block scalar's end are kept.
#[derive(Clone, Copy)]
pub(crate) enum Chomp {
    /// One.
    Clip,
    /// None: `-`.
    Strip,
    /// All: `+`.
    All,
}

/// The chomping that a header tells after its sign.
#[tactic(auto, unfolding(crate::specs::Block::chomp_of))]
pub(crate) fn chomp_of(rest: &[u8]) -> Chomp
    ensures { result ≡ chomp_of rest.now }
{
    match rest.split_first() {
        Some((b'-', _)) => Chomp::Strip,
        Some((b'+', _)) => Chomp::All,
        _ => Chomp::Clip,
    }
}

/// What follows that.
#[tactic(auto, unfolding(crate::specs::Block::after_chomp))]
pub(crate) fn after_chomp(rest: &[u8]) -> &[u8]
    ensures { result.now ≡ after_chomp rest.now }
{
    match rest.split_first() {
        Some((b'-' | b'+', after)) => after,
        _ => rest,
    }
}

/// What is wrong with the end of a header.
#[tactic(auto, unfolding(crate::specs::Block::header_fault))]
pub(crate) fn header_fault(other: YamlKind, rest: &[u8]) -> Option<YamlKind>
    ensures { result ≡ header_fault other rest.now }
{
    if let Some((first, _)) = rest.split_first() {
        if first.is_ascii_digit() {
            return Some(YamlKind::Indicator);
        }
    }
    let blanks = blanks_len(rest);
    match rest[blanks..].split_first() {
        None => None,
        Some((first, after)) => {
            if *first == NO_TEXT {
                Some(YamlKind::NotText)
            } else if *first == b'#' && blanks > 0 {
                if has_no_text(after) {
                    Some(YamlKind::NotText)
                } else {
                    None
                }
            } else {
                Some(other)
            }
        }
    }
}

fn ends_block(inside: bool, line: &[u8]) -> bool
    ensures { result ≡ ends_block inside line.now }
{
    !inside && is_sign(line)
}

/// Whether a line is deep enough to be the first one with text.
fn begins_text(inside: bool, parent: Option<u32>, line: &Spot<'_>) -> Option<usize>
    ensures { result ≡ (if is_deeper parent (spaces_len line.now.here) && not (ends_block inside line.now.here) then Some (spaces_len line.now.here) else None) }
{
    let here = line.here;
    let spaces = spaces_len(here);
    if is_deeper(parent, spaces) && !ends_block(inside, here) {
        Some(spaces)
    } else {
        None
    }
}

/// The indentation of the text, where there is a line with text.
fn indentation(inside: bool, parent: Option<u32>, p: &Spot<'_>) -> Option<usize>
    ensures { result ≡ indentation inside parent p.now.below }
{
    let mut last = p.copy();
    while let Some(next) = last.line_below() {
        if next.is_spaces() {
            last = next;
        } else {
            return begins_text(inside, parent, &next);
        }
    }
    None
}

/// Whether a line belongs to the text.
#[tactic(auto, unfolding(crate::specs::Block::belongs))]
fn belongs(inside: bool, indent: Option<usize>, line: &Spot<'_>) -> bool
    ensures { result ≡ belongs inside indent line.now.here }
{
    let here = line.here;
    match indent {
        Some(indent) => is_spaces(here)
            || (indent <= spaces_len(here) && !ends_block(inside, here)),
        None => is_spaces(here),
    }
}

/// A line without its indentation.
#[tactic(auto, unfolding(crate::specs::Block::row_of))]
fn row_of<'a>(indent: Option<usize>, line: &Spot<'a>) -> &'a [u8]
    ensures { result.now ≡ row_of indent line.now.here }
{
    let here = line.here;
    match indent {
        Some(indent) => &here[indent.min(spaces_len(here))..],
        None => &here[here.len()..],
    }
}

/// Whether a line has a byte that is no text.
fn is_broken(line: &Spot<'_>) -> bool
    ensures { result ≡ has_no_text line.now.here }
{
    has_no_text(line.here)
}

/// How the last row with text begins.
#[derive(Clone, Copy)]
pub(crate) enum Earlier {
    /// There is none.
    Nothing,
    /// With a blank.
    Blank,
    /// With another byte.
    Text,
}

fn begins_with_blank(row: &[u8]) -> bool
    ensures { result ≡ begins_with_blank row.now }
{
    match row.split_first() {
        Some((first, _)) => is_blank(*first),
        None => false,
    }
}

fn earlier_of(row: &[u8]) -> Earlier
    ensures { result ≡ earlier_of row.now }
{
    if begins_with_blank(row) {
        Earlier::Blank
    } else {
        Earlier::Text
    }
}

/// Puts what stands before a row at the end.
#[tactic(auto, unfolding(crate::specs::Block::row_break))]
fn push_row_break(
    text: &mut Vec<u8>,
    style: Style,
    earlier: Earlier,
    empty: usize,
    blank: bool,
) -> Result<(), AllocError>
    requires { empty + 1 < 2 ^ 64 }
    ensures { OnOk result (text.new.items ≡ text.old.items ++ row_break style earlier empty blank) }
{
    match earlier {
        Earlier::Nothing => push_feeds(text, empty),
        Earlier::Blank => push_feeds(text, empty + 1),
        Earlier::Text => match style {
            Style::Kept => push_feeds(text, empty + 1),
            Style::Folded => {
                if blank {
                    push_feeds(text, empty + 1)
                } else {
                    push_break(text, empty)
                }
            }
        },
    }
}

/// Puts a row and what stands before it at the end.
fn push_row(
    text: &mut Vec<u8>,
    style: Style,
    earlier: Earlier,
    empty: usize,
    row: &[u8],
) -> Result<(), AllocError>
    requires { empty + 1 < 2 ^ 64 }
    ensures { OnOk result (text.new.items ≡ text.old.items ++ (row_break style earlier empty (begins_with_blank row.now) ++ row.now)) }
{
    push_row_break(text, style, earlier, empty, begins_with_blank(row))?;
    text.extend_from_slice(row)
}

/// The line feeds after the last row with text.
#[tactic(auto, unfolding(crate::specs::Block::last_feeds))]
fn last_feeds(earlier: Earlier, empty: usize) -> usize
    requires { empty + 1 < 2 ^ 64 }
    ensures { result ≡ last_feeds earlier empty }
{
    match earlier {
        Earlier::Nothing => empty,
        Earlier::Blank | Earlier::Text => empty + 1,
    }
}

/// Puts those of them that are kept at the end.
#[tactic(auto, unfolding(crate::specs::Block::chomped))]
fn push_chomped(
    text: &mut Vec<u8>,
    chomp: Chomp,
    earlier: Earlier,
    count: usize,
) -> Result<(), AllocError>
    ensures { OnOk result (text.new.items ≡ text.old.items ++ chomped chomp earlier count) }
{
    match chomp {
        Chomp::Strip => Ok(()),
        Chomp::All => push_feeds(text, count),
        Chomp::Clip => match earlier {
            Earlier::Nothing => Ok(()),
            Earlier::Blank | Earlier::Text => push_feeds(text, count.min(1)),
        },
    }
}

/// The block scalar with a header at a place, by the lines below it.
pub(crate) fn block_below<'a>(
    alloc: Global,
    style: Style,
    chomp: Chomp,
    inside: bool,
    parent: Option<u32>,
    p: &Spot<'a>,
) -> Result<Scalar<'a>, AllocError>
    ensures { IfOk result (λ s. s ≡ block_below style chomp inside parent p.now) }
{
    let indent = indentation(inside, parent, p);
    let mut text = Vec::new(alloc);
    let mut earlier = Earlier::Nothing;
    let mut empty = 0usize;
    let mut last = p.copy();
    while let Some(next) = last.line_below() {
        if belongs(inside, indent, &next) {
            if is_broken(&next) {
                return Ok(Scalar::Broken {
                    line: next.line_number(),
                    kind: YamlKind::NotText,
                });
            }
            let row = row_of(indent, &next);
            if row.is_empty() {
                empty += 1;
            } else {
                push_row(&mut text, style, earlier, empty, row)?;
                earlier = earlier_of(row);
                empty = 0;
            }
            last = next;
        } else {
            push_chomped(&mut text, chomp, earlier, last_feeds(earlier, empty))?;
            return Ok(Scalar::Found {
                text: Items::new(text),
                after: next,
            });
        }
    }
    let feeds = last_feeds(earlier, empty);
    push_chomped(&mut text, chomp, earlier, feeds - feeds.min(1))?;
    Ok(Scalar::Found {
        text: Items::new(text),
        after: p.end(),
    })
}
