//! Printing an expression.
ghost use Rattle.std.specs.Prelude.{◌≡◌, ◌++◌, OnOk, flat_map};
ghost use Rattle.pr_num.specs.Shown.{shown};
ghost use Rattle.pr_time.specs.SpanShown.{shown_span};
ghost use Rattle.pr_ast.specs.Tree.{tree_of, trees_of};
ghost use Rattle.pr_ast.specs.private.Print.{following_text, names_text, labels_text, match_sign_text, matcher_text, following_matcher, matchers_text, braces_text, selected_text, offset_text, step_text, select_text, range_text, sub_text, side_text, on_text, matching_text, bool_text, by_text, is_operation, enclosed_text, tree_text, comma_unless};

use crate::selector::{MatchSign, MatchText, Selector};
use crate::tree::{Expr, ExprKind};
use pr_labels::words_crate::Text;
use pr_labels::words_crate::strings::write_string;
use pr_labels::{Card, Grouping, Matching};
use pr_num::Num;
use pr_time::{Span, write_span};
use std::alloc::AllocError;

fn push_number(out: &mut Vec<u8>, value: Num) -> Result<(), AllocError>
    ensures { OnOk result (out.new.items ≡ out.old.items ++ shown value) }
{
    let mut buffer = [0; 40];
    let length = pr_num::write(value, &mut buffer);
    out.extend_from_slice(&buffer[..length])
}

fn push_span(out: &mut Vec<u8>, span: Span) -> Result<(), AllocError>
    ensures { OnOk result (out.new.items ≡ out.old.items ++ shown_span span) }
{
    let mut buffer = [0; 40];
    let length = write_span(span, &mut buffer);
    out.extend_from_slice(&buffer[..length])
}

fn push_following(out: &mut Vec<u8>, names: &[Text]) -> Result<(), AllocError>
    ensures { OnOk result (out.new.items ≡ out.old.items ++ flat_map following_text names.now) }
{
    for name in names {
        out.extend_from_slice(b", ")?;
        out.extend_from_slice(name.as_str().as_bytes())?;
    }
    Ok(())
}

fn push_names(out: &mut Vec<u8>, names: &[Text]) -> Result<(), AllocError>
    ensures { OnOk result (out.new.items ≡ out.old.items ++ names_text names.now) }
{
    match names {
        [] => Ok(()),
        [first, rest @ ..] => {
            out.extend_from_slice(first.as_str().as_bytes())?;
            push_following(out, rest)
        }
    }
}

fn push_labels(out: &mut Vec<u8>, names: &[Text]) -> Result<(), AllocError>
    ensures { OnOk result (out.new.items ≡ out.old.items ++ labels_text names.now) }
{
    out.extend_from_slice(b"(")?;
    push_names(out, names)?;
    out.extend_from_slice(b")")
}

fn push_match_sign(out: &mut Vec<u8>, op: MatchSign) -> Result<(), AllocError>
    ensures { OnOk result (out.new.items ≡ out.old.items ++ match_sign_text op) }
{
    match op {
        MatchSign::Equal => out.extend_from_slice(b"="),
        MatchSign::NotEqual => out.extend_from_slice(b"!="),
        MatchSign::Like => out.extend_from_slice(b"=~"),
        MatchSign::NotLike => out.extend_from_slice(b"!~"),
    }
}

fn push_matcher(out: &mut Vec<u8>, matcher: &MatchText) -> Result<(), AllocError>
    ensures { OnOk result (out.new.items ≡ out.old.items ++ matcher_text matcher.now) }
{
    out.extend_from_slice(matcher.label.as_str().as_bytes())?;
    push_match_sign(out, matcher.op)?;
    write_string(matcher.text.as_str().as_bytes(), out)
}

fn push_following_matchers(out: &mut Vec<u8>, matchers: &[MatchText]) -> Result<(), AllocError>
    ensures { OnOk result (out.new.items ≡ out.old.items ++ flat_map following_matcher matchers.now) }
{
    for matcher in matchers {
        out.extend_from_slice(b", ")?;
        push_matcher(out, matcher)?;
    }
    Ok(())
}

fn push_matchers(out: &mut Vec<u8>, matchers: &[MatchText]) -> Result<(), AllocError>
    ensures { OnOk result (out.new.items ≡ out.old.items ++ matchers_text matchers.now) }
{
    match matchers {
        [] => Ok(()),
        [first, rest @ ..] => {
            push_matcher(out, first)?;
            push_following_matchers(out, rest)
        }
    }
}

fn push_braces(out: &mut Vec<u8>, matchers: &[MatchText]) -> Result<(), AllocError>
    ensures { OnOk result (out.new.items ≡ out.old.items ++ braces_text matchers.now) }
{
    out.extend_from_slice(b"{")?;
    push_matchers(out, matchers)?;
    out.extend_from_slice(b"}")
}

fn push_selected(out: &mut Vec<u8>, selector: &Selector) -> Result<(), AllocError>
    ensures { OnOk result (out.new.items ≡ out.old.items ++ selected_text selector.now.name selector.now.matchers) }
{
    match &selector.name {
        Some(name) => {
            out.extend_from_slice(name.as_str().as_bytes())?;
            if selector.matchers.as_slice().is_empty() {
                return Ok(());
            }
            push_braces(out, selector.matchers.as_slice())
        }
        None => push_braces(out, selector.matchers.as_slice()),
    }
}

fn push_offset(out: &mut Vec<u8>, offset: Span) -> Result<(), AllocError>
    ensures { OnOk result (out.new.items ≡ out.old.items ++ offset_text offset) }
{
    if offset.get() == 0 {
        return Ok(());
    }
    out.extend_from_slice(b" offset ")?;
    push_span(out, offset)
}

fn push_step(out: &mut Vec<u8>, step: Option<Span>) -> Result<(), AllocError>
    ensures { OnOk result (out.new.items ≡ out.old.items ++ step_text step) }
{
    match step {
        Some(span) => push_span(out, span),
        None => Ok(()),
    }
}

fn push_select(out: &mut Vec<u8>, selector: &Selector) -> Result<(), AllocError>
    ensures { OnOk result (out.new.items ≡ out.old.items ++ select_text selector.now) }
{
    push_selected(out, selector)?;
    push_offset(out, selector.offset)
}

fn push_range(out: &mut Vec<u8>, selector: &Selector, span: Span) -> Result<(), AllocError>
    ensures { OnOk result (out.new.items ≡ out.old.items ++ range_text selector.now span) }
{
    push_selected(out, selector)?;
    out.extend_from_slice(b"[")?;
    push_span(out, span)?;
    out.extend_from_slice(b"]")?;
    push_offset(out, selector.offset)
}

fn push_sub(
    out: &mut Vec<u8>,
    span: Span,
    step: Option<Span>,
    offset: Span,
) -> Result<(), AllocError>
    ensures { OnOk result (out.new.items ≡ out.old.items ++ sub_text span step offset) }
{
    out.extend_from_slice(b"[")?;
    push_span(out, span)?;
    out.extend_from_slice(b":")?;
    push_step(out, step)?;
    out.extend_from_slice(b"]")?;
    push_offset(out, offset)
}

fn push_side(out: &mut Vec<u8>, card: Card, include: &[Text]) -> Result<(), AllocError>
    ensures { OnOk result (out.new.items ≡ out.old.items ++ side_text card include.now) }
{
    match card {
        Card::OneToOne => Ok(()),
        Card::ManyToOne => {
            out.extend_from_slice(b" group_left ")?;
            push_labels(out, include)
        }
        Card::OneToMany => {
            out.extend_from_slice(b" group_right ")?;
            push_labels(out, include)
        }
    }
}

fn push_on(out: &mut Vec<u8>, on: bool) -> Result<(), AllocError>
    ensures { OnOk result (out.new.items ≡ out.old.items ++ on_text on) }
{
    if on {
        out.extend_from_slice(b" on ")
    } else {
        out.extend_from_slice(b" ignoring ")
    }
}

fn push_matching(out: &mut Vec<u8>, matching: &Option<Matching>) -> Result<(), AllocError>
    ensures { OnOk result (out.new.items ≡ out.old.items ++ matching_text matching.now) }
{
    match matching {
        Some(found) => {
            push_on(out, found.on)?;
            push_labels(out, found.names.as_slice())?;
            push_side(out, found.card, found.include.as_slice())
        }
        None => Ok(()),
    }
}

fn push_bool(out: &mut Vec<u8>, with_bool: bool) -> Result<(), AllocError>
    ensures { OnOk result (out.new.items ≡ out.old.items ++ bool_text with_bool) }
{
    if with_bool {
        out.extend_from_slice(b" bool")
    } else {
        Ok(())
    }
}

fn push_grouping(out: &mut Vec<u8>, grouping: &Grouping) -> Result<(), AllocError>
    ensures { OnOk result (out.new.items ≡ out.old.items ++ by_text grouping.now.by grouping.now.names) }
{
    let names = grouping.names.as_slice();
    if !grouping.by {
        out.extend_from_slice(b" without ")?;
        push_labels(out, names)?;
        return out.extend_from_slice(b" ");
    }
    if names.is_empty() {
        return Ok(());
    }
    out.extend_from_slice(b" by ")?;
    push_labels(out, names)?;
    out.extend_from_slice(b" ")
}

// Whether the expression stands in parentheses as an operand.
fn is_operation(e: &Expr) -> bool
    ensures { result ≡ is_operation (tree_of e.now) }
{
    matches!(&e.kind, ExprKind::Binary { .. } | ExprKind::Neg { .. })
}

#[cycle(print)]
fn push_operand(out: &mut Vec<u8>, e: &Expr) -> Result<(), AllocError>
    ensures { OnOk result (out.new.items ≡ out.old.items ++ enclosed_text (is_operation (tree_of e.now)) (tree_text (tree_of e.now))) }
{
    if !is_operation(e) {
        return print(e, out);
    }
    out.extend_from_slice(b"(")?;
    print(e, out)?;
    out.extend_from_slice(b")")
}

// What stands before an argument.
fn push_comma(out: &mut Vec<u8>, first: bool) -> Result<(), AllocError>
    ensures { OnOk result (out.new.items ≡ out.old.items ++ comma_unless first) }
{
    if first {
        Ok(())
    } else {
        out.extend_from_slice(b", ")
    }
}

#[cycle(print)]
fn push_args(out: &mut Vec<u8>, args: &[Expr]) -> Result<(), AllocError>
    ensures { OnOk result (out.new.items ≡ out.old.items ++ tree_text (trees_of args.now)) }
{
    let mut first = true;
    for arg in args {
        push_comma(out, first)?;
        print(arg, out)?;
        first = false;
    }
    Ok(())
}

/// Appends the text of an expression: single blanks around operators and after commas, strings in
/// double quotes, a grouping before the arguments, and parentheses round each operand that is an
/// operation or a negation. (Own choice.)
///
/// # Errors
/// Memory ran out. What was appended until then is nothing to rely on.
#[cycle(print)]
pub fn print(e: &Expr, out: &mut Vec<u8>) -> Result<(), AllocError>
    ensures { OnOk result (out.new.items ≡ out.old.items ++ tree_text (tree_of e.now)) }
{
    match &e.kind {
        ExprKind::Number { value } => push_number(out, *value),
        ExprKind::Text { text } => write_string(text.as_str().as_bytes(), out),
        ExprKind::Select { selector } => push_select(out, selector),
        ExprKind::Range { selector, span } => push_range(out, selector, *span),
        ExprKind::Sub {
            inner,
            span,
            step,
            offset,
        } => {
            push_operand(out, inner)?;
            push_sub(out, *span, *step, *offset)
        }
        ExprKind::Neg { inner } => {
            out.extend_from_slice(b"-")?;
            push_operand(out, inner)
        }
        ExprKind::Binary {
            op,
            with_bool,
            matching,
            left,
            right,
        } => {
            push_operand(out, left)?;
            out.extend_from_slice(b" ")?;
            out.extend_from_slice(op.text().as_bytes())?;
            push_bool(out, *with_bool)?;
            push_matching(out, matching)?;
            out.extend_from_slice(b" ")?;
            push_operand(out, right)
        }
        ExprKind::Call { func, args } => {
            out.extend_from_slice(func.text().as_bytes())?;
            out.extend_from_slice(b"(")?;
            push_args(out, args)?;
            out.extend_from_slice(b")")
        }
        ExprKind::Aggregate {
            op,
            grouping,
            param,
            inner,
        } => {
            out.extend_from_slice(op.text().as_bytes())?;
            push_grouping(out, grouping)?;
            out.extend_from_slice(b"(")?;
            if let Some(first) = param {
                print(first, out)?;
                out.extend_from_slice(b", ")?;
            }
            print(inner, out)?;
            out.extend_from_slice(b")")
        }
    }
}
