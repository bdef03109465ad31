// Making the nodes of trees.
ghost use Rattle.std.specs.Prelude.{◌≡◌, IfOk, Some, None, option_map};
ghost use Rattle.pr_ast.specs.Tree.{number, text as text_tree, select, sub, call, aggregate, tree_of, trees_of};
ghost use Rattle.pr_parse.specs.Seen.{see};
ghost use Rattle.pr_parse.specs.Grammar.{part, at, operand, turn, operation, signed, through, joined, turned, signed_by, opened_by, closed_by, literal_at, selector_of, moved, range_made, offset_set, arguments, parameter, bare, grouping_by};
ghost use Rattle.pr_parse.specs.private.Reader.{value_of, parameters_of};

use crate::grammar::{Lexed, TokenClass, no_span, number_of, place_of, text_of, through};
use pr_ast::labels::{Grouping, Matching};
use pr_ast::lex::Word;
use pr_ast::num::Num;
use pr_ast::time::Span;
use pr_ast::{AggOp, BinOp, Expr, ExprKind, Func, MatchText, Place, Selector};
use pr_words::{Items, Text};
use std::alloc::{AllocError, Global};

/// An expression, with the place of its text, parentheses and signs around it included.
#[derive(Drop, Debug)]
pub(crate) struct Part {
    pub(crate) expr: Expr,
    pub(crate) place: Place,
}

/// The arguments of an aggregation.
#[derive(Drop, Debug)]
pub(crate) struct Parameters {
    pub(crate) param: Option<Box<Expr>>,
    pub(crate) inner: Box<Expr>,
}

fn number_made(place: Place, value: Num) -> Part
    ensures { value_of result ≡ part place (number place value) }
{
    Part {
        expr: Expr {
            place,
            kind: ExprKind::Number { value },
        },
        place,
    }
}

fn text_made(alloc: Global, place: Place, text: &str) -> Result<Part, AllocError>
    ensures { IfOk result (λ x. value_of x ≡ part place (text_tree place text.now)) }
{
    let kind = ExprKind::Text {
        text: Text::from_str(alloc, text)?,
    };
    Ok(Part {
        expr: Expr { place, kind },
        place,
    })
}

/// The number or string that a token is.
pub(crate) fn literal_made(alloc: Global, next: &Lexed) -> Result<Option<Part>, AllocError>
    ensures { IfOk result (λ o. option_map value_of o ≡ literal_at (see next.now)) }
{
    let place = place_of(&next.token);
    match next.kind {
        TokenClass::Number => Ok(Some(number_made(place, number_of(&next.token.kind)))),
        TokenClass::Text => Ok(Some(text_made(alloc, place, text_of(&next.token.kind))?)),
        TokenClass::Word(Word::Inf) => Ok(Some(number_made(place, Num::PosInf))),
        TokenClass::Word(Word::NaN) => Ok(Some(number_made(place, Num::NaN))),
        _ => Ok(None),
    }
}

/// A selector with no offset yet.
pub(crate) fn selector_made(place: Place, name: Option<Text>, matchers: Items<MatchText>) -> Part
    ensures { value_of result ≡ part place (select place (selector_of name matchers)) }
{
    let selector = Selector {
        name,
        matchers,
        offset: no_span(),
    };
    Part {
        expr: Expr {
            place,
            kind: ExprKind::Select { selector },
        },
        place,
    }
}

/// A selector with a range. Nothing else has one.
fn range_made(place: Place, span: Span, expr: Expr) -> Expr
    ensures { tree_of result ≡ range_made place span (tree_of expr) }
{
    match expr.kind {
        ExprKind::Select { selector } => Expr {
            place,
            kind: ExprKind::Range { selector, span },
        },
        kind => Expr {
            place: expr.place,
            kind,
        },
    }
}

/// A selector, a range or a subquery with its offset. Nothing else has one.
fn offset_set(place: Place, offset: Span, expr: Expr) -> Expr
    ensures { tree_of result ≡ offset_set place offset (tree_of expr) }
{
    match expr.kind {
        ExprKind::Select { selector } => Expr {
            place,
            kind: ExprKind::Select {
                selector: moved(selector, offset),
            },
        },
        ExprKind::Range { selector, span } => Expr {
            place,
            kind: ExprKind::Range {
                selector: moved(selector, offset),
                span,
            },
        },
        ExprKind::Sub {
            inner,
            span,
            step,
            ..
        } => Expr {
            place,
            kind: ExprKind::Sub {
                inner,
                span,
                step,
                offset,
            },
        },
        kind => Expr {
            place: expr.place,
            kind,
        },
    }
}

fn moved(selector: Selector, offset: Span) -> Selector
    ensures { result ≡ moved selector offset }
{
    Selector {
        name: selector.name,
        matchers: selector.matchers,
        offset,
    }
}

/// The part with a range in brackets, of which the last stands here.
pub(crate) fn with_range(before: Part, span: Span, end: Place) -> Part
    ensures { value_of result ≡ part (through before.place end) (range_made (through before.place end) span (tree_of before.expr)) }
{
    let place = through(before.place, end);
    Part {
        expr: range_made(place, span, before.expr),
        place,
    }
}

/// The part with an offset, whose span stands here.
pub(crate) fn with_offset(before: Part, offset: Span, end: Place) -> Part
    ensures { value_of result ≡ part (through before.place end) (offset_set (through before.place end) offset (tree_of before.expr)) }
{
    let place = through(before.place, end);
    Part {
        expr: offset_set(place, offset, before.expr),
        place,
    }
}

/// The part as a subquery, whose last bracket stands here.
pub(crate) fn subquery_made(
    alloc: Global,
    before: Part,
    span: Span,
    step: Option<Span>,
    end: Place,
) -> Result<Part, AllocError>
    ensures { IfOk result (λ x. value_of x ≡ part (through before.place end) (sub (through before.place end) (tree_of before.expr) span step 0)) }
{
    let place = through(before.place, end);
    let kind = ExprKind::Sub {
        inner: Box::new(alloc, before.expr)?,
        span,
        step,
        offset: no_span(),
    };
    Ok(Part {
        expr: Expr { place, kind },
        place,
    })
}

/// A part behind a unary sign, of which a plus leaves no node.
pub(crate) fn sign_made(
    alloc: Global,
    minus: bool,
    sign: Place,
    inner: Part,
) -> Result<Part, AllocError>
    ensures { IfOk result (λ x. value_of x ≡ signed_by (signed minus sign) (value_of inner)) }
{
    let place = through(sign, inner.place);
    if !minus {
        return Ok(Part {
            expr: inner.expr,
            place,
        });
    }
    let kind = ExprKind::Neg {
        inner: Box::new(alloc, inner.expr)?,
    };
    Ok(Part {
        expr: Expr { place, kind },
        place,
    })
}

/// A part in parentheses, which leave no node.
pub(crate) fn enclosed(opening: Place, inner: Part, closing: Place) -> Part
    ensures { value_of result ≡ opened_by (at opening) (closed_by (value_of inner) (at closing)) }
{
    Part {
        expr: inner.expr,
        place: through(opening, closing),
    }
}

/// An operation.
pub(crate) fn operation_made(
    alloc: Global,
    left: Part,
    op: BinOp,
    with_bool: bool,
    matching: Option<Matching>,
    right: Part,
) -> Result<Part, AllocError>
    ensures { IfOk result (λ x. value_of x ≡ joined (value_of left) (turned (operation op) (operand with_bool matching right.place (tree_of right.expr)))) }
{
    let place = through(left.place, right.place);
    let kind = ExprKind::Binary {
        op,
        with_bool,
        matching,
        left: Box::new(alloc, left.expr)?,
        right: Box::new(alloc, right.expr)?,
    };
    Ok(Part {
        expr: Expr { place, kind },
        place,
    })
}

/// A call, from the place of the function's name to that of the last parenthesis.
pub(crate) fn call_made(func: Func, name: Place, args: Vec<Expr>, end: Place) -> Part
    ensures { value_of result ≡ part (through name end) (call (through name end) func (trees_of args.items)) }
{
    let place = through(name, end);
    Part {
        expr: Expr {
            place,
            kind: ExprKind::Call { func, args },
        },
        place,
    }
}

/// An aggregation, from the place of its name to that of its last sign.
pub(crate) fn aggregate_made(
    op: AggOp,
    name: Place,
    by: bool,
    names: Items<Text>,
    parameters: Parameters,
    end: Place,
) -> Part
    ensures { value_of result ≡ part (through name end) (aggregate (through name end) op (grouping_by by names) (parameters_of parameters)) }
{
    let place = through(name, end);
    let grouping = Grouping { by, names };
    Part {
        expr: Expr {
            place,
            kind: ExprKind::Aggregate {
                op,
                grouping,
                param: parameters.param,
                inner: parameters.inner,
            },
        },
        place,
    }
}

/// The one argument of an aggregation.
pub(crate) fn one_parameter(alloc: Global, inner: Part) -> Result<Parameters, AllocError>
    ensures { IfOk result (λ x. arguments (parameters_of x) ≡ parameter (value_of inner) bare) }
{
    Ok(Parameters {
        param: None,
        inner: Box::new(alloc, inner.expr)?,
    })
}

/// The two arguments of an aggregation.
pub(crate) fn two_parameters(
    alloc: Global,
    param: Part,
    inner: Part,
) -> Result<Parameters, AllocError>
    ensures { IfOk result (λ x. arguments (parameters_of x) ≡ parameter (value_of param) (value_of inner)) }
{
    Ok(Parameters {
        param: Some(Box::new(alloc, param.expr)?),
        inner: Box::new(alloc, inner.expr)?,
    })
}
