// Operators of two values.
ghost use Rattle.std.specs.Prelude.{◌≡◌, if◌then◌else◌};
ghost use Rattle.pr_range.specs.spec_vectors.Operators.{holds, truth_value};
ghost use Rattle.spec_meaning.specs.Operators.{comparison_of, is_filter, operator_of, result_of};
ghost use Rattle.pr_eval.specs.private.Besides.{holds_beside, result_beside};

use pr_ast::BinOp;
use pr_num::{Num, TooWide};
use spec_meaning::types::compares;
use std::cmp::Ordering;

/// Whether the operator is a comparison without `bool`.
pub(crate) fn is_filter(op: BinOp, with_bool: bool) -> bool
    ensures { result ≡ is_filter op with_bool }
{
    compares(op) && !with_bool
}

fn comparison_of(op: BinOp, order: Option<Ordering>) -> bool
    ensures { result ≡ comparison_of op order }
{
    match op {
        BinOp::Equal => matches!(order, Some(Ordering::Equal)),
        BinOp::NotEqual => !matches!(order, Some(Ordering::Equal)),
        BinOp::LessEqual => matches!(order, Some(Ordering::Less | Ordering::Equal)),
        BinOp::Less => matches!(order, Some(Ordering::Less)),
        BinOp::GreaterEqual => matches!(order, Some(Ordering::Greater | Ordering::Equal)),
        BinOp::Greater => matches!(order, Some(Ordering::Greater)),
        _ => false,
    }
}

fn holds(op: BinOp, left: &Num, right: &Num) -> bool
    ensures { result ≡ holds (comparison_of op) left.now right.now }
{
    comparison_of(op, left.compare(*right))
}

fn truth_value(b: bool) -> Num
    ensures { result ≡ truth_value b }
{
    if b { Num::whole(1) } else { Num::whole(0) }
}

/// The value of an operator; a comparison gives 1 or 0.
pub(crate) fn result_of(op: BinOp, left: &Num, right: &Num) -> Result<Num, TooWide>
    ensures { result ≡ result_of op left.now right.now }
{
    match op {
        BinOp::Add => left.add(*right),
        BinOp::Sub => left.sub(*right),
        BinOp::Mul => left.mul(*right),
        BinOp::Div => left.div(*right),
        BinOp::Rem => Ok(left.rem(*right)),
        BinOp::Or | BinOp::And | BinOp::Unless => Ok(Num::NaN),
        _ => Ok(truth_value(holds(op, left, right))),
    }
}

/// What an operator gives between the values of two vectors; none where a filter drops the pair.
pub(crate) fn operator_of(
    op: BinOp,
    with_bool: bool,
    left: &Num,
    right: &Num,
) -> Result<Option<Num>, TooWide>
    ensures { result ≡ operator_of op with_bool left.now right.now }
{
    if is_filter(op, with_bool) {
        return Ok(if holds(op, left, right) {
            Some(*left)
        } else {
            None
        });
    }
    Ok(Some(result_of(op, left, right)?))
}

/// An operator with a scalar on one of its sides.
#[derive(Drop)]
pub(crate) struct Beside {
    pub(crate) op: BinOp,
    pub(crate) scalar: Num,
    pub(crate) scalar_is_left: bool,
}

impl Beside {
    /// Whether the comparison holds of a value on the other side.
    pub(crate) fn holds(&self, value: &Num) -> bool
        ensures { result ≡ holds_beside self.now value.now }
    {
        if self.scalar_is_left {
            holds(self.op, &self.scalar, value)
        } else {
            holds(self.op, value, &self.scalar)
        }
    }

    /// What the operator gives of a value on the other side.
    pub(crate) fn result(&self, value: &Num) -> Result<Num, TooWide>
        ensures { result ≡ result_beside self.now value.now }
    {
        if self.scalar_is_left {
            result_of(self.op, &self.scalar, value)
        } else {
            result_of(self.op, value, &self.scalar)
        }
    }
}
