//! Which arguments functions and aggregations take, and what they give.
ghost use Rattle.std.specs.Prelude.{◌≡◌};
ghost use Rattle.pr_types.specs.Signatures.{func_signature, agg_signature, is_type, kind_wanting, first_wrong, wrong_operand, are_counted, accepted};

use crate::kind::{TypeFault, TypeKind, ValueType};
use pr_ast::{AggOp, Func};

/// The arguments of a function or an aggregation: the type of the first one and that of all others,
/// how many there are, and what it gives to them.
#[derive(Clone, Copy, PartialEq, Eq, Debug)]
pub struct Signature {
    pub first: ValueType,
    pub others: ValueType,
    pub least: u32,
    pub most: u32,
    pub gives: ValueType,
}

/// An operand that has a type, and where it starts.
#[derive(Clone, Copy, PartialEq, Eq, Debug)]
pub struct Operand {
    pub at: usize,
    pub gives: ValueType,
}

const fn takes(
    first: ValueType,
    others: ValueType,
    least: u32,
    most: u32,
    gives: ValueType,
) -> Signature
    ensures { result ≡ record { first = first; others = others; least = least; most = most; gives = gives } }
{
    Signature {
        first,
        others,
        least,
        most,
        gives,
    }
}

impl Signature {
    /// The signature of a function. (Prometheus: Query functions.)
    #[tactic(auto, unfolding(crate::specs::Signatures::func_signature))]
    pub fn of_func(func: Func) -> Signature
        ensures { result ≡ func_signature func }
    {
        use ValueType::{Range, Scalar, Text, Vector};
        match func {
            Func::Abs | Func::Ceil | Func::Floor | Func::Sgn => takes(Vector, Vector, 1, 1, Vector),
            Func::Round => takes(Vector, Scalar, 1, 2, Vector),
            Func::Clamp => takes(Vector, Scalar, 3, 3, Vector),
            Func::ClampMin | Func::ClampMax => takes(Vector, Scalar, 2, 2, Vector),
            Func::Time => takes(Vector, Vector, 0, 0, Scalar),
            Func::Vector => takes(Scalar, Scalar, 1, 1, Vector),
            Func::Scalar => takes(Vector, Vector, 1, 1, Scalar),
            Func::Timestamp | Func::Absent => takes(Vector, Vector, 1, 1, Vector),
            Func::Minute
            | Func::Hour
            | Func::DayOfWeek
            | Func::DayOfMonth
            | Func::DayOfYear
            | Func::DaysInMonth
            | Func::Month
            | Func::Year => takes(Vector, Vector, 0, 1, Vector),
            Func::LabelReplace => takes(Vector, Text, 5, 5, Vector),
            Func::LabelJoin => takes(Vector, Text, 4, u32::MAX, Vector),
            Func::HistogramQuantile => takes(Scalar, Vector, 2, 2, Vector),
            Func::PredictLinear => takes(Range, Scalar, 2, 2, Vector),
            Func::QuantileOverTime => takes(Scalar, Range, 2, 2, Vector),
            Func::AbsentOverTime
            | Func::Rate
            | Func::Increase
            | Func::Delta
            | Func::Irate
            | Func::Idelta
            | Func::Deriv
            | Func::Changes
            | Func::Resets
            | Func::SumOverTime
            | Func::AvgOverTime
            | Func::MinOverTime
            | Func::MaxOverTime
            | Func::CountOverTime
            | Func::LastOverTime
            | Func::PresentOverTime => takes(Range, Range, 1, 1, Vector),
        }
    }

    /// The signature of an aggregation, whose parameter stands before its vector. (Prometheus:
    /// Operators, "Aggregation operators".)
    #[tactic(auto, unfolding(crate::specs::Signatures::agg_signature))]
    pub fn of_agg(op: AggOp) -> Signature
        ensures { result ≡ agg_signature op }
    {
        use ValueType::{Scalar, Text, Vector};
        match op {
            AggOp::Sum | AggOp::Avg | AggOp::Min | AggOp::Max | AggOp::Count | AggOp::Group => {
                takes(Vector, Vector, 1, 1, Vector)
            }
            AggOp::TopK | AggOp::BottomK | AggOp::Quantile => takes(Scalar, Vector, 2, 2, Vector),
            AggOp::CountValues => takes(Text, Vector, 2, 2, Vector),
        }
    }

    /// What it gives to these operands, or the first fault: their number is tested first, then the
    /// types in the order of the text.
    pub(crate) fn accepted(self, at: usize, operands: &[Operand]) -> Result<ValueType, TypeFault>
        ensures { result ≡ accepted at self operands.now }
    {
        if !self.are_counted(operands) {
            let have = operands.len() as u64;
            let kind = TypeKind::Arguments {
                have,
                least: self.least,
                most: self.most,
            };
            return Err(TypeFault { at, kind });
        }
        match self.wrong_operand(operands) {
            Some(fault) => Err(fault),
            None => Ok(self.gives),
        }
    }

    fn are_counted(self, operands: &[Operand]) -> bool
        ensures { result ≡ are_counted self operands.now }
    {
        self.least as usize <= operands.len() && operands.len() <= self.most as usize
    }

    fn wrong_operand(self, operands: &[Operand]) -> Option<TypeFault>
        ensures { result ≡ wrong_operand self operands.now }
    {
        match operands {
            [] => None,
            [first, rest @ ..] => {
                if !is_type(first.gives, self.first) {
                    return Some(wanting(first.at, self.first));
                }
                first_wrong(self.others, rest)
            }
        }
    }
}

/// Whether two types are the same.
pub(crate) fn is_type(one: ValueType, other: ValueType) -> bool
    ensures { result ≡ is_type one other }
{
    matches!(
        (one, other),
        (ValueType::Scalar, ValueType::Scalar)
            | (ValueType::Vector, ValueType::Vector)
            | (ValueType::Range, ValueType::Range)
            | (ValueType::Text, ValueType::Text)
    )
}

/// The fault of an operand that should have this type.
pub(crate) fn wanting(at: usize, want: ValueType) -> TypeFault
    ensures { result ≡ record { at = at; kind = kind_wanting want } }
{
    let kind = match want {
        ValueType::Scalar => TypeKind::WantScalar,
        ValueType::Vector => TypeKind::WantVector,
        ValueType::Range => TypeKind::WantRange,
        ValueType::Text => TypeKind::WantText,
    };
    TypeFault { at, kind }
}

fn first_wrong(want: ValueType, operands: &[Operand]) -> Option<TypeFault>
    ensures { result ≡ first_wrong want operands.now }
{
    for operand in operands {
        if !is_type(operand.gives, want) {
            return Some(wanting(operand.at, want));
        }
    }
    None
}
