// The names of operators, aggregations and functions.
ghost use Rattle.std.specs.Prelude.{◌≡◌};
ghost use Rattle.pr_ast.specs.Names.{op_text, agg_word, agg_text, agg_of, func_text, is_func, first_func, funcs, func_of};

use crate::lex::Word;

/// The operators of two operands. (Prometheus: Querying, Operators.)
#[derive(Clone, Copy, PartialEq, Eq, Debug)]
pub enum BinOp {
    Or,
    And,
    Unless,
    Equal,
    NotEqual,
    LessEqual,
    Less,
    GreaterEqual,
    Greater,
    Add,
    Sub,
    Mul,
    Div,
    Rem,
}

/// The aggregations. (Prometheus: Querying, Operators, "Aggregation operators".)
#[derive(Clone, Copy, PartialEq, Eq, Debug)]
pub enum AggOp {
    Sum,
    Avg,
    Min,
    Max,
    Count,
    Group,
    TopK,
    BottomK,
    Quantile,
    CountValues,
}

/// The functions. (Prometheus: Querying, Functions.)
#[derive(Clone, Copy, PartialEq, Eq, Debug)]
pub enum Func {
    Abs,
    Ceil,
    Floor,
    Sgn,
    Round,
    Clamp,
    ClampMin,
    ClampMax,
    Time,
    Vector,
    Scalar,
    Timestamp,
    Absent,
    AbsentOverTime,
    Minute,
    Hour,
    DayOfWeek,
    DayOfMonth,
    DayOfYear,
    DaysInMonth,
    Month,
    Year,
    LabelReplace,
    LabelJoin,
    HistogramQuantile,
    Rate,
    Increase,
    Delta,
    Irate,
    Idelta,
    Deriv,
    PredictLinear,
    Changes,
    Resets,
    SumOverTime,
    AvgOverTime,
    MinOverTime,
    MaxOverTime,
    CountOverTime,
    LastOverTime,
    PresentOverTime,
    QuantileOverTime,
}

// The functions, in their order.
const FUNCS: [Func; 42] = [
    Func::Abs,
    Func::Ceil,
    Func::Floor,
    Func::Sgn,
    Func::Round,
    Func::Clamp,
    Func::ClampMin,
    Func::ClampMax,
    Func::Time,
    Func::Vector,
    Func::Scalar,
    Func::Timestamp,
    Func::Absent,
    Func::AbsentOverTime,
    Func::Minute,
    Func::Hour,
    Func::DayOfWeek,
    Func::DayOfMonth,
    Func::DayOfYear,
    Func::DaysInMonth,
    Func::Month,
    Func::Year,
    Func::LabelReplace,
    Func::LabelJoin,
    Func::HistogramQuantile,
    Func::Rate,
    Func::Increase,
    Func::Delta,
    Func::Irate,
    Func::Idelta,
    Func::Deriv,
    Func::PredictLinear,
    Func::Changes,
    Func::Resets,
    Func::SumOverTime,
    Func::AvgOverTime,
    Func::MinOverTime,
    Func::MaxOverTime,
    Func::CountOverTime,
    Func::LastOverTime,
    Func::PresentOverTime,
    Func::QuantileOverTime,
];

impl BinOp {
    /// The operator as it is written.
    #[tactic(auto, unfolding(crate::specs::Names::op_text))]
    pub fn text(self) -> &'static str
        ensures { result.now ≡ op_text self }
    {
        match self {
            BinOp::Or => Word::Or.text(),
            BinOp::And => Word::And.text(),
            BinOp::Unless => Word::Unless.text(),
            BinOp::Equal => "==",
            BinOp::NotEqual => "!=",
            BinOp::LessEqual => "<=",
            BinOp::Less => "<",
            BinOp::GreaterEqual => ">=",
            BinOp::Greater => ">",
            BinOp::Add => "+",
            BinOp::Sub => "-",
            BinOp::Mul => "*",
            BinOp::Div => "/",
            BinOp::Rem => "%",
        }
    }
}

impl AggOp {
    /// The word that names the aggregation.
    pub fn word(self) -> Word
        ensures { result ≡ agg_word self }
    {
        match self {
            AggOp::Sum => Word::Sum,
            AggOp::Avg => Word::Avg,
            AggOp::Min => Word::Min,
            AggOp::Max => Word::Max,
            AggOp::Count => Word::Count,
            AggOp::Group => Word::Group,
            AggOp::TopK => Word::TopK,
            AggOp::BottomK => Word::BottomK,
            AggOp::Quantile => Word::Quantile,
            AggOp::CountValues => Word::CountValues,
        }
    }

    /// The aggregation that a word names.
    pub fn of(word: Word) -> Option<AggOp>
        ensures { result ≡ agg_of word }
    {
        match word {
            Word::Sum => Some(AggOp::Sum),
            Word::Avg => Some(AggOp::Avg),
            Word::Min => Some(AggOp::Min),
            Word::Max => Some(AggOp::Max),
            Word::Count => Some(AggOp::Count),
            Word::Group => Some(AggOp::Group),
            Word::TopK => Some(AggOp::TopK),
            Word::BottomK => Some(AggOp::BottomK),
            Word::Quantile => Some(AggOp::Quantile),
            Word::CountValues => Some(AggOp::CountValues),
            _ => None,
        }
    }

    /// The name of the aggregation, in small letters.
    pub fn text(self) -> &'static str
        ensures { result.now ≡ agg_text self }
    {
        self.word().text()
    }
}

impl Func {
    /// The name of the function.
    #[tactic(auto, unfolding(crate::specs::Names::func_text))]
    pub fn text(self) -> &'static str
        ensures { result.now ≡ func_text self }
    {
        match self {
            Func::Abs => "abs",
            Func::Ceil => "ceil",
            Func::Floor => "floor",
            Func::Sgn => "sgn",
            Func::Round => "round",
            Func::Clamp => "clamp",
            Func::ClampMin => "clamp_min",
            Func::ClampMax => "clamp_max",
            Func::Time => "time",
            Func::Vector => "vector",
            Func::Scalar => "scalar",
            Func::Timestamp => "timestamp",
            Func::Absent => "absent",
            Func::AbsentOverTime => "absent_over_time",
            Func::Minute => "minute",
            Func::Hour => "hour",
            Func::DayOfWeek => "day_of_week",
            Func::DayOfMonth => "day_of_month",
            Func::DayOfYear => "day_of_year",
            Func::DaysInMonth => "days_in_month",
            Func::Month => "month",
            Func::Year => "year",
            Func::LabelReplace => "label_replace",
            Func::LabelJoin => "label_join",
            Func::HistogramQuantile => "histogram_quantile",
            Func::Rate => "rate",
            Func::Increase => "increase",
            Func::Delta => "delta",
            Func::Irate => "irate",
            Func::Idelta => "idelta",
            Func::Deriv => "deriv",
            Func::PredictLinear => "predict_linear",
            Func::Changes => "changes",
            Func::Resets => "resets",
            Func::SumOverTime => "sum_over_time",
            Func::AvgOverTime => "avg_over_time",
            Func::MinOverTime => "min_over_time",
            Func::MaxOverTime => "max_over_time",
            Func::CountOverTime => "count_over_time",
            Func::LastOverTime => "last_over_time",
            Func::PresentOverTime => "present_over_time",
            Func::QuantileOverTime => "quantile_over_time",
        }
    }
}

#[tactic(auto, unfolding(crate::specs::Names::is_func))]
fn is_func(text: &str, func: Func) -> bool
    ensures { result ≡ is_func text.now func }
{
    text == func.text()
}

fn first_func(text: &str, funcs: &[Func]) -> Option<Func>
    ensures { result ≡ first_func text.now funcs.now }
{
    for func in funcs {
        if is_func(text, *func) {
            return Some(*func);
        }
    }
    None
}

/// The function that a name is.
#[tactic(auto, unfolding(crate::specs::Names::func_of, crate::specs::Names::funcs))]
pub fn func_of(text: &str) -> Option<Func>
    ensures { result ≡ func_of text.now }
{
    first_func(text, &FUNCS)
}
