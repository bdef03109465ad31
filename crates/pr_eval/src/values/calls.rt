// Calls of functions.
ghost use Rattle.std.specs.Prelude.{◌≡◌, true, List, Some, IfOk};
ghost use Rattle.std.specs.List.{All};
ghost use Rattle.std.specs.Option.{option_copied};
ghost use Rattle.pr_ast.specs.Tree.{trees_of};
ghost use Rattle.pr_range.specs.spec_history.declared.entry.Entry.{Entry};
ghost use Rattle.pr_labels.specs.Names.{is_label_name};
ghost use Rattle.spec_meaning.specs.private.Laws.{IsAnswer};
ghost use Rattle.spec_meaning.specs.Calls.{value_of_call};
ghost use Rattle.spec_meaning.specs.pr_types.Typed.{content_at};
ghost use Rattle.pr_eval.specs.private.Answers.{AnswersTo};
ghost use Rattle.pr_eval.specs.private.Calls.{is_plain_call};
ghost use Rattle.pr_eval.specs.private.Plain.{all_plain};

use crate::values::absence::{absent, of_scalar};
use crate::values::arguments::elements_given;
use crate::values::each_value::{
    abs_of, ceils_of, clamped, clamped_max, clamped_min, floors_of, rounded_all, signs_of,
};
use crate::values::error::EvalError;
use crate::values::labelled::{joined, quantiles, replaced};
use crate::values::times::{dates, query_times, seconds_of};
use pr_ast::time::Ms;
use pr_ast::{Expr, Func, Place};
use pr_fn::matching::Pattern;
use pr_fn::{Part, scalar};
use spec_meaning::Value;
use std::alloc::Global;

/// What a call gives of the values of its arguments, and of their texts. It is the call of no
/// function of ranges; where it is that of `timestamp`, its argument is no selector. The pattern is
/// that of `label_replace`, built. (Prometheus: Querying, Functions.)
///
/// # Errors
/// `Fault` where two elements of the result have equal labels or a value is too wide, or `Memory`
/// where memory runs out.
pub fn value_of_call(
    alloc: Global,
    place: Place,
    func: Func,
    args: &[Expr],
    pattern: Option<&Pattern>,
    time: Ms,
    given: &[Value],
) -> Result<Value, EvalError>
    requires plain { is_plain_call func (trees_of args.now) ≡ true }
    requires replaced { func ≡ Func.LabelReplace → is_label_name (content_at (trees_of args.now) 1) ≡ true }
    requires pattern { func ≡ Func.LabelReplace → option_copied pattern ≡ Some (content_at (trees_of args.now) 4) }
    requires joined { func ≡ Func.LabelJoin → is_label_name (content_at (trees_of args.now) 1) ≡ true }
    ensures answer { (history : List Entry) → AnswersTo (value_of_call history place func (trees_of args.now) time (all_plain given.now)) result }
    ensures vector { IfOk result IsAnswer }
{
    match func {
        Func::Abs => abs_of(alloc, place, given),
        Func::Ceil => ceils_of(alloc, place, given),
        Func::Floor => floors_of(alloc, place, given),
        Func::Sgn => signs_of(alloc, place, given),
        Func::Round => rounded_all(alloc, place, given),
        Func::Clamp => clamped(alloc, place, given),
        Func::ClampMin => clamped_min(alloc, place, given),
        Func::ClampMax => clamped_max(alloc, place, given),
        Func::Time => Ok(Value::Scalar {
            value: seconds_of(time),
        }),
        Func::Vector => of_scalar(alloc, given),
        Func::Scalar => Ok(Value::Scalar {
            value: scalar(elements_given(given, 0)),
        }),
        Func::Timestamp => query_times(alloc, place, time, given),
        Func::Absent => absent(alloc, args, given),
        Func::Minute => dates(alloc, place, Part::Minute, time, given),
        Func::Hour => dates(alloc, place, Part::Hour, time, given),
        Func::DayOfWeek => dates(alloc, place, Part::DayOfWeek, time, given),
        Func::DayOfMonth => dates(alloc, place, Part::DayOfMonth, time, given),
        Func::DayOfYear => dates(alloc, place, Part::DayOfYear, time, given),
        Func::DaysInMonth => dates(alloc, place, Part::DaysInMonth, time, given),
        Func::Month => dates(alloc, place, Part::Month, time, given),
        Func::Year => dates(alloc, place, Part::Year, time, given),
        Func::LabelReplace => replaced(alloc, place, args, pattern, given),
        Func::LabelJoin => joined(alloc, place, args, given),
        Func::HistogramQuantile => quantiles(alloc, place, given),
        _ => unreachable!(),
    }
}
