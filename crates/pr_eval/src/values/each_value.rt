// Functions of each value of a vector.
ghost use Rattle.std.specs.Prelude.{◌≡◌, List, IfOk, pos};
ghost use Rattle.pr_labels.specs.declared.item.Item.{Item};
ghost use Rattle.pr_num.specs.Arithmetic.{whole_of};
ghost use Rattle.pr_num.specs.declared.value.Num.{Num};
ghost use Rattle.pr_range.specs.spec_vectors.Functions.{abs_of, ceils_of, clamped, clamped_max, clamped_min, floors_of, rounded_all, signs_of};
ghost use Rattle.spec_meaning.specs.private.Laws.{IsAnswer};
ghost use Rattle.spec_meaning.specs.Answers.{function_at};
ghost use Rattle.spec_meaning.specs.Given.{elements_given, number_given, number_or};
ghost use Rattle.pr_eval.specs.private.Answers.{AnswersTo};
ghost use Rattle.pr_eval.specs.private.Plain.{all_plain};

use crate::values::arguments::{elements_given, number_given, number_or};
use crate::values::error::EvalError;
use crate::values::vectors::made_at;
use pr_ast::Place;
use pr_fn::{at_least, at_most, clamp, map_values, sign};
use pr_num::Num;
use spec_meaning::Value;
use std::alloc::Global;

/// Each value without its sign.
pub(crate) fn abs_of(alloc: Global, place: Place, given: &[Value]) -> Result<Value, EvalError>
    ensures answer { AnswersTo (function_at place (abs_of (elements_given (all_plain given.now) 0))) result }
    ensures vector { IfOk result IsAnswer }
{
    let items = elements_given(given, 0);
    let made = map_values(alloc, items, &|v: Num| Ok(v.abs()));
    made_at(place, made)
}

/// Each value rounded up.
pub(crate) fn ceils_of(alloc: Global, place: Place, given: &[Value]) -> Result<Value, EvalError>
    ensures answer { AnswersTo (function_at place (ceils_of (elements_given (all_plain given.now) 0))) result }
    ensures vector { IfOk result IsAnswer }
{
    let items = elements_given(given, 0);
    let made = map_values(alloc, items, &|v: Num| v.ceil());
    made_at(place, made)
}

/// Each value rounded down.
pub(crate) fn floors_of(alloc: Global, place: Place, given: &[Value]) -> Result<Value, EvalError>
    ensures answer { AnswersTo (function_at place (floors_of (elements_given (all_plain given.now) 0))) result }
    ensures vector { IfOk result IsAnswer }
{
    let items = elements_given(given, 0);
    let made = map_values(alloc, items, &|v: Num| v.floor());
    made_at(place, made)
}

/// The sign of each value.
pub(crate) fn signs_of(alloc: Global, place: Place, given: &[Value]) -> Result<Value, EvalError>
    ensures answer { AnswersTo (function_at place (signs_of (elements_given (all_plain given.now) 0))) result }
    ensures vector { IfOk result IsAnswer }
{
    let items = elements_given(given, 0);
    let made = map_values(alloc, items, &|v: Num| Ok(sign(v)));
    made_at(place, made)
}

/// Each value rounded to a multiple, of 1 where none is given.
pub(crate) fn rounded_all(alloc: Global, place: Place, given: &[Value]) -> Result<Value, EvalError>
    ensures answer { AnswersTo (function_at place (rounded_all (number_or (whole_of (pos 1)) (all_plain given.now) 1) (elements_given (all_plain given.now) 0))) result }
    ensures vector { IfOk result IsAnswer }
{
    let items = elements_given(given, 0);
    let one = Num::whole(1);
    let step = number_or(one, given, 1);
    let made = map_values(alloc, items, &|v: Num| v.round_to(step));
    made_at(place, made)
}

/// Each value brought between two limits.
pub(crate) fn clamped(alloc: Global, place: Place, given: &[Value]) -> Result<Value, EvalError>
    ensures answer { AnswersTo (function_at place (clamped (number_given (all_plain given.now) 1) (number_given (all_plain given.now) 2) (elements_given (all_plain given.now) 0))) result }
    ensures vector { IfOk result IsAnswer }
{
    let items = elements_given(given, 0);
    let least = number_given(given, 1);
    let most = number_given(given, 2);
    let made = clamp(alloc, items, least, most);
    made_at(place, made)
}

/// Each value brought up to a limit.
pub(crate) fn clamped_min(alloc: Global, place: Place, given: &[Value]) -> Result<Value, EvalError>
    ensures answer { AnswersTo (function_at place (clamped_min (number_given (all_plain given.now) 1) (elements_given (all_plain given.now) 0))) result }
    ensures vector { IfOk result IsAnswer }
{
    let items = elements_given(given, 0);
    let least = number_given(given, 1);
    let made = map_values(alloc, items, &|v: Num| Ok(at_least(&least, &v)));
    made_at(place, made)
}

/// Each value brought down to a limit.
pub(crate) fn clamped_max(alloc: Global, place: Place, given: &[Value]) -> Result<Value, EvalError>
    ensures answer { AnswersTo (function_at place (clamped_max (number_given (all_plain given.now) 1) (elements_given (all_plain given.now) 0))) result }
    ensures vector { IfOk result IsAnswer }
{
    let items = elements_given(given, 0);
    let most = number_given(given, 1);
    let made = map_values(alloc, items, &|v: Num| Ok(at_most(&most, &v)));
    made_at(place, made)
}
