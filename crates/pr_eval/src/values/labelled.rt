// Functions of labels, and those of a whole vector.
ghost use Rattle.std.specs.Prelude.{◌≡◌, true, List, [], ◌∷◌, drop, Some, IfOk};
ghost use Rattle.std.specs.Option.{option_copied};
ghost use Rattle.pr_ast.specs.Tree.{trees_of};
ghost use Rattle.pr_labels.specs.Names.{is_label_name};
ghost use Rattle.pr_fn.specs.pr_match.Pattern.{expanded};
ghost use Rattle.pr_range.specs.spec_vectors.Histogram.{histogram_quantiles};
ghost use Rattle.pr_range.specs.spec_vectors.LabelFunctions.{label_joined, label_replaced};
ghost use Rattle.spec_meaning.specs.private.Laws.{IsAnswer};
ghost use Rattle.spec_meaning.specs.Answers.{function_at};
ghost use Rattle.spec_meaning.specs.Given.{elements_given, number_given};
ghost use Rattle.spec_meaning.specs.pr_types.Typed.{content_at, contents};
ghost use Rattle.pr_eval.specs.private.Answers.{AnswersTo};
ghost use Rattle.pr_eval.specs.private.Plain.{all_plain};

use crate::values::arguments::{elements_given, number_given};
use crate::values::error::EvalError;
use crate::values::texts::contents_after_three;
use crate::values::vectors::made_at;
use pr_ast::{Expr, Place};
use pr_fn::matching::Pattern;
use pr_fn::{histogram_quantile, label_join, label_replace};
use spec_meaning::Value;
use spec_meaning::types::content_at;
use std::alloc::Global;

// A label set to what a pattern and a template make of another one.
fn replaced_by(
    alloc: Global,
    place: Place,
    args: &[Expr],
    pattern: &Pattern,
    given: &[Value],
) -> Result<Value, EvalError>
    requires named { is_label_name (content_at (trees_of args.now) 1) ≡ true }
    requires pattern { pattern.now ≡ content_at (trees_of args.now) 4 }
    ensures answer { AnswersTo (function_at place (label_replaced (content_at (trees_of args.now) 1) (content_at (trees_of args.now) 3)
        (λ text. expanded (content_at (trees_of args.now) 4) text (content_at (trees_of args.now) 2)) (elements_given (all_plain given.now) 0))) result }
    ensures vector { IfOk result IsAnswer }
{
    let items = elements_given(given, 0);
    let label = content_at(args, 1);
    let template = content_at(args, 2);
    let source = content_at(args, 3);
    let made = label_replace(alloc, items, label, template, source, pattern);
    made_at(place, made)
}

/// A label set to what a pattern and a template make of another one.
pub(crate) fn replaced(
    alloc: Global,
    place: Place,
    args: &[Expr],
    pattern: Option<&Pattern>,
    given: &[Value],
) -> Result<Value, EvalError>
    requires named { is_label_name (content_at (trees_of args.now) 1) ≡ true }
    requires pattern { option_copied pattern ≡ Some (content_at (trees_of args.now) 4) }
    ensures answer { AnswersTo (function_at place (label_replaced (content_at (trees_of args.now) 1) (content_at (trees_of args.now) 3)
        (λ text. expanded (content_at (trees_of args.now) 4) text (content_at (trees_of args.now) 2)) (elements_given (all_plain given.now) 0))) result }
    ensures vector { IfOk result IsAnswer }
{
    match pattern {
        Some(pattern) => replaced_by(alloc, place, args, pattern, given),
        None => unreachable!(),
    }
}

/// A label set to the texts of others.
pub(crate) fn joined(
    alloc: Global,
    place: Place,
    args: &[Expr],
    given: &[Value],
) -> Result<Value, EvalError>
    requires { is_label_name (content_at (trees_of args.now) 1) ≡ true }
    ensures answer { AnswersTo (function_at place (label_joined (content_at (trees_of args.now) 1) (content_at (trees_of args.now) 2) (drop 3 (contents (trees_of args.now)))
        (elements_given (all_plain given.now) 0))) result }
    ensures vector { IfOk result IsAnswer }
{
    let items = elements_given(given, 0);
    let label = content_at(args, 1);
    let separator = content_at(args, 2);
    let names = contents_after_three(alloc, args)?;
    let made = label_join(alloc, items, label, separator, &names);
    made_at(place, made)
}

/// A quantile of each histogram.
pub(crate) fn quantiles(alloc: Global, place: Place, given: &[Value]) -> Result<Value, EvalError>
    ensures answer { AnswersTo (function_at place (histogram_quantiles (number_given (all_plain given.now) 0) (elements_given (all_plain given.now) 1))) result }
    ensures vector { IfOk result IsAnswer }
{
    let phi = number_given(given, 0);
    let items = elements_given(given, 1);
    let made = histogram_quantile(alloc, phi, items);
    made_at(place, made)
}
