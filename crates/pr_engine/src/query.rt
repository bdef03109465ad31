// The answer to a query, over a head.
ghost use Rattle.std.specs.Prelude.{◌≡◌, ◌+◌, ◌<◌, ◌≤◌, List, [], Result, IfOk};
ghost use Rattle.pr_ast.specs.Tree.{tree_of};
ghost use Rattle.pr_manager.specs.pr_group.private.Keeping.{MayEvaluateOver};
ghost use Rattle.pr_head.specs.spec_history.declared.entry.Entry.{Entry};
ghost use Rattle.pr_manager.specs.spec_meaning.declared.fault.Fault.{Fault};
ghost use Rattle.pr_manager.specs.spec_meaning.declared.value.Value.{Value};
ghost use Rattle.pr_manager.specs.spec_meaning.private.Cost.{cost, nothing_passed};
ghost use Rattle.pr_manager.specs.spec_meaning.Meaning.{meaning};
ghost use Rattle.pr_manager.specs.pr_eval.private.Answers.{AnswersTo};
ghost use Rattle.pr_manager.specs.spec_world.declared.report.Report.TheVariants.{QueryRefused};
ghost use Rattle.pr_manager.specs.spec_world.Outcome.{refuse};
ghost use Rattle.pr_manager.specs.spec_world.Query.{query_outcome, told_answer, told_value};
ghost use Rattle.pr_engine.specs.private.Events.{query_cost, settings_of};
ghost use Rattle.pr_engine.specs.private.Taken.{HasOutcome, added_in, report_in};

use crate::taken::Taken;
use pr_head::Head;
use pr_manager::eval::{EvalError, Value, eval};
use pr_manager::parse::{QueryError, read_expression};
use pr_manager::range::PlainRanges;
use pr_manager::types::Checked;
use pr_manager::world::{QueryKind, Report};
use pr_time::{Ms, Span};
use pr_words::{Items, Steps};
use std::alloc::{AllocError, Global};
use std::sync::ledger::Ledger;

fn told_value(value: Value) -> Report
    ensures { result ≡ told_value value }
{
    match value {
        Value::Scalar { value } => Report::Scalar { value },
        Value::Vector { items } => Report::Vector { items },
    }
}

// What is told of what an expression gives.
#[tactic(auto, using(crate::proofs::Queries::told_ok, crate::proofs::Queries::told_fault))]
fn told_answer(answer: Result<Value, EvalError>) -> Result<Report, AllocError>
    ensures { (meant : Result Value Fault) → AnswersTo meant answer → IfOk result (λ report. report ≡ told_answer meant) }
{
    match answer {
        Ok(value) => Ok(told_value(value)),
        Err(EvalError::Fault { place, kind }) => Ok(Report::QueryFault {
            place: place.start,
            kind,
        }),
        Err(EvalError::Memory) => Err(AllocError),
    }
}

// What an expression gives, as it is told.
fn answer<G: Ledger>(
    alloc: Global,
    head: &Head,
    expression: &Checked,
    time: Ms,
    step: Span,
    reads: &mut Steps<G>,
) -> Result<Report, AllocError>
    requires { 0 < step }
    ensures report { (history : List Entry) → MayEvaluateOver head.now history time
        → IfOk result (λ report. report ≡ told_answer (meaning step history (tree_of expression.now) time)) }
    ensures reads { (history : List Entry) → MayEvaluateOver head.now history time
        → reads.new ≤ reads.old + cost step history nothing_passed (tree_of expression.now) 0 time }
{
    let _typed = expression.expr();
    let mut ranges = PlainRanges::new(alloc);
    told_answer(eval(alloc, expression, head, time, step, &mut ranges, reads))
}

// What is told and adds nothing.
fn nothing_added(alloc: Global, report: Report) -> Taken
    ensures report { report_in result ≡ report }
    ensures added { added_in result ≡ [] }
{
    Taken::Told {
        report,
        added: Items::empty(alloc),
    }
}

// Refuses a text.
fn refusal(alloc: Global, place: usize, kind: QueryKind) -> Taken
    ensures { HasOutcome (refuse (QueryRefused place kind)) result }
{
    nothing_added(alloc, Report::QueryRefused { place, kind })
}

/// Answers a text: by what it gives as an expression, or by its first fault. The step is that of
/// subqueries that name none.
#[tactic(auto, using(crate::proofs::Queries::expression_answer, crate::proofs::Queries::refused_answer, crate::proofs::Queries::expression_reads, crate::proofs::Queries::no_reads))]
pub(crate) fn ask<G: Ledger>(
    alloc: Global,
    head: &Head,
    text: &str,
    time: Ms,
    step: Span,
    reads: &mut Steps<G>,
) -> Result<Taken, AllocError>
    requires { 0 < step }
    ensures answer { (history : List Entry) → MayEvaluateOver head.now history time
        → IfOk result (HasOutcome (query_outcome (settings_of step) history time text.now)) }
    ensures reads { (history : List Entry) → MayEvaluateOver head.now history time → reads.new ≤ reads.old + query_cost step history time text.now }
{
    match read_expression(alloc, text) {
        Ok(expression) => {
            let report = answer(alloc, head, &expression, time, step, reads)?;
            Ok(nothing_added(alloc, report))
        }
        Err(QueryError::Fault { at, kind }) => Ok(refusal(alloc, at, kind)),
        Err(QueryError::Memory) => Err(AllocError),
    }
}
