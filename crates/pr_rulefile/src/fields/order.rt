// The order in which problems are told.
ghost use Rattle.std.specs.Prelude.{◌≡◌, IfOk};
ghost use Rattle.pr_rulefile.specs.Order.{expression_rank, kind_rank, in_order};

use crate::fields::problem::{Problem, ProblemKind};
use pr_parse::QueryKind;
use pr_words::Items;
use std::alloc::AllocError;

// The place of a fault of an expression in the order of kinds.
fn expression_rank(kind: QueryKind) -> u8
    ensures { result ≡ expression_rank kind }
{
    match kind {
        QueryKind::Lex { .. } => 14,
        QueryKind::Parse { .. } => 15,
        QueryKind::Typing { .. } => 16,
    }
}

// The place of a kind in the order of kinds.
fn kind_rank(kind: &ProblemKind) -> u8
    ensures { result ≡ kind_rank kind.now }
{
    match kind {
        ProblemKind::Yaml { .. } => 0,
        ProblemKind::WantMap => 1,
        ProblemKind::WantList => 2,
        ProblemKind::WantText => 3,
        ProblemKind::UnknownField { .. } => 4,
        ProblemKind::Missing { .. } => 5,
        ProblemKind::DuplicateGroup { .. } => 6,
        ProblemKind::NoName => 7,
        ProblemKind::TwoNames => 8,
        ProblemKind::BadName => 9,
        ProblemKind::BadLabel { .. } => 10,
        ProblemKind::BadSpan => 11,
        ProblemKind::BadLimit => 12,
        ProblemKind::NotForRecording { .. } => 13,
        ProblemKind::Expression { kind, .. } => expression_rank(*kind),
        ProblemKind::BadTemplate { .. } => 17,
        ProblemKind::BadSeries => 18,
        ProblemKind::DuplicateSeries => 19,
        ProblemKind::BadValues => 20,
        ProblemKind::TooManyValues => 21,
        ProblemKind::BadValue => 22,
        ProblemKind::FuzzyCompare => 23,
    }
}

/// Problems, which were found in the order of the text, in the order in which they are told: by
/// line, and on one line by kind. What is of one line and one kind stays in the order of the text.
pub fn in_order(mut problems: Vec<Problem>) -> Result<Items<Problem>, AllocError>
    ensures { IfOk result (λ list. list ≡ in_order problems.items) }
{
    problems.sort_by_key(|problem| (problem.line, kind_rank(&problem.kind)))?;
    Ok(Items::new(problems))
}
