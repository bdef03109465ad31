// What is seen on the samples of families.
ghost use Rattle.std.specs.Prelude.{◌≡◌, ◌<◌, IfOk, get_or, length, replicate};
ghost use Rattle.pr_expo.specs.private.Marking.{both, mark_of, marks_after, no_marks};

use crate::exposition::Line;
use std::alloc::{AllocError, Global};

// What is seen on the samples of a family: a label `le`, a label `quantile`, a value that is too
// wide.
#[derive(Clone, Copy, Debug)]
pub(crate) struct Marks {
    pub(crate) le: bool,
    pub(crate) quantile: bool,
    pub(crate) wide: bool,
}

fn no_marks() -> Marks
    ensures { result ≡ no_marks }
{
    Marks {
        le: false,
        quantile: false,
        wide: false,
    }
}

fn mark_of(line: &Line) -> Marks
    ensures { result ≡ mark_of line.now }
{
    Marks {
        le: line.labels.get("le").is_some(),
        quantile: line.labels.get("quantile").is_some(),
        wide: line.value.is_none(),
    }
}

fn both(a: Marks, b: Marks) -> Marks
    ensures { result ≡ both a b }
{
    Marks {
        le: a.le || b.le,
        quantile: a.quantile || b.quantile,
        wide: a.wide || b.wide,
    }
}

// What is seen on the samples of each family, of which there are so many.
pub(crate) fn marks_by(
    alloc: Global,
    lines: &[Line],
    count: usize,
) -> Result<Vec<Marks>, AllocError>
    ensures { IfOk result (λ ms. ms.items ≡ marks_after (replicate count no_marks) lines.now) }
{
    let mut marks = vec![in alloc; no_marks(); count]?;
    for line in lines {
        let place = line.family;
        if place < marks.len() {
            marks[place] = both(marks[place], mark_of(line));
        }
    }
    Ok(marks)
}

pub(crate) fn mark_at(marks: &[Marks], place: usize) -> Marks
    requires { place < length marks.now }
    ensures { result ≡ get_or marks.now place no_marks }
{
    marks[place]
}
