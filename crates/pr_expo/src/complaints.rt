// The complaints about the families of an exposition.
ghost use Rattle.std.specs.Prelude.{◌≡◌, ◌++◌, IfOk, map};
ghost use Rattle.std.specs.List.{list_any};
ghost use Rattle.pr_expo.specs.Lint.{begins_capital, has_total, is_camel, is_colon, is_counter, is_histogram, is_other_typed, is_summary, kinds_by, lint, problem, when};

use crate::expo_line::FamilyKind;
use crate::exposition::{Exposition, Family, LintKind, Problem};
use crate::marks::{Marks, mark_at, marks_by};
use std::alloc::{AllocError, Global};

fn begins_capital(bytes: &[u8]) -> bool
    ensures { result ≡ begins_capital bytes.now }
{
    match bytes {
        [] => false,
        [first, ..] => first.is_ascii_uppercase(),
    }
}

// Whether a small letter stands directly before a capital.
fn is_camel(bytes: &[u8]) -> bool
    ensures { result ≡ is_camel bytes.now }
{
    let mut rest = bytes;
    while let Some((first, after)) = rest.split_first() {
        if first.is_ascii_lowercase() && begins_capital(after) {
            return true;
        }
        rest = after;
    }
    false
}

fn has_colon(bytes: &[u8]) -> bool
    ensures { result ≡ list_any is_colon bytes.now }
{
    bytes.iter().any(|b| *b == b':')
}

fn has_total(family: &Family) -> bool
    ensures { result ≡ has_total family.now }
{
    family.name.as_str().as_bytes().ends_with(b"_total")
}

fn is_counter(kind: FamilyKind) -> bool
    ensures { result ≡ is_counter kind }
{
    matches!(kind, FamilyKind::Counter)
}

fn is_histogram(kind: FamilyKind) -> bool
    ensures { result ≡ is_histogram kind }
{
    matches!(kind, FamilyKind::Histogram)
}

fn is_summary(kind: FamilyKind) -> bool
    ensures { result ≡ is_summary kind }
{
    matches!(kind, FamilyKind::Summary)
}

fn is_other_typed(kind: FamilyKind) -> bool
    ensures { result ≡ is_other_typed kind }
{
    matches!(
        kind,
        FamilyKind::Gauge | FamilyKind::Histogram | FamilyKind::Summary
    )
}

fn put(kinds: Vec<LintKind>, holds: bool, kind: LintKind) -> Result<Vec<LintKind>, AllocError>
    ensures { IfOk result (λ ks. ks.items ≡ kinds.items ++ when holds kind) }
{
    let mut kinds = kinds;
    if holds {
        kinds.push(kind)?;
    }
    Ok(kinds)
}

// The complaints about a family, each at most once.
fn family_kinds(alloc: Global, family: &Family, marks: Marks) -> Result<Vec<LintKind>, AllocError>
    ensures { IfOk result (λ ks. ks.items ≡ kinds_by family.now marks) }
{
    let kind = family.kind;
    let name = family.name.as_str().as_bytes();
    let total = has_total(family);
    let kinds = put(Vec::new(alloc), family.helps == 0, LintKind::NoHelp)?;
    let kinds = put(kinds, family.helps > 1, LintKind::SecondHelp)?;
    let kinds = put(kinds, family.types > 1, LintKind::SecondType)?;
    let kinds = put(kinds, family.late_type, LintKind::LateType)?;
    let kinds = put(kinds, is_counter(kind) && !total, LintKind::CounterTotal)?;
    let kinds = put(
        kinds,
        is_other_typed(kind) && total,
        LintKind::NotCounterTotal,
    )?;
    let kinds = put(kinds, has_colon(name), LintKind::Colon)?;
    let kinds = put(kinds, is_camel(name), LintKind::Camel)?;
    let kinds = put(kinds, !is_histogram(kind) && marks.le, LintKind::LeLabel)?;
    let kinds = put(
        kinds,
        !is_summary(kind) && marks.quantile,
        LintKind::QuantileLabel,
    )?;
    put(kinds, marks.wide, LintKind::WideValue)
}

// The complaints before, and those about a family.
fn put_kinds(
    alloc: Global,
    problems: Vec<Problem>,
    family: &Family,
    kinds: &[LintKind],
) -> Result<Vec<Problem>, AllocError>
    ensures { IfOk result (λ ps. ps.items ≡ problems.items ++ map (problem family.now.name) kinds.now) }
{
    let mut problems = problems;
    for kind in kinds {
        let name = family.name.copy(alloc)?;
        problems.push(Problem {
            family: name,
            kind: *kind,
        })?;
    }
    Ok(problems)
}

/// The complaints about an exposition: by family in order of first mention, each at most once, in
/// the order of the kinds. The samples are gone over once. (After the checks of promtool; which of
/// them: own choice.)
pub fn lint(alloc: Global, exposition: &Exposition) -> Result<Vec<Problem>, AllocError>
    ensures { IfOk result (λ ps. ps.items ≡ lint exposition.now) }
{
    let families = exposition.families.as_slice();
    let marks = marks_by(alloc, exposition.lines.as_slice(), families.len())?;
    let mut problems = Vec::new(alloc);
    let mut place: usize = 0;
    for family in families {
        let kinds = family_kinds(alloc, family, mark_at(&marks, place))?;
        problems = put_kinds(alloc, problems, family, &kinds)?;
        place += 1;
    }
    Ok(problems)
}
