// Reading an exposition.
ghost use Rattle.std.specs.Prelude.{◌≡◌, ℕ, ◌+◌, ◌<◌, ◌^◌, ◌++◌, [], Err, IfErr, IfOk, MatchResult, Ok, length, map};
ghost use Rattle.pr_expo.specs.private.Sound.{HasDistinctNames, IsSound, IsTime};
ghost use Rattle.pr_expo.specs.Families.{Refuses, exposition_of, sample_of};
ghost use Rattle.pr_expo.specs.private.Keeping.{HasRoom, Notes, RefusesLine, entries_after, family_from, kept_family, known_of, put, samples_kept, with_help, with_sample, with_type};
ghost use Rattle.pr_expo.specs.declared.expo_line.place.Read.TheVariants.{Sample};

use crate::expo_line::{FamilyKind, LineFault, Measured, Read, read_line};
use crate::exposition::{ExpoError, Exposition, Line};
use crate::families::Families;
use crate::known::{with_help, with_type};
use crate::sample::{labels_of, time_of, value_of};
use crate::text::next_line;
use pr_labels::words_crate::{Items, Text};
use std::alloc::{AllocError, Global};

// What is kept of the lines so far.
#[derive(Drop)]
struct Draft {
    families: Families,
    lines: Vec<Line>,
}

// The sample of a line, with the place of its family.
fn sample_of(
    alloc: Global,
    measured: Measured,
    time: Option<Text>,
    family: usize,
) -> Result<Line, AllocError>
    requires names { HasDistinctNames measured.head }
    requires time { IsTime time }
    ensures { IfOk result (λ l. l ≡ sample_of measured time family) }
{
    let Measured { head, number } = measured;
    Ok(Line {
        labels: labels_of(alloc, head)?,
        family,
        value: value_of(&number),
        time: time_of(time),
    })
}

fn note_help(draft: Draft, name: Text) -> Result<Draft, AllocError>
    requires { HasRoom draft.families }
    ensures families { IfOk result (λ d. d.families ≡ put draft.families name (with_help (known_of draft.families name))) }
    ensures lines { IfOk result (λ d. d.lines.items ≡ draft.lines.items) }
{
    let Draft {
        mut families,
        lines,
    } = draft;
    let known = with_help(families.known_of(&name));
    families.put(name, known)?;
    Ok(Draft { families, lines })
}

fn note_type(draft: Draft, name: Text, kind: FamilyKind) -> Result<Draft, AllocError>
    requires { HasRoom draft.families }
    ensures families { IfOk result (λ d. d.families ≡ put draft.families name (with_type (known_of draft.families name) kind)) }
    ensures lines { IfOk result (λ d. d.lines.items ≡ draft.lines.items) }
{
    let Draft {
        mut families,
        lines,
    } = draft;
    let known = with_type(families.known_of(&name), kind);
    families.put(name, known)?;
    Ok(Draft { families, lines })
}

fn note_sample(
    alloc: Global,
    draft: Draft,
    measured: Measured,
    time: Option<Text>,
) -> Result<Draft, AllocError>
    requires names { HasDistinctNames measured.head }
    requires time { IsTime time }
    ensures families { IfOk result (λ d. d.families ≡ entries_after draft.families (Sample measured time)) }
    ensures lines { IfOk result (λ d. d.lines.items ≡ draft.lines.items ++ samples_kept draft.families (Sample measured time)) }
{
    let Draft {
        mut families,
        mut lines,
    } = draft;
    let place = families.note_sample(alloc, &measured.head.name)?;
    lines.push(sample_of(alloc, measured, time, place)?)?;
    Ok(Draft { families, lines })
}

// Keeps what a line reads as.
fn note(alloc: Global, draft: Draft, read: Read) -> Result<Draft, AllocError>
    requires sound { IsSound read }
    requires room { HasRoom draft.families }
    ensures families { IfOk result (λ d. d.families ≡ entries_after draft.families read) }
    ensures lines { IfOk result (λ d. d.lines.items ≡ draft.lines.items ++ samples_kept draft.families read) }
{
    match read {
        Read::Nothing => Ok(draft),
        Read::Help(name) => note_help(draft, name),
        Read::Typed(name, kind) => note_type(draft, name, kind),
        Read::Sample(measured, time) => note_sample(alloc, draft, measured, time),
    }
}

// Reads a line that is not empty, and keeps it.
#[tactic(auto, using(crate::proofs::Reading::notes_by))]
fn note_line(alloc: Global, draft: Draft, line: &[u8], number: u32) -> Result<Draft, ExpoError>
    requires { HasRoom draft.families }
    ensures { MatchResult result (λ d. Notes line.now draft.families draft.lines.items d.families d.lines.items) (RefusesLine line.now number) }
{
    match read_line(alloc, line) {
        Ok(read) => Ok(note(alloc, draft, read)?),
        Err(LineFault::Bad(kind)) => Err(ExpoError::Fault { line: number, kind }),
        Err(LineFault::Memory) => Err(ExpoError::Memory),
    }
}

// Reads a line, and keeps it. An empty one has nothing to keep.
#[tactic(auto, using(crate::proofs::Reading::empty_notes))]
fn take_line(alloc: Global, draft: Draft, line: &[u8], number: u64) -> Result<Draft, ExpoError>
    requires { 0 < length line.now → (number < 2 ^ 32) × HasRoom draft.families }
    ensures { MatchResult result (λ d. Notes line.now draft.families draft.lines.items d.families d.lines.items) (RefusesLine line.now number) }
{
    if line.is_empty() {
        Ok(draft)
    } else {
        note_line(alloc, draft, line, number as u32)
    }
}

// The exposition of all lines.
fn finished(alloc: Global, draft: Draft) -> Result<Exposition, AllocError>
    ensures { IfOk result (λ e. e ≡ record { families = map family_from draft.families; lines = draft.lines.items }) }
{
    let Draft { families, lines } = draft;
    Ok(Exposition {
        families: Items::new(families.into_families(alloc)?),
        lines: Items::new(lines),
    })
}

/// The exposition that bytes are. (Prometheus: Exposition formats, text-based format.)
///
/// The bytes are gone over once, and what a line says is kept as it is read; names are looked up
/// among those of the families so far, by a hash.
///
/// # Errors
/// The first bad line, and how it is bad at the first place at which no line can go on.
pub fn read(alloc: Global, bytes: &[u8]) -> Result<Exposition, ExpoError>
    requires { length bytes.now < 2 ^ 32 }
    ensures { MatchResult result (λ e. exposition_of bytes.now ≡ Ok e) (Refuses bytes.now) }
{
    let mut draft = Draft {
        families: Families::new(alloc),
        lines: Vec::new(alloc),
    };
    let mut number: u64 = 1;
    let mut rest = bytes;
    loop {
        let (line, after) = next_line(rest);
        draft = match take_line(alloc, draft, line, number) {
            Ok(draft) => draft,
            Err(error) => return Err(error),
        };
        match after {
            Some(next) => {
                rest = next;
                number += 1;
            }
            None => return Ok(finished(alloc, draft)?),
        }
    }
}
