// Checks of the whole input.
ghost use Rattle.std.specs.Prelude.{◌≡◌, ◌≢◌, ℕ, ◌+◌, ◌<◌, ◌≤◌, ◌^◌, ◌++◌, [], List, length, take, Some, IfOk, IfSome, OnOk};
ghost use Rattle.std.specs.Io.KnownBytes.{Appends, Consumes};
ghost use Rattle.pr_outside.specs.Ends.{AtInput, Ends, KnowsLength, ReadEnds, no_row};
ghost use Rattle.pr_outside.specs.Outside.{Outside};
ghost use Rattle.pr_outside.specs.Status.{IsReadOut, IsTooLong};
ghost use Rattle.pr_outside.specs.Checks.{Checked};
ghost use Rattle.pr_outside.specs.InputChecks.{MeansInputCheck};

use crate::check_loops::verdict::{Verdict, status_of};
use crate::status::{Status, Stop, send};
use crate::{Sink, Source};
use std::alloc::{AllocError, Global};

// The input has fewer bytes.
const INPUT_LIMIT: usize = 0x1_0000_0000;

// At most so many bytes are read at once.
const PIECE: usize = 16_384;

/// What can be told of an input by its bytes.
pub trait InputCheck {
    /// What is told of the input: its text, and how it comes out.
    ghost told: { List ℕ → Checked };

    /// Appends the text that is told of these bytes, and says how the check comes out.
    fn check(&self, alloc: Global, bytes: &[u8], text: &mut Vec<u8>) -> Result<Verdict, AllocError>
        requires { length bytes.now < 2 ^ 32 }
        ensures text { OnOk result (text.new.items ≡ text.old.items ++ (told bytes.now).text) }
        ensures verdict { IfOk result (λ v. v ≡ (told bytes.now).verdict) };
}

// Reads the input to its end.
fn read_all<I: Source>(alloc: Global, input: &mut I) -> Result<Vec<u8>, Stop>
    ensures bytes { IfOk result (λ v. IfSome (I.means input.old).left (λ bytes. (v.items ≡ bytes) × ((I.means input.new).left ≡ Some []))) }
    ensures short { IfOk result (λ v. length v.items < 2 ^ 32) }
    ensures out { OnOk result (IsReadOut (I.means input.old) (I.means input.new)) }
    ensures most { (I.means input.new).taken < (I.means input.old).taken + 2 ^ 32 + 2 ^ 14 }
    ensures ends { ReadEnds (IsTooLong (I.means input.old) (I.means input.new)) (I.means input.old) (I.means input.new) result }
{
    let mut bytes = Vec::new(alloc);
    let mut piece = [0u8; PIECE];
    'reading: while bytes.len() < INPUT_LIMIT {
        let read = input.read(&mut piece)?;
        if read == 0 {
            return Ok(bytes);
        }
        bytes.extend_from_slice(&piece[..read])?;
    }
    Err(Stop::TooLong)
}

// Checks the input, and writes all that is told of it at once.
fn check_all<C: InputCheck, I: Source, O: Sink>(
    alloc: Global,
    check: &C,
    input: &mut I,
    out: &mut O,
) -> Result<Verdict, Stop>
    ensures told { IfOk result (λ v. IfSome (I.means input.old).left (λ bytes. (Appends (O.means out.old).taken (O.means out.new).taken (C.told bytes).text)
        × (v ≡ (C.told bytes).verdict) × ((I.means input.new).left ≡ Some []))) }
    ensures front { IfSome (I.means input.old).left (λ bytes. (n : ℕ) × Appends (O.means out.old).taken (O.means out.new).taken (take n (C.told bytes).text)) }
    ensures silent { AtInput result (Appends (O.means out.old).taken (O.means out.new).taken []) }
    ensures long { KnowsLength (I.means input.old) (I.means input.new) result }
    ensures most { (I.means input.new).taken < (I.means input.old).taken + 2 ^ 32 + 2 ^ 14 }
    ensures ends { (others : Outside) → Ends no_row (IsTooLong (I.means input.old) (I.means input.new)) (record others { input = I.means input.old; out = O.means out.old })
        (record others { input = I.means input.new; out = O.means out.new }) result }
{
    let bytes = read_all(alloc, input)?;
    let mut text = Vec::new(alloc);
    let verdict = check.check(alloc, &bytes, &mut text)?;
    send(out, &text)?;
    Ok(verdict)
}

/// Checks the whole input, and ends with the status of its verdict. What is told is written at once
/// when all is read.
pub fn check_input<C: InputCheck, I: Source, O: Sink>(
    alloc: Global,
    check: &C,
    input: &mut I,
    out: &mut O,
) -> Status
    ensures { (others : Outside) → MeansInputCheck C.told (record others { input = I.means input.old; out = O.means out.old })
        (record others { input = I.means input.new; out = O.means out.new }) result }
{
    status_of(check_all(alloc, check, input, out))
}
