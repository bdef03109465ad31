// Checks of files, one after another.
ghost use Rattle.std.specs.Prelude.{◌≡◌, ℕ, ◌++◌, ◌||◌, [], List, length, map, string_bytes, IfOk, OnOk};
ghost use Rattle.pr_outside.specs.Asks.{AsksBy};
ghost use Rattle.pr_outside.specs.Ends.{Ends, LoadEnds, no_row, place_of};
ghost use Rattle.pr_outside.specs.Outside.{AreTold, Held, Outside};
ghost use Rattle.pr_outside.specs.FileChecks.{AreChecked, IsFilesFront, MeansFileCheck, Telling, all_asks, all_told};
ghost use Rattle.pr_outside.specs.private.FileStops.{IsFileFront, Turned};

use crate::status::{Status, Stop, send, status_of};
use crate::{Files, Sink};
use std::alloc::Global;

/// What can be told of a file by its name and by what it and the files hold that it names.
pub trait FileCheck {
    /// What is told of a file: its text, whether it is refused, and the files that are asked for.
    ghost told: { Telling };

    /// Loads a file and those that it names, each once and in order, appends the text that is told
    /// of it, and says whether it is refused.
    fn check<F: Files>(
        &self,
        alloc: Global,
        name: &String,
        files: &mut F,
        text: &mut Vec<u8>,
    ) -> Result<bool, Stop>
        ensures text { (held : Held) → AreTold (F.means files.old).content held (told held (string_bytes name.now)).asks → OnOk result (text.new.items ≡ text.old.items ++ (told held (string_bytes name.now)).text) }
        ensures refused { (held : Held) → AreTold (F.means files.old).content held (told held (string_bytes name.now)).asks → IfOk result (λ b. b ≡ (told held (string_bytes name.now)).refused) }
        ensures asked { (held : Held) → AreTold (F.means files.old).content held (told held (string_bytes name.now)).asks
            → AsksBy (F.means files.old).calls (F.means files.new).calls (length (told held (string_bytes name.now)).asks) result }
        ensures same { (other : List ℕ) → (F.means files.new).content other ≡ (F.means files.old).content other }
        ensures ends { LoadEnds (F.means files.old) (F.means files.new) result };
}

// Checks one file, and says whether it is refused.
fn check_file<C: FileCheck, F: Files, O: Sink>(
    alloc: Global,
    check: &C,
    name: &String,
    files: &mut F,
    out: &mut O,
) -> Result<bool, Stop>
    ensures told { (held : Held) → AreTold (F.means files.old).content held (C.told held (string_bytes name.now)).asks
        → IfOk result (Turned (C.told held (string_bytes name.now)) (O.means out.old).taken (O.means out.new).taken) }
    ensures front { (held : Held) → AreTold (F.means files.old).content held (C.told held (string_bytes name.now)).asks
        → IsFileFront (C.told held (string_bytes name.now)) (O.means out.old).taken (O.means out.new).taken result }
    ensures asked { (held : Held) → AreTold (F.means files.old).content held (C.told held (string_bytes name.now)).asks
        → AsksBy (F.means files.old).calls (F.means files.new).calls (length (C.told held (string_bytes name.now)).asks) result }
    ensures same { (other : List ℕ) → (F.means files.new).content other ≡ (F.means files.old).content other }
    ensures ends { (others : Outside) → Ends no_row ⊥ (record others { files = F.means files.old; out = O.means out.old })
        (record others { files = F.means files.new; out = O.means out.new }) result }
{
    let mut text = Vec::new(alloc);
    let refused = check.check(alloc, name, files, &mut text)?;
    send(out, &text)?;
    Ok(refused)
}

fn either(first: bool, second: bool) -> bool
    ensures { result ≡ (first || second) }
{
    first || second
}

// Checks the files, one after another, and says whether one is refused.
fn check_each<C: FileCheck, F: Files, O: Sink>(
    alloc: Global,
    check: &C,
    names: &[String],
    files: &mut F,
    out: &mut O,
) -> Result<bool, Stop>
    ensures told { (held : Held) (others : Outside) → AreTold (F.means files.old).content held (all_asks (all_told C.told held (map string_bytes names.now)))
        → IfOk result (AreChecked (all_told C.told held (map string_bytes names.now)) (record others { files = F.means files.old; out = O.means out.old })
        (record others { files = F.means files.new; out = O.means out.new })) }
    ensures front { (held : Held) (others : Outside) → AreTold (F.means files.old).content held (all_asks (all_told C.told held (map string_bytes names.now)))
        → IsFilesFront (all_told C.told held (map string_bytes names.now)) (record others { files = F.means files.old; out = O.means out.old })
        (record others { files = F.means files.new; out = O.means out.new }) (place_of result) }
    ensures same { (other : List ℕ) → (F.means files.new).content other ≡ (F.means files.old).content other }
    ensures ends { (others : Outside) → Ends no_row ⊥ (record others { files = F.means files.old; out = O.means out.old })
        (record others { files = F.means files.new; out = O.means out.new }) result }
{
    let mut refused = false;
    let mut rest = names;
    'checking: while let Some((name, after)) = rest.split_first() {
        refused = either(refused, check_file(alloc, check, name, files, out)?);
        rest = after;
    }
    Ok(refused)
}

/// Checks files one after another, the next one also after a bad one, and ends with status 1
/// exactly where one is refused. What is told of a file is written before the next one is loaded.
pub fn check_files<C: FileCheck, F: Files, O: Sink>(
    alloc: Global,
    check: &C,
    names: &[String],
    files: &mut F,
    out: &mut O,
) -> Status
    ensures means { (others : Outside) → MeansFileCheck C.told (map string_bytes names.now) (record others { files = F.means files.old; out = O.means out.old })
        (record others { files = F.means files.new; out = O.means out.new }) result }
    ensures same { (other : List ℕ) → (F.means files.new).content other ≡ (F.means files.old).content other }
{
    status_of(check_each(alloc, check, names, files, out))
}
