// The program as one call.
ghost use Rattle.std.specs.Prelude.{◌≡◌, ℕ, List, None, false, map, string_bytes};
ghost use Rattle.pr_top.specs.Command.{command_of, uses};
ghost use Rattle.pr_top.specs.Follows.{Promises};

use crate::over::promtool_over;
use crate::run_engine::RunEngine;
use pr_outside::history::row::laws::rows_decode_as_their_entries;
use pr_outside::status::Status;
use pr_outside::{Files, Keeper, Sink, Source};
use pr_test::slide::SlidingRanges;
use std::alloc::Global;

/// Does all that the program does, with the engine and ranges that go on from one ask to the next. The
/// words are those after the program's name, `out` is the standard output, and the status is what the
/// process ends with. [`promtool_over`] says how many files are asked for, and which orders are
/// answered when a run stops.
pub fn promtool<I: Source, F: Files, K: Keeper, O: Sink>(
    alloc: Global,
    words: &[String],
    input: &mut I,
    files: &mut F,
    keeper: &mut K,
    out: &mut O,
) -> Status
    // It follows the plan of its command, and its status says why it ended.
    ensures promises { Promises (command_of (map string_bytes words.now))
        (record { input = I.means input.old; files = F.means files.old; store = K.means keeper.old; out = O.means out.old })
        (record { input = I.means input.new; files = F.means files.new; store = K.means keeper.new; out = O.means out.new }) result }
    // What a command leaves unchanged.
    ensures input { (uses (command_of (map string_bytes words.now))).input ≡ false → input.new ≡ input.old }
    ensures files { (uses (command_of (map string_bytes words.now))).files ≡ false → files.new ≡ files.old }
    ensures keeper { (uses (command_of (map string_bytes words.now))).store ≡ None → keeper.new ≡ keeper.old }
    ensures content { (name : List ℕ) → (F.means files.new).content name ≡ (F.means files.old).content name }
{
    rows_decode_as_their_entries();
    promtool_over::<RunEngine<SlidingRanges>, SlidingRanges, I, F, K, O>(
        alloc, words, input, files, keeper, out,
    )
}
