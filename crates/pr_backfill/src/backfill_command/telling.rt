// What is told of a backfill.
ghost use Rattle.std.specs.Prelude.{◌≡◌, ◌++◌, ℕ, take, OnOk};
ghost use Rattle.std.specs.Io.KnownBytes.{Appends};
ghost use Rattle.pr_backfill.specs.Filled.{at_time};
ghost use Rattle.pr_backfill.specs.Text.{at_line, backfilled_line, step_text};
ghost use Rattle.pr_outside.specs.Ends.{WriteEnds};

use crate::Stepped;
use pr_ast::time::Ms;
use pr_outside::Sink;
use pr_outside::status::{Stop, send};
use pr_outside::words_crate::push_number;
use pr_text::push_report;
use pr_text::world::Report;
use std::alloc::{AllocError, Global};

#[tactic(auto, unfolding(crate::specs::Text::at_line))]
fn push_at(text: &mut Vec<u8>, time: Ms, file: &str, group: &str) -> Result<(), AllocError>
    ensures { OnOk result (text.new.items ≡ text.old.items ++ at_line time file.now group.now) }
{
    text.extend_from_slice(b"at ")?;
    push_number(text, time.get())?;
    text.extend_from_slice(b" ")?;
    text.extend_from_slice(file.as_bytes())?;
    text.extend_from_slice(b" ")?;
    text.extend_from_slice(group.as_bytes())?;
    text.extend_from_slice(b"\n")
}

fn push_step(text: &mut Vec<u8>, time: Ms, step: Stepped) -> Result<(), AllocError>
    ensures { OnOk result (text.new.items ≡ text.old.items ++ step_text (at_time time step)) }
{
    let Stepped {
        file,
        group,
        report,
    } = step;
    push_at(text, time, file.as_str(), group.as_str())?;
    push_report(text, &Report::Evaluated { group: report })
}

#[tactic(auto, unfolding(crate::specs::Text::backfilled_line))]
fn push_backfilled(text: &mut Vec<u8>, rows: u64) -> Result<(), AllocError>
    ensures { OnOk result (text.new.items ≡ text.old.items ++ backfilled_line rows) }
{
    text.extend_from_slice(b"backfilled ")?;
    push_number(text, rows)?;
    text.extend_from_slice(b"\n")
}

/// Writes what is told of an evaluation at a time.
pub(crate) fn tell_step<O: Sink>(
    alloc: Global,
    time: Ms,
    step: Stepped,
    out: &mut O,
) -> Result<(), Stop>
    ensures text { OnOk result (Appends (O.means out.old).taken (O.means out.new).taken (step_text (at_time time step))) }
    ensures front { (n : ℕ) × Appends (O.means out.old).taken (O.means out.new).taken (take n (step_text (at_time time step))) }
    ensures ends { WriteEnds (O.means out.old) (O.means out.new) result }
{
    let mut text = Vec::new(alloc);
    push_step(&mut text, time, step)?;
    send(out, &text)
}

/// Writes how many rows were kept.
pub(crate) fn tell_backfilled<O: Sink>(alloc: Global, rows: u64, out: &mut O) -> Result<(), Stop>
    ensures text { OnOk result (Appends (O.means out.old).taken (O.means out.new).taken (backfilled_line rows)) }
    ensures front { (n : ℕ) × Appends (O.means out.old).taken (O.means out.new).taken (take n (backfilled_line rows)) }
    ensures ends { WriteEnds (O.means out.old) (O.means out.new) result }
{
    let mut text = Vec::new(alloc);
    push_backfilled(&mut text, rows)?;
    send(out, &text)
}
