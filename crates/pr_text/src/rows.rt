// The lines that commands begin with, and that of a bad row.
ghost use Rattle.std.specs.Prelude.{◌≡◌, ◌≢◌, ◌++◌, ℕ, take, IfSome, IfNone, OnOk};
ghost use Rattle.std.specs.Io.KnownBytes.{Appends};
ghost use Rattle.pr_outside.specs.Ends.{WriteEnds};
ghost use Rattle.pr_outside.specs.declared.status.status.Stop.TheVariants as stop;
ghost use Rattle.pr_text.specs.BadRows.{bad_row_text};
ghost use Rattle.pr_text.specs.Printed.{shown_report};
ghost use Rattle.spec_world.specs.declared.report.Report.TheVariants.{Opened};

use crate::printed::push_opened;
use pr_outside::Sink;
use pr_outside::status::{Stop, send};
use pr_words::push_number;
use std::alloc::{AllocError, Global};

/// Writes the line that a command begins with which opened a store of so many rows.
#[tactic(auto, unfolding(crate::specs::Printed::shown_report))]
pub fn tell_opened<O: Sink>(alloc: Global, rows: u64, out: &mut O) -> Result<(), Stop>
    ensures text { OnOk result (Appends (O.means out.old).taken (O.means out.new).taken (shown_report (Opened rows))) }
    ensures front { (n : ℕ) × Appends (O.means out.old).taken (O.means out.new).taken (take n (shown_report (Opened rows))) }
    ensures ends { WriteEnds (O.means out.old) (O.means out.new) result }
{
    let mut text = Vec::new(alloc);
    push_opened(&mut text, rows)?;
    send(out, &text)?;
    Ok(())
}

#[tactic(auto, unfolding(crate::specs::BadRows::bad_row_text))]
fn push_bad_row(text: &mut Vec<u8>, index: u64) -> Result<(), AllocError>
    ensures { OnOk result (text.new.items ≡ text.old.items ++ bad_row_text index) }
{
    text.extend_from_slice(b"bad row ")?;
    push_number(text, index)?;
    text.extend_from_slice(b"\n")
}

/// The index of the bad row that stopped a call, where one did.
pub fn bad_row_of(stop: Stop) -> Option<u64>
    ensures some { IfSome result (λ index. stop ≡ Stop.BadRow index) }
    ensures none { IfNone result ((index : ℕ) → stop ≢ Stop.BadRow index) }
{
    match stop {
        Stop::BadRow { index } => Some(index),
        _ => None,
    }
}

/// Writes the line of a bad row.
pub fn tell_bad_row<O: Sink>(alloc: Global, index: u64, out: &mut O) -> Result<(), Stop>
    ensures text { OnOk result (Appends (O.means out.old).taken (O.means out.new).taken (bad_row_text index)) }
    ensures front { (n : ℕ) × Appends (O.means out.old).taken (O.means out.new).taken (take n (bad_row_text index)) }
    ensures ends { WriteEnds (O.means out.old) (O.means out.new) result }
{
    let mut text = Vec::new(alloc);
    push_bad_row(&mut text, index)?;
    send(out, &text)?;
    Ok(())
}
