// Writing a text whole.
ghost use Rattle.std.specs.Prelude.{◌≡◌, ℕ, ◌≤◌, length, take, OnOk};
ghost use Rattle.std.specs.Io.KnownBytes.{Appends};
ghost use Rattle.pr_outside.specs.Ends.{WriteEnds};

use crate::Sink;
use crate::status::status::Stop;

/// Hands a text to the sink, all of it, and nothing after a refusal.
#[tactic(auto, using(crate::proofs::StatusStreams::appends_more))]
pub fn send<O: Sink>(out: &mut O, text: &[u8]) -> Result<(), Stop>
    ensures whole { OnOk result (Appends (O.means out.old).taken (O.means out.new).taken text.now) }
    // Refused, it handed over a front.
    ensures front { (n : ℕ) × Appends (O.means out.old).taken (O.means out.new).taken (take n text.now) }
    ensures ends { WriteEnds (O.means out.old) (O.means out.new) result }
{
    let mut at = 0;
    'writing: while at < text.len() {
        at += out.write(&text[at..])?;
    }
    Ok(())
}
