// The printed lines of notices: what an evaluation sends, and what receivers are told.
#![tactic(auto, using(pr_words::proofs::Fronts::front_on, pr_words::proofs::Fronts::front_after))]

ghost use Rattle.std.specs.Prelude.{◌≡◌, ◌++◌, OnOk, OnErr, codes, decimal, flat_map, length, take};
ghost use Rattle.spec_world.specs.pr_num.Shown.{shown};
ghost use Rattle.pr_text.specs.Answers.{deliver_firing, deliver_resolved, send_firing, send_resolved, too_many_receivers};
ghost use Rattle.pr_text.specs.Notices.{batch_line, batch_text, delivery_lines, delivery_word, joined_text, no_receiver_text, note_line, notice_text, sending_lines, sending_word};

use crate::values::push_value;
use pr_words::strings::write_string;
use pr_words::{push_number, whole_or_none};
use spec_world::alerts_crate::Sending;
use spec_world::alerts_crate::notices::{Batch, Joined};
use spec_world::labels::Pair;
use spec_world::num::Num;
use spec_world::time::Ms;
use std::alloc::AllocError;

#[tactic(auto, unfolding(crate::specs::Answers::send_firing))]
fn push_send_firing(text: &mut Vec<u8>) -> Result<(), AllocError>
    ensures ok { OnOk result (text.new.items ≡ text.old.items ++ send_firing) }
    ensures front { take (length text.old.items) text.new.items ≡ text.old.items }
{
    text.extend_from_slice(b"send firing ")
}

#[tactic(auto, unfolding(crate::specs::Answers::send_resolved))]
fn push_send_resolved(text: &mut Vec<u8>) -> Result<(), AllocError>
    ensures ok { OnOk result (text.new.items ≡ text.old.items ++ send_resolved) }
    ensures front { take (length text.old.items) text.new.items ≡ text.old.items }
{
    text.extend_from_slice(b"send resolved ")
}

#[tactic(auto, unfolding(crate::specs::Answers::deliver_firing))]
fn push_deliver_firing(text: &mut Vec<u8>) -> Result<(), AllocError>
    ensures ok { OnOk result (text.new.items ≡ text.old.items ++ deliver_firing) }
    ensures front { take (length text.old.items) text.new.items ≡ text.old.items }
{
    text.extend_from_slice(b"deliver firing ")
}

#[tactic(auto, unfolding(crate::specs::Answers::deliver_resolved))]
fn push_deliver_resolved(text: &mut Vec<u8>) -> Result<(), AllocError>
    ensures ok { OnOk result (text.new.items ≡ text.old.items ++ deliver_resolved) }
    ensures front { take (length text.old.items) text.new.items ≡ text.old.items }
{
    text.extend_from_slice(b"deliver resolved ")
}

#[tactic(auto, unfolding(crate::specs::Answers::too_many_receivers))]
fn push_too_many(text: &mut Vec<u8>) -> Result<(), AllocError>
    ensures ok { OnOk result (text.new.items ≡ text.old.items ++ too_many_receivers) }
    ensures front { take (length text.old.items) text.new.items ≡ text.old.items }
{
    text.extend_from_slice(b"too many receivers\n")
}

// Notices

fn push_notice_value(text: &mut Vec<u8>, value: Num) -> Result<(), AllocError>
    ensures ok { OnOk result (text.new.items ≡ text.old.items ++ (codes " value " ++ shown value)) }
    ensures front { take (length text.old.items) text.new.items ≡ text.old.items }
{
    text.extend_from_slice(b" value ")?;
    push_value(text, value)
}

fn push_times(text: &mut Vec<u8>, starts: Ms, ends: u64) -> Result<(), AllocError>
    ensures ok { OnOk result (text.new.items ≡ text.old.items ++ (codes " starts " ++ decimal starts ++ codes " ends " ++ decimal ends ++ codes "\n")) }
    ensures front { take (length text.old.items) text.new.items ≡ text.old.items }
{
    text.extend_from_slice(b" starts ")?;
    push_number(text, starts.get())?;
    text.extend_from_slice(b" ends ")?;
    push_number(text, ends)?;
    text.extend_from_slice(b"\n")
}

fn push_notice(text: &mut Vec<u8>, notice: &Sending) -> Result<(), AllocError>
    ensures ok { OnOk result (text.new.items ≡ text.old.items ++ notice_text notice.now) }
    ensures front { take (length text.old.items) text.new.items ≡ text.old.items }
{
    notice.labels.write(text)?;
    push_notice_value(text, notice.value)?;
    push_times(text, notice.starts, notice.ends)
}

fn push_note(text: &mut Vec<u8>, note: &Pair) -> Result<(), AllocError>
    ensures ok { OnOk result (text.new.items ≡ text.old.items ++ note_line note.now) }
    ensures front { take (length text.old.items) text.new.items ≡ text.old.items }
{
    text.extend_from_slice(b"note ")?;
    text.extend_from_slice(note.name.as_str().as_bytes())?;
    text.extend_from_slice(b" ")?;
    write_string(note.value.as_str().as_bytes(), text)?;
    text.extend_from_slice(b"\n")
}

fn push_notes(text: &mut Vec<u8>, notes: &[Pair]) -> Result<(), AllocError>
    ensures ok { OnOk result (text.new.items ≡ text.old.items ++ flat_map note_line notes.now) }
    ensures front { take (length text.old.items) text.new.items ≡ text.old.items }
{
    for note in notes {
        push_note(text, note)?;
    }
    Ok(())
}

// What an evaluation sends

fn push_sending_word(text: &mut Vec<u8>, firing: bool) -> Result<(), AllocError>
    ensures ok { OnOk result (text.new.items ≡ text.old.items ++ sending_word firing) }
    ensures front { take (length text.old.items) text.new.items ≡ text.old.items }
{
    if firing {
        push_send_firing(text)
    } else {
        push_send_resolved(text)
    }
}

fn push_sending(text: &mut Vec<u8>, sending: &Sending) -> Result<(), AllocError>
    ensures ok { OnOk result (text.new.items ≡ text.old.items ++ sending_lines sending.now) }
    ensures front { take (length text.old.items) text.new.items ≡ text.old.items }
{
    push_sending_word(text, sending.firing)?;
    push_notice(text, sending)?;
    push_notes(text, sending.notes.as_slice())
}

// The lines of all that is sent, without memory a part of them.
pub(crate) fn push_sendings(text: &mut Vec<u8>, sendings: &[Sending]) -> Result<(), AllocError>
    ensures ok { OnOk result (text.new.items ≡ text.old.items ++ flat_map sending_lines sendings.now) }
    ensures front { take (length text.old.items) text.new.items ≡ text.old.items }
{
    for sending in sendings {
        push_sending(text, sending)?;
    }
    Ok(())
}

// What receivers are told

fn push_delivery_word(text: &mut Vec<u8>, firing: bool) -> Result<(), AllocError>
    ensures ok { OnOk result (text.new.items ≡ text.old.items ++ delivery_word firing) }
    ensures front { take (length text.old.items) text.new.items ≡ text.old.items }
{
    if firing {
        push_deliver_firing(text)
    } else {
        push_deliver_resolved(text)
    }
}

fn push_delivery(text: &mut Vec<u8>, notice: &Sending) -> Result<(), AllocError>
    ensures ok { OnOk result (text.new.items ≡ text.old.items ++ delivery_lines notice.now) }
    ensures front { take (length text.old.items) text.new.items ≡ text.old.items }
{
    push_delivery_word(text, notice.firing)?;
    push_notice(text, notice)?;
    push_notes(text, notice.notes.as_slice())
}

fn push_deliveries(text: &mut Vec<u8>, notices: &[Sending]) -> Result<(), AllocError>
    ensures ok { OnOk result (text.new.items ≡ text.old.items ++ flat_map delivery_lines notices.now) }
    ensures front { take (length text.old.items) text.new.items ≡ text.old.items }
{
    for notice in notices {
        push_delivery(text, notice)?;
    }
    Ok(())
}

fn push_batch_name(text: &mut Vec<u8>, name: &str) -> Result<(), AllocError>
    ensures ok { OnOk result (text.new.items ≡ text.old.items ++ (codes "batch " ++ name.now ++ codes " notices ")) }
    ensures front { take (length text.old.items) text.new.items ≡ text.old.items }
{
    text.extend_from_slice(b"batch ")?;
    text.extend_from_slice(name.as_bytes())?;
    text.extend_from_slice(b" notices ")
}

fn push_counts(text: &mut Vec<u8>, count: usize, dropped: u64) -> Result<(), AllocError>
    ensures ok { OnOk result (text.new.items ≡ text.old.items ++ (decimal count ++ codes " dropped " ++ decimal dropped ++ codes "\n")) }
    ensures front { take (length text.old.items) text.new.items ≡ text.old.items }
{
    push_number(text, count as u64)?;
    text.extend_from_slice(b" dropped ")?;
    push_number(text, dropped)?;
    text.extend_from_slice(b"\n")
}

fn push_batch_line(text: &mut Vec<u8>, name: &str, batch: &Batch) -> Result<(), AllocError>
    ensures ok { OnOk result (text.new.items ≡ text.old.items ++ batch_line name.now batch.now) }
    ensures front { take (length text.old.items) text.new.items ≡ text.old.items }
{
    push_batch_name(text, name)?;
    push_counts(text, batch.notices.as_slice().len(), batch.dropped)
}

fn push_batch_lines(text: &mut Vec<u8>, name: &str, batch: &Batch) -> Result<(), AllocError>
    ensures ok { OnOk result (text.new.items ≡ text.old.items ++ batch_text name.now batch.now) }
    ensures front { take (length text.old.items) text.new.items ≡ text.old.items }
{
    push_batch_line(text, name, batch)?;
    push_deliveries(text, batch.notices.as_slice())
}

fn push_new(text: &mut Vec<u8>, name: &str) -> Result<(), AllocError>
    ensures ok { OnOk result (text.new.items ≡ text.old.items ++ (codes "receiver " ++ name.now ++ codes "\n")) }
    ensures front { take (length text.old.items) text.new.items ≡ text.old.items }
{
    text.extend_from_slice(b"receiver ")?;
    text.extend_from_slice(name.as_bytes())?;
    text.extend_from_slice(b"\n")
}

fn push_known(text: &mut Vec<u8>, name: &str) -> Result<(), AllocError>
    ensures ok { OnOk result (text.new.items ≡ text.old.items ++ (codes "known " ++ name.now ++ codes "\n")) }
    ensures front { take (length text.old.items) text.new.items ≡ text.old.items }
{
    text.extend_from_slice(b"known ")?;
    text.extend_from_slice(name.as_bytes())?;
    text.extend_from_slice(b"\n")
}

fn push_none(text: &mut Vec<u8>, name: &str) -> Result<(), AllocError>
    ensures ok { OnOk result (text.new.items ≡ text.old.items ++ no_receiver_text name.now) }
    ensures front { take (length text.old.items) text.new.items ≡ text.old.items }
{
    text.extend_from_slice(b"no receiver ")?;
    text.extend_from_slice(name.as_bytes())?;
    text.extend_from_slice(b"\n")
}

fn push_join(text: &mut Vec<u8>, name: &str, joined: Joined) -> Result<(), AllocError>
    ensures ok { OnOk result (text.new.items ≡ text.old.items ++ joined_text name.now joined) }
    ensures front { take (length text.old.items) text.new.items ≡ text.old.items }
{
    match joined {
        Joined::New => push_new(text, name),
        Joined::Known => push_known(text, name),
        Joined::Full => push_too_many(text),
    }
}

/// Appends the line that says what became of a name that was to be added to the receivers. Want of
/// memory alone is an error, and then nothing is appended. (Own choice.)
pub fn push_joined(text: &mut Vec<u8>, name: &str, joined: Joined) -> Result<(), AllocError>
    ensures ok { OnOk result (text.new.items ≡ text.old.items ++ joined_text name.now joined) }
    ensures err { OnErr result (text.new.items ≡ text.old.items) }
{
    let before = text.len();
    let written = push_join(text, name, joined);
    whole_or_none(text, before, written)
}

/// Appends the lines of a batch that the receiver of this name is given: one with the counts, and
/// those of each notice and its annotations. Want of memory alone is an error, and then nothing is
/// appended. (Own choice.)
pub fn push_batch(text: &mut Vec<u8>, name: &str, batch: &Batch) -> Result<(), AllocError>
    ensures ok { OnOk result (text.new.items ≡ text.old.items ++ batch_text name.now batch.now) }
    ensures err { OnErr result (text.new.items ≡ text.old.items) }
{
    let before = text.len();
    let written = push_batch_lines(text, name, batch);
    whole_or_none(text, before, written)
}

/// Appends the line that says that no receiver has this name. Want of memory alone is an error, and
/// then nothing is appended. (Own choice.)
pub fn push_no_receiver(text: &mut Vec<u8>, name: &str) -> Result<(), AllocError>
    ensures ok { OnOk result (text.new.items ≡ text.old.items ++ no_receiver_text name.now) }
    ensures err { OnErr result (text.new.items ≡ text.old.items) }
{
    let before = text.len();
    let written = push_none(text, name);
    whole_or_none(text, before, written)
}
