// The times of checks, printed as lengths of time.
#![tactic(auto, using(pr_words::proofs::Fronts::front_on, pr_words::proofs::Fronts::front_after))]

ghost use Rattle.std.specs.Prelude.{◌≡◌, ◌++◌, ◌/◌, ◌%◌, OnOk, codes, length, take};
ghost use Rattle.pr_checks.specs.pr_time.SpanShown.{part_text, parts_text, shown_span};

use pr_words::push_number;
use std::alloc::AllocError;

// A number with its unit, or nothing where the number is 0.
fn push_part(text: &mut Vec<u8>, number: u64, unit: &[u8]) -> Result<(), AllocError>
    ensures ok { OnOk result (text.new.items ≡ text.old.items ++ part_text number unit.now) }
    ensures front { take (length text.old.items) text.new.items ≡ text.old.items }
{
    if number == 0 {
        return Ok(());
    }
    push_number(text, number)?;
    text.extend_from_slice(unit)
}

// What is whole minutes.
fn push_minutes(text: &mut Vec<u8>, ms: u64) -> Result<(), AllocError>
    ensures ok { OnOk result (text.new.items ≡ text.old.items ++ (part_text (ms / 86400000) (codes "d") ++ part_text (ms % 86400000 / 3600000) (codes "h") ++ part_text (ms % 3600000 / 60000) (codes "m"))) }
    ensures front { take (length text.old.items) text.new.items ≡ text.old.items }
{
    push_part(text, ms / 86_400_000, b"d")?;
    push_part(text, ms % 86_400_000 / 3_600_000, b"h")?;
    push_part(text, ms % 3_600_000 / 60_000, b"m")
}

// Seconds and milliseconds.
fn push_seconds(text: &mut Vec<u8>, ms: u64) -> Result<(), AllocError>
    ensures ok { OnOk result (text.new.items ≡ text.old.items ++ (part_text (ms % 60000 / 1000) (codes "s") ++ part_text (ms % 1000) (codes "ms"))) }
    ensures front { take (length text.old.items) text.new.items ≡ text.old.items }
{
    push_part(text, ms % 60_000 / 1_000, b"s")?;
    push_part(text, ms % 1_000, b"ms")
}

fn push_parts(text: &mut Vec<u8>, ms: u64) -> Result<(), AllocError>
    ensures ok { OnOk result (text.new.items ≡ text.old.items ++ parts_text ms) }
    ensures front { take (length text.old.items) text.new.items ≡ text.old.items }
{
    push_minutes(text, ms)?;
    push_seconds(text, ms)
}

/// Appends a time as a length of time. It may be longer than a span is, unlike what
/// `pr_time::write_span` takes.
pub(crate) fn push_time(text: &mut Vec<u8>, ms: u64) -> Result<(), AllocError>
    ensures ok { OnOk result (text.new.items ≡ text.old.items ++ shown_span ms) }
    ensures front { take (length text.old.items) text.new.items ≡ text.old.items }
{
    if ms == 0 {
        text.extend_from_slice(b"0s")
    } else {
        push_parts(text, ms)
    }
}
