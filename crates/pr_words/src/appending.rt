// Appending to a text: numbers, and all or nothing.
#![tactic(auto, using(crate::proofs::Fronts::front_on, crate::proofs::Fronts::front_after))]

ghost use Rattle.std.specs.Prelude.{◌≡◌, ◌++◌, OnOk, OnErr, decimal, length, take};
ghost use Rattle.pr_words.specs.Appending.{number_text};

use itoa::Buffer;
use std::alloc::AllocError;

/// Appends a number in decimal. Want of memory alone is an error, and then
/// nothing is appended.
pub fn push_number(text: &mut Vec<u8>, n: u64) -> Result<(), AllocError>
    ensures ok { OnOk result (text.new.items ≡ text.old.items ++ decimal n) }
    ensures err { OnErr result (text.new.items ≡ text.old.items) }
{
    let mut buffer = Buffer::new();
    text.extend_from_slice(buffer.format(n).as_bytes())
}

/// Appends a blank and a number in decimal. Want of memory alone is an error, and then what stood
/// there stays, maybe with the blank behind it.
pub fn push_number_after(text: &mut Vec<u8>, n: u64) -> Result<(), AllocError>
    ensures ok { OnOk result (text.new.items ≡ text.old.items ++ number_text n) }
    ensures front { take (length text.old.items) text.new.items ≡ text.old.items }
{
    text.extend_from_slice(b" ")?;
    push_number(text, n)
}

/// Takes back what was appended after so many bytes, where memory ran out.
pub fn whole_or_none(
    text: &mut Vec<u8>,
    before: usize,
    written: Result<(), AllocError>,
) -> Result<(), AllocError>
    ensures same { result ≡ written }
    ensures ok { OnOk written (text.new.items ≡ text.old.items) }
    ensures err { OnErr written (text.new.items ≡ take before text.old.items) }
{
    if written.is_err() {
        text.truncate(before);
    }
    written
}
