//! Writing a string.
ghost use Rattle.std.specs.Prelude.{◌≡◌, ◌++◌, OnOk, OnErr, flat_map, length, take};
ghost use Rattle.std.specs.Str.{IsUtf8};
ghost use Rattle.std.specs.List.{list_all};
ghost use Rattle.pr_words.specs.declared.strings.kind.Mark.TheVariants.{Double};
ghost use Rattle.pr_words.specs.Quoted.{escaped_byte, quoted_text};
ghost use Rattle.pr_words.specs.Strings.{is_plain, kind_of};

use crate::strings::kind::{Mark, kind_of};
use crate::strings::reader::is_plain;
use std::alloc::AllocError;

fn push_escaped_byte(out: &mut Vec<u8>, b: u8) -> Result<(), AllocError>
    ensures ok { OnOk result (out.new.items ≡ out.old.items ++ escaped_byte b) }
    ensures err { OnErr result (out.new.items ≡ out.old.items) }
{
    match b {
        b'\\' => out.extend_from_slice(b"\\\\"),
        b'"' => out.extend_from_slice(b"\\\""),
        b'\n' => out.extend_from_slice(b"\\n"),
        _ => out.extend_from_slice(&[b]),
    }
}

#[tactic(auto, using(crate::proofs::Fronts::front_stays))]
fn push_each_byte(out: &mut Vec<u8>, bytes: &[u8]) -> Result<(), AllocError>
    ensures ok { OnOk result (out.new.items ≡ out.old.items ++ flat_map escaped_byte bytes.now) }
    ensures err { OnErr result (take (length out.old.items) out.new.items ≡ out.old.items) }
{
    for b in bytes {
        push_escaped_byte(out, *b)?;
    }
    Ok(())
}

// Whether each of the bytes stands for itself.
fn are_plain(bytes: &[u8]) -> bool
    ensures { result ≡ list_all (λ b. is_plain Double (kind_of b)) bytes.now }
{
    bytes.iter().all(|b| is_plain(Mark::Double, kind_of(*b)))
}

// Most texts have no byte to escape, and are appended in one go.
#[tactic(auto, using(crate::proofs::Escaped::plain_bytes))]
fn push_escaped(out: &mut Vec<u8>, bytes: &[u8]) -> Result<(), AllocError>
    ensures ok { OnOk result (out.new.items ≡ out.old.items ++ flat_map escaped_byte bytes.now) }
    ensures err { OnErr result (take (length out.old.items) out.new.items ≡ out.old.items) }
{
    if are_plain(bytes) {
        out.extend_from_slice(bytes)
    } else {
        push_each_byte(out, bytes)
    }
}

#[tactic(auto, using(crate::proofs::Fronts::front_after))]
fn push_quoted(out: &mut Vec<u8>, bytes: &[u8]) -> Result<(), AllocError>
    ensures ok { OnOk result (out.new.items ≡ out.old.items ++ quoted_text bytes.now) }
    ensures err { OnErr result (take (length out.old.items) out.new.items ≡ out.old.items) }
{
    out.extend_from_slice(b"\"")?;
    push_escaped(out, bytes)?;
    out.extend_from_slice(b"\"")
}

/// Appends bytes as a string in double quotes: a backslash, a quote and a line feed have a
/// backslash before them, the line feed as `\n`, and all others stand for themselves. (The strings
/// of the query language: Prometheus, Querying basics, "String literals"; of its escapes these
/// three are written: own choice.) Without memory nothing is appended.
pub fn write_string(bytes: &[u8], out: &mut Vec<u8>) -> Result<(), AllocError>
    ensures ok { OnOk result (out.new.items ≡ out.old.items ++ quoted_text bytes.now) }
    ensures err { OnErr result (out.new.items ≡ out.old.items) }
    // A text goes on as a text.
    ensures text { IsUtf8 bytes.now → IsUtf8 out.old.items → IsUtf8 out.new.items }
{
    let before = out.len();
    let written = push_quoted(out, bytes);
    if written.is_err() {
        out.truncate(before);
    }
    written
}
