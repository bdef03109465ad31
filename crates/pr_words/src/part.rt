ghost use Rattle.std.specs.Prelude.{◌≡◌, IfOk, IfSome, string_bytes};

use std::alloc::{AllocError, Global};
use std::marker::Model;
use std::rc::Rc;

/// A part of a string that others have too, so that one more costs a count and no memory.
/// Contracts see the list of its bytes.
#[derive(Debug, Drop)]
pub(crate) struct Part {
    whole: Rc<String>,
    start: usize,
    end: usize,
}

impl Model for Part {
    ghost use Rattle.std.specs.Prelude.{◌≤◌, List, ℕ, slice_range, string_bytes};
    ghost use Rattle.std.specs.Str.{IsCharBoundary};

    ghost Value = { List ℕ };

    ghost view = { λ p. slice_range (string_bytes p.whole.value) p.start p.end };

    ghost invariant = { λ p. (p.start ≤ p.end) × IsCharBoundary (string_bytes p.whole.value) p.start × IsCharBoundary (string_bytes p.whole.value) p.end };
}

impl Part {
    /// A text as the part of a string, where it stands there at a place.
    pub(crate) fn of(whole: &Rc<String>, start: usize, text: &str) -> Option<Part>
        ensures { IfSome result (λ p. p ≡ text.now) }
    {
        let end = start.checked_add(text.len())?;
        let bytes = whole.as_ref().as_str();
        if !bytes.is_char_boundary(start) || !bytes.is_char_boundary(end) {
            return None;
        }
        if &bytes[start..end] != text {
            return None;
        }
        match whole.clone() {
            Ok(whole) => Some(Part { whole, start, end }),
            Err(_) => None,
        }
    }

    /// The part, borrowed.
    pub(crate) fn as_str(&self) -> &str
        ensures { result.now ≡ self.now }
    {
        &self.whole.as_ref().as_str()[self.start..self.end]
    }

    /// The same part once more.
    pub(crate) fn copy(&self) -> Result<Part, AllocError>
        ensures { IfOk result (λ p. p ≡ self.now) }
    {
        Ok(Part {
            whole: self.whole.clone()?,
            start: self.start,
            end: self.end,
        })
    }

    /// A string of its own, with the same bytes.
    pub(crate) fn to_string(&self) -> Result<String, AllocError>
        ensures { IfOk result (λ s. string_bytes s ≡ self.now) }
    {
        let alloc = *self.whole.as_ref().allocator();
        String::from_str(alloc, self.as_str())
    }
}
