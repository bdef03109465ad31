// A text as a value.
ghost use Rattle.std.specs.Prelude.{◌≡◌, ℕ, List, string_bytes, IfOk};
ghost use Rattle.std.proofs.Common.{rules};
ghost use Rattle.std.specs.Cmp.Rules.{comparing, hashing};
ghost use Rattle.std.specs.Str.{bytes_eq};
ghost use Rattle.std.specs.Hash as fed;

use crate::part::Part;
use std::alloc::{AllocError, Global};
use std::cmp::Ordering;
use std::hash::{Hash, Hasher};
use std::marker::Model;
use std::rc::Rc;

/// A text that contracts see as the list of its bytes, so that structs and enums that hold one are
/// compared whole. Equality, order and hash are by the bytes. A text can be a part of a string that
/// others share, and then a copy takes no memory.
#[derive(Debug, Drop)]
pub struct Text {
    held: Held,
}

// A string of the text alone, or a part of one that others have too.
#[derive(Debug, Drop)]
enum Held {
    Own(String),
    Shared(Part),
}

impl Model for Text {
    ghost use Rattle.std.specs.Prelude.{ℕ, List, string_bytes};

    ghost Value = { List ℕ };

    ghost use Rattle.pr_words.specs.declared.text.Held.TheVariants.{Own, Shared};

    ghost view = { λ t. elim t.held [ Own text ↦ string_bytes text | Shared part ↦ part ] };
}

impl Text {
    /// The text of a string.
    pub fn new(inner: String) -> Text
        ensures { result ≡ string_bytes inner }
    {
        Text {
            held: Held::Own(inner),
        }
    }

    /// A text of its own, with the same bytes.
    pub fn from_str(alloc: Global, text: &str) -> Result<Text, AllocError>
        ensures { IfOk result (λ t. t ≡ text.now) }
    {
        Ok(Text::new(String::from_str(alloc, text)?))
    }

    /// The text, borrowed.
    pub fn as_str(&self) -> &str
        ensures { result.now ≡ self.now }
    {
        match &self.held {
            Held::Own(text) => text.as_str(),
            Held::Shared(part) => part.as_str(),
        }
    }

    /// Another text with the same bytes: of a part the same part.
    pub fn copy(&self, alloc: Global) -> Result<Text, AllocError>
        ensures { IfOk result (λ t. t ≡ self.now) }
    {
        match &self.held {
            Held::Own(text) => Text::from_str(alloc, text.as_str()),
            Held::Shared(part) => Ok(Text {
                held: Held::Shared(part.copy()?),
            }),
        }
    }

    /// Makes a text of its own a part of a string, where it stands there at a place; else it stays as
    /// it is.
    pub fn become_part(&mut self, whole: &Rc<String>, start: usize)
        ensures { self.new ≡ self.old }
    {
        if let Held::Own(text) = &self.held
            && let Some(part) = Part::of(whole, start, text.as_str())
        {
            self.held = Held::Shared(part);
        }
    }

    /// The string of the text: its own one, or a new one with the bytes of the part.
    pub fn into_string(self) -> Result<String, AllocError>
        ensures { IfOk result (λ s. string_bytes s ≡ self) }
    {
        match self.held {
            Held::Own(text) => Ok(text),
            Held::Shared(part) => part.to_string(),
        }
    }
}

impl PartialEq for Text {
    ghost eq = { bytes_eq };

    ghost laws = { Prim.search (comparing, rules) };

    fn eq(&self, other: &Text) -> bool {
        self.as_str() == other.as_str()
    }
}

impl Eq for Text {
    ghost laws = { Prim.search (comparing, rules) };
}

impl Hash for Text {
    ghost hash_input = { fed.str };

    ghost respects_eq = { Prim.search (hashing, rules) };

    fn hash<H: Hasher>(&self, state: &mut H) {
        self.as_str().hash(state);
    }
}

impl Ord for Text {
    ghost use Rattle.std.specs.Cmp.Lexicographic.{slice_cmp};
    ghost use Rattle.std.specs.Ordering.{nat_cmp};

    ghost cmp = { slice_cmp nat_cmp };

    ghost total = { Prim.search (comparing, rules) };

    ghost matches_partial_cmp = { Prim.search (comparing, rules) };

    ghost matches_eq = { Prim.search (comparing, rules) };

    fn cmp(&self, other: &Text) -> Ordering {
        self.as_str().cmp(other.as_str())
    }
}

impl PartialOrd for Text {
    ghost use Rattle.std.specs.Cmp.Lexicographic.{slice_cmp};
    ghost use Rattle.std.specs.Cmp.{partial_order_from_own_ties};
    ghost use Rattle.std.specs.Ordering.{nat_cmp, as_partial_cmp};

    ghost partial_cmp = { as_partial_cmp (slice_cmp nat_cmp) };

    ghost laws = { partial_order_from_own_ties (Prim.search (comparing, rules)) (Prim.search (comparing, rules)) };

    fn partial_cmp(&self, other: &Text) -> Option<Ordering> {
        Some(self.cmp(other))
    }
}
