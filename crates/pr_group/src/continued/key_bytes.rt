ghost use Rattle.std.specs.Prelude.{◌≡◌};

use std::hash::{Hash, Hasher};
use std::marker::Model;

/// What tells a kind, as bytes that are compared whole. Contracts see the list of them.
#[derive(Drop)]
pub struct KeyBytes {
    bytes: Vec<u8>,
}

impl Model for KeyBytes {
    ghost use Rattle.std.specs.Prelude.{ℕ, List};

    ghost Value = { List ℕ };

    ghost view = { λ k. k.bytes.items };
}

impl KeyBytes {
    /// The bytes of a vector.
    pub fn new(bytes: Vec<u8>) -> KeyBytes
        ensures { result ≡ bytes.items }
    {
        KeyBytes { bytes }
    }
}

impl PartialEq for KeyBytes {
    ghost use Rattle.std.proofs.Common.{rules};
    ghost use Rattle.std.specs.Cmp.Rules.{comparing};
    ghost use Rattle.std.specs.Str.{bytes_eq};

    ghost eq = { bytes_eq };

    ghost laws = { Prim.search (comparing, rules) };

    fn eq(&self, other: &KeyBytes) -> bool {
        self.bytes == other.bytes
    }
}

impl Eq for KeyBytes {
    ghost use Rattle.std.proofs.Common.{rules};
    ghost use Rattle.std.specs.Cmp.Rules.{comparing};

    ghost laws = { Prim.search (comparing, rules) };
}

impl Hash for KeyBytes {
    ghost use Rattle.std.proofs.Common.{rules};
    ghost use Rattle.std.specs.Cmp.Rules.{hashing};
    ghost use Rattle.std.specs.Hash as fed;

    ghost hash_input = { fed.slice fed.u8 };

    ghost respects_eq = { Prim.search (hashing, rules) };

    fn hash<H: Hasher>(&self, state: &mut H) {
        self.bytes.hash(state);
    }
}
