ghost use Rattle.std.specs.Prelude.{◌≡◌, IfOk};

use pr_words::Text;
use std::alloc::{AllocError, Global};

/// A label: a name and a value. Pairs are ordered by name, then by value, both by bytes.
#[derive(Debug, Drop, PartialEq, Eq, PartialOrd, Ord, Hash)]
pub struct Pair {
    /// The name of the label.
    pub name: Text,
    /// Its value.
    pub value: Text,
}

impl Pair {
    /// A pair with the same texts.
    pub fn copy(&self, alloc: Global) -> Result<Pair, AllocError>
        ensures { IfOk result (λ p. p ≡ self.now) }
    {
        Ok(Pair {
            name: self.name.copy(alloc)?,
            value: self.value.copy(alloc)?,
        })
    }
}
