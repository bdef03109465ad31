ghost use Rattle.std.specs.Prelude.{◌≡◌, IfOk};

use crate::labels::Labels;
use std::alloc::{AllocError, Global};

/// What a label set has: an element of a vector.
#[derive(Debug, Drop)]
pub struct Item<V> {
    /// The labels of the element.
    pub labels: Labels,
    /// What it has.
    pub value: V,
}

impl<V: Copy> Item<V> {
    /// An element of its own with the same labels and value.
    pub fn copy(&self, alloc: Global) -> Result<Item<V>, AllocError>
        ensures { IfOk result (λ i. i ≡ self.now) }
    {
        Ok(Item {
            labels: self.labels.copy(alloc)?,
            value: self.value,
        })
    }
}
