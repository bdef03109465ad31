// Copies of notices.
ghost use Rattle.std.specs.Prelude.{◌≡◌, IfOk};

use spec_alerts::Sending;
use spec_alerts::labels::copy_pairs;
use spec_alerts::words_crate::Items;
use std::alloc::{AllocError, Global};

/// The same notice once more. Its labels are shared.
pub(crate) fn copied(alloc: Global, s: &Sending) -> Result<Sending, AllocError>
    ensures { IfOk result (λ c. c ≡ s.now) }
{
    Ok(Sending {
        labels: s.labels.copy(alloc)?,
        firing: s.firing,
        value: s.value,
        starts: s.starts,
        ends: s.ends,
        notes: Items::new(copy_pairs(alloc, s.notes.as_slice())?),
    })
}
