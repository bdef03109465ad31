// A row in little room.
ghost use Rattle.std.specs.Prelude.{◌≡◌, IfOk};

use std::alloc::AllocError;
use std::mem::size_of;

/// What is kept of a row beside the texts of series and of points: the number of its series, its
/// time, and where the text of its point stands.
#[derive(Debug, Drop)]
pub(crate) struct PackedRow {
    pub(crate) series: u32,
    pub(crate) length: u32,
    pub(crate) time: u64,
    pub(crate) start: usize,
}

const _: () = prove!(size_of::<PackedRow>() == 24);

/// A count in 32 bits. There is no memory for what has more.
pub(crate) fn in_word(count: usize) -> Result<u32, AllocError>
    ensures { IfOk result (λ n. n ≡ count) }
{
    match u32::try_from(count) {
        Ok(count) => Ok(count),
        Err(_) => Err(AllocError),
    }
}
