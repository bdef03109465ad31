//! Which range selectors of an expression go on from those of an older one.
mod choosing;
mod gathering;
mod key_bytes;
mod laws;
mod source;
mod waiting;

pub use choosing::carried;
pub use key_bytes::KeyBytes;
pub use laws::equal_texts_have_equal_ranges;
pub use waiting::NumbersByKey;
