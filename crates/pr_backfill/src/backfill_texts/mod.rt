//! What `backfill` writes and promises: the model, of definitions without bodies.
mod examples;

pub use examples::a_backfill_is_told_so;
