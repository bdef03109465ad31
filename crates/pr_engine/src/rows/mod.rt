//! The rows of a store: read into a head, and kept.
mod fault;
mod keeping;
mod loading;
mod texts;

pub use fault::StartError;
pub use keeping::keep;
pub use loading::load;
pub use texts::PrintedTexts;
