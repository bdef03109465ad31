//! Folding summaries, and windows over a sequence with the fold of their items.
#![tactic(auto)]

mod counted;
mod fold;
mod folded;
pub mod folds;
mod held;
mod kept;
mod laws;
mod window;

// What crates above name of those below.
pub mod words_crate {
    pub use spec_vectors::words_crate::Items;
}

pub mod labels {
    pub use spec_vectors::labels::{Grouping, Item, Labels};
}

pub use fold::Fold;
pub use folded::{fold_by_next, fold_items};
pub use laws::{parts_combine, weight_of_items};
pub use window::Window;
