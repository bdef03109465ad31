//! What label sets have, kept in label order: pushed where they come in that order, and else in an
//! ordered map.
mod ordered;
mod places;

pub use ordered::Ordered;
