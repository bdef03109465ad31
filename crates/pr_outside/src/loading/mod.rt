//! Files that are named, loaded one after another.
mod loading;

pub use loading::{Taker, load_each};
