//! The samples of a test, put into a head place by place from the stretches of values that they are
//! written with.
mod feed;
mod longest;
mod numbers;
mod progress;

pub use feed::Feed;
pub use longest::places;
