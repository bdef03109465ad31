//! Scrapes: the samples that a target offers are put into the head, and what it no longer offers
//! goes stale; and the targets that are known, with what is tracked of each.
mod by_name;
mod calls;
mod known;
mod made;
mod named;
mod offered;
mod tally;
mod targets;

pub use calls::{gone, scrape};
pub use pr_manager::world::{BodyFault, Scraped};
pub use targets::Targets;
