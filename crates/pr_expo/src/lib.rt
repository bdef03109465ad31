//! Expositions: the samples that a target offers, with the families that they belong to, and
//! complaints about these.
#![tactic(auto)]

mod complaints;
pub mod expo_line;
mod exposition;
mod families;
mod known;
mod marks;
mod reader;
mod sample;
mod text;

pub use crate::expo_line::{ExpoKind, FamilyKind};
pub use complaints::lint;
pub use exposition::{ExpoError, Exposition, Family, Line, LintKind, Problem};
pub use reader::read;
