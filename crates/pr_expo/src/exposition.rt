// An exposition, and complaints about it.
use crate::expo_line::{ExpoKind, FamilyKind};
use pr_labels::Labels;
use pr_labels::words_crate::{Items, Text};
use pr_num::Num;
use std::alloc::AllocError;

/// A family of samples. (Prometheus: Exposition formats, text format details.)
#[derive(Debug, Drop)]
pub struct Family {
    pub name: Text,
    /// That of its first type line, and untyped where it has none.
    pub kind: FamilyKind,
    /// How many help lines it has.
    pub helps: u32,
    /// How many type lines it has.
    pub types: u32,
    /// Whether a type line stands after a sample of it.
    pub late_type: bool,
}

/// A sample.
#[derive(Debug, Drop)]
pub struct Line {
    /// Its labels, the metric's name among them. A label whose value is empty is none.
    pub labels: Labels,
    /// The place of its family among the families.
    pub family: usize,
    /// Its value, or nothing where that is too wide.
    pub value: Option<Num>,
    /// Its time in milliseconds, where it has one of its own.
    pub time: Option<i64>,
}

/// What a target offers. (Prometheus: Exposition formats, text-based format.)
#[derive(Debug, Drop)]
pub struct Exposition {
    /// The families, in order of first mention.
    pub families: Items<Family>,
    /// The samples, in order.
    pub lines: Items<Line>,
}

/// Why bytes are no exposition.
#[derive(Clone, Copy, Debug, PartialEq, Eq)]
pub enum ExpoError {
    /// The first bad line, by its number from 1, and how it is bad at the first place at which no
    /// line can go on.
    Fault { line: u32, kind: ExpoKind },
    /// Memory ran out.
    Memory,
}

impl From<AllocError> for ExpoError {
    ghost use Rattle.std.specs.Prelude.{◌≡◌};
    ghost use Rattle.pr_expo.specs.declared.exposition.ExpoError.TheVariants.{Memory};

    ghost from_gives = { λ _ e. e ≡ Memory };

    fn from(_error: AllocError) -> ExpoError {
        ExpoError::Memory
    }
}

/// What may be said against a family.
#[derive(Clone, Copy, Debug, PartialEq, Eq)]
pub enum LintKind {
    /// It has no help line.
    NoHelp,
    /// It has more than one help line.
    SecondHelp,
    /// It has more than one type line.
    SecondType,
    /// It has a type line after a sample.
    LateType,
    /// It is a counter without the ending `_total`.
    CounterTotal,
    /// It is a gauge, a histogram or a summary with that ending.
    NotCounterTotal,
    /// Its name has a colon.
    Colon,
    /// Its name has a small letter directly before a capital.
    Camel,
    /// A sample has the label `le`, and it is no histogram.
    LeLabel,
    /// A sample has the label `quantile`, and it is no summary.
    QuantileLabel,
    /// A sample has a value that is too wide.
    WideValue,
}

/// A complaint about a family.
#[derive(Debug, Drop)]
pub struct Problem {
    pub family: Text,
    pub kind: LintKind,
}
