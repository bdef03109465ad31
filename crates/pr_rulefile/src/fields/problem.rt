// What is wrong with a rule file or a test file.
use pr_parse::QueryKind;
use pr_words::Text;
use pr_yaml::yaml_scan::YamlKind;

/// What is wrong at a line of a rule file or a test file. On one line problems stand in this order.
/// (The kinds are an own choice.)
#[derive(Debug, PartialEq, Eq, Drop)]
pub enum ProblemKind {
    /// The text has no tree: its first fault, which stands alone.
    Yaml { kind: YamlKind },
    /// A map is wanted.
    WantMap,
    /// A list is wanted.
    WantList,
    /// A text is wanted.
    WantText,
    /// No field of the map has this name.
    UnknownField { name: Text },
    /// The map has no field of this name, and must have one.
    Missing { name: Text },
    /// A group before has this name.
    DuplicateGroup { name: Text },
    /// A rule is neither a `record` nor an `alert`.
    NoName,
    /// A rule is both a `record` and an `alert`.
    TwoNames,
    /// What a rule records is no name of a metric.
    BadName,
    /// A label or an annotation has no name of a label, or the metric's own.
    BadLabel { name: Text },
    /// A text is no length of time, or one that is too long.
    BadSpan,
    /// A text is no whole number below 2^32.
    BadLimit,
    /// A field of alerts in a rule that records.
    NotForRecording { name: Text },
    /// A text is no expression, or has no type: the first fault, and the byte of the text where it
    /// is. Those without tokens come first, then those without a tree.
    Expression { kind: QueryKind, at: usize },
    /// A text is no template: the first byte with which no template goes on.
    BadTemplate { at: usize },
    /// A text is no series. Test files alone have this kind and those below.
    BadSeries,
    /// A series stands twice.
    DuplicateSeries,
    /// A text is no list of values.
    BadValues,
    /// A list of values is too long.
    TooManyValues,
    /// A text is no number.
    BadValue,
    /// `fuzzy_compare` is not `false`.
    FuzzyCompare,
}

/// Something that is wrong with a file.
#[derive(Debug, PartialEq, Eq, Drop)]
pub struct Problem {
    /// The line, from 1, of the value that is spoken of. `Missing`, `NoName` and `TwoNames` have
    /// the line of their map, `UnknownField` and `NotForRecording` that of the key.
    pub line: u32,
    pub kind: ProblemKind,
}
