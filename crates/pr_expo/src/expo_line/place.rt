// The places of a line, what a line reads as, and how it may be bad.
use crate::expo_line::label_list::LabelList;
use crate::expo_line::number::NumberPlace;
use pr_labels::words_crate::Text;

/// What a family of samples is.
#[derive(Clone, Copy, Debug, PartialEq, Eq)]
pub enum FamilyKind {
    Counter,
    Gauge,
    Histogram,
    Summary,
    Untyped,
}

/// How a line is bad.
#[derive(Clone, Copy, Debug, PartialEq, Eq)]
pub enum ExpoKind {
    NotText,
    BadName,
    BadLabels,
    DuplicateLabel,
    BadValue,
    BadTime,
    BadType,
}

/// The first words of the comments that concern a family.
#[derive(Clone, Copy, Debug, PartialEq, Eq)]
pub enum FamilyWord {
    Help,
    Type,
}

/// The name of a sample, and the labels of its list in the order of the text; a value may be empty.
#[derive(Debug, Drop)]
pub struct LineHead {
    pub name: Text,
    pub labels: LabelList,
}

/// A name with labels, and the text of its number.
#[derive(Debug, Drop)]
pub struct Measured {
    pub head: LineHead,
    pub number: Text,
}

/// A place in a line, with what was read up to it.
#[derive(Debug, Drop)]
pub enum LineCursor {
    /// Before the first character that is no blank.
    Start,
    /// After the sign of a comment, and after blanks that follow it.
    Hash,
    Gap,
    /// In the first word of a comment.
    Keyword(Text),
    /// In a comment that is passed over.
    Passed,
    /// Before the name of a family, in it, and in the text after it.
    BeforeFamily(FamilyWord),
    InFamily(FamilyWord, Text),
    InHelp(Text),
    /// Before a type, in it, and after it.
    BeforeType(Text),
    InType(Text, Text),
    AfterType(Text, FamilyKind),
    /// In the name of a sample.
    InName(Text),
    /// Before a label or the end of the list, and in its name.
    BeforeLabel(LineHead),
    InLabel(LineHead, Text),
    /// Before the sign between a name and a value, and before the value.
    BeforeEqual(LineHead, Text),
    BeforeQuote(LineHead, Text),
    /// In a value, in it after a backslash, and after it.
    InValue(LineHead, Text, Text),
    InEscape(LineHead, Text, Text),
    AfterValue(LineHead),
    /// After the list, and after blanks that follow it or the name.
    AfterList(LineHead),
    BeforeNumber(LineHead),
    /// In the number, and after it and blanks.
    InNumber(LineHead, NumberPlace, Text),
    AfterNumber(Measured),
    /// After the sign of a time, in its digits with their count, and after them and blanks.
    AfterSign(Measured, Text),
    InTime(Measured, Text, u8),
    AfterTime(Measured, Text),
}

/// What a line reads as.
#[derive(Debug, Drop)]
pub enum Read {
    /// Nothing: it is blank, or a comment that is passed over.
    Nothing,
    /// A help text of the family.
    Help(Text),
    /// The type of the family.
    Typed(Text, FamilyKind),
    /// A sample, with the text of its time, where it has one.
    Sample(Measured, Option<Text>),
}
