// What is evaluated, and what is told of it.
use pr_outside::words_crate::Text;
use spec_rules::{GroupDef, GroupReport};

/// A group of a rule file.
#[derive(Drop)]
pub struct FileGroup {
    /// The name of the file.
    pub file: Text,
    pub def: GroupDef,
}

/// What is told of a group's evaluation.
#[derive(Debug, Drop)]
pub struct Stepped {
    /// The name of its file.
    pub file: Text,
    /// Its name.
    pub group: Text,
    pub report: GroupReport,
}
