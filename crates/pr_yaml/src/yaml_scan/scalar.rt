use crate::yaml_scan::fault::YamlKind;
use crate::yaml_scan::line::Spot;
use pr_words::Items;

/// What a scalar that was begun comes to.
#[derive(Drop)]
pub(crate) enum Scalar<'a> {
    /// Its text, and the place after it.
    Found { text: Items<u8>, after: Spot<'a> },
    /// The line and the kind of its fault.
    Broken { line: u32, kind: YamlKind },
}
