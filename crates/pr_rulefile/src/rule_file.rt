// A rule file as a value.
use pr_words::Items;
use spec_rules::GroupDef;

/// A rule file: its groups, in the order of the text. (Prometheus: Recording rules, "Configuring
/// rules".)
#[derive(Drop)]
pub struct RuleFile {
    pub groups: Items<GroupDef>,
}
