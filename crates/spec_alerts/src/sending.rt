use pr_num::Num;
use spec_history::labels::{Labels, Pair};
use spec_history::time::Ms;
use spec_history::words_crate::Items;

/// A notification. (Prometheus: Alerting rules, Sending alert notifications.)
#[derive(Debug, Drop)]
pub struct Sending {
    /// The labels of the alert.
    pub labels: Labels,
    /// Whether it fires, or is over.
    pub firing: bool,
    /// Its value.
    pub value: Num,
    /// When it began to fire.
    pub starts: Ms,
    /// When it ends: after this it counts as over unless it is sent again. This may lie above all
    /// times.
    pub ends: u64,
    /// Its annotations.
    pub notes: Items<Pair>,
}
