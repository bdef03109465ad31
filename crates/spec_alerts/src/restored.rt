use spec_history::labels::Labels;
use spec_history::time::Ms;

/// An alert whose time was restored. (Prometheus: Alerting rules, ALERTS_FOR_STATE.)
#[derive(Debug, Drop)]
pub struct Restored {
    /// Its labels.
    pub labels: Labels,
    /// Since when it is active now.
    pub active: Ms,
}
