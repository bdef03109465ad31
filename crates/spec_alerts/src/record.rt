use pr_num::Num;
use spec_history::labels::{Labels, Pair};
use spec_history::time::Ms;
use spec_history::words_crate::Items;

/// How far an alert has come. (Prometheus: Alerting rules.)
#[derive(Clone, Copy, PartialEq, Eq, Debug)]
pub enum State {
    /// It has not been active for long enough.
    Pending,
    /// It fires.
    Firing,
    /// It fired, and is over.
    Resolved,
}

/// An alert.
#[derive(Debug, Drop)]
pub struct Record {
    /// Its labels, by which it is known.
    pub labels: Labels,
    /// Its annotations, as they were when it was last seen.
    pub notes: Items<Pair>,
    /// How far it has come.
    pub state: State,
    /// Since when it is active.
    pub active: Ms,
    /// When it began to fire.
    pub fired: Option<Ms>,
    /// When it was over.
    pub resolved: Option<Ms>,
    /// When it was last sent.
    pub sent: Option<Ms>,
    /// Since when it is missing, where it is kept firing or was until it was over.
    pub held: Option<Ms>,
    /// Its value, as it was when it was last seen.
    pub value: Num,
}
