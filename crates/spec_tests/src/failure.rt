// Expectations that differ from what a test gives.
use pr_ast::Place;
use pr_ast::labels::Item;
use pr_num::Num;
use pr_testfile::words_crate::Items;
use spec_world::alerts_crate::RuleElement;
use spec_world::meaning::FaultKind;

/// What is expected of a check, or what it gives.
#[derive(Debug, Drop)]
pub enum Shown {
    /// Alerts, in label order and those of equal labels in order of their annotations.
    Alerts { list: Items<RuleElement> },
    /// Samples in label order.
    Samples { list: Items<Item<Num>> },
    /// The first fault of the expression.
    Fault { place: Place, kind: FaultKind },
}

/// A check whose expectation differs. Tests, the checks of alerts in a test, and those of
/// expressions are counted from 1.
#[derive(Debug, Drop)]
pub struct Failure {
    pub test: u64,
    pub check: u64,
    pub expected: Shown,
    pub got: Shown,
}
