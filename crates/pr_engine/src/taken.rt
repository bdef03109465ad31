// What became of an event.
ghost use Rattle.std.specs.Prelude.{◌≡◌};
ghost use Rattle.pr_engine.specs.private.Taken.{added_in, report_in};

use pr_head::history::Entry;
use pr_manager::admitted_in;
use pr_manager::world::Report;
use pr_words::Items;

/// What is answered to an event, and the entries that it added.
#[derive(Drop)]
pub(crate) enum Taken {
    Told { report: Report, added: Items<Entry> },
    /// What is told of an evaluation, which has its entries.
    Evaluated { report: Report },
}

impl Taken {
    /// The entries that were added, in order.
    pub(crate) fn added(&self) -> &[Entry]
        ensures { result.now ≡ added_in self.now }
    {
        match self {
            Taken::Told { added, .. } => added.as_slice(),
            Taken::Evaluated { report } => admitted_in(report),
        }
    }

    /// What is answered.
    pub(crate) fn into_report(self) -> Report
        ensures { result ≡ report_in self }
    {
        match self {
            Taken::Told { report, .. } => report,
            Taken::Evaluated { report } => report,
        }
    }
}
