// What is answered to events.
ghost use Rattle.std.specs.Prelude.{◌≡◌};
ghost use Rattle.spec_world.specs.private.Laws.{is_refusal};

use pr_ast::labels::{Item, Labels};
use pr_ast::time::Ms;
use pr_expo::ExpoKind;
use pr_num::{Num, Point};
use pr_rulefile::fields::ProblemKind;
use pr_rulefile::parse::QueryKind;
use pr_rulefile::words_crate::{Items, Text};
use spec_rules::GroupReport;
use spec_rules::alerts_crate::State;
use spec_rules::meaning::FaultKind;

/// An alert that is pending or fires.
#[derive(Debug, Drop)]
pub struct AlertLine {
    pub state: State,
    pub labels: Labels,
    /// Since when it is active.
    pub active: Ms,
    pub value: Num,
}

/// What is answered.
#[derive(Debug, Drop)]
pub enum Report {
    /// The run begins over this many kept rows.
    Opened {
        rows: u64,
    },
    /// The point was added.
    Added,
    /// The series has an equal point at this time.
    Same,
    /// The last time of the series is above.
    OutOfOrder {
        last: Ms,
    },
    /// The series has another point at this time.
    Conflict {
        kept: Point,
    },
    /// A target was scraped: how many of its samples were added, how many dropped, and how many
    /// markers were added.
    Scraped {
        added: u64,
        dropped: u64,
        stale: u64,
    },
    /// What a target offered is no exposition: the first bad line, how it is bad, and how many
    /// markers were added.
    BadScrape {
        line: u32,
        kind: ExpoKind,
        stale: u64,
    },
    /// A target did not answer: how many markers were added.
    Failed {
        stale: u64,
    },
    /// A target is there no more: how many markers were added.
    Gone {
        stale: u64,
    },
    /// A group was evaluated.
    Evaluated {
        group: GroupReport,
    },
    /// There is no such group, and the event was refused.
    NoGroup {
        file: Text,
        group: Text,
    },
    /// The group was evaluated at this time or later, and the event was refused.
    NotLater {
        last: Ms,
    },
    /// Files were reloaded: how many groups and rules there are, and how many markers were added.
    Reloaded {
        groups: u64,
        rules: u64,
        stale: u64,
    },
    /// A file that a reload names is missing, and the reload was refused.
    Missing {
        file: Text,
    },
    /// A file that a reload names is too large, and the reload was refused.
    TooLarge {
        file: Text,
    },
    /// A file is no rule file, and the reload was refused: its first problem.
    Refused {
        name: Text,
        line: u32,
        kind: ProblemKind,
    },
    /// The engine has begun anew over this many kept rows.
    Restarted {
        rows: u64,
    },
    /// The alerts that are pending or fire, by group, rule and label order.
    Alerts {
        list: Items<AlertLine>,
    },
    /// A number.
    Scalar {
        value: Num,
    },
    /// The elements of a vector, in label order.
    Vector {
        items: Items<Item<Num>>,
    },
    /// The expression gives nothing at this time: its first fault, and the byte at which the part
    /// begins that has it.
    QueryFault {
        place: usize,
        kind: FaultKind,
    },
    /// The text is no expression, or has no type, and was refused: its first fault, and the byte
    /// where it is.
    QueryRefused {
        place: usize,
        kind: QueryKind,
    },
    /// The event is before the last one, and was refused.
    Backwards {
        last: Ms,
        given: Ms,
    },
}

impl Report {
    /// Whether this tells that an event was refused. (Own choice: a refused event changes nothing, and
    /// is told by the status of a run.)
    pub fn is_refusal(&self) -> bool
        ensures { result ≡ is_refusal self.now }
    {
        match self {
            Report::NoGroup { .. }
            | Report::NotLater { .. }
            | Report::Missing { .. }
            | Report::TooLarge { .. }
            | Report::Refused { .. }
            | Report::QueryRefused { .. }
            | Report::Backwards { .. } => true,
            Report::Opened { .. }
            | Report::Added
            | Report::Same
            | Report::OutOfOrder { .. }
            | Report::Conflict { .. }
            | Report::Scraped { .. }
            | Report::BadScrape { .. }
            | Report::Failed { .. }
            | Report::Gone { .. }
            | Report::Evaluated { .. }
            | Report::Reloaded { .. }
            | Report::Restarted { .. }
            | Report::Alerts { .. }
            | Report::Scalar { .. }
            | Report::Vector { .. }
            | Report::QueryFault { .. } => false,
        }
    }
}
