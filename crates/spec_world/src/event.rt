use pr_ast::labels::Labels;
use pr_ast::time::Ms;
use pr_num::Point;
use pr_rulefile::words_crate::{Items, Text};

/// A rule file, under the name by which its groups are known.
#[derive(Debug, Drop)]
pub struct NamedFile {
    pub name: Text,
    pub bytes: Items<u8>,
}

/// What happens: an order of the script.
#[derive(Debug, Drop)]
pub enum Event {
    /// A sample, or a marker, comes in.
    Add {
        time: Ms,
        labels: Labels,
        point: Point,
    },
    /// An expression of the query language is asked for what it gives.
    Query {
        time: Ms,
        text: Text,
    },
    /// A target is scraped, and offers the samples of these bytes. (Prometheus: Exposition formats,
    /// Text-based format.)
    Scrape {
        time: Ms,
        target: Labels,
        body: Items<u8>,
    },
    /// A target is scraped, and does not answer.
    Fail {
        time: Ms,
        target: Labels,
    },
    /// A target is there no more.
    Gone {
        time: Ms,
        target: Labels,
    },
    /// A group is evaluated. (Prometheus: Recording rules, Configuring rules.)
    Eval {
        time: Ms,
        file: Text,
        group: Text,
    },
    /// These files take the place of all rule files of before. (Prometheus: Configuration, reload.)
    Reload {
        time: Ms,
        files: Items<NamedFile>,
    },
    /// The engine begins anew over what it has kept.
    Restart {
        time: Ms,
    },
    /// It is asked which alerts are pending and which fire.
    Alerts {
        time: Ms,
    },
}
