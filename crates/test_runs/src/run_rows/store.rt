// The store of a row.
ghost use Rattle.std.specs.Prelude.{None, false, length};

use crate::run_rows::lines::{marked, number_of};
use pr_outside::{KeepError, Keeper, Row, SureKeeper};
use pr_words::Text;
use std::alloc::{AllocError, Global};

/// Numbers of calls, counted from 1, and how many calls there were.
#[derive(Drop)]
struct Calls {
    chosen: Vec<u64>,
    made: u64,
}

impl Calls {
    fn new(chosen: Vec<u64>) -> Calls {
        Calls { chosen, made: 0 }
    }

    // Counts a call, and says whether it is one of those.
    fn next_is_chosen(&mut self) -> bool {
        self.made = self.made.saturating_add(1);
        self.chosen.contains(&self.made)
    }
}

// A keeper of these rows.
fn keeper_of(rows: Vec<Row>) -> Result<SureKeeper, AllocError> {
    let mut keeper = SureKeeper::new(*rows.allocator());
    if !rows.is_empty() && keeper.commit(&rows).is_err() {
        return Err(AllocError);
    }
    Ok(keeper)
}

/// Rows in memory of which nothing is told, as those of a disk that may fail.
#[derive(Drop)]
pub struct Store {
    rows: SureKeeper,
    starts: Calls,
    commits: Calls,
    loads: Calls,
    spoilt: Calls,
    faults: u64,
}

impl Store {
    /// These rows. Starts, commits and loads with these numbers, counted from 1, are refused, and of
    /// the rows that are handed out those with the last numbers are such as no program writes.
    ///
    /// # Errors
    /// Where memory runs out.
    pub fn new(
        rows: Vec<Row>,
        starts: Vec<u64>,
        commits: Vec<u64>,
        loads: Vec<u64>,
        spoilt: Vec<u64>,
    ) -> Result<Store, AllocError> {
        Ok(Store {
            rows: keeper_of(rows)?,
            starts: Calls::new(starts),
            commits: Calls::new(commits),
            loads: Calls::new(loads),
            spoilt: Calls::new(spoilt),
            faults: 0,
        })
    }

    /// No rows, and no call that is refused.
    pub fn empty(alloc: Global) -> Store {
        Store {
            rows: SureKeeper::new(alloc),
            starts: Calls::new(Vec::new(alloc)),
            commits: Calls::new(Vec::new(alloc)),
            loads: Calls::new(Vec::new(alloc)),
            spoilt: Calls::new(Vec::new(alloc)),
            faults: 0,
        }
    }

    /// Copies of the rows in order.
    ///
    /// # Errors
    /// Where memory runs out.
    pub fn kept(&self) -> Result<Vec<Row>, AllocError> {
        self.rows.kept()
    }
}

impl Keeper for Store {
    ghost means = { λ s. record { rows = None; count = length s.rows.rows; sound = false; paths = s.rows.paths; faults = s.faults } };

    fn start(&mut self, path: &str) -> Result<(), KeepError> {
        if self.starts.next_is_chosen() {
            self.faults = self.faults.saturating_add(1);
            return Err(KeepError::Failed);
        }
        self.rows.start(path)
    }

    fn size(&self) -> u64 {
        self.rows.size()
    }

    fn commit(&mut self, added: &[Row]) -> Result<(), KeepError> {
        if self.commits.next_is_chosen() {
            self.faults = self.faults.saturating_add(1);
            return Err(KeepError::Failed);
        }
        self.rows.commit(added)
    }

    fn load(&mut self, index: u64) -> Result<Row, KeepError> {
        if self.loads.next_is_chosen() {
            self.faults = self.faults.saturating_add(1);
            return Err(KeepError::Failed);
        }
        let mut row = match self.rows.load(index) {
            Ok(row) => row,
            Err(error) => return Err(error),
        };
        if self.spoilt.next_is_chosen() {
            row.time = u64::MAX;
        }
        Ok(row)
    }
}

// The row of a text SERIES|TIME|POINT.
fn row_of(alloc: Global, text: &str) -> Result<Row, AllocError> {
    let (text, point) = text.rsplit_once('|').unwrap_or((text, ""));
    let (series, time) = text.rsplit_once('|').unwrap_or((text, ""));
    Ok(Row {
        series: Text::from_str(alloc, series)?,
        time: number_of(time),
        point: Text::from_str(alloc, point)?,
    })
}

/// The rows of a store at the start.
pub(crate) fn rows_of(alloc: Global, lines: &str) -> Result<Vec<Row>, AllocError> {
    let mut rows = Vec::new(alloc);
    for line in lines.lines() {
        let (mark, rest) = marked(line);
        if mark == "had" {
            rows.push(row_of(alloc, rest)?)?;
        }
    }
    Ok(rows)
}
