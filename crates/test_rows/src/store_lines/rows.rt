// A store of rows, as lines ask for it.
use pr_keep_sql::{Kept, Open, SqlKeeper};
use pr_outside::{KeepError, Row};
use sqlite::Alter;
use std::alloc::{AllocError, Global};

/// A store of rows, as lines ask for it.
pub(crate) trait Rows {
    /// Opens the store of a path, or makes the tables of the connection ready.
    fn begin(&mut self, path: &str) -> Result<(), KeepError>;

    /// Appends these rows.
    fn add(&mut self, rows: &[Row]) -> Result<(), KeepError>;

    /// The row of this index, or none past the last.
    fn row(&mut self, index: u64) -> Result<Option<Row>, KeepError>;

    /// How many rows there are.
    fn number(&self) -> u64;

    /// The text of what was counted.
    fn counts(&self, alloc: Global) -> Result<String, AllocError>;
}

impl<S: Alter + Drop> Rows for Kept<S> {
    fn begin(&mut self, _path: &str) -> Result<(), KeepError> {
        self.ready()
    }

    fn add(&mut self, rows: &[Row]) -> Result<(), KeepError> {
        self.commit(rows)
    }

    fn row(&mut self, index: u64) -> Result<Option<Row>, KeepError> {
        if index >= self.size() {
            return Ok(None);
        }
        match self.load(index) {
            Ok(row) => Ok(Some(row)),
            Err(error) => Err(error),
        }
    }

    fn number(&self) -> u64 {
        self.size()
    }

    fn counts(&self, alloc: Global) -> Result<String, AllocError> {
        format!(in alloc; "refused {}, odd {}", self.refused(), self.odd())
    }
}

impl<S: Alter + Drop, O: Open<S>> Rows for SqlKeeper<S, O> {
    fn begin(&mut self, path: &str) -> Result<(), KeepError> {
        self.start(path)
    }

    fn add(&mut self, rows: &[Row]) -> Result<(), KeepError> {
        self.commit(rows)
    }

    fn row(&mut self, index: u64) -> Result<Option<Row>, KeepError> {
        if index >= self.size() {
            return Ok(None);
        }
        match self.load(index) {
            Ok(row) => Ok(Some(row)),
            Err(error) => Err(error),
        }
    }

    fn number(&self) -> u64 {
        self.size()
    }

    fn counts(&self, alloc: Global) -> Result<String, AllocError> {
        format!(in alloc; "faults {}", self.faults())
    }
}
