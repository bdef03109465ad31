// How a store of rows comes to the file of a path.
ghost use Rattle.std.specs.Prelude.{◌≡◌, IfOk, false};
ghost use Rattle.sqlite.specs.Effect.{IsDatabase};
ghost use Rattle.sqlite.specs.Held.{state};
ghost use Rattle.sqlite.specs.State.{HasCleanDisk};

use sqlite::{Alter, Connection, Error, ErrorCode, FileFrom, FileStore, Start};
use std::rt::HostRuntime;

/// How a store of rows comes to a file, by its path.
pub trait Open<S: Alter> {
    ghost use Rattle.std.specs.Prelude.{ℕ, List};
    ghost use Rattle.sqlite.specs.Effect.{Database};

    /// What is known of a database that is found at a path.
    ghost finds: { List ℕ → Database → Type 0 };

    /// Opens the file at this path.
    fn open(&mut self, path: &str) -> Result<Connection<S>, Error>
        ensures mode { IfOk result (λ c. c.in_transaction ≡ false) }
        ensures sound { IfOk result (λ c. HasCleanDisk (state S.Store c) → IsDatabase (state S.Store c).now) }
        ensures found { IfOk result (λ c. HasCleanDisk (state S.Store c) → finds path.now (state S.Store c).now) };
}

/// Files of the disk. Contracts see what stands in a file by the value that it is opened with, which
/// the first path uses up: no further one can be opened.
#[derive(Drop)]
pub struct DiskFile<'a, T: Start> {
    rt: &'a HostRuntime,
    start: Option<T>,
}

impl<'a, T: Start> DiskFile<'a, T> {
    /// Files of this runtime, over what one of them holds: `sqlite::Unknown` in a program.
    pub fn new(rt: &'a HostRuntime, start: T) -> DiskFile<'a, T> {
        DiskFile {
            rt,
            start: Some(start),
        }
    }
}

impl<T: Start> Open<FileStore<FileFrom<T>>> for DiskFile<'_, T> {
    ghost use Rattle.sqlite.specs.WalFiles.{image_at};
    ghost use Rattle.pr_keep_sql.specs.private.Opened.{IsFoundIn};

    ghost finds = { λ path. IsFoundIn (image_at T.Start) };

    fn open(&mut self, path: &str) -> Result<Connection<FileStore<FileFrom<T>>>, Error> {
        let Some(start) = self.start.take() else {
            return Err(Error::SqliteFailure(ErrorCode::CannotOpen));
        };
        match Connection::open_from(self.rt, path, false, start) {
            Ok(conn) => Ok(conn),
            Err((error, _)) => Err(error),
        }
    }
}
