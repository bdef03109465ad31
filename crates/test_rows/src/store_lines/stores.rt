// Databases over disks in memory, and how lines come to them. What uses them is generic over the store
// `S`, since each function that names SQLite's own takes a long proof.
ghost use Rattle.std.specs.Prelude.{IfSome, IsTrue};
ghost use Rattle.sqlite_disk.specs.Memory.{memory_is_usable};

use pr_keep_sql::Kept;
use sqlite::{Alter, Connection, Error, FileStore, Files, Options};
use sqlite_disk::{Disk, Fuse, Memory};
use std::alloc::Global;

/// A file in memory that answers so many calls.
pub(crate) type Stopped = Fuse<Memory>;

/// How a store comes to files in memory, and from them again.
pub(crate) trait Opens<S: Alter> {
    /// The database of two files that have these bytes, and answer so many calls. What is left of
    /// them is given back where it is not opened; nothing where memory runs out.
    fn open(
        alloc: Global,
        log: &[u8],
        db: &[u8],
        log_calls: u64,
        db_calls: u64,
    ) -> Option<Result<Connection<S>, Files<Stopped>>>;

    /// The files of a store.
    fn close(store: S) -> Files<Stopped>;
}

/// The stores of SQLite.
pub(crate) struct Memories;

// A file in memory with these bytes.
fn memory(alloc: Global, bytes: &[u8]) -> Option<Memory>
    ensures { IfSome result (λ disk. IsTrue (memory_is_usable disk)) }
{
    let mut disk = Memory::new(alloc);
    match disk.write_at(0, bytes) {
        Ok(()) => Some(disk),
        Err(_) => None,
    }
}

// The database of two files, or what is left of them where it is not opened.
fn opened<D: Disk + Drop>(
    alloc: Global,
    files: Files<D>,
) -> Result<Connection<FileStore<D>>, Files<D>>
    requires log { IsTrue (D.Disk.is_usable files.log) }
    requires db { IsTrue (D.Disk.is_usable files.db) }
{
    match Connection::open_files(alloc, files, Options::new(7)) {
        Ok(conn) => Ok(conn),
        Err((_, left)) => Err(left.into_files()),
    }
}

fn files_of<D: Disk + Drop>(store: FileStore<D>) -> Files<D> {
    store.close()
}

impl Opens<FileStore<Stopped>> for Memories {
    fn open(
        alloc: Global,
        log: &[u8],
        db: &[u8],
        log_calls: u64,
        db_calls: u64,
    ) -> Option<Result<Connection<FileStore<Stopped>>, Files<Stopped>>> {
        let log = memory(alloc, log)?;
        let db = memory(alloc, db)?;
        let files = Files {
            log: Fuse::new(log, log_calls),
            db: Fuse::new(db, db_calls),
        };
        Some(opened(alloc, files))
    }

    fn close(store: FileStore<Stopped>) -> Files<Stopped> {
        files_of(store)
    }
}

/// The connection of a store.
pub(crate) fn connection_of<S: Alter + Drop>(kept: Kept<S>) -> Connection<S> {
    kept.into_connection()
}

/// The store of a connection, or nothing where a transaction is open.
pub(crate) fn kept_of<S: Alter + Drop>(conn: Connection<S>) -> Option<Kept<S>> {
    if conn.is_autocommit() {
        Some(Kept::of(conn))
    } else {
        None
    }
}

/// The files of a store of rows.
pub(crate) fn close<S: Alter + Drop, O: Opens<S>>(kept: Kept<S>) -> Files<Stopped> {
    O::close(kept.into_connection().into_store())
}

/// Runs statements.
pub(crate) fn batch<S: Alter>(conn: &mut Connection<S>, sql: &str) -> Result<(), Error> {
    conn.execute_batch(sql)
}
