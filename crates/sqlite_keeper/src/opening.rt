use crate::keeping::SqlKeeper;
use sqlite::{Connection, Error, ErrorCode, File, FileStore};
use thiserror::Error as ThisError;

/// A keeper over a database in a file, with its log beside it.
pub type DatabaseKeeper = SqlKeeper<FileStore<File>>;

/// Why a database can't be had.
#[derive(Clone, Copy, Debug, PartialEq, Eq, ThisError)]
pub enum OpenNo {
    /// The file is no database, is damaged, is held by another process, or can't be read or written.
    #[error("the database can't be opened")]
    Refused,
    #[error("no memory")]
    Memory,
}

/// Opens the file, with no clause: the clauses of this call make the function in which it stands dear to prove.
fn connected(rt: &HostRuntime, path: &str) -> Result<Connection<FileStore<File>>, Error> {
    Connection::open(rt, path)
}

/// Closes the files, with no clause.
fn disconnected(conn: Connection<FileStore<File>>) -> Result<(), Error> {
    conn.close()
}

/// Opens the database of a file, which is made where it is missing, and holds it until it is closed.
pub fn open_database(rt: &HostRuntime, path: &str) -> Result<DatabaseKeeper, OpenNo> {
    match connected(rt, path) {
        Ok(conn) => Ok(SqlKeeper::over(conn)),
        Err(Error::SqliteFailure(ErrorCode::OutOfMemory)) => Err(OpenNo::Memory),
        Err(_) => Err(OpenNo::Refused),
    }
}

/// Copies the log into the database's file, so that this alone is whole, and closes both. An error is let go: every row
/// is safe in the log then.
pub fn close_database(keeper: DatabaseKeeper) {
    let _is_copied = disconnected(keeper.into_connection()).is_ok();
}
