use std::io::{Error, ErrorKind};
use thiserror::Error as ThisError;

/// Why a device can't be had.
#[derive(Clone, Copy, Debug, PartialEq, Eq, ThisError)]
pub enum OpenNo {
    /// The rows that name the files are gone, or the system doesn't tell whether they are there.
    #[error("the rows of the files are gone")]
    Rows,
    /// The files' folder can't be opened, or is no folder.
    #[error("the folder can't be opened")]
    Folder,
    /// The system gives no random bytes.
    #[error("there are no random bytes")]
    Seed,
    #[error("no memory")]
    Memory,
}

/// The refusal that an error of the system is, want of memory apart.
fn refusal(error: Error, other: OpenNo) -> OpenNo {
    if error.kind() == ErrorKind::OutOfMemory {
        OpenNo::Memory
    } else {
        other
    }
}

pub fn rows_no(error: Error) -> OpenNo {
    refusal(error, OpenNo::Rows)
}

pub fn folder_no(error: Error) -> OpenNo {
    refusal(error, OpenNo::Folder)
}

pub fn seed_no(error: Error) -> OpenNo {
    refusal(error, OpenNo::Seed)
}
