use cat_sane::BadRow;
use lake_types::Words;
use thiserror::Error;

/// Why a lake was not opened.
#[derive(Debug, Drop, Error)]
pub enum OpenNo {
    /// The keeper failed. Its count of faults rose.
    #[error("the keeper failed")]
    KeeperFault,
    /// The first row that breaks a rule of a sane catalogue.
    #[error("a row of the catalogue is bad")]
    BadRow(BadRow),
    /// The disk failed. Its count of faults rose.
    #[error("the disk failed")]
    DiskFault,
    /// A file that the catalogue names isn't there.
    #[error("a file is missing")]
    FileMissing { name: Words },
    /// A file that the catalogue names has `got` bytes, and the catalogue says `want`.
    #[error("a file has {got} bytes instead of {want}")]
    FileSize { name: Words, want: u64, got: u64 },
    #[error("no memory")]
    Memory,
}
