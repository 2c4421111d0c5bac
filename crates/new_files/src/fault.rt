use lake_types::Words;
use thiserror::Error;

/// Why no file was written under a new name. At most a part of it lies under that name then.
#[derive(Debug, Drop, Error)]
pub enum NewFileNo {
    /// The disk failed. Its count of faults rose.
    #[error("the disk failed")]
    DiskFault,
    /// The name of the number that was drawn is there already. Nothing was written.
    #[error("the new name is there already")]
    Taken { name: Words },
    #[error("no memory")]
    Memory,
}
