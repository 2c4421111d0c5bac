ghost use Rattle.std.specs.Prelude.{◌≡◌};
ghost use Rattle.row_files.specs.declared.fault.StageNo.TheVariants as stage_no;

use lake_types::Words;
use std::alloc::AllocFailed;
use thiserror::Error;

/// Why the rows of a file were not read.
#[derive(Debug, Drop, Error)]
pub enum ReadNo {
    /// The disk failed. Its count of faults rose.
    #[error("the disk failed")]
    DiskFault,
    /// The file of this name is gone, or doesn't hold what the catalogue says of it.
    #[error("a file is damaged")]
    Damaged { name: Words },
    #[error("no memory")]
    Memory,
}

/// Why a transaction's files were not staged. Files that were made before stay.
#[derive(Debug, Drop, Error)]
pub enum StageNo {
    /// The disk failed. Its count of faults rose.
    #[error("the disk failed")]
    DiskFault,
    /// The name of the last number that was drawn is there already.
    #[error("a new name is there already")]
    Taken { name: Words },
    /// A file that had to be read is gone, or doesn't hold what the catalogue says of it.
    #[error("a file is damaged")]
    Damaged { name: Words },
    #[error("no memory")]
    Memory,
}

impl<T: Drop> From<AllocFailed<T>> for StageNo {
    ghost from_gives = { λ _ no. no ≡ stage_no.Memory };

    fn from(_error: AllocFailed<T>) -> StageNo {
        StageNo::Memory
    }
}
