ghost use Rattle.std.specs.Prelude.{◌≡◌};
ghost use Rattle.scan_exec.specs.declared.fault.ScanFault.TheVariants.{Memory};

use lake_types::Words;
use std::alloc::{AllocError, AllocFailed};
use thiserror::Error;

/// Why the rows of a table are not told.
#[derive(Debug, Drop, Error)]
pub enum ScanFault {
    /// No schema has the name that the statement says.
    #[error("no schema has the name")]
    NoSchema,
    /// The schema has no table of the name.
    #[error("no table has the name")]
    NoTable,
    #[error("no column has the name")]
    NoColumn { name: Words },
    /// The test compares this column with a literal of another type.
    #[error("the column has another type")]
    WrongType { name: Words },
    /// The disk failed. Its count of faults rose.
    #[error("the disk failed")]
    DiskFault,
    /// The file of this name is gone, or doesn't hold what the catalogue says of it.
    #[error("a file is damaged")]
    Damaged { name: Words },
    #[error("no memory")]
    Memory,
}

impl From<AllocError> for ScanFault {
    ghost from_gives = { λ _ no. no ≡ Memory };

    fn from(_error: AllocError) -> ScanFault {
        ScanFault::Memory
    }
}

impl<T: Drop> From<AllocFailed<T>> for ScanFault {
    ghost from_gives = { λ _ no. no ≡ Memory };

    fn from(_error: AllocFailed<T>) -> ScanFault {
        ScanFault::Memory
    }
}
