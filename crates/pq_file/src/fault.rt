ghost use Rattle.std.specs.Prelude.{◌≡◌};
ghost use Rattle.pq_file.specs.Answers.{fault_of_meta, fault_of_page};
ghost use Rattle.pq_file.specs.declared.fault.FileFault.TheVariants.{Memory};

use pq_meta::MetaFault;
use pq_pages::PageFault;
use std::alloc::{AllocError, AllocFailed};
use thiserror::Error;

/// Why a file is not read: the first fault in reading order.
#[derive(Debug, Drop, Error)]
pub enum FileFault {
    /// The bytes are fewer than 12, or do not begin and end with `PAR1`.
    #[error("no Parquet file")]
    Magic,
    /// The footer is stated to be longer than the file has room for.
    #[error("a footer of {length} bytes does not fit")]
    Footer {
        length: u64,
    },
    /// The footer.
    #[error("the footer: {0}")]
    Meta(MetaFault),
    /// The file has more than 4,194,304 rows.
    #[error("{rows} rows are too many")]
    TooManyRows {
        rows: u64,
    },
    /// The pages of the column number `column` in the group number `group`, both from 0.
    #[error("group {group}, column {column}: {fault}")]
    Chunk {
        group: u64,
        column: u64,
        fault: PageFault,
    },
    /// The chunk of the column in the group does not lie in the file.
    #[error("group {group}, column {column}: not in the file")]
    Span {
        group: u64,
        column: u64,
    },
    /// A number or a date is out of its type's range. The row counts from 0 in the whole file.
    #[error("column {column}, row {row}: out of range")]
    BadCell {
        column: u64,
        row: u64,
    },
    /// Memory ran out.
    #[error("no memory")]
    Memory,
}

/// A fault of the footer.
pub(crate) fn meta_fault(fault: MetaFault) -> FileFault
    ensures { result ≡ fault_of_meta fault }
{
    match fault {
        MetaFault::Memory => FileFault::Memory,
        found => FileFault::Meta(found),
    }
}

/// A fault of a chunk.
pub(crate) fn page_fault(group: u64, column: u64, fault: PageFault) -> FileFault
    ensures { result ≡ fault_of_page group column fault }
{
    match fault {
        PageFault::Memory => FileFault::Memory,
        fault => FileFault::Chunk {
            group,
            column,
            fault,
        },
    }
}

impl From<AllocError> for FileFault {
    ghost from_gives = { λ _ f. f ≡ Memory };

    fn from(_error: AllocError) -> FileFault {
        FileFault::Memory
    }
}

impl<T: Drop> From<AllocFailed<T>> for FileFault {
    ghost from_gives = { λ _ f. f ≡ Memory };

    fn from(_error: AllocFailed<T>) -> FileFault {
        FileFault::Memory
    }
}
