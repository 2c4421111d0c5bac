ghost use Rattle.std.specs.Prelude.{◌≡◌};
ghost use Rattle.pq_pages.specs.Answers.{fault_of, fault_of_struct};
ghost use Rattle.pq_pages.specs.declared.fault.PageFault.TheVariants.{Memory};

use pq_encodings::EncFault;
use std::alloc::{AllocError, AllocFailed};
use thiserror::Error;
use thrift_compact::{StructFault, ThriftFault};

/// Why a column chunk is not read: the first fault in reading order.
#[derive(Clone, Copy, Debug, PartialEq, Eq, Error)]
pub enum PageFault {
    /// The chunk is compressed.
    #[error("the codec {codec} is not read")]
    Compressed { codec: i32 },
    /// Values or levels stand in an encoding that is not read here.
    #[error("the encoding {code} is not read here")]
    Encoding { code: i32 },
    /// The compact fields of a page's header. Places count from the chunk's first byte.
    #[error("a page's header: {0}")]
    Thrift(ThriftFault),
    /// A page's header, or the struct inside it, lacks a field.
    #[error("a page's header lacks the field {id}")]
    Missing { id: i16 },
    /// Levels, values or indices. Places count from their first byte; `Short { at: 0 }` says too that a page, or
    /// levels or booleans behind their length, go past the bytes that are there.
    #[error("a page's values: {0}")]
    Values(EncFault),
    /// The pages have not as many values as the chunk.
    #[error("a chunk of {want} values has {got}")]
    Count { want: u64, got: u64 },
    /// Indices stand before any dictionary.
    #[error("no dictionary for the indices")]
    NoDictionary,
    /// The chunk's value number `at`, from 0 and without NULLs, is no UTF-8.
    #[error("value {at} is no UTF-8")]
    BadUtf8 { at: u64 },
    /// Memory ran out.
    #[error("no memory")]
    Memory,
}

impl From<EncFault> for PageFault {
    ghost from_gives = { λ e f. f ≡ fault_of e };

    fn from(fault: EncFault) -> PageFault {
        match fault {
            EncFault::Memory => PageFault::Memory,
            found => PageFault::Values(found),
        }
    }
}

impl From<StructFault> for PageFault {
    ghost from_gives = { λ e f. f ≡ fault_of_struct e };

    fn from(fault: StructFault) -> PageFault {
        match fault {
            StructFault::Thrift(found) => PageFault::Thrift(found),
            StructFault::Memory => PageFault::Memory,
        }
    }
}

impl From<AllocError> for PageFault {
    ghost from_gives = { λ _ f. f ≡ Memory };

    fn from(_error: AllocError) -> PageFault {
        PageFault::Memory
    }
}

impl<T: Drop> From<AllocFailed<T>> for PageFault {
    ghost from_gives = { λ _ f. f ≡ Memory };

    fn from(_error: AllocFailed<T>) -> PageFault {
        PageFault::Memory
    }
}
