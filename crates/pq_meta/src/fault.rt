ghost use Rattle.std.specs.Prelude.{◌≡◌};
ghost use Rattle.pq_meta.specs.declared.fault.MetaFault.TheVariants.{Memory};

use lake_types::Words;
use std::alloc::{AllocError, AllocFailed};
use thiserror::Error;
use thrift_compact::ThriftFault;

/// Why a footer is not read.
#[derive(Debug, Drop, Error)]
pub enum MetaFault {
    /// The bytes are no fields: the first fault in byte order.
    #[error(transparent)]
    Thrift(ThriftFault),
    /// A struct lacks the required field with this id.
    #[error("the required field {id} is missing")]
    MissingField { id: i16 },
    /// A column has columns inside it, or is neither required nor optional.
    #[error("a column is nested or repeated")]
    Nested { name: Words },
    /// A column of this physical type is of no type of the lake.
    #[error("a column of the physical type {code} is of no known type")]
    UnknownType { code: i32 },
    /// A stated number is not the number that was found.
    #[error("{want} were stated and {got} found")]
    Count { want: u64, got: u64 },
    /// Memory ran out.
    #[error("no memory")]
    Memory,
}

impl From<AllocError> for MetaFault {
    ghost from_gives = { λ _ e. e ≡ Memory };

    fn from(_error: AllocError) -> MetaFault {
        MetaFault::Memory
    }
}

impl<T: Drop> From<AllocFailed<T>> for MetaFault {
    ghost from_gives = { λ _ e. e ≡ Memory };

    fn from(_error: AllocFailed<T>) -> MetaFault {
        MetaFault::Memory
    }
}
