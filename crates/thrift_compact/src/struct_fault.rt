ghost use Rattle.std.specs.Prelude.{◌≡◌};
ghost use Rattle.thrift_compact.specs.declared.struct_fault.StructFault.TheVariants.{Memory, Thrift};

use crate::fault::ThriftFault;
use std::alloc::{AllocError, AllocFailed};
use thiserror::Error;

/// Why a struct is not read.
#[derive(Clone, Copy, Debug, PartialEq, Eq, Error)]
pub enum StructFault {
    /// The first fault of its bytes.
    #[error(transparent)]
    Thrift(ThriftFault),
    /// Memory ran out.
    #[error("no memory")]
    Memory,
}

impl From<ThriftFault> for StructFault {
    ghost from_gives = { λ t e. e ≡ Thrift t };

    fn from(fault: ThriftFault) -> StructFault {
        StructFault::Thrift(fault)
    }
}

impl From<AllocError> for StructFault {
    ghost from_gives = { λ _ e. e ≡ Memory };

    fn from(_error: AllocError) -> StructFault {
        StructFault::Memory
    }
}

impl<T: Drop> From<AllocFailed<T>> for StructFault {
    ghost from_gives = { λ _ e. e ≡ Memory };

    fn from(_error: AllocFailed<T>) -> StructFault {
        StructFault::Memory
    }
}
