ghost use Rattle.std.specs.Prelude.{◌≡◌};
ghost use Rattle.field_map.specs.declared.fault.LayFault.TheVariants.{Memory};

use lake_types::ColType;
use std::alloc::{AllocError, AllocFailed};
use thiserror::Error;

/// Why a sheet is not laid into some columns.
#[derive(Clone, Copy, Debug, PartialEq, Eq, Error)]
pub enum LayFault {
    /// The sheet has values of the type `have` in this field, and they may not stand in a column of the type
    /// `want`.
    #[error("field {field} has values of another type")]
    Kind {
        field: u32,
        have: ColType,
        want: ColType,
    },
    #[error("no memory")]
    Memory,
}

impl From<AllocError> for LayFault {
    ghost from_gives = { λ _ e. e ≡ Memory };

    fn from(_error: AllocError) -> LayFault {
        LayFault::Memory
    }
}

impl<T: Drop> From<AllocFailed<T>> for LayFault {
    ghost from_gives = { λ _ e. e ≡ Memory };

    fn from(_error: AllocFailed<T>) -> LayFault {
        LayFault::Memory
    }
}
