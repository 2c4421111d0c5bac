ghost use Rattle.std.specs.Prelude.{◌≡◌};
ghost use Rattle.pred.specs.declared.fault.BindNo.TheVariants.{Memory};

use lake_types::Words;
use std::alloc::{AllocError, AllocFailed};
use thiserror::Error;

/// Why a test isn't bound to some columns.
#[derive(Debug, Drop, Error)]
pub enum BindNo {
    /// The test names a column that isn't there.
    #[error("no column has the name")]
    NoColumn { name: Words },
    /// The test compares this column with a literal of another type.
    #[error("the column has another type")]
    WrongType { name: Words },
    #[error("no memory")]
    Memory,
}

impl From<AllocError> for BindNo {
    ghost from_gives = { λ _ no. no ≡ Memory };

    fn from(_error: AllocError) -> BindNo {
        BindNo::Memory
    }
}

impl<T: Drop> From<AllocFailed<T>> for BindNo {
    ghost from_gives = { λ _ no. no ≡ Memory };

    fn from(_error: AllocFailed<T>) -> BindNo {
        BindNo::Memory
    }
}
