ghost use Rattle.std.specs.Prelude.{◌≡◌};
ghost use Rattle.rebase.specs.declared.no.BatchNo.TheVariants.{Memory};

use lake_model::Counter;
use std::alloc::{AllocError, AllocFailed};
use thiserror::Error;

/// Why no batch was made.
#[derive(Debug, Drop, Error)]
pub enum BatchNo {
    /// The counter would pass its last value.
    #[error("a counter is spent")]
    Spent { counter: Counter },
    #[error("no memory")]
    Memory,
}

impl From<AllocError> for BatchNo {
    ghost from_gives = { λ _ no. no ≡ Memory };

    fn from(_error: AllocError) -> BatchNo {
        BatchNo::Memory
    }
}

impl<T: Drop> From<AllocFailed<T>> for BatchNo {
    ghost from_gives = { λ _ no. no ≡ Memory };

    fn from(_error: AllocFailed<T>) -> BatchNo {
        BatchNo::Memory
    }
}
