ghost use Rattle.std.specs.Prelude.{◌≡◌};
ghost use Rattle.cat_changes.specs.declared.fault.BadChanges.TheVariants.{Memory};

use std::alloc::{AllocError, AllocFailed};
use thiserror::Error;

/// Why a text gives no kinds of change.
#[derive(Clone, Copy, Debug, PartialEq, Eq, Error)]
pub enum BadChanges {
    /// The text is no changes text. `at` is the offset of the first byte of the first kind that is wrong: what
    /// stands there up to the next comma is no kind that may follow those before it.
    #[error("no changes text: the kind at {at} is wrong")]
    Text { at: u64 },
    /// The text drops a schema for which there is no name.
    #[error("no name for the dropped schema {id}")]
    NoSchema { id: u64 },
    #[error("no memory")]
    Memory,
}

impl From<AllocError> for BadChanges {
    ghost from_gives = { λ _ e. e ≡ Memory };

    fn from(_error: AllocError) -> BadChanges {
        BadChanges::Memory
    }
}

impl<T: Drop> From<AllocFailed<T>> for BadChanges {
    ghost from_gives = { λ _ e. e ≡ Memory };

    fn from(_error: AllocFailed<T>) -> BadChanges {
        BadChanges::Memory
    }
}
