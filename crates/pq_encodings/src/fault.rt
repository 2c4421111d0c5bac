//! Why some bytes aren't the values that they should be.

ghost use Rattle.std.specs.Prelude.{◌≡◌};
ghost use Rattle.pq_encodings.specs.declared.fault.EncFault.TheVariants.{Memory};

use std::alloc::{AllocError, AllocFailed};
use thiserror::Error;

/// The first fault in the order of the bytes. A place `at` counts bytes from the first one given, and is that of the
/// item's first byte, but in `BadIndex`.
#[derive(Clone, Copy, Debug, PartialEq, Eq, Error)]
pub enum EncFault {
    /// The bytes end before or inside a value, a run or the width of indices.
    #[error("the bytes end inside the item at {at}")]
    Short { at: u64 },
    /// A run of no values, a repeated run of more values than are left, a run's header of more than ten bytes or past
    /// 64 bits, or a width of indices past 32.
    #[error("bad run at {at}")]
    BadRun { at: u64 },
    /// Value number `at`, from 0, is an index that isn't below the dictionary's size.
    #[error("value {at} is index {index} into {size} values")]
    BadIndex { at: u64, index: u64, size: u64 },
    /// A byte string of more than `MAX_STRING` bytes.
    #[error("byte string of {length} bytes at {at}")]
    LongCell { at: u64, length: u64 },
    /// Memory ran out.
    #[error("no memory")]
    Memory,
}

impl From<AllocError> for EncFault {
    ghost from_gives = { λ _ e. e ≡ Memory };

    fn from(_error: AllocError) -> EncFault {
        EncFault::Memory
    }
}

impl<T: Drop> From<AllocFailed<T>> for EncFault {
    ghost from_gives = { λ _ e. e ≡ Memory };

    fn from(_error: AllocFailed<T>) -> EncFault {
        EncFault::Memory
    }
}
