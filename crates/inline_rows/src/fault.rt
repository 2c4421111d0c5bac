ghost use Rattle.std.specs.Prelude.{◌≡◌};
ghost use Rattle.inline_rows.specs.declared.fault.CellsFault.TheVariants.{Memory};

use std::alloc::{AllocError, AllocFailed};
use thiserror::Error;

/// Why some bytes are no cells.
#[derive(Clone, Copy, Debug, PartialEq, Eq, Error)]
pub enum CellsFault {
    /// The bytes are no spelling of cells. `at` is the offset of the first byte of the first item that is wrong: the number
    /// of the cells, a cell, or what remains behind the last one.
    #[error("no cells: the item at {at} is wrong")]
    BadCells { at: u64 },
    #[error("no memory")]
    Memory,
}

impl From<AllocError> for CellsFault {
    ghost from_gives = { λ _ e. e ≡ Memory };

    fn from(_error: AllocError) -> CellsFault {
        CellsFault::Memory
    }
}

impl<T: Drop> From<AllocFailed<T>> for CellsFault {
    ghost from_gives = { λ _ e. e ≡ Memory };

    fn from(_error: AllocFailed<T>) -> CellsFault {
        CellsFault::Memory
    }
}
