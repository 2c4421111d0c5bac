use lake_io::Failed;
use std::alloc::AllocError;
use thiserror::Error;

/// Why a keeper refused a call.
#[derive(Clone, Copy, Debug, PartialEq, Eq, Error)]
pub enum KeepNo {
    /// The keeper failed. Its count of faults rose.
    #[error("the keeper failed")]
    Failed,
    /// Want of memory.
    #[error("no memory")]
    Memory,
}

impl From<AllocError> for KeepNo {
    ghost use Rattle.std.specs.Prelude.{◌≡◌};
    ghost use Rattle.keeper.specs.declared.fault.KeepNo.TheVariants.{Memory};

    ghost from_gives = { λ _ no. no ≡ Memory };

    fn from(_error: AllocError) -> KeepNo {
        KeepNo::Memory
    }
}

impl From<Failed> for KeepNo {
    ghost use Rattle.std.specs.Prelude.{◌≡◌};
    ghost use Rattle.keeper.specs.declared.fault.KeepNo.TheVariants.{Failed};

    ghost from_gives = { λ _ no. no ≡ Failed };

    fn from(_fault: Failed) -> KeepNo {
        KeepNo::Failed
    }
}
