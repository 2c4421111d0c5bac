use lake_io::Failed;
use std::alloc::AllocError;
use thiserror::Error;

/// Why a disk refused a call.
#[derive(Clone, Copy, Debug, PartialEq, Eq, Error)]
pub enum DiskNo {
    /// The name is there already. From `create` alone.
    #[error("the name is there already")]
    Exists,
    /// The disk failed. Its count of faults rose.
    #[error("the disk failed")]
    Failed,
    /// Want of memory, from the calls that take an allocator alone.
    #[error("no memory")]
    Memory,
}

impl From<AllocError> for DiskNo {
    ghost use Rattle.std.specs.Prelude.{◌≡◌};
    ghost use Rattle.file_disk.specs.declared.fault.DiskNo.TheVariants.{Memory};

    ghost from_gives = { λ _ no. no ≡ Memory };

    fn from(_error: AllocError) -> DiskNo {
        DiskNo::Memory
    }
}

impl From<Failed> for DiskNo {
    ghost use Rattle.std.specs.Prelude.{◌≡◌};
    ghost use Rattle.file_disk.specs.declared.fault.DiskNo.TheVariants.{Failed};

    ghost from_gives = { λ _ no. no ≡ Failed };

    fn from(_fault: Failed) -> DiskNo {
        DiskNo::Failed
    }
}
