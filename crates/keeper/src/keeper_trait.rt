ghost use Rattle.std.specs.Prelude.{◌≡◌, ℕ, Option, IfSome, IfOk, OnErr, IsErrOf};
ghost use Rattle.cat_rows.specs.Batches.{tables_of};
ghost use Rattle.cat_rows.specs.Tables.{Tables};
ghost use Rattle.keeper.specs.Calls.{HasCause, Same, Stay, FitsContent, Offers, content_after};

use crate::fault::KeepNo;
use cat_rows::{Batch, CatRows};
use std::alloc::Global;

/// A store that keeps the catalogue's rows. A batch is kept whole or not at all, what is kept stays through every
/// crash, and a crash may find a batch that failed or not. The empty batch is a barrier: once it is kept, a crash
/// finds the content alone.
pub trait Keeper {
    /// The rows that it keeps, where they are told.
    ghost content: { Self → Option Tables };

    /// What a crash now may find. The content that is told is one of these images.
    ghost images: { Self → Tables → Type 0 };

    /// How often it has failed. It stands still at the last value of a `u64`.
    ghost faults: { Self → ℕ };

    /// The rows that it keeps.
    fn load(&mut self, alloc: Global) -> Result<CatRows, KeepNo>
        ensures rows { IfSome (content self.old) (λ told. IfOk result (λ rows. tables_of rows ≡ told)) }
        ensures cause { HasCause (faults self.old) (faults self.new) result }

        ensures content { content self.new ≡ content self.old }
        ensures images { Same (images self.old) (images self.new) };

    /// Keeps a batch that fits the content, or nothing of it.
    fn apply(&mut self, alloc: Global, batch: &Batch) -> Result<(), KeepNo>
        requires { FitsContent (content self.old) batch.now }
        ensures cause { HasCause (faults self.old) (faults self.new) result }

        ensures content { content self.new ≡ content_after result batch.now (content self.old) }
        ensures images { IfSome (content self.old) (λ told. Offers result batch.now told (images self.old) (images self.new)) }
        // Also where nothing is told.
        ensures stay { OnErr result (Stay (images self.old) (images self.new)) }
        ensures memory { IsErrOf result KeepNo.Memory → Same (images self.old) (images self.new) };

    ghost tells_an_image: { (keeper : Self) → IfSome (content keeper) (images keeper) };
}
