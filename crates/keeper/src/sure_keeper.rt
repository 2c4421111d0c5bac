ghost use Rattle.std.specs.Prelude.{◌≡◌, Some, IfOk, OnErr, IsErrOf, refl};
ghost use Rattle.cat_rows.specs.Batches.{tables_of, Fits};
ghost use Rattle.keeper.specs.Calls.{HasCause, Same, Stay, Offers, content_after};

use crate::fault::KeepNo;
use crate::keeper_trait::Keeper;
use cat_rows::{Batch, CatRows, apply_batch};
use std::alloc::{AllocError, Global};
use std::marker::Model;

/// A keeper in memory that never fails.
#[derive(Debug, Drop)]
pub struct SureKeeper {
    rows: CatRows,
}

impl Model for SureKeeper {
    ghost use Rattle.cat_rows.specs.Batches.{tables_of};
    ghost use Rattle.cat_rows.specs.Tables.{Tables};

    ghost Value = { Tables };

    ghost view = { λ k. tables_of k.rows };
}

impl SureKeeper {
    ghost use Rattle.cat_rows.specs.Batches.{applied};

    pub fn new(rows: CatRows) -> SureKeeper
        ensures { result ≡ tables_of rows }
    {
        SureKeeper { rows }
    }

    /// The content as it would be with a batch that fits.
    pub(crate) fn with_batch(&self, alloc: Global, batch: &Batch) -> Result<CatRows, AllocError>
        requires { Fits self.now batch.now }
        ensures { IfOk result (λ rows. tables_of rows ≡ applied batch.now self.now) }
    {
        let mut rows = self.rows.copy(alloc)?;
        apply_batch(alloc, &mut rows, batch)?;
        Ok(rows)
    }
}

impl Keeper for SureKeeper {
    ghost content = { λ k. Some k };

    ghost images = { λ k image. image ≡ k };

    ghost faults = { λ _. 0 };

    ghost tells_an_image = { λ k. refl };

    fn load(&mut self, alloc: Global) -> Result<CatRows, KeepNo>
        ensures rows { IfOk result (λ rows. tables_of rows ≡ self.old) }
        ensures sure { IsErrOf result KeepNo.Failed → ⊥ }
        ensures cause { HasCause 0 0 result }

        ensures content { Some self.new ≡ Some self.old }
        ensures images { Same (λ image. image ≡ self.old) (λ image. image ≡ self.new) }
    {
        Ok(self.rows.copy(alloc)?)
    }

    fn apply(&mut self, alloc: Global, batch: &Batch) -> Result<(), KeepNo>
        requires { Fits self.old batch.now }
        ensures sure { IsErrOf result KeepNo.Failed → ⊥ }
        ensures cause { HasCause 0 0 result }

        ensures content { Some self.new ≡ content_after result batch.now (Some self.old) }
        ensures images { Offers result batch.now self.old (λ image. image ≡ self.old) (λ image. image ≡ self.new) }
        ensures stay { OnErr result (Stay (λ image. image ≡ self.old) (λ image. image ≡ self.new)) }
        ensures memory { IsErrOf result KeepNo.Memory → Same (λ image. image ≡ self.old) (λ image. image ≡ self.new) }
    {
        apply_batch(alloc, &mut self.rows, batch)?;
        Ok(())
    }
}
