ghost use Rattle.std.specs.Prelude.{◌≡◌, ◌↔◌, [], Some, IfOk, OnErr, IsErrOf, IsTrue};
ghost use Rattle.cat_rows.specs.Batches.{tables_of, applied, Fits};
ghost use Rattle.lake_io.specs.FailList.{fails_next, after_call};
ghost use Rattle.keeper.specs.Calls.{Gains, HasCause, Same, Stay, Offers, content_after};
ghost use Rattle.keeper.specs.Memory.{HoldsOffer, IsImage};

use crate::fault::KeepNo;
use crate::keeper_trait::Keeper;
use crate::sure_keeper::SureKeeper;
use cat_rows::{Batch, CatRows};
use lake_io::{FailList, FaultInjector};
use std::alloc::Global;
use std::marker::Model;

/// A keeper in memory that fails at the calls of a list. `load` and `apply` are numbered together.
#[derive(Debug, Drop)]
pub struct MemKeeper {
    keeper: SureKeeper,
    /// The contents with the batches that failed since the last one that was kept, the newest one last.
    offered: Vec<SureKeeper>,
    /// How many batches failed that aren't among these, for want of memory.
    unoffered: u64,
    injector: FaultInjector,
}

impl Model for MemKeeper {
    ghost use Rattle.keeper.specs.Memory.{FailingKeeper};

    ghost Value = { FailingKeeper };

    ghost view = { λ k. record { content = k.keeper; offered = k.offered.items; unoffered = k.unoffered; injected = k.injector } };
}

impl MemKeeper {
    pub fn new(alloc: Global, rows: CatRows, fails: FailList) -> MemKeeper
        ensures { result ≡ record { content = tables_of rows; offered = []; unoffered = 0; injected = record { fails = fails; calls = 0; faults = 0 } } }
    {
        MemKeeper {
            keeper: SureKeeper::new(rows),
            offered: Vec::new(alloc),
            unoffered: 0,
            injector: FaultInjector::new(fails),
        }
    }

    /// How often it has failed.
    pub fn faults(&self) -> u64
        ensures { result ≡ self.now.injected.faults }
    {
        self.injector.faults()
    }

    /// How many batches failed that no crash finds, for want of memory.
    pub fn unoffered(&self) -> u64
        ensures { result ≡ self.now.unoffered }
    {
        self.unoffered
    }

    /// Keeps the content with a batch that failed, or counts it where memory is wanting for that.
    fn keep_offer(&mut self, alloc: Global, batch: &Batch)
        requires { Fits self.old.content batch.now }
        ensures offers { HoldsOffer batch.now self.old self.new }
        ensures content { self.new.content ≡ self.old.content }
        ensures injected { self.new.injected ≡ self.old.injected }
    {
        let kept = match self.keeper.with_batch(alloc, batch) {
            Ok(rows) => self.offered.push(SureKeeper::new(rows)).is_ok(),
            Err(_) => false,
        };
        if !kept {
            self.unoffered = self.unoffered.saturating_add(1);
        }
    }

    /// The same, with what it does to the images.
    fn offer(&mut self, alloc: Global, batch: &Batch)
        requires { Fits self.old.content batch.now }
        ensures offers { HoldsOffer batch.now self.old self.new }
        ensures stay { Stay (IsImage self.old) (IsImage self.new) }
        ensures gains { Gains (applied batch.now self.old.content) (IsImage self.old) (IsImage self.new) }
        ensures content { self.new.content ≡ self.old.content }
        ensures injected { self.new.injected ≡ self.old.injected }
    {
        self.keep_offer(alloc, batch);
    }
}

impl Keeper for MemKeeper {
    ghost use Rattle.keeper.specs.Laws.{IsImage-content};

    ghost content = { λ k. Some k.content };

    ghost images = { IsImage };

    ghost faults = { λ k. k.injected.faults };

    ghost tells_an_image = { IsImage-content };

    fn load(&mut self, alloc: Global) -> Result<CatRows, KeepNo>
        // It fails at exactly the calls of its list.
        ensures counts { self.new.injected ≡ after_call self.old.injected }
        ensures fails { IsErrOf result KeepNo.Failed ↔ IsTrue (fails_next self.old.injected) }
        ensures cause { HasCause self.old.injected.faults self.new.injected.faults result }

        ensures rows { IfOk result (λ rows. tables_of rows ≡ self.old.content) }
        ensures content { Some self.new.content ≡ Some self.old.content }
        ensures images { Same (IsImage self.old) (IsImage self.new) }
    {
        self.injector.count_call()?;
        self.keeper.load(alloc)
    }

    fn apply(&mut self, alloc: Global, batch: &Batch) -> Result<(), KeepNo>
        requires { Fits self.old.content batch.now }
        // It fails at exactly the calls of its list.
        ensures counts { self.new.injected ≡ after_call self.old.injected }
        ensures fails { IsErrOf result KeepNo.Failed ↔ IsTrue (fails_next self.old.injected) }
        ensures cause { HasCause self.old.injected.faults self.new.injected.faults result }

        ensures content { Some self.new.content ≡ content_after result batch.now (Some self.old.content) }
        ensures images { Offers result batch.now self.old.content (IsImage self.old) (IsImage self.new) }
        ensures stay { OnErr result (Stay (IsImage self.old) (IsImage self.new)) }
        ensures memory { IsErrOf result KeepNo.Memory → Same (IsImage self.old) (IsImage self.new) }
        // A crash may find a batch that failed, unless it is counted as one that no crash finds.
        ensures offers { IsErrOf result KeepNo.Failed → HoldsOffer batch.now self.old self.new }
    {
        if self.injector.count_call().is_err() {
            self.offer(alloc, batch);
            return Err(KeepNo::Failed);
        }
        self.keeper.apply(alloc, batch)?;
        self.offered.clear();
        Ok(())
    }
}
