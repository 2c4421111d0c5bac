ghost use Rattle.std.specs.Prelude.{IsTrue, IfOk};
ghost use Rattle.cat_rows.specs.Batches.{Fits};

use cat_rows::{Batch, CatRow, CatRows, SnapshotRow, fits_batch};
use keeper::{KeepNo, Keeper, MemKeeper, SureKeeper};
use lake_io::FailList;
use lake_types::Listed;
use std::alloc::Global;

/// A batch that adds one snapshot, where there is memory for it.
fn batch_of(alloc: Global, id: u64) -> Option<Batch> {
    let row = SnapshotRow {
        snapshot_id: id,
        snapshot_time: 0,
        next_catalog_id: 1,
        next_file_id: 0,
    };
    let mut adds = Listed::new(alloc);
    if adds.push(CatRow::Snapshot(row)).is_err() {
        return None;
    }
    Some(Batch {
        removes: Listed::new(alloc),
        ends: Listed::new(alloc),
        adds,
    })
}

/// Whether a batch fits what a keeper has.
fn fits_kept(alloc: Global, keeper: &mut MemKeeper, batch: &Batch) -> Result<bool, KeepNo>
    ensures { IfOk result (λ yes. IsTrue yes → Fits keeper.new.content batch.now) }
{
    let rows = keeper.load(alloc)?;
    Ok(fits_batch(&rows, batch))
}

/// Gives a keeper a batch, where that fits what it has.
fn put(alloc: Global, keeper: &mut MemKeeper, batch: &Batch) -> Result<(), KeepNo> {
    match fits_kept(alloc, keeper, batch) {
        Ok(true) => keeper.apply(alloc, batch),
        Ok(false) => Ok(()),
        Err(why) => Err(why),
    }
}

/// Whether a keeper that is given a snapshot answers so.
fn answers(alloc: Global, keeper: &mut MemKeeper, id: u64, answer: Result<(), KeepNo>) -> bool {
    match batch_of(alloc, id) {
        Some(batch) => put(alloc, keeper, &batch) == answer,
        None => false,
    }
}

fn is_only(rows: &[SnapshotRow], id: u64) -> bool {
    rows.len() == 1 && rows.iter().all(|row| row.snapshot_id == id)
}

/// Whether a keeper has this snapshot alone.
fn has_only<K: Keeper>(alloc: Global, keeper: &mut K, id: u64) -> bool {
    match keeper.load(alloc) {
        Ok(rows) => is_only(rows.snapshot(), id),
        Err(_) => false,
    }
}

/// Whether a keeper that refuses the first of two snapshots takes the second, and has that alone. With ample memory no
/// batch that failed is left out of what a crash may find.
fn takes_the_second(alloc: Global, keeper: &mut MemKeeper) -> bool {
    answers(alloc, keeper, 4, Err(KeepNo::Failed))
        && keeper.faults() == 1
        && keeper.unoffered() == 0
        && answers(alloc, keeper, 5, Ok(()))
        && has_only(alloc, keeper, 5)
}

/// The same of an empty keeper that fails at one call.
fn works_after(alloc: Global, call: u64) -> bool {
    match [call].to_vec(alloc) {
        Ok(calls) => {
            let fails = FailList { calls, from: None };
            let mut keeper = MemKeeper::new(alloc, CatRows::empty(alloc), fails);
            takes_the_second(alloc, &mut keeper)
        }
        Err(_) => false,
    }
}

#[test]
fn a_keeper_that_failed_once_works(rt: HostRuntime) {
    // The first two calls are load and apply of the first snapshot.
    for call in [1, 2] {
        assert!(rt; works_after(rt.alloc(), call), "at call {call}");
    }
}

/// Whether a batch fits no rows, and a keeper that never fails takes it.
fn is_kept(alloc: Global, batch: &Batch, id: u64) -> bool {
    if !fits_batch(&CatRows::empty(alloc), batch) {
        return false;
    }
    let mut keeper = SureKeeper::new(CatRows::empty(alloc));
    keeper.apply(alloc, batch).is_ok() && has_only(alloc, &mut keeper, id)
}

#[test]
fn a_sure_keeper_keeps_a_batch(rt: HostRuntime) {
    let alloc = rt.alloc();
    match batch_of(alloc, 4) {
        Some(batch) => assert!(rt; is_kept(alloc, &batch, 4)),
        None => assert!(rt; false),
    }
}
