use crate::rows::{GREATEST, add_all, end_all, remove_all, snapshot_row};
use cat_rows::{Batch, CatRows, apply_batch, fits_batch};
use keeper::{KeepNo, Keeper};
use lake_types::{Listed, NoMemory};
use sqlite::{Connection, MemStore};
use sqlite_keeper::SqlKeeper;
use std::alloc::Global;
use std::test::Fail;

type MemoryKeeper = SqlKeeper<MemStore>;

fn no_changes(alloc: Global) -> Batch {
    Batch {
        removes: Listed::new(alloc),
        ends: Listed::new(alloc),
        adds: Listed::new(alloc),
    }
}

fn adding_all(alloc: Global) -> Result<Batch, NoMemory> {
    let mut batch = no_changes(alloc);
    add_all(alloc, &mut batch.adds)?;
    Ok(batch)
}

fn ending_all(alloc: Global) -> Result<Batch, NoMemory> {
    let mut batch = no_changes(alloc);
    end_all(&mut batch.ends)?;
    Ok(batch)
}

fn removing_all(alloc: Global) -> Result<Batch, NoMemory> {
    let mut batch = no_changes(alloc);
    remove_all(alloc, &mut batch.removes)?;
    Ok(batch)
}

/// Adds one snapshot.
fn one_snapshot(alloc: Global, id: u64) -> Result<Batch, NoMemory> {
    let mut batch = no_changes(alloc);
    batch.adds.push(snapshot_row(id))?;
    Ok(batch)
}

fn opened(alloc: Global) -> Result<MemoryKeeper, NoMemory> {
    Ok(SqlKeeper::over(Connection::open_in_memory(alloc)?))
}

/// Whether the keeper has exactly these rows.
fn has(alloc: Global, keeper: &mut MemoryKeeper, rows: &CatRows) -> bool {
    let Ok(kept) = keeper.load(alloc) else {
        return false;
    };
    match (format!(in alloc; "{kept:?}"), format!(in alloc; "{rows:?}")) {
        (Ok(kept), Ok(rows)) => kept.as_str() == rows.as_str(),
        _ => false,
    }
}

/// Whether a batch makes of the keeper's rows what it makes of these.
fn keeps(alloc: Global, keeper: &mut MemoryKeeper, rows: &mut CatRows, batch: &Batch) -> bool {
    if !fits_batch(rows, batch) || apply_batch(alloc, rows, batch).is_err() {
        return false;
    }
    keeper.apply(alloc, batch) == Ok(()) && has(alloc, keeper, rows)
}

#[test]
fn all_tables_are_kept(rt: HostRuntime) -> Result<(), Fail> {
    let alloc = rt.alloc();
    let mut keeper = opened(alloc)?;
    let mut rows = CatRows::empty(alloc);
    assert!(rt; has(alloc, &mut keeper, &rows));
    assert!(rt; keeps(alloc, &mut keeper, &mut rows, &adding_all(alloc)?));
    assert!(rt; keeps(alloc, &mut keeper, &mut rows, &ending_all(alloc)?));
    assert!(rt; keeps(alloc, &mut keeper, &mut rows, &removing_all(alloc)?));
    assert_eq!(rt; keeper.faults(), 0);
    Ok(())
}

#[test]
fn a_number_past_the_greatest_is_refused(rt: HostRuntime) -> Result<(), Fail> {
    let alloc = rt.alloc();
    let mut keeper = opened(alloc)?;
    let batch = one_snapshot(alloc, GREATEST + 1)?;
    assert_eq!(rt; keeper.apply(alloc, &batch), Err(KeepNo::Failed));
    assert_eq!(rt; keeper.faults(), 1);
    Ok(())
}

#[test]
fn a_batch_that_does_not_fit_leaves_nothing(rt: HostRuntime) -> Result<(), Fail> {
    let alloc = rt.alloc();
    let mut keeper = opened(alloc)?;
    let mut batch = one_snapshot(alloc, 4)?;
    batch.adds.push(snapshot_row(4))?;
    assert_eq!(rt; keeper.apply(alloc, &batch), Err(KeepNo::Failed));
    assert_eq!(rt;
        keeper.apply(alloc, &ending_all(alloc)?),
        Err(KeepNo::Failed)
    );
    assert_eq!(rt;
        keeper.apply(alloc, &removing_all(alloc)?),
        Err(KeepNo::Failed)
    );
    assert_eq!(rt; keeper.faults(), 3);
    assert!(rt; has(alloc, &mut keeper, &CatRows::empty(alloc)));
    let mut rows = CatRows::empty(alloc);
    assert!(rt; keeps(alloc, &mut keeper, &mut rows, &one_snapshot(alloc, 4)?));
    Ok(())
}
