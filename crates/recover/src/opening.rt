ghost use Rattle.std.specs.Prelude.{◌≡◌, ◌≤◌, ◌↔◌, ℕ, None, Some, IfErr, IfOk, IfSome, IsErrOf, IsTrue, OnOk, OnErr};
ghost use Rattle.lake_io.specs.Causes.{Rose};
ghost use Rattle.keeper.specs.Calls.{Same};
ghost use Rattle.cat_rows.specs.Batches.{Fits, applied, tables_of};
ghost use Rattle.cat_rows.specs.Tables.{Tables, no_rows};
ghost use Rattle.cat_rules.specs.Sane.{IsFirstBadRow};
ghost use Rattle.cat_stands.specs.New.{new_tables};
ghost use Rattle.recover.specs.Opening.{FindsNoMore, FindsOnly, IsOpened, MayBegin, MayFind, WhyNoRows, refusal};

use crate::no::OpenNo;
use cat_rows::{
    Batch, CatRow, CatRows, MetadataRow, SchemaRow, SnapshotChangesRow, SnapshotRow,
    apply_reserved, reserve_batch,
};
use cat_sane::first_bad_row;
use keeper::{KeepNo, Keeper};
use lake_types::{Listed, NoMemory, Words};
use std::alloc::Global;

/// The batch of snapshot 0: the layout, the snapshot with its changes, and the schema `main`.
fn first_batch(alloc: Global, time: i64) -> Result<Batch, NoMemory>
    ensures makes { IfOk result (λ batch. applied batch no_rows ≡ new_tables time) }
    ensures fits { IfOk result (λ batch. Fits no_rows batch) }
{
    let layout = MetadataRow {
        key: Words::of(alloc, "layout")?,
        value: Words::of(alloc, "1")?,
    };
    let snapshot = SnapshotRow {
        snapshot_id: 0,
        snapshot_time: time,
        next_catalog_id: 1,
        next_file_id: 0,
    };
    let changes = SnapshotChangesRow {
        snapshot_id: 0,
        changes_made: Words::of(alloc, "created_schema:\"main\"")?,
    };
    let schema = SchemaRow {
        schema_id: 0,
        begin_snapshot: 0,
        end_snapshot: None,
        schema_name: Words::of(alloc, "main")?,
    };
    let adds = vec![in alloc;
        CatRow::Metadata(layout),
        CatRow::Snapshot(snapshot),
        CatRow::SnapshotChanges(changes),
        CatRow::Schema(schema),
    ]?;
    Ok(Batch {
        removes: Listed::new(alloc),
        ends: Listed::new(alloc),
        adds: Listed::from_vec(adds),
    })
}

/// Whether the catalogue is that of a lake that was never opened.
fn is_empty(rows: &CatRows) -> bool
    ensures { IsTrue result ↔ (tables_of rows.now ≡ no_rows) }
{
    rows.metadata().is_empty()
        && rows.snapshot().is_empty()
        && rows.snapshot_changes().is_empty()
        && rows.schema().is_empty()
        && rows.table().is_empty()
        && rows.column().is_empty()
        && rows.data_file().is_empty()
        && rows.delete_file().is_empty()
        && rows.file_column_stats().is_empty()
        && rows.table_stats().is_empty()
        && rows.inlined_row().is_empty()
        && rows.scheduled_file().is_empty()
}

/// The answer where the keeper refused a call.
fn refused(why: KeepNo) -> OpenNo
    ensures { result ≡ refusal why }
{
    match why {
        KeepNo::Failed => OpenNo::KeeperFault,
        KeepNo::Memory => OpenNo::Memory,
    }
}

/// Keeps the empty batch, so that nothing that failed before can come back.
fn barrier<K: Keeper>(alloc: Global, keeper: &mut K) -> Result<(), OpenNo>
    ensures only { OnOk result (IfSome (K.content keeper.old) (λ told. FindsOnly told (K.images keeper.new))) }
    ensures refused { IfErr result (WhyNoRows (K.faults keeper.old) (K.faults keeper.new) (K.content keeper.old)) }
    ensures later { K.faults keeper.old ≤ K.faults keeper.new }
    ensures content { K.content keeper.new ≡ K.content keeper.old }
    ensures images { IfSome (K.content keeper.old) (λ _. FindsNoMore (K.images keeper.old) (K.images keeper.new)) }
{
    let nothing = Batch {
        removes: Listed::new(alloc),
        ends: Listed::new(alloc),
        adds: Listed::new(alloc),
    };
    match keeper.apply(alloc, &nothing) {
        Ok(()) => Ok(()),
        Err(why) => Err(refused(why)),
    }
}

/// The rows that the keeper keeps.
fn load<K: Keeper>(alloc: Global, keeper: &mut K) -> Result<CatRows, OpenNo>
    ensures rows { IfOk result (λ rows. IfSome (K.content keeper.old) (λ told. told ≡ tables_of rows)) }
    ensures refused { IfErr result (WhyNoRows (K.faults keeper.old) (K.faults keeper.new) (K.content keeper.old)) }
    ensures later { K.faults keeper.old ≤ K.faults keeper.new }
    ensures content { K.content keeper.new ≡ K.content keeper.old }
    ensures images { Same (K.images keeper.old) (K.images keeper.new) }
{
    match keeper.load(alloc) {
        Ok(rows) => Ok(rows),
        Err(why) => Err(refused(why)),
    }
}

/// Makes snapshot 0 of an empty content. There is room for its rows before the keeper has them.
fn begin<K: Keeper>(alloc: Global, keeper: &mut K, time: i64) -> Result<CatRows, OpenNo>
    requires { IfSome (K.content keeper.old) (λ told. told ≡ no_rows) }
    ensures rows { IfOk result (λ rows. tables_of rows ≡ new_tables time) }
    ensures content { OnOk result (IfSome (K.content keeper.new) (λ told. told ≡ new_tables time)) }
    ensures only { OnOk result (IfSome (K.content keeper.old) (λ _. FindsOnly (new_tables time) (K.images keeper.new))) }
    ensures refused { IfErr result (WhyNoRows (K.faults keeper.old) (K.faults keeper.new) (K.content keeper.old)) }
    ensures later { K.faults keeper.old ≤ K.faults keeper.new }
    ensures same { OnErr result (K.content keeper.new ≡ K.content keeper.old) }
    ensures kept { MayBegin time (K.content keeper.old) (K.content keeper.new) }
    ensures images { IfSome (K.content keeper.old) (λ told.
        MayFind time told (K.images keeper.old) (K.images keeper.new)) }
{
    let mut rows = CatRows::empty(alloc);
    let Ok(batch) = first_batch(alloc, time) else {
        return Err(OpenNo::Memory);
    };
    if reserve_batch(&mut rows, &batch).is_err() {
        return Err(OpenNo::Memory);
    }
    match keeper.apply(alloc, &batch) {
        Ok(()) => {
            apply_reserved(&mut rows, batch);
            Ok(rows)
        }
        Err(why) => Err(refused(why)),
    }
}

/// Rows that break no rule, or the first one that breaks one.
fn ruled(alloc: Global, rows: CatRows) -> Result<CatRows, OpenNo>
    ensures rows { IfOk result (λ same. tables_of same ≡ tables_of rows) }
    ensures sane { IfOk result (λ same. IsFirstBadRow (tables_of same) None) }
    ensures refused { (before now : ℕ) → IfErr result (WhyNoRows before now (Some (tables_of rows))) }
{
    match first_bad_row(alloc, &rows) {
        Ok(None) => Ok(rows),
        Ok(Some(bad)) => Err(OpenNo::BadRow(bad)),
        Err(_) => Err(OpenNo::Memory),
    }
}

/// Opens the rows of a keeper: what failed before can't come back, an empty content gets snapshot 0, and the rows
/// break no rule. After a refusal the keeper keeps what it kept, but a crash may find snapshot 0.
pub fn open_rows<K: Keeper>(alloc: Global, keeper: &mut K, time: i64) -> Result<CatRows, OpenNo>
    // They are what the keeper keeps now, where that is told.
    ensures content { IfOk result (λ rows. IfSome (K.content keeper.new) (λ told. told ≡ tables_of rows)) }
    ensures opened { IfOk result (λ rows. IfSome (K.content keeper.old) (λ told. IsOpened time told (tables_of rows))) }
    ensures sane { IfOk result (λ rows. IsFirstBadRow (tables_of rows) None) }
    // A crash finds them and nothing else.
    ensures only { IfOk result (λ rows. IfSome (K.content keeper.old) (λ _.
        FindsOnly (tables_of rows) (K.images keeper.new))) }

    ensures refused { IfErr result (WhyNoRows (K.faults keeper.old) (K.faults keeper.new) (K.content keeper.old)) }
    ensures same { OnErr result (K.content keeper.new ≡ K.content keeper.old) }
    ensures later { K.faults keeper.old ≤ K.faults keeper.new }

    // On every answer.
    ensures kept { MayBegin time (K.content keeper.old) (K.content keeper.new) }
    ensures images { IfSome (K.content keeper.old) (λ told.
        MayFind time told (K.images keeper.old) (K.images keeper.new)) }
{
    match barrier(alloc, keeper) {
        Ok(()) => {}
        Err(why) => return Err(why),
    }
    match load(alloc, keeper) {
        Ok(rows) => {
            if is_empty(&rows) {
                // The rows of snapshot 0 break no rule.
                return begin(alloc, keeper, time);
            }
            ruled(alloc, rows)
        }
        Err(why) => Err(why),
    }
}
