ghost use Rattle.std.specs.Prelude.{◌≡◌, ◌++◌, map, Some, IfOk, IsSome, OnOk};
ghost use Rattle.std.specs.List.{AllByRecursion};
ghost use Rattle.lake_model.specs.Creations as model;
ghost use Rattle.cat_rows.specs.declared.history.SnapshotRow.{SnapshotRow as SnapshotRowOf};
ghost use Rattle.cat_rules.specs.Kept.{newest as newest_of};
ghost use Rattle.cat_view.specs.StagedNames.{named_staged, named_staged_table};
ghost use Rattle.rebase.specs.Parts as parts;
ghost use Rattle.cat_rows.specs.Batches.{tables_of};
ghost use Rattle.rebase.specs.Batch as spec;
ghost use Rattle.rebase.specs.Files.{HaveTexts, files_in};
ghost use Rattle.rebase.specs.Made as made;
ghost use Rattle.rebase.specs.Made.{creations_of};
ghost use Rattle.rebase.specs.Spent as spent;
ghost use Rattle.rebase.specs.Stats.{FitsIn, stats_keys};

use crate::creations::{Made, creations};
use crate::dropped::Dropped;
use crate::ends::end_rows;
use crate::files::{add_file_stats, add_files};
use crate::made::{Place, add_columns, add_schemas, add_tables};
use crate::no::BatchNo;
use crate::spent::{count_files, spent_if, spent_rows};
use crate::stats::{add_made_stats, restate};
use cat_changes::changes_text;
use cat_rows::{Batch, CatRow, CatRows, Key, SnapshotChangesRow, SnapshotRow};
use cat_view::{Staged, StagedTable, Version};
use file_disk::Held;
use lake_model::{Change, ChangeList, Counter, Txn, kinds_of};
use lake_types::{Listed, NoMemory, SchemaNames};
use std::alloc::Global;

/// The first counter that a commit takes past its last value: catalogue ids, then row ids table by table, then files,
/// then the snapshot.
fn first_spent<F: Held>(
    rows: &CatRows,
    newest: &SnapshotRow,
    made: &[Made],
    staged: &[StagedTable<F>],
) -> Option<Counter>
    ensures { result ≡ spent.first_spent (tables_of rows.now) newest.now (creations_of made.now) (files_in F.name F.size staged.now) }
{
    let next = newest.next_catalog_id;
    let catalog = spent_if(Counter::Catalog, next, made.len() as u64);
    if catalog.is_some() {
        return catalog;
    }
    let row = spent_rows(rows, next, made, staged);
    if row.is_some() {
        return row;
    }
    let file = spent_if(Counter::File, newest.next_file_id, count_files(staged));
    if file.is_some() {
        return file;
    }
    spent_if(Counter::Snapshot, newest.snapshot_id, 1)
}

/// Ends the rows of what a list drops, at a snapshot.
fn ended(
    alloc: Global,
    rows: &CatRows,
    own: &[Change],
    at: u64,
) -> Result<Vec<(Key, u64)>, NoMemory>
    ensures { IfOk result (λ ends. ends.items ≡ spec.all_ended (tables_of rows.now) own.now at) }
{
    let dropped = Dropped::of(alloc, own)?;
    let mut ends = Vec::new(alloc);
    end_rows(&mut ends, rows.schema(), &dropped.schemas, at)?;
    end_rows(&mut ends, rows.table(), &dropped.tables, at)?;
    end_rows(&mut ends, rows.column(), &dropped.tables, at)?;
    end_rows(&mut ends, rows.data_file(), &dropped.tables, at)?;
    end_rows(&mut ends, rows.delete_file(), &dropped.tables, at)?;
    end_rows(&mut ends, rows.inlined_row(), &dropped.tables, at)?;
    Ok(ends)
}

/// The row of the newest snapshot.
#[tactic(auto, using(crate::proofs::BatchLemmas::newest_last))]
fn newest_row(rows: &CatRows) -> &SnapshotRow
    requires { IsSome (newest_of (tables_of rows.now).snapshot) }
    ensures { newest_of (tables_of rows.now).snapshot ≡ Some result.now }
{
    match rows.snapshot().last() {
        Some(newest) => newest,
        None => unreachable!(),
    }
}

/// The row of the next snapshot, made at a time.
fn next_snapshot(newest: &SnapshotRow, time: i64, created: u64, files: u64) -> SnapshotRow
    requires { spec.HasCounters newest.now created files }
    ensures { result ≡ spec.next_snapshot newest.now time created files }
{
    SnapshotRow {
        snapshot_id: newest.snapshot_id + 1,
        snapshot_time: time,
        next_catalog_id: newest.next_catalog_id + created,
        next_file_id: newest.next_file_id + files,
    }
}

/// The row that says what a list changed.
#[tactic(auto, using(crate::proofs::BatchLemmas::in_order))]
fn changes_row(
    alloc: Global,
    snapshot: u64,
    names: &SchemaNames,
    own: &ChangeList,
) -> Result<SnapshotChangesRow, NoMemory>
    ensures { IfOk result (λ r. r ≡ spec.changes_row snapshot names.now own.now) }
{
    let kinds = kinds_of(alloc, names, own)?;
    Ok(SnapshotChangesRow {
        snapshot_id: snapshot,
        changes_made: changes_text(alloc, &kinds)?,
    })
}

/// Adds the rows of what a list creates and leaves.
fn add_created(
    alloc: Global,
    adds: &mut Vec<CatRow>,
    place: &Place,
    own: &[Change],
) -> Result<(), NoMemory>
    requires ids { made.HasIds place.now }
    requires columns { AllByRecursion made.HasFittingDefaults own.now }
    ensures { OnOk result (adds.new.items ≡ spec.with_created place.now own.now adds.old.items) }
{
    add_schemas(alloc, adds, place, own)?;
    add_tables(alloc, adds, place, own)?;
    add_columns(alloc, adds, place, own)
}

/// Adds the rows of staged files, and the statistics of their tables and of those that a list creates.
fn add_staged<F: Held>(
    alloc: Global,
    removes: &mut Vec<Key>,
    adds: &mut Vec<CatRow>,
    rows: &CatRows,
    place: &Place,
    first_file: u64,
    own: &[Change],
    staged: &[StagedTable<F>],
) -> Result<(), NoMemory>
    requires ids { made.HasIds place.now }
    requires texts { AllByRecursion HaveTexts (files_in F.name F.size staged.now) }
    requires fit { AllByRecursion (FitsIn (tables_of rows.now)) (files_in F.name F.size staged.now) }
    ensures removes { OnOk result (removes.new.items ≡ removes.old.items
        ++ stats_keys (parts.old_stats_of (tables_of rows.now) (files_in F.name F.size staged.now))) }
    ensures adds { OnOk result (adds.new.items ≡ spec.with_staged (tables_of rows.now) place.now first_file own.now
        (map (named_staged_table F.name F.size) staged.now) adds.old.items) }
{
    add_files(alloc, adds, rows, place, first_file, staged)?;
    add_file_stats(alloc, adds, first_file, staged)?;
    restate(removes, adds, rows, staged)?;
    add_made_stats(adds, place, own, staged)
}

/// The batch of a commit: what the list of a transaction and what was staged for it make of the catalogue's rows, at
/// their newest snapshot, which `head` is the version of. The new snapshot is made at a time, in milliseconds since
/// the beginning of 1970, UTC.
///
/// New schemas, tables, rows and files get their numbers from the newest snapshot's counters, whichever snapshot the
/// transaction began at. It goes once through the rows of the tables of which something can end.
pub fn make_batch<F: Held>(
    alloc: Global,
    rows: &CatRows,
    head: &Version<F>,
    txn: &Txn,
    staged: &Staged<F>,
    time: i64,
) -> Result<Batch, BatchNo>
    requires some { IsSome (newest_of (tables_of rows.now).snapshot) }
    requires can { spec.CanBeMade (tables_of rows.now) txn.now.own (parts.fresh_files (named_staged F.name F.size staged.now)) }
    ensures batch { IfOk result (λ batch. (newest : SnapshotRowOf) → newest_of (tables_of rows.now).snapshot ≡ Some newest
        → batch ≡ spec.batch_at (tables_of rows.now) newest time head.now.schemas txn.now.own (named_staged F.name F.size staged.now)) }
    ensures spent { (newest : SnapshotRowOf) → newest_of (tables_of rows.now).snapshot ≡ Some newest
        → spec.IsSpentBy result (spent.first_spent (tables_of rows.now) newest (model.creations 0 0 txn.now.own)
        (parts.fresh_files (named_staged F.name F.size staged.now))) }
{
    let own = txn.own.as_slice();
    let tables = staged.tables.as_slice();
    let newest = newest_row(rows);
    let made = creations(alloc, own)?;
    if let Some(counter) = first_spent(rows, newest, made.as_slice(), tables) {
        return Err(BatchNo::Spent { counter });
    }
    let place = Place {
        begin: newest.snapshot_id + 1,
        next: newest.next_catalog_id,
        made: made.as_slice(),
    };
    let mut removes = Vec::new(alloc);
    let mut adds = Vec::new(alloc);
    let snapshot = next_snapshot(newest, time, made.len() as u64, count_files(tables));
    adds.push(CatRow::Snapshot(snapshot))?;
    let changes = changes_row(alloc, place.begin, &head.schemas, &txn.own)?;
    adds.push(CatRow::SnapshotChanges(changes))?;
    add_created(alloc, &mut adds, &place, own)?;
    add_staged(
        alloc,
        &mut removes,
        &mut adds,
        rows,
        &place,
        newest.next_file_id,
        own,
        tables,
    )?;
    let ends = ended(alloc, rows, own, place.begin)?;
    Ok(Batch {
        removes: Listed::from_vec(removes),
        ends: Listed::from_vec(ends),
        adds: Listed::from_vec(adds),
    })
}
