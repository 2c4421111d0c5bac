ghost use Rattle.std.specs.Prelude.{◌≡◌, ◌==◌, ◌++◌, [], true, List, IfOk, IfSome, OnOk};
ghost use Rattle.std.specs.List.{AllByRecursion, cons_option, list_any, slice_get};
ghost use Rattle.std.specs.Option.{option_copied};
ghost use Rattle.cat_rows.specs.Batches.{tables_of};
ghost use Rattle.cat_rows.specs.declared.files.DataFileRow.{DataFileRow};
ghost use Rattle.cat_rows.specs.declared.files.FileColumnStatsRow.{FileColumnStatsRow};
ghost use Rattle.cat_view.specs.Groups.{rows_at};
ghost use Rattle.cat_view.specs.Held.{held_in, AreCopies, IsHeld, IsCopyOf};
ghost use Rattle.cat_view.specs.LiveFiles as live;
ghost use Rattle.cat_view.specs.Sight.{deletes_of, file_with};
ghost use Rattle.cat_view.specs.Stats as spec;
ghost use Rattle.cat_view.specs.Views.{named_deletes, named_file};

use crate::groups::{Places, group_of, row_at};
use crate::held::HeldFiles;
use crate::live::{LiveDelete, LiveFile, StatsList};
use cat_rows::{CatRows, DataFileRow, DeleteFileRow, FileColumnStatsRow};
use cat_texts::{ReadTextNo, read_stats};
use col_stats::ColStats;
use file_disk::Held;
use lake_types::{Column, NoMemory, Words};
use std::alloc::{AllocError, Global};
use std::sync::Arc;

/// A further value of the held file of a name.
fn held_copy<F: Held>(alloc: Global, held: &HeldFiles<F>, name: &Words) -> Result<F, NoMemory>
    requires { IsHeld F.name (held_in held.now).rows name.now }
    ensures name { IfOk result (λ file. F.name file ≡ name.now) }
    ensures copy { IfOk result (IsCopyOf F.name F.size F.part F.bytes (held_in held.now).rows) }
{
    match held.get(name) {
        Some(file) => file.copy(alloc),
        None => unreachable!(),
    }
}

fn live_delete<F: Held>(
    alloc: Global,
    held: &HeldFiles<F>,
    row: &DeleteFileRow,
) -> Result<LiveDelete<F>, NoMemory>
    requires { IsHeld F.name (held_in held.now).rows row.now.path }
    ensures named { IfOk result (λ d. named_deletes F.name d ≡ deletes_of row.now) }
    ensures copy { IfOk result (λ d. IsCopyOf F.name F.size F.part F.bytes (held_in held.now).rows d.file) }
{
    let file = held_copy(alloc, held, &row.path)?;
    Ok(LiveDelete {
        id: row.delete_file_id,
        file,
        count: row.delete_count,
    })
}

/// The first of the rows at some places.
#[tactic(auto, using(crate::proofs::PlaceLemmas::first_of))]
pub fn first_at<'a, R>(rows: &'a [R], places: &[usize]) -> Option<&'a R>
    ensures { option_copied result ≡ slice_get (rows_at rows.now places.now) 0 }
{
    for at in 0..places.len() {
        let row = row_at(rows, places, at);
        if row.is_some() {
            return row;
        }
    }
    None
}

/// The column of a field id.
fn column_with(columns: &[Column], field: u64) -> Option<&Column>
    ensures column { option_copied result ≡ spec.column_with columns.now field }
    ensures field { IfSome (option_copied result) (λ c. c.field ≡ field) }
{
    for column in columns {
        if u64::from(column.field) == field {
            return Some(column);
        }
    }
    None
}

/// The statistics that a row tells in a column's type; without bounds where it tells none.
fn stats_in(
    alloc: Global,
    column: &Column,
    count: u64,
    row: &FileColumnStatsRow,
) -> Result<ColStats, NoMemory>
    requires { column.now.field ≡ row.now.column_id }
    ensures { IfOk result (spec.IsTold column.now.ty count row.now) }
{
    match read_stats(alloc, column.ty, count, row) {
        Ok(stats) => Ok(stats),
        Err(ReadTextNo::Memory) => Err(AllocError),
        Err(ReadTextNo::BadText) => Ok(ColStats {
            field: column.field,
            rows: count,
            nulls: row.null_count,
            min: None,
            max: None,
        }),
    }
}

/// Adds the statistics that a row tells of one of these columns, where there is one.
#[tactic(auto, using(crate::proofs::StatsLemmas::reading))]
fn add_stats(
    alloc: Global,
    stats: &mut StatsList,
    row: Option<&FileColumnStatsRow>,
    columns: &[Column],
    count: u64,
) -> Result<(), NoMemory>
    ensures { OnOk result ((rows : List FileColumnStatsRow) → spec.AreRead columns.now count rows stats.old →
        spec.AreRead columns.now count (rows ++ cons_option (option_copied row.entry) []) stats.new) }
{
    let Some(row) = row else {
        return Ok(());
    };
    let Some(column) = column_with(columns, row.column_id) else {
        return Ok(());
    };
    let told = stats_in(alloc, column, count, row)?;
    stats.push(told)
}

/// The statistics that the rows at some places tell of these columns of a file with so many rows.
fn stats_at(
    alloc: Global,
    rows: &[FileColumnStatsRow],
    places: &[usize],
    columns: &[Column],
    count: u64,
) -> Result<StatsList, NoMemory>
    ensures { IfOk result (spec.AreRead columns.now count (rows_at rows.now places.now)) }
{
    let mut stats = StatsList::new(alloc);
    for at in 0..places.len() {
        add_stats(alloc, &mut stats, row_at(rows, places, at), columns, count)?;
    }
    Ok(stats)
}

/// The live file of a data file's row, with its delete file, where it has one.
fn live_file<F: Held>(
    alloc: Global,
    held: &HeldFiles<F>,
    row: &DataFileRow,
    delete: Option<&DeleteFileRow>,
    stats: StatsList,
) -> Result<LiveFile<F>, NoMemory>
    requires file { IsHeld F.name (held_in held.now).rows row.now.path }
    requires delete { IfSome (option_copied delete) (λ d. IsHeld F.name (held_in held.now).rows d.path) }
    ensures named { IfOk result (λ f. named_file F.name f ≡ file_with (option_copied delete.entry) row.now) }
    ensures stats { IfOk result (λ f. f.stats ≡ stats) }
    ensures copies { IfOk result (AreCopies F.name F.size F.part F.bytes (held_in held.now).rows) }
{
    let deletes = match delete {
        Some(row) => Some(live_delete(alloc, held, row)?),
        None => None,
    };
    let file = held_copy(alloc, held, &row.path)?;
    Ok(LiveFile {
        id: row.data_file_id,
        file,
        rows: row.record_count,
        weight: row.weight,
        first_row: row.row_id_start,
        deletes,
        stats,
    })
}

/// For each data file, whose ids rise, the places of its delete files at a snapshot and of its statistics.
#[derive(Drop)]
pub struct FilePlaces {
    pub snapshot: u64,
    pub ids: Vec<u64>,
    pub deletes: Vec<Places>,
    pub stats: Vec<Places>,
}

/// The live file of a data file's row.
fn file_at<F: Held>(
    alloc: Global,
    held: &HeldFiles<F>,
    rows: &CatRows,
    places: &FilePlaces,
    columns: &[Column],
    row: &DataFileRow,
) -> Result<LiveFile<F>, NoMemory>
    requires places { live.AreFilePlaces (tables_of rows.now) places.now }
    requires known { list_any (λ id. id == row.now.data_file_id) places.now.ids.items ≡ true }
    requires readable { live.CanBeLive F.name (held_in held.now).rows places.now.snapshot (tables_of rows.now)
        columns.now row.now }
    ensures { IfOk result (live.IsLive F.name (held_in held.now).rows places.now.snapshot (tables_of rows.now)
        columns.now F.size F.part F.bytes row.now) }
{
    let ids = places.ids.as_slice();
    let deletes = group_of(places.deletes.as_slice(), ids, row.data_file_id);
    let told = group_of(places.stats.as_slice(), ids, row.data_file_id);
    let delete = first_at(rows.delete_file(), deletes);
    let stats = stats_at(
        alloc,
        rows.file_column_stats(),
        told,
        columns,
        row.record_count,
    )?;
    live_file(alloc, held, row, delete, stats)
}

/// Adds the live file of a data file's row, where there is one.
#[tactic(auto, using(crate::proofs::FileLemmas::one_file))]
fn add_file<F: Held>(
    alloc: Global,
    files: &mut Vec<Arc<LiveFile<F>>>,
    held: &HeldFiles<F>,
    rows: &CatRows,
    places: &FilePlaces,
    columns: &[Column],
    row: Option<&DataFileRow>,
) -> Result<(), NoMemory>
    requires places { live.AreFilePlaces (tables_of rows.now) places.now }
    requires known { IfSome (option_copied row) (λ r. list_any (λ id. id == r.data_file_id) places.now.ids.items ≡
        true) }
    requires readable { IfSome (option_copied row) (live.CanBeLive F.name (held_in held.now).rows places.now.snapshot
        (tables_of rows.now) columns.now) }
    ensures { OnOk result ((seen : List DataFileRow) → live.AreLive F.name (held_in held.now).rows
        places.now.snapshot (tables_of rows.now) columns.now F.size F.part F.bytes seen files.old.items
        → live.AreLive F.name (held_in held.now).rows places.now.snapshot (tables_of rows.now)
        columns.now F.size F.part F.bytes (seen ++ cons_option (option_copied row.entry) [])
        files.new.items) }
{
    let Some(row) = row else {
        return Ok(());
    };
    let file = file_at(alloc, held, rows, places, columns, row)?;
    let shared = Arc::new(alloc, file)?;
    files.push(shared)?;
    Ok(())
}

/// The live files of the data files' rows at some places.
pub fn files_at<F: Held>(
    alloc: Global,
    held: &HeldFiles<F>,
    rows: &CatRows,
    places: &FilePlaces,
    columns: &[Column],
    chosen: &[usize],
) -> Result<Vec<Arc<LiveFile<F>>>, NoMemory>
    requires places { live.AreFilePlaces (tables_of rows.now) places.now }
    requires readable { AllByRecursion (live.CanBeLive F.name (held_in held.now).rows places.now.snapshot (tables_of
        rows.now) columns.now) (rows_at (tables_of rows.now).data_file chosen.now) }
    ensures { IfOk result (λ files. live.AreLive F.name (held_in held.now).rows places.now.snapshot (tables_of
        rows.now) columns.now F.size F.part F.bytes (rows_at (tables_of rows.now).data_file chosen.now)
        files.items) }
{
    let mut files = Vec::new(alloc);
    for at in 0..chosen.len() {
        let row = row_at(rows.data_file(), chosen, at);
        add_file(alloc, &mut files, held, rows, places, columns, row)?;
    }
    Ok(files)
}
