ghost use Rattle.std.specs.Prelude.{◌≡◌, ◌==◌, ◌++◌, ◌∷◌, [], true, List, IfOk, OnOk, map};
ghost use Rattle.std.specs.List.{AllByRecursion, list_any};
ghost use Rattle.cat_tables.specs.Table.{RisesByKey};
ghost use Rattle.cat_rows.specs.Batches.{tables_of};
ghost use Rattle.cat_view.specs.Building as spec;
ghost use Rattle.cat_view.specs.Groups.{id_key};
ghost use Rattle.cat_view.specs.Held.{held_in};
ghost use Rattle.cat_view.specs.LiveFiles.{AreFilePlaces, file_ids};
ghost use Rattle.cat_view.specs.Reading.{AreHeld, CanBeSeen, TellStats};
ghost use Rattle.cat_view.specs.Sight.{HasCounters, IsVersionAt};
ghost use Rattle.cat_view.specs.Views.{named_version};
ghost use Rattle.cat_view.specs.declared.live.TableHead.{TableHead};

use crate::columns::columns_at;
use crate::files::{FilePlaces, files_at};
use crate::groups::{Places, group_of, rows_by_owner};
use crate::held::HeldFiles;
use crate::inlined::inlined_at;
use crate::live::{TableHead, TableView};
use crate::owners::is_visible;
use crate::version::Version;
use cat_rows::{CatRows, DataFileRow, SchemaRow, TableRow};
use cat_tables::find_row;
use file_disk::Held;
use lake_types::{Copied, NoMemory, SchemaName, SchemaNames};
use std::alloc::Global;
use std::sync::Arc;

/// Adds a schema's name, where a snapshot sees it.
fn add_schema(
    alloc: Global,
    names: &mut SchemaNames,
    row: &SchemaRow,
    snapshot: u64,
) -> Result<(), NoMemory>
    ensures { OnOk result (names.new ≡ names.old ++ spec.schemas_in snapshot (row.now ∷ [])) }
{
    if is_visible(row.begin_snapshot, row.end_snapshot, snapshot) {
        let name = row.schema_name.copy(alloc)?;
        names.push(SchemaName {
            id: row.schema_id,
            name,
        })?;
    }
    Ok(())
}

/// The schemas that a snapshot sees.
fn schemas_at(alloc: Global, rows: &[SchemaRow], snapshot: u64) -> Result<SchemaNames, NoMemory>
    ensures { IfOk result (λ names. names ≡ spec.schemas_in snapshot rows.now) }
{
    let mut names = SchemaNames::new(alloc);
    for row in rows {
        add_schema(alloc, &mut names, row, snapshot)?;
    }
    Ok(names)
}

/// Adds a table's head, where a snapshot sees it.
fn add_head(
    alloc: Global,
    heads: &mut Vec<TableHead>,
    row: &TableRow,
    snapshot: u64,
) -> Result<(), NoMemory>
    ensures { OnOk result (heads.new.items ≡ heads.old.items ++ spec.heads_in snapshot (row.now ∷ [])) }
{
    if is_visible(row.begin_snapshot, row.end_snapshot, snapshot) {
        let name = row.table_name.copy(alloc)?;
        heads.push(TableHead {
            id: row.table_id,
            schema: row.schema_id,
            name,
        })?;
    }
    Ok(())
}

/// The heads of the tables that a snapshot sees.
fn heads_at(alloc: Global, rows: &[TableRow], snapshot: u64) -> Result<Vec<TableHead>, NoMemory>
    ensures { IfOk result (λ heads. heads.items ≡ spec.heads_in snapshot rows.now) }
{
    let mut heads = Vec::new(alloc);
    for row in rows {
        add_head(alloc, &mut heads, row, snapshot)?;
    }
    Ok(heads)
}

fn ids_of_heads(alloc: Global, heads: &[TableHead]) -> Result<Vec<u64>, NoMemory>
    ensures { IfOk result (λ ids. ids.items ≡ map (λ h. h.id) heads.now) }
{
    let mut ids = Vec::new(alloc);
    for head in heads {
        ids.push(head.id)?;
    }
    Ok(ids)
}

fn ids_of_files(alloc: Global, rows: &[DataFileRow]) -> Result<Vec<u64>, NoMemory>
    ensures { IfOk result (λ ids. ids.items ≡ file_ids rows.now) }
{
    let mut ids = Vec::new(alloc);
    for row in rows {
        ids.push(row.data_file_id)?;
    }
    Ok(ids)
}

/// For each data file the places of its delete files and of its statistics.
#[tactic(auto, using(crate::proofs::BuildLemmas::files_rise))]
fn file_places(alloc: Global, rows: &CatRows, snapshot: u64) -> Result<FilePlaces, NoMemory>
    ensures places { IfOk result (AreFilePlaces (tables_of rows.now)) }
    ensures snapshot { IfOk result (λ p. p.snapshot ≡ snapshot) }
{
    let ids = ids_of_files(alloc, rows.data_file())?;
    let deletes = rows_by_owner(alloc, rows.delete_file(), snapshot, ids.as_slice())?;
    let stats = rows_by_owner(alloc, rows.file_column_stats(), snapshot, ids.as_slice())?;
    Ok(FilePlaces {
        snapshot,
        ids,
        deletes,
        stats,
    })
}

/// For each table, whose ids rise, the places of its columns, data files and inlined rows at a snapshot.
#[derive(Drop)]
pub struct TablePlaces {
    pub ids: Vec<u64>,
    pub columns: Vec<Places>,
    pub data_files: Vec<Places>,
    pub inlined: Vec<Places>,
}

fn table_places(
    alloc: Global,
    rows: &CatRows,
    snapshot: u64,
    ids: Vec<u64>,
) -> Result<TablePlaces, NoMemory>
    requires { RisesByKey id_key ids.items }
    ensures places { IfOk result (spec.AreTablePlaces snapshot (tables_of rows.now)) }
    ensures ids { IfOk result (λ p. p.ids.items ≡ ids.items) }
{
    let columns = rows_by_owner(alloc, rows.column(), snapshot, ids.as_slice())?;
    let data_files = rows_by_owner(alloc, rows.data_file(), snapshot, ids.as_slice())?;
    let inlined = rows_by_owner(alloc, rows.inlined_row(), snapshot, ids.as_slice())?;
    Ok(TablePlaces {
        ids,
        columns,
        data_files,
        inlined,
    })
}

/// A table's next row id and next field id, which its statistics have.
fn counters_of(rows: &CatRows, table: u64) -> (u64, u32)
    requires { spec.HasCountersOf (tables_of rows.now) table }
    ensures { spec.AreCountersOf (tables_of rows.now) table result.0 result.1 }
{
    match find_row(rows.table_stats(), &table) {
        Some(stats) => (stats.next_row_id, stats.next_field_id as u32),
        None => unreachable!(),
    }
}

/// A table as a snapshot sees it.
fn table_view<F: Held>(
    alloc: Global,
    held: &HeldFiles<F>,
    rows: &CatRows,
    files: &FilePlaces,
    places: &TablePlaces,
    head: TableHead,
) -> Result<TableView<F>, NoMemory>
    requires files { AreFilePlaces (tables_of rows.now) files.now }
    requires places { spec.AreTablePlaces files.now.snapshot (tables_of rows.now) places.now }
    requires known { list_any (λ id. id == head.id) places.now.ids.items ≡ true }
    requires readable { CanBeSeen F.name (held_in held.now).rows (tables_of rows.now) files.now.snapshot }
    requires ready { spec.IsReady files.now.snapshot (tables_of rows.now) head.id }
    ensures { IfOk result (spec.IsTableView F.name (held_in held.now).rows files.now.snapshot (tables_of
        rows.now) F.size F.part F.bytes head) }
{
    let ids = places.ids.as_slice();
    let columns = columns_at(
        alloc,
        rows.column(),
        group_of(places.columns.as_slice(), ids, head.id),
    )?;
    let data = group_of(places.data_files.as_slice(), ids, head.id);
    let files = files_at(alloc, held, rows, files, columns.as_slice(), data)?;
    let inlined = inlined_at(
        alloc,
        rows.inlined_row(),
        group_of(places.inlined.as_slice(), ids, head.id),
        columns.as_slice(),
    )?;
    let (next_row, next_field) = counters_of(rows, head.id);
    Ok(TableView {
        head,
        columns,
        files,
        inlined,
        next_row,
        next_field,
    })
}

/// Adds the table of a head.
#[tactic(auto, using(crate::proofs::ViewLemmas::one_table))]
fn add_table<F: Held>(
    alloc: Global,
    tables: &mut Vec<Arc<TableView<F>>>,
    held: &HeldFiles<F>,
    rows: &CatRows,
    files: &FilePlaces,
    places: &TablePlaces,
    head: &TableHead,
) -> Result<(), NoMemory>
    requires files { AreFilePlaces (tables_of rows.now) files.now }
    requires places { spec.AreTablePlaces files.now.snapshot (tables_of rows.now) places.now }
    requires known { list_any (λ id. id == head.now.id) places.now.ids.items ≡ true }
    requires readable { CanBeSeen F.name (held_in held.now).rows (tables_of rows.now) files.now.snapshot }
    requires ready { spec.IsReady files.now.snapshot (tables_of rows.now) head.now.id }
    ensures { OnOk result ((heads : List TableHead) → spec.AreTableViews F.name (held_in held.now).rows
        files.now.snapshot (tables_of rows.now) F.size F.part F.bytes heads tables.old.items →
        spec.AreTableViews F.name (held_in held.now).rows files.now.snapshot (tables_of rows.now) F.size
        F.part F.bytes (heads ++ head.now ∷ []) tables.new.items) }
{
    let own = head.copy(alloc)?;
    let table = table_view(alloc, held, rows, files, places, own)?;
    let shared = Arc::new(alloc, table)?;
    tables.push(shared)?;
    Ok(())
}

/// The tables of some heads.
fn tables_at<F: Held>(
    alloc: Global,
    held: &HeldFiles<F>,
    rows: &CatRows,
    files: &FilePlaces,
    places: &TablePlaces,
    heads: &[TableHead],
) -> Result<Vec<Arc<TableView<F>>>, NoMemory>
    requires files { AreFilePlaces (tables_of rows.now) files.now }
    requires places { spec.AreTablePlaces files.now.snapshot (tables_of rows.now) places.now }
    requires known { AllByRecursion (λ h. list_any (λ id. id == h.id) places.now.ids.items ≡ true) heads.now }
    requires readable { CanBeSeen F.name (held_in held.now).rows (tables_of rows.now) files.now.snapshot }
    requires ready { AllByRecursion (λ h. spec.IsReady files.now.snapshot (tables_of rows.now) h.id) heads.now }
    ensures { IfOk result (λ tables. spec.AreTableViews F.name (held_in held.now).rows files.now.snapshot
        (tables_of rows.now) F.size F.part F.bytes heads.now tables.items) }
{
    let mut tables = Vec::new(alloc);
    for at in 0..heads.len() {
        add_table(alloc, &mut tables, held, rows, files, places, &heads[at])?;
    }
    Ok(tables)
}

/// The version that a snapshot sees. Time and memory go with the rows that are there, and with those that the snapshot
/// sees; each row finds what it belongs to by its id.
pub fn version_at<F: Held>(
    alloc: Global,
    rows: &CatRows,
    held: &HeldFiles<F>,
    snapshot: u64,
) -> Result<Version<F>, NoMemory>
    requires { CanBeSeen F.name (held_in held.now).rows (tables_of rows.now) snapshot }
    ensures version { IfOk result (λ v. IsVersionAt (tables_of rows.now) snapshot (named_version F.name v)) }
    ensures counters { IfOk result (λ v. AllByRecursion (HasCounters (tables_of rows.now)) (named_version F.name
        v).tables) }
    ensures stats { IfOk result (TellStats (tables_of rows.now)) }
    ensures files { IfOk result (AreHeld F.name F.size F.part F.bytes (held_in held.now).rows) }
{
    let schemas = schemas_at(alloc, rows.schema(), snapshot)?;
    let heads = heads_at(alloc, rows.table(), snapshot)?;
    let ids = ids_of_heads(alloc, heads.as_slice())?;
    let places = table_places(alloc, rows, snapshot, ids)?;
    let files = file_places(alloc, rows, snapshot)?;
    let tables = tables_at(alloc, held, rows, &files, &places, heads.as_slice())?;
    Ok(Version { schemas, tables })
}
