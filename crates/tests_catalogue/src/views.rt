use crate::sane::{changes, is_sane, stored};
use crate::seen::{hold, seen};
use cat_rows::{
    CatRow, CatRowList, CatRows, ColumnRow, DataFileRow, DeleteFileRow, FileColumnStatsRow,
    InlinedRow, MetadataRow, SchemaRow, SnapshotRow, TableRow, TableStatsRow,
};
use cat_view::{HeldFiles, LiveFile, View};
use file_disk::{Held, MemDisk, MemFile};
use lake_io::FailList;
use lake_types::{Blob, Listed, NoMemory, Row, Value, Words};
use new_files::write_as;
use std::alloc::Global;
use std::sync::Arc;
use std::test::Fail;

/// A snapshot, and what it changed.
#[derive(Clone, Copy)]
struct Made {
    id: u64,
    next_catalog_id: u64,
    next_file_id: u64,
    changes: &'static str,
}

/// The schema `main`; two tables, of which one gets a data file and an inlined row; a delete file, a column's
/// new name and a further column; and a further schema, while the second table is dropped and the inlined row
/// deleted.
const HISTORY: [Made; 4] = [
    Made {
        id: 0,
        next_catalog_id: 1,
        next_file_id: 0,
        changes: "created_schema:\"main\"",
    },
    Made {
        id: 1,
        next_catalog_id: 3,
        next_file_id: 1,
        changes: "created_table:\"main\".\"t\",created_table:\"main\".\"u\"",
    },
    Made {
        id: 2,
        next_catalog_id: 3,
        next_file_id: 2,
        changes: "deleted_from_table:1,altered_table:1",
    },
    Made {
        id: 3,
        next_catalog_id: 4,
        next_file_id: 2,
        changes: "created_schema:\"side\",deleted_from_table:1,dropped_table:2",
    },
];

/// A row of a column.
#[derive(Clone, Copy)]
struct ColumnAt {
    table: u64,
    field: u64,
    begin: u64,
    end: Option<u64>,
    order: u64,
    name: &'static str,
    column_type: &'static str,
    initial: Option<&'static str>,
}

const COLUMNS: [ColumnAt; 4] = [
    ColumnAt {
        table: 1,
        field: 1,
        begin: 1,
        end: Some(2),
        order: 1,
        name: "a",
        column_type: "int64",
        initial: None,
    },
    ColumnAt {
        table: 1,
        field: 1,
        begin: 2,
        end: None,
        order: 1,
        name: "c",
        column_type: "int64",
        initial: None,
    },
    ColumnAt {
        table: 1,
        field: 2,
        begin: 2,
        end: None,
        order: 0,
        name: "b",
        column_type: "varchar",
        initial: Some("x"),
    },
    ColumnAt {
        table: 2,
        field: 1,
        begin: 1,
        end: Some(3),
        order: 0,
        name: "n",
        column_type: "boolean",
        initial: None,
    },
];

const DATA_PATH: &str = "rows.parquet";

const DELETE_PATH: &str = "rows-delete.parquet";

/// The spelling of one cell: the integer 7 in field 1.
const SEVEN: [u8; 4] = [1, 1, 3, 14];

fn add_snapshot(alloc: Global, adds: &mut CatRowList, made: Made) -> Result<(), NoMemory> {
    adds.push(CatRow::Snapshot(SnapshotRow {
        snapshot_id: made.id,
        snapshot_time: 0,
        next_catalog_id: made.next_catalog_id,
        next_file_id: made.next_file_id,
    }))?;
    adds.push(changes(alloc, made.id, made.changes)?)
}

/// The layout, and the snapshots with their changes texts.
fn add_history(alloc: Global, adds: &mut CatRowList) -> Result<(), NoMemory> {
    adds.push(CatRow::Metadata(MetadataRow {
        key: Words::of(alloc, "layout")?,
        value: Words::of(alloc, "1")?,
    }))?;
    for made in HISTORY {
        add_snapshot(alloc, adds, made)?;
    }
    Ok(())
}

fn schema(alloc: Global, id: u64, begin: u64, name: &str) -> Result<CatRow, NoMemory> {
    Ok(CatRow::Schema(SchemaRow {
        schema_id: id,
        begin_snapshot: begin,
        end_snapshot: None,
        schema_name: Words::of(alloc, name)?,
    }))
}

fn table(alloc: Global, id: u64, end: Option<u64>, name: &str) -> Result<CatRow, NoMemory> {
    Ok(CatRow::Table(TableRow {
        table_id: id,
        begin_snapshot: 1,
        end_snapshot: end,
        schema_id: 0,
        table_name: Words::of(alloc, name)?,
    }))
}

fn counters(table: u64, rows: u64, next_row: u64, next_field: u64) -> CatRow {
    CatRow::TableStats(TableStatsRow {
        table_id: table,
        record_count: rows,
        next_row_id: next_row,
        next_field_id: next_field,
        file_size_bytes: 0,
    })
}

/// Two schemas, and two tables with their counters.
fn add_heads(alloc: Global, adds: &mut CatRowList) -> Result<(), NoMemory> {
    adds.push(schema(alloc, 0, 0, "main")?)?;
    adds.push(schema(alloc, 3, 3, "side")?)?;
    adds.push(table(alloc, 1, None, "t")?)?;
    adds.push(table(alloc, 2, Some(3), "u")?)?;
    adds.push(counters(1, 7, 11, 3))?;
    adds.push(counters(2, 0, 0, 2))
}

fn initial(alloc: Global, at: ColumnAt) -> Result<Option<Words>, NoMemory> {
    match at.initial {
        Some(text) => Ok(Some(Words::of(alloc, text)?)),
        None => Ok(None),
    }
}

fn column(alloc: Global, at: ColumnAt) -> Result<CatRow, NoMemory> {
    Ok(CatRow::Column(ColumnRow {
        table_id: at.table,
        column_id: at.field,
        begin_snapshot: at.begin,
        end_snapshot: at.end,
        column_order: at.order,
        column_name: Words::of(alloc, at.name)?,
        column_type: Words::of(alloc, at.column_type)?,
        initial_default: initial(alloc, at)?,
        default_value: None,
        nulls_allowed: true,
    }))
}

fn add_columns(alloc: Global, adds: &mut CatRowList) -> Result<(), NoMemory> {
    for at in COLUMNS {
        adds.push(column(alloc, at)?)?;
    }
    Ok(())
}

fn data_file(alloc: Global) -> Result<CatRow, NoMemory> {
    Ok(CatRow::DataFile(DataFileRow {
        data_file_id: 0,
        begin_snapshot: 1,
        end_snapshot: None,
        table_id: 1,
        path: Words::of(alloc, DATA_PATH)?,
        record_count: 10,
        file_size_bytes: 4,
        row_id_start: Some(0),
        weight: 240,
    }))
}

fn delete_file(alloc: Global) -> Result<CatRow, NoMemory> {
    Ok(CatRow::DeleteFile(DeleteFileRow {
        delete_file_id: 1,
        begin_snapshot: 2,
        end_snapshot: None,
        table_id: 1,
        data_file_id: 0,
        path: Words::of(alloc, DELETE_PATH)?,
        delete_count: 3,
        file_size_bytes: 4,
    }))
}

fn column_stats(alloc: Global) -> Result<CatRow, NoMemory> {
    Ok(CatRow::FileColumnStats(FileColumnStatsRow {
        data_file_id: 0,
        column_id: 1,
        null_count: 2,
        min_value: Some(Words::of(alloc, "-5")?),
        max_value: Some(Words::of(alloc, "90")?),
    }))
}

fn inlined_row(alloc: Global) -> Result<CatRow, NoMemory> {
    Ok(CatRow::Inlined(InlinedRow {
        table_id: 1,
        row_id: 10,
        begin_snapshot: 1,
        end_snapshot: Some(3),
        cells: Blob::of(alloc, &SEVEN[..])?,
    }))
}

fn add_rows(alloc: Global, adds: &mut CatRowList) -> Result<(), NoMemory> {
    adds.push(data_file(alloc)?)?;
    adds.push(delete_file(alloc)?)?;
    adds.push(column_stats(alloc)?)?;
    adds.push(inlined_row(alloc)?)
}

/// The catalogue of all these rows, if they fit one.
pub fn catalogue(alloc: Global) -> Result<Option<CatRows>, NoMemory> {
    let mut adds = Listed::new(alloc);
    add_history(alloc, &mut adds)?;
    add_heads(alloc, &mut adds)?;
    add_columns(alloc, &mut adds)?;
    add_rows(alloc, &mut adds)?;
    stored(alloc, adds)
}

/// Writes a file of this name and holds it; whether that went well.
fn add_file(
    alloc: Global,
    disk: &mut MemDisk,
    held: &mut HeldFiles<MemFile>,
    name: &str,
) -> Result<bool, NoMemory> {
    let name = Words::of(alloc, name)?;
    match write_as(alloc, disk, &name, b"rows") {
        Ok(file) => hold(held, file),
        Err(_) => Ok(false),
    }
}

/// The data file and the delete file.
pub fn both_files(alloc: Global) -> Result<HeldFiles<MemFile>, NoMemory> {
    let calls = Vec::new(alloc);
    let mut disk = MemDisk::new(alloc, FailList { calls, from: None });
    let mut held = HeldFiles::new(alloc);
    add_file(alloc, &mut disk, &mut held, DATA_PATH)?;
    add_file(alloc, &mut disk, &mut held, DELETE_PATH)?;
    Ok(held)
}

fn schemas_of(alloc: Global, view: &View<MemFile>) -> Result<String, NoMemory> {
    let mut text = String::new(alloc);
    for schema in view.schemas().as_slice() {
        let id = schema.id;
        let name = schema.name.as_str();
        text.push_str(format!(in alloc; "{id} {name};")?.as_str())?;
    }
    Ok(text)
}

fn tables_of(alloc: Global, view: &View<MemFile>) -> Result<String, NoMemory> {
    let mut text = String::new(alloc);
    for table in view.tables() {
        let id = table.head.id;
        let schema = table.head.schema;
        let name = table.head.name.as_str();
        text.push_str(format!(in alloc; "{id} {schema} {name};")?.as_str())?;
    }
    Ok(text)
}

/// A table's field ids and names, in the columns' order.
fn columns_of(alloc: Global, view: &View<MemFile>, table: u64) -> Result<String, NoMemory> {
    let mut text = String::new(alloc);
    if view.find(table).is_none() {
        return Ok(text);
    }
    for column in view.columns(table) {
        let field = column.field;
        let name = column.name.as_str();
        text.push_str(format!(in alloc; "{field} {name};")?.as_str())?;
    }
    Ok(text)
}

/// How many of its rows a delete file takes, and 0 where there is none.
fn deleted(file: &LiveFile<MemFile>) -> u64 {
    match &file.deletes {
        Some(deletes) => deletes.count,
        None => 0,
    }
}

/// A table's data files: id, name, rows, those deleted, and of how many columns there are statistics.
fn files_of(alloc: Global, view: &View<MemFile>, table: u64) -> Result<String, NoMemory> {
    let mut text = String::new(alloc);
    if view.find(table).is_none() {
        return Ok(text);
    }
    for file in view.files(table) {
        let id = file.id;
        let name = file.file.name().as_str();
        let rows = file.rows;
        let less = deleted(&**file);
        let stats = file.stats.len();
        text.push_str(format!(in alloc; "{id} {name} {rows}-{less} {stats};")?.as_str())?;
    }
    Ok(text)
}

fn cell_text(alloc: Global, cell: &Value) -> Result<String, NoMemory> {
    match cell {
        Value::Int(number) => format!(in alloc; "{number}"),
        Value::Text(text) => String::from_str(alloc, text.as_str()),
        _ => String::from_str(alloc, "other"),
    }
}

/// A row's id, and its cells with their field ids.
fn row_text(alloc: Global, row: &Row) -> Result<String, NoMemory> {
    let id = row.id;
    let mut text = format!(in alloc; "{id}:")?;
    for (field, cell) in row.cells.as_slice() {
        let cell = cell_text(alloc, cell)?;
        text.push_str(format!(in alloc; " {field}={cell}")?.as_str())?;
    }
    Ok(text)
}

fn inlined_of(alloc: Global, view: &View<MemFile>, table: u64) -> Result<String, NoMemory> {
    let mut text = String::new(alloc);
    if view.find(table).is_none() {
        return Ok(text);
    }
    for row in view.inlined(table) {
        text.push_str(row_text(alloc, &**row)?.as_str())?;
        text.push_str(";")?;
    }
    Ok(text)
}

/// A table's next row id and next field id.
fn counters_of(view: &View<MemFile>, table: u64) -> Option<(u64, u32)> {
    if view.find(table).is_none() {
        return None;
    }
    Some((view.next_row(table), view.next_field(table)))
}

/// What one snapshot sees, of the tables 1 and 2.
#[derive(Clone, Copy)]
struct Sight {
    snapshot: u64,
    schemas: &'static str,
    tables: &'static str,
    columns: &'static str,
    second_columns: &'static str,
    files: &'static str,
    inlined: &'static str,
    side: Option<u64>,
    second: Option<u64>,
    second_counters: Option<(u64, u32)>,
}

const SIGHTS: [Sight; 3] = [
    Sight {
        snapshot: 1,
        schemas: "0 main;",
        tables: "1 0 t;2 0 u;",
        columns: "1 a;",
        second_columns: "1 n;",
        files: "0 rows.parquet 10-0 1;",
        inlined: "10: 1=7;",
        side: None,
        second: Some(2),
        second_counters: Some((0, 2)),
    },
    Sight {
        snapshot: 2,
        schemas: "0 main;",
        tables: "1 0 t;2 0 u;",
        columns: "2 b;1 c;",
        second_columns: "1 n;",
        files: "0 rows.parquet 10-3 1;",
        inlined: "10: 2=x 1=7;",
        side: None,
        second: Some(2),
        second_counters: Some((0, 2)),
    },
    Sight {
        snapshot: 3,
        schemas: "0 main;3 side;",
        tables: "1 0 t;",
        columns: "2 b;1 c;",
        second_columns: "",
        files: "0 rows.parquet 10-3 1;",
        inlined: "",
        side: Some(3),
        second: None,
        second_counters: None,
    },
];

/// Whether the view names and finds schemas and tables so.
fn finds(view: &View<MemFile>, sight: Sight) -> bool {
    view.base() == sight.snapshot
        && view.read_only()
        && view.schema("main") == Some(0)
        && view.schema("side") == sight.side
        && view.table(0, "t") == Some(1)
        && view.table(0, "u") == sight.second
        && view.version().tables.len() == view.tables().len()
}

/// Whether the view has these schemas, tables and columns.
fn has_heads(alloc: Global, view: &View<MemFile>, sight: Sight) -> Result<bool, NoMemory> {
    Ok(
        schemas_of(alloc, view)?.as_str() == sight.schemas
            && tables_of(alloc, view)?.as_str() == sight.tables
            && columns_of(alloc, view, 1)?.as_str() == sight.columns
            && columns_of(alloc, view, 2)?.as_str() == sight.second_columns,
    )
}

/// Whether the view has these files, inlined rows and counters.
fn has_rows(alloc: Global, view: &View<MemFile>, sight: Sight) -> Result<bool, NoMemory> {
    Ok(
        files_of(alloc, view, 1)?.as_str() == sight.files
            && inlined_of(alloc, view, 1)?.as_str() == sight.inlined
            && counters_of(view, 1) == Some((11, 3))
            && counters_of(view, 2) == sight.second_counters,
    )
}

/// Whether a snapshot sees this.
fn is_seen(
    alloc: Global,
    rows: &CatRows,
    held: &HeldFiles<MemFile>,
    sight: Sight,
) -> Result<bool, NoMemory> {
    let Some(version) = seen(alloc, rows, held, sight.snapshot)? else {
        return Ok(false);
    };
    let view = View::new(sight.snapshot, true, Arc::new(alloc, version)?);
    Ok(finds(&view, sight) && has_heads(alloc, &view, sight)? && has_rows(alloc, &view, sight)?)
}

#[test]
fn the_rows_break_no_rule(rt: HostRuntime) -> Result<(), Fail> {
    let rows = catalogue(rt.alloc())?;
    assert_eq!(rt; is_sane(rt.alloc(), rows)?, true);
    Ok(())
}

/// Whether the snapshot of a sight sees it.
fn tells(alloc: Global, sight: Sight) -> Result<bool, NoMemory> {
    let held = both_files(alloc)?;
    match catalogue(alloc)? {
        Some(rows) => is_seen(alloc, &rows, &held, sight),
        None => Ok(false),
    }
}

#[test]
fn each_snapshot_sees_its_version(rt: HostRuntime) -> Result<(), Fail> {
    for sight in SIGHTS {
        let snapshot = sight.snapshot;
        assert_eq!(rt; tells(rt.alloc(), sight)?, true, "at {snapshot}");
    }
    Ok(())
}

/// Whether a file is held, is taken out, and then is no longer there.
fn is_taken(held: &mut HeldFiles<MemFile>, name: &Words) -> bool {
    let was = held.get(name).is_some();
    match held.remove(name) {
        Some(file) => was && file.name().as_str() == name.as_str() && held.get(name).is_none(),
        None => false,
    }
}

#[test]
fn a_held_file_is_taken_out(rt: HostRuntime) -> Result<(), Fail> {
    let alloc = rt.alloc();
    let mut held = both_files(alloc)?;
    let name = Words::of(alloc, DELETE_PATH)?;
    assert_eq!(rt; is_taken(&mut held, &name), true);
    assert_eq!(rt; is_taken(&mut held, &name), false);
    Ok(())
}
