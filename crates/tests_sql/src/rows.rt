//! A row of each table, and the keys of these rows.

use cat_rows::{
    CatRow, CatRowList, ColumnRow, DataFileRow, DeleteFileRow, EndList, FileColumnStatsRow,
    InlinedRow, Key, KeyList, MetadataRow, ScheduledFileRow, SchemaRow, SnapshotChangesRow,
    SnapshotRow, TableRow, TableStatsRow,
};
use lake_types::{Blob, NoMemory, Words};
use std::alloc::Global;

/// The greatest number that a database has.
pub const GREATEST: u64 = 9_223_372_036_854_775_807;

pub fn snapshot_row(id: u64) -> CatRow {
    CatRow::Snapshot(SnapshotRow {
        snapshot_id: id,
        snapshot_time: -5,
        next_catalog_id: 2,
        next_file_id: 3,
    })
}

fn add_history(alloc: Global, rows: &mut CatRowList) -> Result<(), NoMemory> {
    rows.push(CatRow::Metadata(MetadataRow {
        key: Words::of(alloc, "layout")?,
        value: Words::of(alloc, "")?,
    }))?;
    rows.push(snapshot_row(GREATEST))?;
    rows.push(CatRow::SnapshotChanges(SnapshotChangesRow {
        snapshot_id: 7,
        changes_made: Words::of(alloc, "created_schema:\"it's\"")?,
    }))
}

fn add_schemas(alloc: Global, rows: &mut CatRowList) -> Result<(), NoMemory> {
    rows.push(CatRow::Schema(SchemaRow {
        schema_id: 1,
        begin_snapshot: 2,
        end_snapshot: None,
        schema_name: Words::of(alloc, "main")?,
    }))?;
    rows.push(CatRow::Table(TableRow {
        table_id: 3,
        begin_snapshot: 4,
        end_snapshot: None,
        schema_id: 1,
        table_name: Words::of(alloc, "t")?,
    }))
}

fn add_column(alloc: Global, rows: &mut CatRowList) -> Result<(), NoMemory> {
    rows.push(CatRow::Column(ColumnRow {
        table_id: 3,
        column_id: 5,
        begin_snapshot: 4,
        end_snapshot: None,
        column_order: 6,
        column_name: Words::of(alloc, "a")?,
        column_type: Words::of(alloc, "varchar")?,
        initial_default: None,
        default_value: Some(Words::of(alloc, "\u{e9}\0z")?),
        nulls_allowed: true,
    }))
}

fn add_data_file(alloc: Global, rows: &mut CatRowList) -> Result<(), NoMemory> {
    rows.push(CatRow::DataFile(DataFileRow {
        data_file_id: 8,
        begin_snapshot: 4,
        end_snapshot: None,
        table_id: 3,
        path: Words::of(alloc, "a.parquet")?,
        record_count: 9,
        file_size_bytes: 10,
        row_id_start: None,
        weight: 11,
    }))?;
    rows.push(CatRow::FileColumnStats(FileColumnStatsRow {
        data_file_id: 8,
        column_id: 5,
        null_count: 12,
        min_value: Some(Words::of(alloc, "")?),
        max_value: None,
    }))
}

fn add_delete_file(alloc: Global, rows: &mut CatRowList) -> Result<(), NoMemory> {
    rows.push(CatRow::DeleteFile(DeleteFileRow {
        delete_file_id: 13,
        begin_snapshot: 4,
        end_snapshot: None,
        table_id: 3,
        data_file_id: 8,
        path: Words::of(alloc, "a-delete.parquet")?,
        delete_count: 14,
        file_size_bytes: 15,
    }))?;
    rows.push(CatRow::TableStats(TableStatsRow {
        table_id: 3,
        record_count: 16,
        next_row_id: 17,
        next_field_id: 18,
        file_size_bytes: 19,
    }))
}

fn add_rest(alloc: Global, rows: &mut CatRowList) -> Result<(), NoMemory> {
    rows.push(CatRow::Inlined(InlinedRow {
        table_id: 3,
        row_id: 20,
        begin_snapshot: 4,
        end_snapshot: None,
        cells: Blob::of(alloc, &[0, 255])?,
    }))?;
    rows.push(CatRow::ScheduledFile(ScheduledFileRow {
        path: Words::of(alloc, "b.parquet")?,
    }))
}

/// Adds a row of each table.
pub fn add_all(alloc: Global, rows: &mut CatRowList) -> Result<(), NoMemory> {
    add_history(alloc, rows)?;
    add_schemas(alloc, rows)?;
    add_column(alloc, rows)?;
    add_data_file(alloc, rows)?;
    add_delete_file(alloc, rows)?;
    add_rest(alloc, rows)
}

/// The keys of those that can end.
pub fn end_all(ends: &mut EndList) -> Result<(), NoMemory> {
    ends.push((Key::Schema(1), 30))?;
    ends.push((Key::Table(3), 31))?;
    ends.push((Key::Column(3, 5, 4), 32))?;
    ends.push((Key::DataFile(8), 33))?;
    ends.push((Key::DeleteFile(13), 34))?;
    ends.push((Key::Inlined(3, 20, 4), GREATEST))
}

fn remove_numbered(keys: &mut KeyList) -> Result<(), NoMemory> {
    keys.push(Key::Snapshot(GREATEST))?;
    keys.push(Key::SnapshotChanges(7))?;
    keys.push(Key::Schema(1))?;
    keys.push(Key::Table(3))?;
    keys.push(Key::DataFile(8))?;
    keys.push(Key::DeleteFile(13))?;
    keys.push(Key::TableStats(3))
}

/// The keys of them all.
pub fn remove_all(alloc: Global, keys: &mut KeyList) -> Result<(), NoMemory> {
    remove_numbered(keys)?;
    keys.push(Key::Metadata(Words::of(alloc, "layout")?))?;
    keys.push(Key::Column(3, 5, 4))?;
    keys.push(Key::FileColumnStats(8, 5))?;
    keys.push(Key::Inlined(3, 20, 4))?;
    keys.push(Key::ScheduledFile(Words::of(alloc, "b.parquet")?))
}
