//! A statement for each row that is added.

use crate::numbers::{int, may_int};
use crate::running::change_one;
use cat_rows::{
    CatRow, ColumnRow, DataFileRow, DeleteFileRow, FileColumnStatsRow, InlinedRow, MetadataRow,
    ScheduledFileRow, SchemaRow, SnapshotChangesRow, SnapshotRow, TableRow, TableStatsRow,
};
use lake_types::Words;
use sqlite::{Alter, Error, Transaction, params};

fn may_text(text: &Option<Words>) -> Option<&str> {
    match text {
        Some(text) => Some(text.as_str()),
        None => None,
    }
}

fn add_metadata<S: Alter>(tx: &mut Transaction<'_, S>, row: &MetadataRow) -> Result<(), Error> {
    change_one(
        tx,
        "INSERT INTO ducklake_metadata (key, value) VALUES (?1, ?2)",
        params![row.key.as_str(), row.value.as_str()],
    )
}

fn add_snapshot<S: Alter>(tx: &mut Transaction<'_, S>, row: &SnapshotRow) -> Result<(), Error> {
    change_one(
        tx,
        "INSERT INTO ducklake_snapshot
            (snapshot_id, snapshot_time, next_catalog_id, next_file_id)
            VALUES (?1, ?2, ?3, ?4)",
        params![
            int(row.snapshot_id),
            row.snapshot_time,
            int(row.next_catalog_id),
            int(row.next_file_id)
        ],
    )
}

fn add_snapshot_changes<S: Alter>(
    tx: &mut Transaction<'_, S>,
    row: &SnapshotChangesRow,
) -> Result<(), Error> {
    change_one(
        tx,
        "INSERT INTO ducklake_snapshot_changes (snapshot_id, changes_made) VALUES (?1, ?2)",
        params![int(row.snapshot_id), row.changes_made.as_str()],
    )
}

fn add_schema<S: Alter>(tx: &mut Transaction<'_, S>, row: &SchemaRow) -> Result<(), Error> {
    change_one(
        tx,
        "INSERT INTO ducklake_schema
            (schema_id, begin_snapshot, end_snapshot, schema_name)
            VALUES (?1, ?2, ?3, ?4)",
        params![
            int(row.schema_id),
            int(row.begin_snapshot),
            may_int(row.end_snapshot),
            row.schema_name.as_str()
        ],
    )
}

fn add_table<S: Alter>(tx: &mut Transaction<'_, S>, row: &TableRow) -> Result<(), Error> {
    change_one(
        tx,
        "INSERT INTO ducklake_table
            (table_id, begin_snapshot, end_snapshot, schema_id, table_name)
            VALUES (?1, ?2, ?3, ?4, ?5)",
        params![
            int(row.table_id),
            int(row.begin_snapshot),
            may_int(row.end_snapshot),
            int(row.schema_id),
            row.table_name.as_str()
        ],
    )
}

fn add_column<S: Alter>(tx: &mut Transaction<'_, S>, row: &ColumnRow) -> Result<(), Error> {
    change_one(
        tx,
        "INSERT INTO ducklake_column
            (table_id, column_id, begin_snapshot, end_snapshot, column_order, column_name,
            column_type, initial_default, default_value, nulls_allowed)
            VALUES (?1, ?2, ?3, ?4, ?5, ?6, ?7, ?8, ?9, ?10)",
        params![
            int(row.table_id),
            int(row.column_id),
            int(row.begin_snapshot),
            may_int(row.end_snapshot),
            int(row.column_order),
            row.column_name.as_str(),
            row.column_type.as_str(),
            may_text(&row.initial_default),
            may_text(&row.default_value),
            row.nulls_allowed
        ],
    )
}

fn add_data_file<S: Alter>(tx: &mut Transaction<'_, S>, row: &DataFileRow) -> Result<(), Error> {
    change_one(
        tx,
        "INSERT INTO ducklake_data_file
            (data_file_id, begin_snapshot, end_snapshot, table_id, path, record_count,
            file_size_bytes, row_id_start, weight)
            VALUES (?1, ?2, ?3, ?4, ?5, ?6, ?7, ?8, ?9)",
        params![
            int(row.data_file_id),
            int(row.begin_snapshot),
            may_int(row.end_snapshot),
            int(row.table_id),
            row.path.as_str(),
            int(row.record_count),
            int(row.file_size_bytes),
            may_int(row.row_id_start),
            int(row.weight)
        ],
    )
}

fn add_delete_file<S: Alter>(
    tx: &mut Transaction<'_, S>,
    row: &DeleteFileRow,
) -> Result<(), Error> {
    change_one(
        tx,
        "INSERT INTO ducklake_delete_file
            (delete_file_id, begin_snapshot, end_snapshot, table_id, data_file_id, path,
            delete_count, file_size_bytes)
            VALUES (?1, ?2, ?3, ?4, ?5, ?6, ?7, ?8)",
        params![
            int(row.delete_file_id),
            int(row.begin_snapshot),
            may_int(row.end_snapshot),
            int(row.table_id),
            int(row.data_file_id),
            row.path.as_str(),
            int(row.delete_count),
            int(row.file_size_bytes)
        ],
    )
}

fn add_file_column_stats<S: Alter>(
    tx: &mut Transaction<'_, S>,
    row: &FileColumnStatsRow,
) -> Result<(), Error> {
    change_one(
        tx,
        "INSERT INTO ducklake_file_column_stats
            (data_file_id, column_id, null_count, min_value, max_value)
            VALUES (?1, ?2, ?3, ?4, ?5)",
        params![
            int(row.data_file_id),
            int(row.column_id),
            int(row.null_count),
            may_text(&row.min_value),
            may_text(&row.max_value)
        ],
    )
}

fn add_table_stats<S: Alter>(
    tx: &mut Transaction<'_, S>,
    row: &TableStatsRow,
) -> Result<(), Error> {
    change_one(
        tx,
        "INSERT INTO ducklake_table_stats
            (table_id, record_count, next_row_id, next_field_id, file_size_bytes)
            VALUES (?1, ?2, ?3, ?4, ?5)",
        params![
            int(row.table_id),
            int(row.record_count),
            int(row.next_row_id),
            int(row.next_field_id),
            int(row.file_size_bytes)
        ],
    )
}

fn add_inlined_row<S: Alter>(tx: &mut Transaction<'_, S>, row: &InlinedRow) -> Result<(), Error> {
    change_one(
        tx,
        "INSERT INTO ducklake_inlined_row
            (table_id, row_id, begin_snapshot, end_snapshot, cells)
            VALUES (?1, ?2, ?3, ?4, ?5)",
        params![
            int(row.table_id),
            int(row.row_id),
            int(row.begin_snapshot),
            may_int(row.end_snapshot),
            row.cells.as_slice()
        ],
    )
}

fn add_scheduled_file<S: Alter>(
    tx: &mut Transaction<'_, S>,
    row: &ScheduledFileRow,
) -> Result<(), Error> {
    change_one(
        tx,
        "INSERT INTO ducklake_scheduled_file (path) VALUES (?1)",
        params![row.path.as_str()],
    )
}

/// Adds a row to its table.
pub fn add_row<S: Alter>(tx: &mut Transaction<'_, S>, row: &CatRow) -> Result<(), Error> {
    match row {
        CatRow::Metadata(row) => add_metadata(tx, row),
        CatRow::Snapshot(row) => add_snapshot(tx, row),
        CatRow::SnapshotChanges(row) => add_snapshot_changes(tx, row),
        CatRow::Schema(row) => add_schema(tx, row),
        CatRow::Table(row) => add_table(tx, row),
        CatRow::Column(row) => add_column(tx, row),
        CatRow::DataFile(row) => add_data_file(tx, row),
        CatRow::DeleteFile(row) => add_delete_file(tx, row),
        CatRow::FileColumnStats(row) => add_file_column_stats(tx, row),
        CatRow::TableStats(row) => add_table_stats(tx, row),
        CatRow::Inlined(row) => add_inlined_row(tx, row),
        CatRow::ScheduledFile(row) => add_scheduled_file(tx, row),
    }
}
