//! A row of each table, from the columns of a row of the database.

use cat_rows::{
    CatRow, ColumnRow, DataFileRow, DeleteFileRow, FileColumnStatsRow, InlinedRow, MetadataRow,
    ScheduledFileRow, SchemaRow, SnapshotChangesRow, SnapshotRow, TableRow, TableStatsRow,
};
use lake_types::{Blob, Words};
use sqlite::{Error, Row};

fn words(row: &Row, at: usize) -> Result<Words, Error> {
    Ok(Words::from_string(row.get::<String>(at)?))
}

fn may_words(row: &Row, at: usize) -> Result<Option<Words>, Error> {
    match row.get::<Option<String>>(at)? {
        Some(text) => Ok(Some(Words::from_string(text))),
        None => Ok(None),
    }
}

pub fn metadata(row: &Row) -> Result<CatRow, Error> {
    Ok(CatRow::Metadata(MetadataRow {
        key: words(row, 0)?,
        value: words(row, 1)?,
    }))
}

pub fn snapshot(row: &Row) -> Result<CatRow, Error> {
    Ok(CatRow::Snapshot(SnapshotRow {
        snapshot_id: row.get(0)?,
        snapshot_time: row.get(1)?,
        next_catalog_id: row.get(2)?,
        next_file_id: row.get(3)?,
    }))
}

pub fn snapshot_changes(row: &Row) -> Result<CatRow, Error> {
    Ok(CatRow::SnapshotChanges(SnapshotChangesRow {
        snapshot_id: row.get(0)?,
        changes_made: words(row, 1)?,
    }))
}

pub fn schema(row: &Row) -> Result<CatRow, Error> {
    Ok(CatRow::Schema(SchemaRow {
        schema_id: row.get(0)?,
        begin_snapshot: row.get(1)?,
        end_snapshot: row.get(2)?,
        schema_name: words(row, 3)?,
    }))
}

pub fn table(row: &Row) -> Result<CatRow, Error> {
    Ok(CatRow::Table(TableRow {
        table_id: row.get(0)?,
        begin_snapshot: row.get(1)?,
        end_snapshot: row.get(2)?,
        schema_id: row.get(3)?,
        table_name: words(row, 4)?,
    }))
}

pub fn column(row: &Row) -> Result<CatRow, Error> {
    Ok(CatRow::Column(ColumnRow {
        table_id: row.get(0)?,
        column_id: row.get(1)?,
        begin_snapshot: row.get(2)?,
        end_snapshot: row.get(3)?,
        column_order: row.get(4)?,
        column_name: words(row, 5)?,
        column_type: words(row, 6)?,
        initial_default: may_words(row, 7)?,
        default_value: may_words(row, 8)?,
        nulls_allowed: row.get(9)?,
    }))
}

pub fn data_file(row: &Row) -> Result<CatRow, Error> {
    Ok(CatRow::DataFile(DataFileRow {
        data_file_id: row.get(0)?,
        begin_snapshot: row.get(1)?,
        end_snapshot: row.get(2)?,
        table_id: row.get(3)?,
        path: words(row, 4)?,
        record_count: row.get(5)?,
        file_size_bytes: row.get(6)?,
        row_id_start: row.get(7)?,
        weight: row.get(8)?,
    }))
}

pub fn delete_file(row: &Row) -> Result<CatRow, Error> {
    Ok(CatRow::DeleteFile(DeleteFileRow {
        delete_file_id: row.get(0)?,
        begin_snapshot: row.get(1)?,
        end_snapshot: row.get(2)?,
        table_id: row.get(3)?,
        data_file_id: row.get(4)?,
        path: words(row, 5)?,
        delete_count: row.get(6)?,
        file_size_bytes: row.get(7)?,
    }))
}

pub fn file_column_stats(row: &Row) -> Result<CatRow, Error> {
    Ok(CatRow::FileColumnStats(FileColumnStatsRow {
        data_file_id: row.get(0)?,
        column_id: row.get(1)?,
        null_count: row.get(2)?,
        min_value: may_words(row, 3)?,
        max_value: may_words(row, 4)?,
    }))
}

pub fn table_stats(row: &Row) -> Result<CatRow, Error> {
    Ok(CatRow::TableStats(TableStatsRow {
        table_id: row.get(0)?,
        record_count: row.get(1)?,
        next_row_id: row.get(2)?,
        next_field_id: row.get(3)?,
        file_size_bytes: row.get(4)?,
    }))
}

pub fn inlined_row(row: &Row) -> Result<CatRow, Error> {
    Ok(CatRow::Inlined(InlinedRow {
        table_id: row.get(0)?,
        row_id: row.get(1)?,
        begin_snapshot: row.get(2)?,
        end_snapshot: row.get(3)?,
        cells: Blob::from_vec(row.get(4)?),
    }))
}

pub fn scheduled_file(row: &Row) -> Result<CatRow, Error> {
    Ok(CatRow::ScheduledFile(ScheduledFileRow {
        path: words(row, 0)?,
    }))
}
