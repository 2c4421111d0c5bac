//! A statement for each row that is removed.

use crate::numbers::int;
use crate::running::change_one;
use cat_rows::Key;
use lake_types::Words;
use sqlite::{Alter, Error, Transaction, params};

fn by_id<S: Alter>(tx: &mut Transaction<'_, S>, text: &str, id: u64) -> Result<(), Error> {
    change_one(tx, text, params![int(id)])
}

fn by_two<S: Alter>(tx: &mut Transaction<'_, S>, text: &str, a: u64, b: u64) -> Result<(), Error> {
    change_one(tx, text, params![int(a), int(b)])
}

fn by_three<S: Alter>(
    tx: &mut Transaction<'_, S>,
    text: &str,
    a: u64,
    b: u64,
    c: u64,
) -> Result<(), Error> {
    change_one(tx, text, params![int(a), int(b), int(c)])
}

fn by_text<S: Alter>(tx: &mut Transaction<'_, S>, text: &str, key: &Words) -> Result<(), Error> {
    change_one(tx, text, params![key.as_str()])
}

/// Removes the row of a key.
pub fn remove_row<S: Alter>(tx: &mut Transaction<'_, S>, key: &Key) -> Result<(), Error> {
    match key {
        Key::Metadata(key) => by_text(tx, "DELETE FROM ducklake_metadata WHERE key = ?1", key),
        Key::Snapshot(id) => by_id(
            tx,
            "DELETE FROM ducklake_snapshot WHERE snapshot_id = ?1",
            *id,
        ),
        Key::SnapshotChanges(id) => by_id(
            tx,
            "DELETE FROM ducklake_snapshot_changes WHERE snapshot_id = ?1",
            *id,
        ),
        Key::Schema(id) => by_id(tx, "DELETE FROM ducklake_schema WHERE schema_id = ?1", *id),
        Key::Table(id) => by_id(tx, "DELETE FROM ducklake_table WHERE table_id = ?1", *id),
        Key::Column(table, column, begin) => by_three(
            tx,
            "DELETE FROM ducklake_column
            WHERE table_id = ?1 AND column_id = ?2 AND begin_snapshot = ?3",
            *table,
            *column,
            *begin,
        ),
        Key::DataFile(id) => by_id(
            tx,
            "DELETE FROM ducklake_data_file WHERE data_file_id = ?1",
            *id,
        ),
        Key::DeleteFile(id) => by_id(
            tx,
            "DELETE FROM ducklake_delete_file WHERE delete_file_id = ?1",
            *id,
        ),
        Key::FileColumnStats(file, column) => by_two(
            tx,
            "DELETE FROM ducklake_file_column_stats WHERE data_file_id = ?1 AND column_id = ?2",
            *file,
            *column,
        ),
        Key::TableStats(id) => by_id(
            tx,
            "DELETE FROM ducklake_table_stats WHERE table_id = ?1",
            *id,
        ),
        Key::Inlined(table, row, begin) => by_three(
            tx,
            "DELETE FROM ducklake_inlined_row
            WHERE table_id = ?1 AND row_id = ?2 AND begin_snapshot = ?3",
            *table,
            *row,
            *begin,
        ),
        Key::ScheduledFile(path) => {
            by_text(
                tx,
                "DELETE FROM ducklake_scheduled_file WHERE path = ?1",
                path,
            )
        }
    }
}
