ghost use Rattle.std.specs.Prelude.{◌≡◌};
ghost use Rattle.cat_tables.specs.Table.{key_cmp};
ghost use Rattle.cat_rows.specs.Batches.{key_of};
ghost use Rattle.cat_rows.specs.Places.{place};
ghost use Rattle.cat_rows.specs.Steps as steps;

use crate::batch::{CatRow, Key};
use std::cmp::Ordering;

/// A key where it stands, in a batch's list or in a row.
#[derive(Clone, Copy)]
pub(crate) enum KeyRef<'a> {
    Metadata(&'a str),
    Snapshot(u64),
    SnapshotChanges(u64),
    Schema(u64),
    Table(u64),
    Column(u64, u64, u64),
    DataFile(u64),
    DeleteFile(u64),
    FileColumnStats(u64, u64),
    TableStats(u64),
    Inlined(u64, u64, u64),
    ScheduledFile(&'a str),
}

impl Key {
    /// How the place of this key stands to that of another: by the order of the tables, and then by key.
    pub fn compare(&self, other: &Key) -> Ordering
        ensures { result ≡ key_cmp (place self.now) (place other.now) }
    {
        order(self.as_key_ref(), other.as_key_ref())
    }

    pub(crate) fn as_key_ref(&self) -> KeyRef<'_>
        ensures { steps.ref_place result ≡ place self.now }
    {
        match self {
            Key::Metadata(text) => KeyRef::Metadata(text.as_str()),
            Key::Snapshot(id) => KeyRef::Snapshot(*id),
            Key::SnapshotChanges(id) => KeyRef::SnapshotChanges(*id),
            Key::Schema(id) => KeyRef::Schema(*id),
            Key::Table(id) => KeyRef::Table(*id),
            Key::Column(table, id, begin) => KeyRef::Column(*table, *id, *begin),
            Key::DataFile(id) => KeyRef::DataFile(*id),
            Key::DeleteFile(id) => KeyRef::DeleteFile(*id),
            Key::FileColumnStats(file, column) => KeyRef::FileColumnStats(*file, *column),
            Key::TableStats(id) => KeyRef::TableStats(*id),
            Key::Inlined(table, id, begin) => KeyRef::Inlined(*table, *id, *begin),
            Key::ScheduledFile(path) => KeyRef::ScheduledFile(path.as_str()),
        }
    }
}

impl CatRow {
    pub(crate) fn key_ref(&self) -> KeyRef<'_>
        ensures { steps.ref_place result ≡ place (key_of self.now) }
    {
        match self {
            CatRow::Metadata(row) => KeyRef::Metadata(row.key.as_str()),
            CatRow::Snapshot(row) => KeyRef::Snapshot(row.snapshot_id),
            CatRow::SnapshotChanges(row) => KeyRef::SnapshotChanges(row.snapshot_id),
            CatRow::Schema(row) => KeyRef::Schema(row.schema_id),
            CatRow::Table(row) => KeyRef::Table(row.table_id),
            CatRow::Column(row) => KeyRef::Column(row.table_id, row.column_id, row.begin_snapshot),
            CatRow::DataFile(row) => KeyRef::DataFile(row.data_file_id),
            CatRow::DeleteFile(row) => KeyRef::DeleteFile(row.delete_file_id),
            CatRow::FileColumnStats(row) => KeyRef::FileColumnStats(
                row.data_file_id,
                row.column_id,
            ),
            CatRow::TableStats(row) => KeyRef::TableStats(row.table_id),
            CatRow::Inlined(row) => KeyRef::Inlined(row.table_id, row.row_id, row.begin_snapshot),
            CatRow::ScheduledFile(row) => KeyRef::ScheduledFile(row.path.as_str()),
        }
    }
}

/// The place of a key's table.
fn rank(key: KeyRef<'_>) -> u8
    ensures { result ≡ steps.ref_rank key.entry }
{
    match key {
        KeyRef::Metadata(_) => 0,
        KeyRef::Snapshot(_) => 1,
        KeyRef::SnapshotChanges(_) => 2,
        KeyRef::Schema(_) => 3,
        KeyRef::Table(_) => 4,
        KeyRef::Column(..) => 5,
        KeyRef::DataFile(_) => 6,
        KeyRef::DeleteFile(_) => 7,
        KeyRef::FileColumnStats(..) => 8,
        KeyRef::TableStats(_) => 9,
        KeyRef::Inlined(..) => 10,
        KeyRef::ScheduledFile(_) => 11,
    }
}

/// The order of keys, first by their tables.
pub(crate) fn order(a: KeyRef<'_>, b: KeyRef<'_>) -> Ordering
    ensures { result ≡ key_cmp (steps.ref_place a.entry) (steps.ref_place b.entry) }
{
    match (a, b) {
        (KeyRef::Metadata(a), KeyRef::Metadata(b))
        | (KeyRef::ScheduledFile(a), KeyRef::ScheduledFile(b)) => a.as_bytes().cmp(b.as_bytes()),
        (KeyRef::Snapshot(a), KeyRef::Snapshot(b))
        | (KeyRef::SnapshotChanges(a), KeyRef::SnapshotChanges(b))
        | (KeyRef::Schema(a), KeyRef::Schema(b))
        | (KeyRef::Table(a), KeyRef::Table(b))
        | (KeyRef::DataFile(a), KeyRef::DataFile(b))
        | (KeyRef::DeleteFile(a), KeyRef::DeleteFile(b))
        | (KeyRef::TableStats(a), KeyRef::TableStats(b)) => a.cmp(&b),
        (KeyRef::FileColumnStats(a, b), KeyRef::FileColumnStats(x, y)) => [a, b]
            .as_slice()
            .cmp([x, y].as_slice()),
        (KeyRef::Column(a, b, c), KeyRef::Column(x, y, z))
        | (KeyRef::Inlined(a, b, c), KeyRef::Inlined(x, y, z)) => [a, b, c]
            .as_slice()
            .cmp([x, y, z].as_slice()),
        _ => rank(a).cmp(&rank(b)),
    }
}
