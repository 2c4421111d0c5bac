ghost use Rattle.std.specs.Prelude.{◌≡◌, IfOk};

use crate::files::{
    DataFileRow, DeleteFileRow, FileColumnStatsRow, ScheduledFileRow, TableStatsRow,
};
use crate::history::{MetadataRow, SnapshotChangesRow, SnapshotRow};
use crate::inlined::InlinedRow;
use crate::schemas::{ColumnRow, SchemaRow, TableRow};
use lake_types::{Copied, Listed, Words};
use std::alloc::{AllocError, Global};

/// A row of any table.
#[derive(Debug, Drop)]
pub enum CatRow {
    Metadata(MetadataRow),
    Snapshot(SnapshotRow),
    SnapshotChanges(SnapshotChangesRow),
    Schema(SchemaRow),
    Table(TableRow),
    Column(ColumnRow),
    DataFile(DataFileRow),
    DeleteFile(DeleteFileRow),
    FileColumnStats(FileColumnStatsRow),
    TableStats(TableStatsRow),
    Inlined(InlinedRow),
    ScheduledFile(ScheduledFileRow),
}

impl Copied for CatRow {
    fn copy(&self, alloc: Global) -> Result<CatRow, AllocError> {
        match self {
            CatRow::Metadata(row) => Ok(CatRow::Metadata(row.copy(alloc)?)),
            CatRow::Snapshot(row) => Ok(CatRow::Snapshot(row.copy(alloc)?)),
            CatRow::SnapshotChanges(row) => Ok(CatRow::SnapshotChanges(row.copy(alloc)?)),
            CatRow::Schema(row) => Ok(CatRow::Schema(row.copy(alloc)?)),
            CatRow::Table(row) => Ok(CatRow::Table(row.copy(alloc)?)),
            CatRow::Column(row) => Ok(CatRow::Column(row.copy(alloc)?)),
            CatRow::DataFile(row) => Ok(CatRow::DataFile(row.copy(alloc)?)),
            CatRow::DeleteFile(row) => Ok(CatRow::DeleteFile(row.copy(alloc)?)),
            CatRow::FileColumnStats(row) => Ok(CatRow::FileColumnStats(row.copy(alloc)?)),
            CatRow::TableStats(row) => Ok(CatRow::TableStats(row.copy(alloc)?)),
            CatRow::Inlined(row) => Ok(CatRow::Inlined(row.copy(alloc)?)),
            CatRow::ScheduledFile(row) => Ok(CatRow::ScheduledFile(row.copy(alloc)?)),
        }
    }
}

/// The key of a row of any table: its key columns, in the table's order.
#[derive(Debug, Drop)]
pub enum Key {
    Metadata(Words),
    Snapshot(u64),
    SnapshotChanges(u64),
    Schema(u64),
    Table(u64),
    Column(u64, u64, u64),
    DataFile(u64),
    DeleteFile(u64),
    FileColumnStats(u64, u64),
    TableStats(u64),
    Inlined(u64, u64, u64),
    ScheduledFile(Words),
}

impl Copied for Key {
    fn copy(&self, alloc: Global) -> Result<Key, AllocError> {
        match self {
            Key::Metadata(text) => Ok(Key::Metadata(text.copy(alloc)?)),
            Key::Snapshot(id) => Ok(Key::Snapshot(*id)),
            Key::SnapshotChanges(id) => Ok(Key::SnapshotChanges(*id)),
            Key::Schema(id) => Ok(Key::Schema(*id)),
            Key::Table(id) => Ok(Key::Table(*id)),
            Key::Column(table, id, begin) => Ok(Key::Column(*table, *id, *begin)),
            Key::DataFile(id) => Ok(Key::DataFile(*id)),
            Key::DeleteFile(id) => Ok(Key::DeleteFile(*id)),
            Key::FileColumnStats(file, column) => Ok(Key::FileColumnStats(*file, *column)),
            Key::TableStats(id) => Ok(Key::TableStats(*id)),
            Key::Inlined(table, id, begin) => Ok(Key::Inlined(*table, *id, *begin)),
            Key::ScheduledFile(text) => Ok(Key::ScheduledFile(text.copy(alloc)?)),
        }
    }
}

pub type KeyList = Listed<Key>;

/// Keys of rows that end, with the snapshots at which they end.
pub type EndList = Listed<(Key, u64)>;

pub type CatRowList = Listed<CatRow>;

/// Changes to the catalogue's rows: removals, then ends, then additions.
#[derive(Debug, Drop)]
pub struct Batch {
    pub removes: KeyList,
    pub ends: EndList,
    pub adds: CatRowList,
}

fn copy_ends(alloc: Global, ends: &[(Key, u64)]) -> Result<EndList, AllocError>
    ensures { IfOk result (λ copy. copy ≡ ends.now) }
{
    let mut copy = Listed::new(alloc);
    for (key, snapshot) in ends {
        copy.push((key.copy(alloc)?, *snapshot))?;
    }
    Ok(copy)
}

impl Copied for Batch {
    fn copy(&self, alloc: Global) -> Result<Batch, AllocError> {
        Ok(Batch {
            removes: self.removes.copy(alloc)?,
            ends: copy_ends(alloc, self.ends.as_slice())?,
            adds: self.adds.copy(alloc)?,
        })
    }
}
