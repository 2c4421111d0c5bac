ghost use Rattle.std.specs.Prelude.{◌≡◌, ◌<◌, ◌≤◌, ◌+◌, true, fold, IfOk, OnOk};
ghost use Rattle.std.specs.Option.{option_copied};
ghost use Rattle.cat_tables.specs.Table.{RisesByKey};
ghost use Rattle.cat_rows.specs.Batches.{tables_of, added, removed, ended, Covers, KeepsRoom};
ghost use Rattle.cat_rows.specs.Batches.{holds, has_no_end, is_open, key_of};
ghost use Rattle.cat_rows.specs.Keys as keys;
ghost use Rattle.cat_rows.specs.Tables.{no_rows};
ghost use Rattle.cat_rows.specs.Steps.{rises as rises_by_place};
ghost use Rattle.cat_rows.specs.Steps.{room_for, with_row, IsFresh, AreFresh};
ghost use Rattle.cat_rows.specs.Steps.{with_history, with_schemas, with_files};
ghost use Rattle.cat_rows.specs.Steps.{CoversHistory, CoversSchemas, CoversFiles};

use crate::batch::{CatRow, Key};
use crate::cat_table::{CatTable, count_of};
use crate::files::{
    DataFileRow, DeleteFileRow, FileColumnStatsRow, ScheduledFileRow, TableStatsRow,
};
use crate::fitting::rises;
use crate::history::{MetadataRow, SnapshotChangesRow, SnapshotRow};
use crate::inlined::InlinedRow;
use crate::schemas::{ColumnRow, SchemaRow, TableRow};
use crate::sweeping::remove_listed;
use cat_tables::{Keyed, KeyedTable, Versioned};
use lake_types::{Copied, NoMemory};
use std::alloc::Global;

/// The most rows that are taken away one by one.
const MAX_SINGLE_REMOVALS: usize = 8;

/// All rows of the catalogue, by table and key.
#[derive(Debug, Drop)]
pub struct CatRows {
    metadata: KeyedTable<MetadataRow>,
    snapshot: KeyedTable<SnapshotRow>,
    snapshot_changes: KeyedTable<SnapshotChangesRow>,
    schema: KeyedTable<SchemaRow>,
    table: KeyedTable<TableRow>,
    column: KeyedTable<ColumnRow>,
    data_file: KeyedTable<DataFileRow>,
    delete_file: KeyedTable<DeleteFileRow>,
    file_column_stats: KeyedTable<FileColumnStatsRow>,
    table_stats: KeyedTable<TableStatsRow>,
    inlined_row: KeyedTable<InlinedRow>,
    scheduled_file: KeyedTable<ScheduledFileRow>,
}

/// Whether there is a row, and it has no end.
fn has_no_end<R: Versioned>(row: Option<&R>) -> bool
    ensures { result ≡ has_no_end R.validity (option_copied row.entry) }
{
    match row {
        Some(row) => !row.has_end(),
        None => false,
    }
}

fn copy_table<R: Keyed + Copied>(
    alloc: Global,
    table: &KeyedTable<R>,
) -> Result<KeyedTable<R>, NoMemory>
    ensures { IfOk result (λ copy. copy.rows ≡ table.now.rows) }
{
    let mut rows = Vec::new(alloc);
    for row in table.as_slice() {
        rows.push(row.copy(alloc)?)?;
    }
    Ok(KeyedTable::from_vec(rows))
}

impl CatRows {
    /// No rows. It takes no memory.
    pub fn empty(alloc: Global) -> CatRows
        ensures { tables_of result ≡ no_rows }
    {
        CatRows {
            metadata: KeyedTable::new(alloc),
            snapshot: KeyedTable::new(alloc),
            snapshot_changes: KeyedTable::new(alloc),
            schema: KeyedTable::new(alloc),
            table: KeyedTable::new(alloc),
            column: KeyedTable::new(alloc),
            data_file: KeyedTable::new(alloc),
            delete_file: KeyedTable::new(alloc),
            file_column_stats: KeyedTable::new(alloc),
            table_stats: KeyedTable::new(alloc),
            inlined_row: KeyedTable::new(alloc),
            scheduled_file: KeyedTable::new(alloc),
        }
    }

    pub fn metadata(&self) -> &[MetadataRow]
        ensures rows { result.now ≡ (tables_of self.now).metadata }
        ensures rises { RisesByKey keys.metadata_key result.now }
    {
        self.metadata.as_slice()
    }

    pub fn snapshot(&self) -> &[SnapshotRow]
        ensures rows { result.now ≡ (tables_of self.now).snapshot }
        ensures rises { RisesByKey keys.snapshot_key result.now }
    {
        self.snapshot.as_slice()
    }

    pub fn snapshot_changes(&self) -> &[SnapshotChangesRow]
        ensures rows { result.now ≡ (tables_of self.now).snapshot_changes }
        ensures rises { RisesByKey keys.snapshot_changes_key result.now }
    {
        self.snapshot_changes.as_slice()
    }

    pub fn schema(&self) -> &[SchemaRow]
        ensures rows { result.now ≡ (tables_of self.now).schema }
        ensures rises { RisesByKey keys.schema_key result.now }
    {
        self.schema.as_slice()
    }

    pub fn table(&self) -> &[TableRow]
        ensures rows { result.now ≡ (tables_of self.now).table }
        ensures rises { RisesByKey keys.table_key result.now }
    {
        self.table.as_slice()
    }

    pub fn column(&self) -> &[ColumnRow]
        ensures rows { result.now ≡ (tables_of self.now).column }
        ensures rises { RisesByKey keys.column_key result.now }
    {
        self.column.as_slice()
    }

    pub fn data_file(&self) -> &[DataFileRow]
        ensures rows { result.now ≡ (tables_of self.now).data_file }
        ensures rises { RisesByKey keys.data_file_key result.now }
    {
        self.data_file.as_slice()
    }

    pub fn delete_file(&self) -> &[DeleteFileRow]
        ensures rows { result.now ≡ (tables_of self.now).delete_file }
        ensures rises { RisesByKey keys.delete_file_key result.now }
    {
        self.delete_file.as_slice()
    }

    pub fn file_column_stats(&self) -> &[FileColumnStatsRow]
        ensures rows { result.now ≡ (tables_of self.now).file_column_stats }
        ensures rises { RisesByKey keys.file_column_stats_key result.now }
    {
        self.file_column_stats.as_slice()
    }

    pub fn table_stats(&self) -> &[TableStatsRow]
        ensures rows { result.now ≡ (tables_of self.now).table_stats }
        ensures rises { RisesByKey keys.table_stats_key result.now }
    {
        self.table_stats.as_slice()
    }

    pub fn inlined_row(&self) -> &[InlinedRow]
        ensures rows { result.now ≡ (tables_of self.now).inlined_row }
        ensures rises { RisesByKey keys.inlined_row_key result.now }
    {
        self.inlined_row.as_slice()
    }

    pub fn scheduled_file(&self) -> &[ScheduledFileRow]
        ensures rows { result.now ≡ (tables_of self.now).scheduled_file }
        ensures rises { RisesByKey keys.scheduled_file_key result.now }
    {
        self.scheduled_file.as_slice()
    }

    /// Whether there is a row of a key.
    pub fn holds(&self, key: &Key) -> bool
        ensures { result ≡ holds (tables_of self.now) key.now }
    {
        match key {
            Key::Metadata(text) => self.metadata.get(text).is_some(),
            Key::Snapshot(id) => self.snapshot.get(id).is_some(),
            Key::SnapshotChanges(id) => self.snapshot_changes.get(id).is_some(),
            Key::Schema(id) => self.schema.get(id).is_some(),
            Key::Table(id) => self.table.get(id).is_some(),
            Key::Column(table, id, begin) => self.column.get(&(*table, *id, *begin)).is_some(),
            Key::DataFile(id) => self.data_file.get(id).is_some(),
            Key::DeleteFile(id) => self.delete_file.get(id).is_some(),
            Key::FileColumnStats(file, column) => self
                .file_column_stats
                .get(&(*file, *column))
                .is_some(),
            Key::TableStats(id) => self.table_stats.get(id).is_some(),
            Key::Inlined(table, id, begin) => self
                .inlined_row
                .get(&(*table, *id, *begin))
                .is_some(),
            Key::ScheduledFile(text) => self.scheduled_file.get(text).is_some(),
        }
    }

    /// Whether there is a row of a key that has no end, in a table whose rows end.
    pub fn is_open(&self, key: &Key) -> bool
        ensures { result ≡ is_open (tables_of self.now) key.now }
    {
        match key {
            Key::Schema(id) => has_no_end(self.schema.get(id)),
            Key::Table(id) => has_no_end(self.table.get(id)),
            Key::Column(table, id, begin) => has_no_end(self.column.get(&(*table, *id, *begin))),
            Key::DataFile(id) => has_no_end(self.data_file.get(id)),
            Key::DeleteFile(id) => has_no_end(self.delete_file.get(id)),
            Key::Inlined(table, id, begin) => has_no_end(
                self.inlined_row.get(&(*table, *id, *begin)),
            ),
            Key::Metadata(_)
            | Key::Snapshot(_)
            | Key::SnapshotChanges(_)
            | Key::FileColumnStats(_, _)
            | Key::TableStats(_)
            | Key::ScheduledFile(_) => false,
        }
    }

    /// Whether there is a row with the key of this one.
    pub(crate) fn holds_key_of(&self, row: &CatRow) -> bool
        ensures { result ≡ holds (tables_of self.now) (key_of row.now) }
    {
        match row {
            CatRow::Metadata(row) => self.metadata.get(&row.key).is_some(),
            CatRow::Snapshot(row) => self.snapshot.get(&row.snapshot_id).is_some(),
            CatRow::SnapshotChanges(row) => self.snapshot_changes.get(&row.snapshot_id).is_some(),
            CatRow::Schema(row) => self.schema.get(&row.schema_id).is_some(),
            CatRow::Table(row) => self.table.get(&row.table_id).is_some(),
            CatRow::Column(row) => self
                .column
                .get(&(row.table_id, row.column_id, row.begin_snapshot))
                .is_some(),
            CatRow::DataFile(row) => self.data_file.get(&row.data_file_id).is_some(),
            CatRow::DeleteFile(row) => self.delete_file.get(&row.delete_file_id).is_some(),
            CatRow::FileColumnStats(row) => self
                .file_column_stats
                .get(&(row.data_file_id, row.column_id))
                .is_some(),
            CatRow::TableStats(row) => self.table_stats.get(&row.table_id).is_some(),
            CatRow::Inlined(row) => self
                .inlined_row
                .get(&(row.table_id, row.row_id, row.begin_snapshot))
                .is_some(),
            CatRow::ScheduledFile(row) => self.scheduled_file.get(&row.path).is_some(),
        }
    }

    /// Puts a row at its place, in room that is there.
    fn put_reserved(&mut self, row: CatRow)
        requires room { 0 < room_for self.old row }
        requires fresh { IsFresh (tables_of self.old) row }
        ensures rows { tables_of self.new ≡ added (tables_of self.old) row }
        ensures others { self.new ≡ with_row self.old self.new row }
        ensures room { room_for self.old row ≤ room_for self.new row + 1 }
    {
        match row {
            CatRow::Metadata(row) => self.metadata.put_reserved(row),
            CatRow::Snapshot(row) => self.snapshot.put_reserved(row),
            CatRow::SnapshotChanges(row) => self.snapshot_changes.put_reserved(row),
            CatRow::Schema(row) => self.schema.put_reserved(row),
            CatRow::Table(row) => self.table.put_reserved(row),
            CatRow::Column(row) => self.column.put_reserved(row),
            CatRow::DataFile(row) => self.data_file.put_reserved(row),
            CatRow::DeleteFile(row) => self.delete_file.put_reserved(row),
            CatRow::FileColumnStats(row) => self.file_column_stats.put_reserved(row),
            CatRow::TableStats(row) => self.table_stats.put_reserved(row),
            CatRow::Inlined(row) => self.inlined_row.put_reserved(row),
            CatRow::ScheduledFile(row) => self.scheduled_file.put_reserved(row),
        }
    }

    fn remove(&mut self, key: &Key)
        ensures rows { tables_of self.new ≡ removed (tables_of self.old) key.now }
        ensures room { KeepsRoom self.old self.new }
    {
        match key {
            Key::Metadata(text) => self.metadata.remove(text),
            Key::Snapshot(id) => self.snapshot.remove(id),
            Key::SnapshotChanges(id) => self.snapshot_changes.remove(id),
            Key::Schema(id) => self.schema.remove(id),
            Key::Table(id) => self.table.remove(id),
            Key::Column(table, id, begin) => self.column.remove(&(*table, *id, *begin)),
            Key::DataFile(id) => self.data_file.remove(id),
            Key::DeleteFile(id) => self.delete_file.remove(id),
            Key::FileColumnStats(file, column) => self.file_column_stats.remove(&(*file, *column)),
            Key::TableStats(id) => self.table_stats.remove(id),
            Key::Inlined(table, id, begin) => self.inlined_row.remove(&(*table, *id, *begin)),
            Key::ScheduledFile(text) => self.scheduled_file.remove(text),
        }
    }

    fn end(&mut self, key: &Key, snapshot: u64)
        ensures rows { tables_of self.new ≡ ended (tables_of self.old) (key.now, snapshot) }
        ensures room { KeepsRoom self.old self.new }
    {
        match key {
            Key::Schema(id) => self.schema.end(id, snapshot),
            Key::Table(id) => self.table.end(id, snapshot),
            Key::Column(table, id, begin) => self.column.end(&(*table, *id, *begin), snapshot),
            Key::DataFile(id) => self.data_file.end(id, snapshot),
            Key::DeleteFile(id) => self.delete_file.end(id, snapshot),
            Key::Inlined(table, id, begin) => self
                .inlined_row
                .end(&(*table, *id, *begin), snapshot),
            Key::Metadata(_)
            | Key::Snapshot(_)
            | Key::SnapshotChanges(_)
            | Key::FileColumnStats(_, _)
            | Key::TableStats(_)
            | Key::ScheduledFile(_) => {}
        }
    }

    fn remove_each(&mut self, keys: &[Key])
        ensures rows { tables_of self.new ≡ fold removed (tables_of self.old) keys.now }
        ensures room { KeepsRoom self.old self.new }
    {
        for key in keys {
            self.remove(key);
        }
    }

    /// The same of keys that rise, in one pass over each table that they are of.
    fn sweep(&mut self, keys: &[Key])
        requires { rises_by_place (λ k. k) keys.now ≡ true }
        ensures rows { tables_of self.new ≡ fold removed (tables_of self.old) keys.now }
        ensures room { KeepsRoom self.old self.new }
    {
        remove_listed(&mut self.metadata, keys);
        remove_listed(&mut self.snapshot, keys);
        remove_listed(&mut self.snapshot_changes, keys);
        remove_listed(&mut self.schema, keys);
        remove_listed(&mut self.table, keys);
        remove_listed(&mut self.column, keys);
        remove_listed(&mut self.data_file, keys);
        remove_listed(&mut self.delete_file, keys);
        remove_listed(&mut self.file_column_stats, keys);
        remove_listed(&mut self.table_stats, keys);
        remove_listed(&mut self.inlined_row, keys);
        remove_listed(&mut self.scheduled_file, keys);
    }

    /// Takes away the rows of keys. A row that is taken away alone moves those behind it, so many keys go in one pass,
    /// where they rise.
    pub(crate) fn remove_all(&mut self, keys: &[Key])
        ensures rows { tables_of self.new ≡ fold removed (tables_of self.old) keys.now }
        ensures room { KeepsRoom self.old self.new }
    {
        if keys.len() > MAX_SINGLE_REMOVALS && rises(keys) {
            self.sweep(keys);
        } else {
            self.remove_each(keys);
        }
    }

    pub(crate) fn end_all(&mut self, ends: &[(Key, u64)])
        ensures rows { tables_of self.new ≡ fold ended (tables_of self.old) ends.now }
        ensures room { KeepsRoom self.old self.new }
    {
        for (key, snapshot) in ends {
            self.end(key, *snapshot);
        }
    }

    /// Puts rows at their places, in room that is there.
    #[tactic(auto, using(crate::proofs::RoomLemmas::covering))]
    pub(crate) fn add_all(&mut self, rows: Vec<CatRow>)
        requires room { Covers self.old rows.items }
        requires fresh { AreFresh (tables_of self.old) rows.items }
        ensures { tables_of self.new ≡ fold added (tables_of self.old) rows.items }
    {
        for row in rows {
            self.put_reserved(row);
        }
    }

    fn reserve_history(&mut self, adds: &[CatRow]) -> Result<(), NoMemory>
        ensures rows { tables_of self.new ≡ tables_of self.old }
        ensures kept { KeepsRoom self.old self.new }
        ensures room { OnOk result (CoversHistory self.new adds.now) }
    {
        self.metadata.reserve(count_of(adds, CatTable::Metadata))?;
        self.snapshot.reserve(count_of(adds, CatTable::Snapshot))?;
        self.snapshot_changes
            .reserve(count_of(adds, CatTable::SnapshotChanges))?;
        Ok(())
    }

    fn reserve_schemas(&mut self, adds: &[CatRow]) -> Result<(), NoMemory>
        ensures rows { tables_of self.new ≡ tables_of self.old }
        ensures kept { KeepsRoom self.old self.new }
        ensures room { OnOk result (CoversSchemas self.new adds.now) }
    {
        self.schema.reserve(count_of(adds, CatTable::Schema))?;
        self.table.reserve(count_of(adds, CatTable::Table))?;
        self.column.reserve(count_of(adds, CatTable::Column))?;
        self.inlined_row.reserve(count_of(adds, CatTable::Inlined))?;
        Ok(())
    }

    fn reserve_files(&mut self, adds: &[CatRow]) -> Result<(), NoMemory>
        ensures rows { tables_of self.new ≡ tables_of self.old }
        ensures kept { KeepsRoom self.old self.new }
        ensures room { OnOk result (CoversFiles self.new adds.now) }
    {
        self.data_file.reserve(count_of(adds, CatTable::DataFile))?;
        self.delete_file
            .reserve(count_of(adds, CatTable::DeleteFile))?;
        self.file_column_stats
            .reserve(count_of(adds, CatTable::FileColumnStats))?;
        self.table_stats
            .reserve(count_of(adds, CatTable::TableStats))?;
        self.scheduled_file
            .reserve(count_of(adds, CatTable::ScheduledFile))?;
        Ok(())
    }

    /// Makes room for rows. What is there stays as it is, whatever the answer.
    pub(crate) fn reserve(&mut self, adds: &[CatRow]) -> Result<(), NoMemory>
        ensures rows { tables_of self.new ≡ tables_of self.old }
        ensures room { OnOk result (Covers self.new adds.now) }
    {
        self.reserve_history(adds)?;
        self.reserve_schemas(adds)?;
        self.reserve_files(adds)?;
        Ok(())
    }

    fn copy_history(&mut self, alloc: Global, from: &CatRows) -> Result<(), NoMemory>
        ensures { OnOk result
            (tables_of self.new ≡ with_history (tables_of self.old) (tables_of from.now)) }
    {
        self.metadata = copy_table(alloc, &from.metadata)?;
        self.snapshot = copy_table(alloc, &from.snapshot)?;
        self.snapshot_changes = copy_table(alloc, &from.snapshot_changes)?;
        Ok(())
    }

    fn copy_schemas(&mut self, alloc: Global, from: &CatRows) -> Result<(), NoMemory>
        ensures { OnOk result
            (tables_of self.new ≡ with_schemas (tables_of self.old) (tables_of from.now)) }
    {
        self.schema = copy_table(alloc, &from.schema)?;
        self.table = copy_table(alloc, &from.table)?;
        self.column = copy_table(alloc, &from.column)?;
        self.inlined_row = copy_table(alloc, &from.inlined_row)?;
        Ok(())
    }

    fn copy_files(&mut self, alloc: Global, from: &CatRows) -> Result<(), NoMemory>
        ensures { OnOk result (tables_of self.new ≡ with_files (tables_of self.old) (tables_of from.now)) }
    {
        self.data_file = copy_table(alloc, &from.data_file)?;
        self.delete_file = copy_table(alloc, &from.delete_file)?;
        self.file_column_stats = copy_table(alloc, &from.file_column_stats)?;
        self.table_stats = copy_table(alloc, &from.table_stats)?;
        self.scheduled_file = copy_table(alloc, &from.scheduled_file)?;
        Ok(())
    }

    /// The same rows once more.
    pub fn copy(&self, alloc: Global) -> Result<CatRows, NoMemory>
        ensures { IfOk result (λ copy. tables_of copy ≡ tables_of self.now) }
    {
        let mut copy = CatRows::empty(alloc);
        copy.copy_history(alloc, self)?;
        copy.copy_schemas(alloc, self)?;
        copy.copy_files(alloc, self)?;
        Ok(copy)
    }
}
