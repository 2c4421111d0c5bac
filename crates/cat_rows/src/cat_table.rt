ghost use Rattle.std.specs.Prelude.{◌≡◌};
ghost use Rattle.cat_rows.specs.Batches.{is_in, count_in};

use crate::batch::CatRow;

/// A table of the catalogue.
#[derive(Clone, Copy, Debug, PartialEq, Eq)]
pub enum CatTable {
    Metadata,
    Snapshot,
    SnapshotChanges,
    Schema,
    Table,
    Column,
    DataFile,
    DeleteFile,
    FileColumnStats,
    TableStats,
    Inlined,
    ScheduledFile,
}

impl CatRow {
    /// Whether this is a row of a table.
    pub fn is_in(&self, table: CatTable) -> bool
        ensures { result ≡ is_in table self.now }
    {
        match self {
            CatRow::Metadata(_) => matches!(table, CatTable::Metadata),
            CatRow::Snapshot(_) => matches!(table, CatTable::Snapshot),
            CatRow::SnapshotChanges(_) => matches!(table, CatTable::SnapshotChanges),
            CatRow::Schema(_) => matches!(table, CatTable::Schema),
            CatRow::Table(_) => matches!(table, CatTable::Table),
            CatRow::Column(_) => matches!(table, CatTable::Column),
            CatRow::DataFile(_) => matches!(table, CatTable::DataFile),
            CatRow::DeleteFile(_) => matches!(table, CatTable::DeleteFile),
            CatRow::FileColumnStats(_) => matches!(table, CatTable::FileColumnStats),
            CatRow::TableStats(_) => matches!(table, CatTable::TableStats),
            CatRow::Inlined(_) => matches!(table, CatTable::Inlined),
            CatRow::ScheduledFile(_) => matches!(table, CatTable::ScheduledFile),
        }
    }
}

/// How many of these rows are of a table.
pub(crate) fn count_of(rows: &[CatRow], table: CatTable) -> usize
    ensures { result ≡ count_in table rows.now }
{
    rows.iter().filter(|row| row.is_in(table)).count()
}
