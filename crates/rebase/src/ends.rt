ghost use Rattle.std.specs.Prelude.{◌≡◌, ◌++◌, ◌==◌, ℕ, Bool, map, IfOk, OnOk};
ghost use Rattle.indexmap.specs.IndexSet.{contains};
ghost use Rattle.cat_rows.specs.declared.batch.Key.{Key as KeyOf};
ghost use Rattle.rebase.specs.Parts.{going};
ghost use Rattle.rebase.specs.Ends as spec;

use cat_rows::{ColumnRow, DataFileRow, DeleteFileRow, InlinedRow, Key, SchemaRow, TableRow};
use cat_tables::Versioned;
use indexmap::IndexSet;
use lake_types::NoMemory;

/// A row that ends where a schema or a table goes.
pub(crate) trait Owned: Versioned {
    ghost owner: { Self → ℕ };

    ghost named: { Self → KeyOf };

    /// The id of the schema or table.
    fn owner(&self) -> u64
        ensures { result ≡ owner self.now };

    fn named(&self) -> Key
        ensures { result ≡ named self.now };
}

impl Owned for SchemaRow {
    ghost owner = { λ r. r.schema_id };

    ghost named = { spec.schema_named };

    fn owner(&self) -> u64 {
        self.schema_id
    }

    fn named(&self) -> Key {
        Key::Schema(self.schema_id)
    }
}

impl Owned for TableRow {
    ghost owner = { λ r. r.table_id };

    ghost named = { spec.table_named };

    fn owner(&self) -> u64 {
        self.table_id
    }

    fn named(&self) -> Key {
        Key::Table(self.table_id)
    }
}

impl Owned for ColumnRow {
    ghost owner = { λ r. r.table_id };

    ghost named = { spec.column_named };

    fn owner(&self) -> u64 {
        self.table_id
    }

    fn named(&self) -> Key {
        Key::Column(self.table_id, self.column_id, self.begin_snapshot)
    }
}

impl Owned for DataFileRow {
    ghost owner = { λ r. r.table_id };

    ghost named = { spec.data_file_named };

    fn owner(&self) -> u64 {
        self.table_id
    }

    fn named(&self) -> Key {
        Key::DataFile(self.data_file_id)
    }
}

impl Owned for DeleteFileRow {
    ghost owner = { λ r. r.table_id };

    ghost named = { spec.delete_file_named };

    fn owner(&self) -> u64 {
        self.table_id
    }

    fn named(&self) -> Key {
        Key::DeleteFile(self.delete_file_id)
    }
}

impl Owned for InlinedRow {
    ghost owner = { λ r. r.table_id };

    ghost named = { spec.inlined_named };

    fn owner(&self) -> u64 {
        self.table_id
    }

    fn named(&self) -> Key {
        Key::Inlined(self.table_id, self.row_id, self.begin_snapshot)
    }
}

/// Ends, at a snapshot, the rows without an end of what is dropped.
pub(crate) fn end_rows<R: Owned>(
    ends: &mut Vec<(Key, u64)>,
    rows: &[R],
    dropped: &IndexSet<u64>,
    at: u64,
) -> Result<(), NoMemory>
    ensures { OnOk result (ends.new.items ≡ ends.old.items ++ spec.ended R.named at
        (going R.validity (λ r. contains ◌==◌ dropped.now (R.owner r)) rows.now)) }
{
    let mut rest = rows;
    while let [row, more @ ..] = rest {
        if !row.has_end() && dropped.contains(&row.owner()) {
            ends.push((row.named(), at))?;
        }
        rest = more;
    }
    Ok(())
}
