ghost use Rattle.cat_rows.specs.Keys as keys;
ghost use Rattle.std.specs.Prelude.{[], ◌∷◌};
ghost use Rattle.cat_rows.specs.Validities as validities;

use cat_tables::{Keyed, Versioned};
use lake_types::{Copied, Words};
use std::alloc::{AllocError, Global};
use std::cmp::Ordering;

/// A schema, valid from one snapshot until another.
#[derive(Debug, Drop)]
pub struct SchemaRow {
    pub schema_id: u64,
    pub begin_snapshot: u64,
    pub end_snapshot: Option<u64>,
    pub schema_name: Words,
}

impl Keyed for SchemaRow {
    type Key = u64;

    ghost parts = { λ k. k ∷ [] };

    ghost key = { keys.schema_key };

    fn compare_key(&self, other: &u64) -> Ordering {
        [self.schema_id].as_slice().cmp([*other].as_slice())
    }

    fn compare_row(&self, other: &SchemaRow) -> Ordering {
        [self.schema_id]
            .as_slice()
            .cmp([other.schema_id].as_slice())
    }
}

impl Versioned for SchemaRow {
    ghost validity = { validities.schema_validity };

    ghost laws = { validities.schema_laws };

    fn has_end(&self) -> bool {
        self.end_snapshot.is_some()
    }

    fn end_at(&mut self, snapshot: u64) {
        if self.end_snapshot.is_none() {
            self.end_snapshot = Some(snapshot);
        }
    }
}

impl Copied for SchemaRow {
    fn copy(&self, alloc: Global) -> Result<SchemaRow, AllocError> {
        Ok(SchemaRow {
            schema_id: self.schema_id,
            begin_snapshot: self.begin_snapshot,
            end_snapshot: self.end_snapshot,
            schema_name: self.schema_name.copy(alloc)?,
        })
    }
}

/// A table.
#[derive(Debug, Drop)]
pub struct TableRow {
    pub table_id: u64,
    pub begin_snapshot: u64,
    pub end_snapshot: Option<u64>,
    pub schema_id: u64,
    pub table_name: Words,
}

impl Keyed for TableRow {
    type Key = u64;

    ghost parts = { λ k. k ∷ [] };

    ghost key = { keys.table_key };

    fn compare_key(&self, other: &u64) -> Ordering {
        [self.table_id].as_slice().cmp([*other].as_slice())
    }

    fn compare_row(&self, other: &TableRow) -> Ordering {
        [self.table_id].as_slice().cmp([other.table_id].as_slice())
    }
}

impl Versioned for TableRow {
    ghost validity = { validities.table_validity };

    ghost laws = { validities.table_laws };

    fn has_end(&self) -> bool {
        self.end_snapshot.is_some()
    }

    fn end_at(&mut self, snapshot: u64) {
        if self.end_snapshot.is_none() {
            self.end_snapshot = Some(snapshot);
        }
    }
}

impl Copied for TableRow {
    fn copy(&self, alloc: Global) -> Result<TableRow, AllocError> {
        Ok(TableRow {
            table_id: self.table_id,
            begin_snapshot: self.begin_snapshot,
            end_snapshot: self.end_snapshot,
            schema_id: self.schema_id,
            table_name: self.table_name.copy(alloc)?,
        })
    }
}

/// A column of a table.
#[derive(Debug, Drop)]
pub struct ColumnRow {
    pub table_id: u64,
    /// The column's field id. An altered column ends its row and has a further one with the same id.
    pub column_id: u64,
    pub begin_snapshot: u64,
    pub end_snapshot: Option<u64>,
    /// Rises with the column's place.
    pub column_order: u64,
    pub column_name: Words,
    /// The type's name, as `int64`.
    pub column_type: Words,
    /// The text of what older rows read as; none for NULL.
    pub initial_default: Option<Words>,
    /// The text of what `DEFAULT` stands for; none for NULL.
    pub default_value: Option<Words>,
    pub nulls_allowed: bool,
}

impl Keyed for ColumnRow {
    type Key = (u64, u64, u64);

    ghost parts = { λ k. k.0 ∷ k.1 ∷ k.2 ∷ [] };

    ghost key = { keys.column_key };

    fn compare_key(&self, other: &(u64, u64, u64)) -> Ordering {
        [self.table_id, self.column_id, self.begin_snapshot]
            .as_slice()
            .cmp([other.0, other.1, other.2].as_slice())
    }

    fn compare_row(&self, other: &ColumnRow) -> Ordering {
        [self.table_id, self.column_id, self.begin_snapshot]
            .as_slice()
            .cmp([other.table_id, other.column_id, other.begin_snapshot].as_slice())
    }
}

impl Versioned for ColumnRow {
    ghost validity = { validities.column_validity };

    ghost laws = { validities.column_laws };

    fn has_end(&self) -> bool {
        self.end_snapshot.is_some()
    }

    fn end_at(&mut self, snapshot: u64) {
        if self.end_snapshot.is_none() {
            self.end_snapshot = Some(snapshot);
        }
    }
}

impl Copied for ColumnRow {
    fn copy(&self, alloc: Global) -> Result<ColumnRow, AllocError> {
        Ok(ColumnRow {
            table_id: self.table_id,
            column_id: self.column_id,
            begin_snapshot: self.begin_snapshot,
            end_snapshot: self.end_snapshot,
            column_order: self.column_order,
            column_name: self.column_name.copy(alloc)?,
            column_type: self.column_type.copy(alloc)?,
            initial_default: self.initial_default.copy(alloc)?,
            default_value: self.default_value.copy(alloc)?,
            nulls_allowed: self.nulls_allowed,
        })
    }
}
