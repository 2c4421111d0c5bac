ghost use Rattle.std.specs.Prelude.{◌≡◌};
ghost use Rattle.cat_rows.specs.Validities as validities;
ghost use Rattle.cat_rules.specs.Places as places;

use cat_rows::{ColumnRow, DataFileRow, DeleteFileRow, InlinedRow, Key, SchemaRow, TableRow};
use cat_tables::Interval;

/// A row with a validity interval, whose key can be told.
pub trait Dated {
    ghost use Rattle.cat_tables.specs.Interval.{interval_of};
    ghost use Rattle.cat_tables.specs.Validity.{Validity};
    ghost use Rattle.cat_rows.specs.declared.batch.Key.{Key};

    ghost validity: { Validity Self };

    ghost name: { Self → Key };

    fn interval(&self) -> Interval
        ensures { result ≡ interval_of validity self.now };

    fn key(&self) -> Key
        ensures { result ≡ name self.now };
}

impl Dated for SchemaRow {
    ghost validity = { validities.schema_validity };

    ghost name = { places.of_schema };

    fn interval(&self) -> Interval {
        Interval {
            begin: self.begin_snapshot,
            end: self.end_snapshot,
        }
    }

    fn key(&self) -> Key {
        Key::Schema(self.schema_id)
    }
}

impl Dated for TableRow {
    ghost validity = { validities.table_validity };

    ghost name = { places.of_table };

    fn interval(&self) -> Interval {
        Interval {
            begin: self.begin_snapshot,
            end: self.end_snapshot,
        }
    }

    fn key(&self) -> Key {
        Key::Table(self.table_id)
    }
}

impl Dated for ColumnRow {
    ghost validity = { validities.column_validity };

    ghost name = { places.of_column };

    fn interval(&self) -> Interval {
        Interval {
            begin: self.begin_snapshot,
            end: self.end_snapshot,
        }
    }

    fn key(&self) -> Key {
        Key::Column(self.table_id, self.column_id, self.begin_snapshot)
    }
}

impl Dated for DataFileRow {
    ghost validity = { validities.data_file_validity };

    ghost name = { places.of_data_file };

    fn interval(&self) -> Interval {
        Interval {
            begin: self.begin_snapshot,
            end: self.end_snapshot,
        }
    }

    fn key(&self) -> Key {
        Key::DataFile(self.data_file_id)
    }
}

impl Dated for DeleteFileRow {
    ghost validity = { validities.delete_file_validity };

    ghost name = { places.of_delete_file };

    fn interval(&self) -> Interval {
        Interval {
            begin: self.begin_snapshot,
            end: self.end_snapshot,
        }
    }

    fn key(&self) -> Key {
        Key::DeleteFile(self.delete_file_id)
    }
}

impl Dated for InlinedRow {
    ghost validity = { validities.inlined_row_validity };

    ghost name = { places.of_inlined };

    fn interval(&self) -> Interval {
        Interval {
            begin: self.begin_snapshot,
            end: self.end_snapshot,
        }
    }

    fn key(&self) -> Key {
        Key::Inlined(self.table_id, self.row_id, self.begin_snapshot)
    }
}
