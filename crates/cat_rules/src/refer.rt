ghost use Rattle.std.specs.Prelude.{◌≡◌, is_none};
ghost use Rattle.std.specs.Option.{option_copied};
ghost use Rattle.cat_rows.specs.Batches.{tables_of};
ghost use Rattle.cat_rules.specs.First.{FirstBad};
ghost use Rattle.cat_rules.specs.DataFileRule as data_file_rule;
ghost use Rattle.cat_rules.specs.DeleteFileRule as delete_file_rule;
ghost use Rattle.cat_rules.specs.Lookups.{table_of};
ghost use Rattle.cat_rules.specs.Sight as spec;
ghost use Rattle.cat_rules.specs.TableRule as table_rule;
ghost use Rattle.cat_rules.specs.Sight.{IsUnmatchedBy};

use crate::dated::Dated;
use crate::kept::Kept;
use crate::order::sooner;
use crate::rule::{RowRule, first_bad};
use cat_rows::{CatRows, DataFileRow, DeleteFileRow, Key, SchemaRow, TableRow};
use cat_tables::find_row;

/// A row that refers to one of another table.
pub trait Refers: Dated {
    ghost use Rattle.std.specs.Prelude.{Option};
    ghost use Rattle.cat_rows.specs.Tables.{Tables};
    ghost use Rattle.cat_rows.specs.declared.batch.Key.{Key};

    type Other: Dated;

    /// The row that this one refers to, if it is there.
    ghost other: { Tables → Self → Option Self.Other };

    /// The key that it has.
    ghost other_name: { Self → Key };

    fn other<'a>(&self, rows: &'a CatRows) -> Option<&'a Self::Other>
        ensures { option_copied result ≡ other (tables_of rows.now) self.now };

    fn other_key(&self) -> Key
        ensures { result ≡ other_name self.now };
}

impl Refers for TableRow {
    type Other = SchemaRow;

    ghost other = { table_rule.schema_of };

    ghost other_name = { table_rule.schema_id_of };

    fn other<'a>(&self, rows: &'a CatRows) -> Option<&'a SchemaRow> {
        find_row(rows.schema(), &self.schema_id)
    }

    fn other_key(&self) -> Key {
        Key::Schema(self.schema_id)
    }
}

impl Refers for DataFileRow {
    type Other = TableRow;

    ghost other = { λ t r. table_of t r.table_id };

    ghost other_name = { data_file_rule.table_id_of };

    fn other<'a>(&self, rows: &'a CatRows) -> Option<&'a TableRow> {
        find_row(rows.table(), &self.table_id)
    }

    fn other_key(&self) -> Key {
        Key::Table(self.table_id)
    }
}

impl Refers for DeleteFileRow {
    type Other = DataFileRow;

    ghost other = { delete_file_rule.data_file_of };

    ghost other_name = { delete_file_rule.file_id_of };

    fn other<'a>(&self, rows: &'a CatRows) -> Option<&'a DataFileRow> {
        find_row(rows.data_file(), &self.data_file_id)
    }

    fn other_key(&self) -> Key {
        Key::DataFile(self.data_file_id)
    }
}

/// A row is bad where what it refers to isn't there, and that is what is missing.
#[derive(Drop)]
struct Lacking<'a> {
    rows: &'a CatRows,
}

impl<R: Refers> RowRule<R> for Lacking<'_> {
    ghost is_bad = { λ rule r. is_none (R.other (tables_of rule.rows.now) r) };

    ghost name = { R.other_name };

    fn judge(&self, row: &R) -> Option<Key> {
        match row.other(self.rows) {
            Some(_) => None,
            None => Some(row.other_key()),
        }
    }
}

/// A row is bad where some kept snapshot sees it and not what it refers to.
#[derive(Drop)]
struct Outlasting<'a> {
    rows: &'a CatRows,
    /// The first kept snapshot.
    first: u64,
}

impl<R: Refers> RowRule<R> for Outlasting<'_> {
    ghost is_bad = { λ rule r.
        spec.outlasts_other rule.first R.validity R.Other.validity r (R.other (tables_of rule.rows.now) r) };

    ghost name = { R.name };

    fn judge(&self, row: &R) -> Option<Key> {
        match row.other(self.rows) {
            Some(other) if row.interval().outlasts(self.first, other.interval()) => {
                Some(row.key())
            }
            _ => None,
        }
    }
}

/// The first row of some that has no match: what it refers to isn't there, or some kept snapshot sees the row
/// and not it.
pub fn first_unmatched<R: Refers>(rows: &CatRows, kept: Kept, own: &[R]) -> Option<Key>
    ensures { FirstBad (IsUnmatchedBy (tables_of rows.now) R.validity R.Other.validity
        (R.other (tables_of rows.now)) R.other_name R.name own.now kept.first) result }
{
    let lacking = first_bad(&Lacking { rows }, own);
    let first = kept.first;
    let outlasting = first_bad(&Outlasting { rows, first }, own);
    sooner(lacking, outlasting)
}
