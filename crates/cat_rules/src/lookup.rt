ghost use Rattle.std.specs.Prelude.{◌≡◌, ◌≤◌, ◌-◌, [], ◌∷◌, drop, filter, length, not, take};
ghost use Rattle.std.specs.Bool.{Decides};
ghost use Rattle.std.specs.List.{prefix_len};
ghost use Rattle.std.specs.Option.{option_copied};
ghost use Rattle.std.specs.Ordering.{is_gt, is_lt};
ghost use Rattle.cat_tables.specs.Table.{RisesByKey, has_key, key_cmp};
ghost use Rattle.cat_rows.specs.Batches.{tables_of};
ghost use Rattle.cat_rows.specs.Keys.{column_key};
ghost use Rattle.cat_rules.specs.Lookups as spec;

use cat_rows::{CatRows, ColumnRow};
use cat_tables::find_row;
use std::cmp::Ordering;

/// How a row's column, known by its table and field id, stands to another one.
fn compare_column(row: &ColumnRow, table: u64, column: u64) -> Ordering
    ensures { result ≡ key_cmp (spec.column_of row.now) (table ∷ column ∷ []) }
{
    [row.table_id, row.column_id]
        .as_slice()
        .cmp([table, column].as_slice())
}

/// How many rows are of the column, or of one before it.
fn rows_upto(rows: &[ColumnRow], table: u64, column: u64) -> usize
    requires { RisesByKey column_key rows.now }
    ensures count { result ≡ prefix_len (λ r. not (is_gt (key_cmp (spec.column_of r) (table ∷ column ∷ [])))) rows.now }
    ensures within { result ≤ length rows.now }
{
    rows.partition_point(|row| !compare_column(row, table, column).is_gt())
}

/// How many rows are of a column before this one.
fn rows_below(rows: &[ColumnRow], table: u64, column: u64) -> usize
    requires { RisesByKey column_key rows.now }
    ensures count { result ≡ prefix_len (λ r. is_lt (key_cmp (spec.column_of r) (table ∷ column ∷ []))) rows.now }
    ensures within { result ≤ length rows.now }
{
    rows.partition_point(|row| compare_column(row, table, column).is_lt())
}

fn part(rows: &[ColumnRow], from: usize, upto: usize) -> &[ColumnRow]
    requires order { from ≤ upto }
    requires within { upto ≤ length rows.now }
    ensures { result.now ≡ take (upto - from) (drop from rows.now) }
{
    &rows[from..upto]
}

/// The rows of a column, which rise by their begin.
pub fn rows_of_column(rows: &[ColumnRow], table: u64, column: u64) -> &[ColumnRow]
    requires { RisesByKey column_key rows.now }
    ensures { result.now ≡ filter (has_key spec.column_of (table ∷ column ∷ [])) rows.now }
{
    let below = rows_below(rows, table, column);
    let upto = rows_upto(rows, table, column);
    part(rows, below, upto)
}

/// The row of a column with the greatest begin.
pub fn newest_row(rows: &[ColumnRow], table: u64, column: u64) -> Option<&ColumnRow>
    requires { RisesByKey column_key rows.now }
    ensures { option_copied result ≡ spec.newest_row table column rows.now }
{
    rows_of_column(rows, table, column).last()
}

/// Whether a table has statistics, and its next field id isn't past this one.
pub fn is_field_past(rows: &CatRows, table: u64, field: u64) -> bool
    ensures { Decides result (spec.IsFieldPast (tables_of rows.now) table field) }
{
    match find_row(rows.table_stats(), &table) {
        Some(stats) => stats.next_field_id <= field,
        None => false,
    }
}
