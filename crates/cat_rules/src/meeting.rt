ghost use Rattle.std.specs.Prelude.{◌≡◌};
ghost use Rattle.cat_rows.specs.Batches.{tables_of};
ghost use Rattle.cat_rules.specs.Lookups.{table_of};
ghost use Rattle.cat_rules.specs.Meeting as spec;

use crate::dated::Dated;
use cat_rows::CatRows;
use cat_tables::find_row;

/// Whether a row's table is there, and the intervals of both have a snapshot in common.
pub fn meets_table<R: Dated>(rows: &CatRows, row: &R, table: u64) -> bool
    ensures { result ≡ spec.meets_table R.validity row.now (table_of (tables_of rows.now) table) }
{
    match find_row(rows.table(), &table) {
        Some(table) => row.interval().meets(table.interval()),
        None => false,
    }
}
