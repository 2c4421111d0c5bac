ghost use Rattle.std.specs.Prelude.{◌≡◌, IfOk};
ghost use Rattle.std.specs.Bool.{Decides};
ghost use Rattle.cat_rows.specs.Batches.{tables_of};
ghost use Rattle.cat_rules.specs.ColumnStatsRule.{AreStatsWrong, HasUnreadableBound, IsColumnStatsBad};
ghost use Rattle.cat_rules.specs.Lookups.{IsFieldPast};
ghost use Rattle.cat_rules.specs.First.{FirstBad};
ghost use Rattle.cat_rules.specs.Places.{of_column_stats};

use cat_rows::{CatRows, FileColumnStatsRow, Key};
use cat_rules::{CheckedRule, first_checked, is_field_past, is_unreadable, newest_row};
use cat_tables::find_row;
use lake_types::NoMemory;
use std::alloc::Global;

/// Whether the column has a row, and a bound isn't that of a value of the newest one's type.
fn has_unreadable_bound(
    alloc: Global,
    rows: &CatRows,
    table: u64,
    stats: &FileColumnStatsRow,
) -> Result<bool, NoMemory>
    ensures { IfOk result (λ yes. Decides yes (HasUnreadableBound (tables_of rows.now) table stats.now)) }
{
    let Some(column) = newest_row(rows.column(), table, stats.column_id) else {
        return Ok(false);
    };
    let type_text = column.column_type.as_str();
    let min = is_unreadable(alloc, type_text, &stats.min_value)?;
    let max = is_unreadable(alloc, type_text, &stats.max_value)?;
    Ok(min || max)
}

/// The rows whose statistics can't be those of their file.
#[derive(Drop)]
struct WrongStats<'a> {
    rows: &'a CatRows,
}

impl<'a> CheckedRule<FileColumnStatsRow> for WrongStats<'a> {
    ghost Bad = { λ s r. AreStatsWrong (tables_of s.rows.now) r };

    ghost name = { of_column_stats };

    fn judge(&self, alloc: Global, row: &FileColumnStatsRow) -> Result<Option<Key>, NoMemory> {
        let Some(file) = find_row(self.rows.data_file(), &row.data_file_id) else {
            return Ok(None);
        };
        let unreadable = has_unreadable_bound(alloc, self.rows, file.table_id, row)?;
        let past = is_field_past(self.rows, file.table_id, row.column_id);
        if past || (file.record_count < row.null_count || unreadable) {
            Ok(Some(Key::FileColumnStats(row.data_file_id, row.column_id)))
        } else {
            Ok(None)
        }
    }
}

/// The first bad row of the rule about the statistics of columns: where the file is there, the column's id is
/// below the next field id of the file's table, bounds are texts of values of the column's type, and NULLs
/// are at most the rows.
pub fn first_bad_column_stats(alloc: Global, rows: &CatRows) -> Result<Option<Key>, NoMemory>
    ensures { IfOk result (FirstBad (IsColumnStatsBad (tables_of rows.now))) }
{
    first_checked(alloc, &WrongStats { rows }, rows.file_column_stats())
}
