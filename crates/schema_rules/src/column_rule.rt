ghost use Rattle.std.specs.Prelude.{IfOk, ◌≡◌, true};
ghost use Rattle.std.specs.Bool.{Decides};
ghost use Rattle.cat_rows.specs.Batches.{tables_of};
ghost use Rattle.cat_rules.specs.EachKept.{AtKept};
ghost use Rattle.cat_rules.specs.First.{FirstBad, Holds};
ghost use Rattle.cat_rules.specs.HistoryRule.{IsSnapshotBad};
ghost use Rattle.cat_rules.specs.IntervalRule.{IsIntervalBad};
ghost use Rattle.cat_rules.specs.Places.{of_column};
ghost use Rattle.cat_rows.specs.Validities.{column_validity};
ghost use Rattle.cat_rules.specs.Meeting.{meets_table};
ghost use Rattle.cat_rules.specs.Lookups.{table_of};
ghost use Rattle.cat_rules.specs.ColumnRule as spec;

use crate::columnless::first_columnless_table;
use crate::crowded_columns::first_crowded_column;
use crate::defaults::is_default;
use cat_rows::{CatRows, ColumnRow, Key};
use cat_rules::{CheckedRule, first_checked, is_field_past, kept_of, meets_table, sooner};
use cat_tables::find_row;
use cat_texts::type_of;
use lake_types::NoMemory;
use std::alloc::Global;

/// The most bytes of a column's name.
const MAX_NAME_BYTES: usize = 255;

/// Whether a column that can't be NULL needs an initial default and has none.
fn lacks_initial(rows: &CatRows, column: &ColumnRow) -> bool
    ensures { Decides result (spec.LacksInitial (tables_of rows.now) column.now) }
{
    if column.nulls_allowed || column.initial_default.is_some() {
        return false;
    }
    let Some(table) = find_row(rows.table(), &column.table_id) else {
        return false;
    };
    let made = (column.table_id, column.column_id, table.begin_snapshot);
    kept_of(rows.snapshot()).first <= table.begin_snapshot
        && find_row(rows.column(), &made).is_none()
}

/// Whether a column's field id isn't from 1 to below its table's next one.
fn has_wrong_id(rows: &CatRows, column: &ColumnRow) -> bool
    ensures { Decides result (spec.HasWrongId (tables_of rows.now) column.now) }
{
    column.column_id == 0 || is_field_past(rows, column.table_id, column.column_id)
}

fn has_wrong_default(alloc: Global, column: &ColumnRow) -> Result<bool, NoMemory>
    ensures { IfOk result (λ yes. Decides yes (spec.HasWrongDefault column.now)) }
{
    let type_text = column.column_type.as_str();
    let initial = is_default(alloc, type_text, &column.initial_default)?;
    let default_value = is_default(alloc, type_text, &column.default_value)?;
    Ok(!initial || !default_value)
}

fn is_wrong(alloc: Global, rows: &CatRows, column: &ColumnRow) -> Result<bool, NoMemory>
    ensures { IfOk result (λ yes. Decides yes (spec.IsColumnWrong (tables_of rows.now) column.now)) }
{
    let wrong_default = has_wrong_default(alloc, column)?;
    let is_long = column.column_name.as_str().len() > MAX_NAME_BYTES;
    let is_unknown = type_of(column.column_type.as_str()).is_none();
    Ok(
        is_long
            || (is_unknown
                || (wrong_default || (lacks_initial(rows, column) || has_wrong_id(rows, column)))),
    )
}

/// The columns that are wrong by themselves, and that a kept snapshot sees with their table.
#[derive(Drop)]
struct WrongColumns<'a> {
    rows: &'a CatRows,
}

impl<'a> CheckedRule<ColumnRow> for WrongColumns<'a> {
    ghost Bad = { λ w c. (meets_table column_validity c (table_of (tables_of w.rows.now) c.table_id) ≡ true) × spec.IsColumnWrong (tables_of w.rows.now) c };

    ghost name = { of_column };

    fn judge(&self, alloc: Global, row: &ColumnRow) -> Result<Option<Key>, NoMemory> {
        let wrong = is_wrong(alloc, self.rows, row)?;
        if wrong && meets_table(self.rows, row, row.table_id) {
            Ok(Some(Key::Column(row.table_id, row.column_id, row.begin_snapshot)))
        } else {
            Ok(None)
        }
    }
}

/// The first column, of those that a kept snapshot sees with their table, that is wrong by itself: its name has more than
/// 255 bytes, its type isn't known, a default isn't the text of a value of the type with at most 1,048,576 bytes, it needs
/// an initial default and has none, or its field id isn't from 1 to below the table's next one.
fn first_wrong_column(alloc: Global, rows: &CatRows) -> Result<Option<Key>, NoMemory>
    requires history { Holds (IsSnapshotBad (tables_of rows.now)) }
    requires intervals { Holds (IsIntervalBad (tables_of rows.now)) }
    ensures { IfOk result (FirstBad (AtKept (spec.IsColumnBad (tables_of rows.now)) (tables_of rows.now))) }
{
    // That snapshots and tables rise is what the proof takes of them.
    let _snapshots = rows.snapshot();
    let _tables = rows.table();
    first_checked(alloc, &WrongColumns { rows }, rows.column())
}

/// The first bad row of the rule about columns: those of a table together, and each by itself.
pub fn first_bad_column(alloc: Global, rows: &CatRows) -> Result<Option<Key>, NoMemory>
    requires history { Holds (IsSnapshotBad (tables_of rows.now)) }
    requires intervals { Holds (IsIntervalBad (tables_of rows.now)) }
    ensures { IfOk result (FirstBad (spec.AreColumnsBad (tables_of rows.now))) }
{
    let columnless = first_columnless_table(alloc, rows)?;
    let crowded = first_crowded_column(alloc, rows)?;
    let wrong = first_wrong_column(alloc, rows)?;
    Ok(sooner(columnless, sooner(crowded, wrong)))
}
