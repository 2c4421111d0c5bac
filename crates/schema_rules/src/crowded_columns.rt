ghost use Rattle.std.specs.Prelude.{◌≡◌, IfOk};
ghost use Rattle.cat_rows.specs.Batches.{tables_of};
ghost use Rattle.cat_rules.specs.EachKept.{AtKept};
ghost use Rattle.cat_rules.specs.First.{FirstBad, Holds};
ghost use Rattle.cat_rules.specs.HistoryRule.{IsSnapshotBad};
ghost use Rattle.cat_rules.specs.IntervalRule.{IsIntervalBad};
ghost use Rattle.cat_rules.specs.Places.{of_column};
ghost use Rattle.cat_rules.specs.Rows.{Names};
ghost use Rattle.cat_rows.specs.Validities.{column_validity};
ghost use Rattle.cat_rules.specs.Crowded.{extent_with};
ghost use Rattle.cat_rules.specs.ColumnRule.{HaveOneOrder, HaveOneColumnName, IsAlikeEarlier, IsCrowdedColumn, IsPastHundred};
ghost use Rattle.schema_rules.specs.Groups.{group_by_table, group_by_order, group_by_name};

use cat_rows::{CatRows, ColumnRow, Key};
use cat_rules::{Grouped, first_crowded, first_kept, sooner, span_with_table};
use cat_spans::{Group, Span};
use lake_types::NoMemory;
use std::alloc::Global;

/// Columns by their table, from the first kept snapshot on.
#[derive(Drop)]
struct ByTable<'r> {
    rows: &'r CatRows,
    first: u64,
}

impl<'r> Grouped<ColumnRow> for ByTable<'r> {
    ghost extent = { λ rule c. extent_with (tables_of rule.rows.now) rule.first column_validity (λ x. x.table_id) group_by_table c };

    ghost name = { of_column };

    fn span<'a>(&self, row: &'a ColumnRow) -> Span<'a> {
        let group = Group {
            first: row.table_id,
            second: 0,
            text: &[],
        };
        span_with_table(self.rows, self.first, group, row, row.table_id)
    }

    fn key(&self, row: &ColumnRow) -> Key {
        Key::Column(row.table_id, row.column_id, row.begin_snapshot)
    }
}

/// Columns by their table and order, from the first kept snapshot on.
#[derive(Drop)]
struct ByOrder<'r> {
    rows: &'r CatRows,
    first: u64,
}

impl<'r> Grouped<ColumnRow> for ByOrder<'r> {
    ghost extent = { λ rule c. extent_with (tables_of rule.rows.now) rule.first column_validity (λ x. x.table_id) group_by_order c };

    ghost name = { of_column };

    fn span<'a>(&self, row: &'a ColumnRow) -> Span<'a> {
        let group = Group {
            first: row.table_id,
            second: row.column_order,
            text: &[],
        };
        span_with_table(self.rows, self.first, group, row, row.table_id)
    }

    fn key(&self, row: &ColumnRow) -> Key {
        Key::Column(row.table_id, row.column_id, row.begin_snapshot)
    }
}

/// Columns by their table and name, from the first kept snapshot on.
#[derive(Drop)]
struct ByName<'r> {
    rows: &'r CatRows,
    first: u64,
}

impl<'r> Grouped<ColumnRow> for ByName<'r> {
    ghost extent = { λ rule c. extent_with (tables_of rule.rows.now) rule.first column_validity (λ x. x.table_id) group_by_name c };

    ghost name = { of_column };

    fn span<'a>(&self, row: &'a ColumnRow) -> Span<'a> {
        let group = Group {
            first: row.table_id,
            second: 0,
            text: row.column_name.as_str().as_bytes(),
        };
        span_with_table(self.rows, self.first, group, row, row.table_id)
    }

    fn key(&self, row: &ColumnRow) -> Key {
        Key::Column(row.table_id, row.column_id, row.begin_snapshot)
    }
}

/// The first column of a table that a kept snapshot sees beside 100 earlier ones.
fn first_past_hundred(alloc: Global, rows: &CatRows) -> Result<Option<Key>, NoMemory>
    requires history { Holds (IsSnapshotBad (tables_of rows.now)) }
    requires intervals { Holds (IsIntervalBad (tables_of rows.now)) }
    ensures { IfOk result (FirstBad (AtKept (λ seen. Names of_column (IsPastHundred seen) seen.column) (tables_of rows.now))) }
{
    // That tables rise is what the proof takes of them.
    let _tables = rows.table();
    let first = first_kept(rows);
    first_crowded(alloc, &ByTable { rows, first }, 100, rows.column())
}

/// The first column of a table that a kept snapshot sees beside an earlier one of its order.
fn first_used_order(alloc: Global, rows: &CatRows) -> Result<Option<Key>, NoMemory>
    requires history { Holds (IsSnapshotBad (tables_of rows.now)) }
    requires intervals { Holds (IsIntervalBad (tables_of rows.now)) }
    ensures { IfOk result (FirstBad (AtKept (λ seen. Names of_column (IsAlikeEarlier HaveOneOrder seen) seen.column) (tables_of rows.now))) }
{
    // That tables rise is what the proof takes of them.
    let _tables = rows.table();
    let first = first_kept(rows);
    first_crowded(alloc, &ByOrder { rows, first }, 1, rows.column())
}

/// The first column of a table that a kept snapshot sees beside an earlier one of its name.
fn first_used_column_name(alloc: Global, rows: &CatRows) -> Result<Option<Key>, NoMemory>
    requires history { Holds (IsSnapshotBad (tables_of rows.now)) }
    requires intervals { Holds (IsIntervalBad (tables_of rows.now)) }
    ensures { IfOk result (FirstBad (AtKept (λ seen. Names of_column (IsAlikeEarlier HaveOneColumnName seen) seen.column) (tables_of rows.now))) }
{
    // That tables rise is what the proof takes of them.
    let _tables = rows.table();
    let first = first_kept(rows);
    first_crowded(alloc, &ByName { rows, first }, 1, rows.column())
}

/// The first column that is one too many in its table, or has the order or the name of an earlier one there.
pub(crate) fn first_crowded_column(alloc: Global, rows: &CatRows) -> Result<Option<Key>, NoMemory>
    requires history { Holds (IsSnapshotBad (tables_of rows.now)) }
    requires intervals { Holds (IsIntervalBad (tables_of rows.now)) }
    ensures { IfOk result (FirstBad (AtKept IsCrowdedColumn (tables_of rows.now))) }
{
    let past = first_past_hundred(alloc, rows)?;
    let order = first_used_order(alloc, rows)?;
    let name = first_used_column_name(alloc, rows)?;
    Ok(sooner(past, sooner(order, name)))
}
