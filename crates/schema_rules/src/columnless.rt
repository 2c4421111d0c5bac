ghost use Rattle.std.specs.Prelude.{IfOk};
ghost use Rattle.cat_rows.specs.Batches.{tables_of};
ghost use Rattle.cat_rows.specs.Validities.{column_validity, table_validity};
ghost use Rattle.cat_rules.specs.EachKept.{AtKept};
ghost use Rattle.cat_rules.specs.First.{FirstBad, Holds};
ghost use Rattle.cat_rules.specs.HistoryRule.{IsSnapshotBad};
ghost use Rattle.cat_rules.specs.IntervalRule.{IsIntervalBad};
ghost use Rattle.cat_rules.specs.Places.{of_column, of_table};
ghost use Rattle.cat_rules.specs.ColumnRule.{IsColumnless};
ghost use Rattle.schema_rules.specs.Groups.{group_by_id, group_by_table};
ghost use Rattle.cat_rules.specs.Crowded.{extent_of};

use cat_rows::{CatRows, ColumnRow, Key, TableRow};
use cat_rules::{Grouped, first_bare, first_kept};
use cat_spans::{Group, Span};
use lake_types::NoMemory;
use std::alloc::Global;

/// Tables by their id, from the first kept snapshot on.
#[derive(Drop)]
struct Tables {
    first: u64,
}

impl Grouped<TableRow> for Tables {
    ghost extent = { λ rule r. extent_of rule.first table_validity group_by_id r };

    ghost name = { of_table };

    fn span<'a>(&self, row: &'a TableRow) -> Span<'a> {
        let group = Group {
            first: row.table_id,
            second: 0,
            text: &[],
        };
        Span::new(group, row.begin_snapshot.max(self.first), row.end_snapshot)
    }

    fn key(&self, row: &TableRow) -> Key {
        Key::Table(row.table_id)
    }
}

/// Columns by their table, from the first kept snapshot on.
#[derive(Drop)]
struct TheirColumns {
    first: u64,
}

impl Grouped<ColumnRow> for TheirColumns {
    ghost extent = { λ rule c. extent_of rule.first column_validity group_by_table c };

    ghost name = { of_column };

    fn span<'a>(&self, row: &'a ColumnRow) -> Span<'a> {
        let group = Group {
            first: row.table_id,
            second: 0,
            text: &[],
        };
        Span::new(group, row.begin_snapshot.max(self.first), row.end_snapshot)
    }

    fn key(&self, row: &ColumnRow) -> Key {
        Key::Column(row.table_id, row.column_id, row.begin_snapshot)
    }
}

/// The first table of which a kept snapshot sees no column.
pub(crate) fn first_columnless_table(alloc: Global, rows: &CatRows) -> Result<Option<Key>, NoMemory>
    requires history { Holds (IsSnapshotBad (tables_of rows.now)) }
    requires intervals { Holds (IsIntervalBad (tables_of rows.now)) }
    ensures { IfOk result (FirstBad (AtKept IsColumnless (tables_of rows.now))) }
{
    let first = first_kept(rows);
    first_bare(
        alloc,
        &Tables { first },
        rows.table(),
        &TheirColumns { first },
        rows.column(),
    )
}
