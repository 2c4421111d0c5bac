ghost use Rattle.std.specs.Prelude.{◌≡◌, IfOk};
ghost use Rattle.cat_rows.specs.Validities.{table_validity};
ghost use Rattle.cat_rules.specs.Crowded.{extent_of};
ghost use Rattle.cat_rules.specs.Places.{of_table};
ghost use Rattle.schema_rules.specs.Groups.{table_group};
ghost use Rattle.cat_rows.specs.Batches.{tables_of};
ghost use Rattle.cat_rules.specs.EachKept.{AtKept};
ghost use Rattle.cat_rules.specs.First.{FirstBad, Holds};
ghost use Rattle.cat_rules.specs.HistoryRule.{IsSnapshotBad};
ghost use Rattle.cat_rules.specs.IntervalRule.{IsIntervalBad};
ghost use Rattle.cat_rules.specs.TableRule as spec;

use cat_rows::{CatRows, Key, TableRow};
use cat_rules::{Grouped, first_crowded, first_kept, first_unmatched, kept_of, sooner};
use cat_spans::{Group, Span};
use lake_types::NoMemory;
use std::alloc::Global;

/// The first table whose schema isn't there, or isn't seen by each kept snapshot that sees the table.
fn first_unmatched_table(rows: &CatRows) -> Option<Key>
    requires history { Holds (IsSnapshotBad (tables_of rows.now)) }
    requires intervals { Holds (IsIntervalBad (tables_of rows.now)) }
    ensures { FirstBad (AtKept (spec.IsTableUnmatched (tables_of rows.now)) (tables_of rows.now)) result }
{
    // That schemas rise is what the proof takes of them.
    let _schemas = rows.schema();
    let kept = kept_of(rows.snapshot());
    first_unmatched(rows, kept, rows.table())
}

/// Tables by their schema and name, from the first kept snapshot on.
#[derive(Drop)]
struct TableNames {
    first: u64,
}

impl Grouped<TableRow> for TableNames {
    ghost extent = { λ rule r. extent_of rule.first table_validity table_group r };

    ghost name = { of_table };

    fn span<'a>(&self, row: &'a TableRow) -> Span<'a> {
        let group = Group {
            first: row.schema_id,
            second: 0,
            text: row.table_name.as_str().as_bytes(),
        };
        Span::new(group, row.begin_snapshot.max(self.first), row.end_snapshot)
    }

    fn key(&self, row: &TableRow) -> Key {
        Key::Table(row.table_id)
    }
}

/// The first table with the schema and the name of an earlier one that a kept snapshot sees too.
fn first_used_table_name(alloc: Global, rows: &CatRows) -> Result<Option<Key>, NoMemory>
    requires history { Holds (IsSnapshotBad (tables_of rows.now)) }
    requires intervals { Holds (IsIntervalBad (tables_of rows.now)) }
    ensures { IfOk result (FirstBad (AtKept spec.IsTableNameUsed (tables_of rows.now))) }
{
    let first = first_kept(rows);
    first_crowded(alloc, &TableNames { first }, 1, rows.table())
}

/// The first bad row of the rule about tables: their schemas and their names.
pub fn first_bad_table(alloc: Global, rows: &CatRows) -> Result<Option<Key>, NoMemory>
    requires history { Holds (IsSnapshotBad (tables_of rows.now)) }
    requires intervals { Holds (IsIntervalBad (tables_of rows.now)) }
    ensures { IfOk result (FirstBad (spec.IsTableBad (tables_of rows.now))) }
{
    let name = first_used_table_name(alloc, rows)?;
    Ok(sooner(first_unmatched_table(rows), name))
}
