ghost use Rattle.std.specs.Prelude.{IfOk};
ghost use Rattle.cat_rows.specs.Batches.{tables_of};
ghost use Rattle.cat_rows.specs.Validities.{inlined_row_validity};
ghost use Rattle.cat_rules.specs.Crowded.{extent_with};
ghost use Rattle.cat_rules.specs.EachKept.{AtKept};
ghost use Rattle.cat_rules.specs.First.{FirstBad, Holds};
ghost use Rattle.cat_rules.specs.HistoryRule.{IsSnapshotBad};
ghost use Rattle.cat_rules.specs.InlinedRule.{IsPastThousand};
ghost use Rattle.cat_rules.specs.IntervalRule.{IsIntervalBad};
ghost use Rattle.cat_rules.specs.Places.{of_inlined};
ghost use Rattle.inlined_rules.specs.Groups.{group_by_begin};

use cat_rows::{CatRows, InlinedRow, Key};
use cat_rules::{Grouped, first_crowded, first_kept, span_with_table};
use cat_spans::{Group, Span};
use lake_types::NoMemory;
use std::alloc::Global;

/// Inlined rows by their table and begin, from the first kept snapshot on.
#[derive(Drop)]
struct ByBegin<'r> {
    rows: &'r CatRows,
    first: u64,
}

impl<'r> Grouped<InlinedRow> for ByBegin<'r> {
    ghost extent = { λ rule r. extent_with (tables_of rule.rows.now) rule.first inlined_row_validity (λ x. x.table_id) group_by_begin r };

    ghost name = { of_inlined };

    fn span<'a>(&self, row: &'a InlinedRow) -> Span<'a> {
        let group = Group {
            first: row.table_id,
            second: row.begin_snapshot,
            text: &[],
        };
        span_with_table(self.rows, self.first, group, row, row.table_id)
    }

    fn key(&self, row: &InlinedRow) -> Key {
        Key::Inlined(row.table_id, row.row_id, row.begin_snapshot)
    }
}

/// The first inlined row that a kept snapshot sees with its table beside 1,000 earlier ones of its begin.
pub(crate) fn first_crowded_inlined(alloc: Global, rows: &CatRows) -> Result<Option<Key>, NoMemory>
    requires history { Holds (IsSnapshotBad (tables_of rows.now)) }
    requires intervals { Holds (IsIntervalBad (tables_of rows.now)) }
    ensures { IfOk result (FirstBad (AtKept IsPastThousand (tables_of rows.now))) }
{
    // That tables rise is what the proof takes of them.
    let _tables = rows.table();
    let first = first_kept(rows);
    first_crowded(alloc, &ByBegin { rows, first }, 1000, rows.inlined_row())
}
