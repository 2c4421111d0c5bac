ghost use Rattle.std.specs.Prelude.{IfOk};
ghost use Rattle.cat_rows.specs.Validities.{schema_validity};
ghost use Rattle.cat_rows.specs.Batches.{tables_of};
ghost use Rattle.cat_rules.specs.First.{FirstBad, Holds};
ghost use Rattle.cat_rules.specs.HistoryRule.{IsSnapshotBad};
ghost use Rattle.cat_rules.specs.IntervalRule.{IsIntervalBad};
ghost use Rattle.cat_rules.specs.Crowded.{extent_of};
ghost use Rattle.cat_rules.specs.Places.{of_schema};
ghost use Rattle.cat_rules.specs.SchemaRule.{IsSchemaNameBad};
ghost use Rattle.schema_rules.specs.Groups.{schema_group};

use cat_rows::{CatRows, Key, SchemaRow};
use cat_rules::{Grouped, first_crowded, first_kept};
use cat_spans::{Group, Span};
use lake_types::NoMemory;
use std::alloc::Global;

/// Schemas by their name, from the first kept snapshot on.
#[derive(Drop)]
struct SchemaNames {
    first: u64,
}

impl Grouped<SchemaRow> for SchemaNames {
    ghost extent = { λ rule r. extent_of rule.first schema_validity schema_group r };

    ghost name = { of_schema };

    fn span<'a>(&self, row: &'a SchemaRow) -> Span<'a> {
        let group = Group {
            first: 0,
            second: 0,
            text: row.schema_name.as_str().as_bytes(),
        };
        Span::new(group, row.begin_snapshot.max(self.first), row.end_snapshot)
    }

    fn key(&self, row: &SchemaRow) -> Key {
        Key::Schema(row.schema_id)
    }
}

/// The first bad row of the rule about the names of schemas: the first schema with the name of an earlier one that a kept snapshot sees too.
pub fn first_bad_schema(alloc: Global, rows: &CatRows) -> Result<Option<Key>, NoMemory>
    requires history { Holds (IsSnapshotBad (tables_of rows.now)) }
    requires intervals { Holds (IsIntervalBad (tables_of rows.now)) }
    ensures { IfOk result (FirstBad (IsSchemaNameBad (tables_of rows.now))) }
{
    let first = first_kept(rows);
    first_crowded(alloc, &SchemaNames { first }, 1, rows.schema())
}
