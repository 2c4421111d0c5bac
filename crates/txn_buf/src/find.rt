ghost use Rattle.std.specs.Prelude.{◌≡◌, ◌≢◌, option_map, Some, IfErr, IfOk};
ghost use Rattle.std.specs.Option.{option_copied};
ghost use Rattle.lake_model.specs.Apply.{Draft};
ghost use Rattle.lake_model.specs.Plans as plan;
ghost use Rattle.lake_model.specs.Rows.{draft_at};
ghost use Rattle.txn_buf.specs.Drafts as spec;
ghost use Rattle.txn_buf.specs.Turns.{answer_of, table_ref};
ghost use Rattle.txn_buf.specs.declared.no.TxnNo.TheVariants.{Memory};

use crate::no::TxnNo;
use crate::seen::{Seen, SeenTable};
use lake_model::{Ref, is_ref};
use lake_types::{Copied, TableName};
use std::alloc::Global;

impl Seen {
    /// The schema of a name.
    pub fn schema(&self, name: &str) -> Option<Ref>
        ensures { result ≡ plan.schema_named (spec.work_of self.now) name.now }
    {
        for schema in self.schemas.as_slice() {
            if schema.name.as_str() == name {
                return Some(schema.at);
            }
        }
        None
    }

    /// The table of a name in a schema.
    pub fn table(&self, schema: Ref, name: &str) -> Option<&SeenTable>
        ensures { option_map spec.table_draft (option_copied result) ≡ plan.table_named (spec.work_of
            self.now) schema name.now }
    {
        for table in self.tables.as_slice() {
            if is_ref(table.schema, schema) && table.name.as_str() == name {
                return Some(table);
            }
        }
        None
    }

    /// The table of a reference.
    pub fn table_at(&self, at: Ref) -> Option<&SeenTable>
        ensures { option_map spec.table_draft (option_copied result) ≡ draft_at (spec.work_of self.now) at }
    {
        for table in self.tables.as_slice() {
            if is_ref(table.at, at) {
                return Some(table);
            }
        }
        None
    }

    /// Whether a schema has tables.
    pub fn has_tables(&self, schema: Ref) -> bool
        ensures { result ≡ plan.has_tables (spec.work_of self.now) schema }
    {
        for table in self.tables.as_slice() {
            if is_ref(table.schema, schema) {
                return true;
            }
        }
        false
    }
}

/// The table that a statement names.
pub fn named_table<'a>(
    alloc: Global,
    seen: &'a Seen,
    table: &TableName,
) -> Result<&'a SeenTable, TxnNo>
    ensures at { IfOk result (λ found. table_ref (spec.work_of seen.now) table.now ≡ Some found.now.at) }
    ensures found { IfOk result (λ found. (p : Draft → plan.Plan) → plan.on_table (spec.work_of seen.now) table.now p ≡
        p (spec.table_draft found.now)) }
    ensures refused { IfErr result (λ why. why ≢ Memory → (p : Draft → plan.Plan) → plan.on_table (spec.work_of
        seen.now) table.now p ≡ plan.Refuse (answer_of why)) }
{
    let Some(schema) = seen.schema(table.schema.as_str()) else {
        return Err(TxnNo::NoSchema {
            name: table.schema.copy(alloc)?,
        });
    };
    match seen.table(schema, table.table.as_str()) {
        Some(found) => Ok(found),
        None => Err(TxnNo::NoTable {
            table: table.copy(alloc)?,
        }),
    }
}
