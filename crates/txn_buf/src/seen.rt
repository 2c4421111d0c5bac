ghost use Rattle.std.specs.Prelude.{◌≡◌, map, IfOk};
ghost use Rattle.lake_model.specs.Apply.{drafted_schema};
ghost use Rattle.cat_view.specs.Views.{named_table, named_tables, named_view};
ghost use Rattle.txn_buf.specs.Drafts as spec;

use cat_view::{TableView, View};
use file_disk::Held;
use lake_model::Ref;
use lake_types::{ColumnList, Copied, NoMemory, SchemaName, Words};
use std::alloc::Global;
use std::sync::Arc;

/// A schema that a transaction sees.
#[derive(Debug, Drop)]
pub struct SeenSchema {
    pub at: Ref,
    pub name: Words,
}

/// A table that a transaction sees, but its rows.
#[derive(Debug, Drop)]
pub struct SeenTable {
    pub at: Ref,
    pub schema: Ref,
    pub name: Words,
    pub columns: ColumnList,
    /// The field id that its next column gets.
    pub next_field: u32,
}

/// The schemas and tables that a transaction sees, its own changes in effect: those of its version, and behind them the
/// ones that it created. And how many it ever created.
#[derive(Debug, Drop)]
pub struct Seen {
    pub schemas: Vec<SeenSchema>,
    pub tables: Vec<SeenTable>,
    pub created_schemas: u64,
    pub created_tables: u64,
}

fn seen_schema(alloc: Global, schema: &SchemaName) -> Result<SeenSchema, NoMemory>
    ensures { IfOk result (λ seen. spec.schema_draft seen ≡ drafted_schema schema.now) }
{
    Ok(SeenSchema {
        at: Ref::Old(schema.id),
        name: schema.name.copy(alloc)?,
    })
}

fn seen_schemas(alloc: Global, schemas: &[SchemaName]) -> Result<Vec<SeenSchema>, NoMemory>
    ensures { IfOk result (λ seen. spec.schema_drafts seen.items ≡ map drafted_schema schemas.now) }
{
    let mut seen = Vec::new(alloc);
    for schema in schemas {
        let schema = seen_schema(alloc, schema)?;
        seen.push(schema)?;
    }
    Ok(seen)
}

fn seen_table<F: Held>(alloc: Global, table: &TableView<F>) -> Result<SeenTable, NoMemory>
    ensures { IfOk result (λ seen. spec.table_draft seen ≡ spec.begun_table (named_table F.name table.now)) }
{
    Ok(SeenTable {
        at: Ref::Old(table.head.id),
        schema: Ref::Old(table.head.schema),
        name: table.head.name.copy(alloc)?,
        columns: table.columns.copy(alloc)?,
        next_field: table.next_field,
    })
}

fn seen_tables<F: Held>(
    alloc: Global,
    tables: &[Arc<TableView<F>>],
) -> Result<Vec<SeenTable>, NoMemory>
    ensures { IfOk result (λ seen. spec.table_drafts seen.items ≡ map spec.begun_table (named_tables F.name
        tables.now)) }
{
    let mut seen = Vec::new(alloc);
    for table in tables {
        let table = seen_table(alloc, &**table)?;
        seen.push(table)?;
    }
    Ok(seen)
}

/// What a transaction sees before its first change.
pub fn seen_in<F: Held>(alloc: Global, view: &View<F>) -> Result<Seen, NoMemory>
    ensures { IfOk result (λ seen. spec.work_of seen ≡ spec.begun_in (named_view F.name view.now)) }
{
    let schemas = seen_schemas(alloc, view.schemas().as_slice())?;
    let tables = seen_tables(alloc, view.tables())?;
    Ok(Seen {
        schemas,
        tables,
        created_schemas: 0,
        created_tables: 0,
    })
}
