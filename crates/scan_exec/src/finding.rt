ghost use Rattle.std.specs.Prelude.{◌≡◌, ◌∷◌, ℕ, List, map, IfSome, IfNone, option_map};
ghost use Rattle.std.specs.Arc.{arc_value};
ghost use Rattle.std.specs.List.{Contains};
ghost use Rattle.std.specs.Option.{option_copied};
ghost use Rattle.lake_model.specs.Creations.{made_schemas};
ghost use Rattle.lake_model.specs.Growth.{made_tables};
ghost use Rattle.lake_model.specs.declared.change.Change.{Change as ChangeOf};
ghost use Rattle.lake_model.specs.declared.change.Change.TheVariants as changes;
ghost use Rattle.lake_model.specs.declared.change.Ref.TheVariants as ref;
ghost use Rattle.cat_view.specs.Views.{named_table, named_tables};
ghost use Rattle.scan_exec.specs.Finding as spec;

use cat_view::TableView;
use file_disk::Held;
use lake_model::{Change, Ref, drops_schema, drops_table, is_ref};
use lake_types::{Column, ColumnList, SchemaName, Words};
use std::sync::Arc;

/// A table that a list of changes creates, by its place among the list's creations of tables.
#[derive(Clone, Copy)]
pub struct Made<'a> {
    pub place: u64,
    pub schema: Ref,
    pub name: &'a Words,
    pub columns: &'a [Column],
    /// The changes behind its creation.
    pub own: &'a [Change],
}

fn is_schema(own: &[Change], name: &str, schema: &SchemaName) -> bool
    ensures { result ≡ spec.is_schema own.now name.now schema.now }
{
    schema.name.as_str() == name && !drops_schema(own, Ref::Old(schema.id))
}

fn old_schema(schemas: &[SchemaName], own: &[Change], name: &str) -> Option<Ref>
    ensures { result ≡ spec.old_schema own.now schemas.now name.now }
{
    for schema in schemas {
        if is_schema(own, name, schema) {
            return Some(Ref::Old(schema.id));
        }
    }
    None
}

/// The name of the schema that a change creates.
fn schema_creation(change: &Change) -> Option<&Words>
    ensures some { IfSome (option_copied result) (λ name. change.now ≡ changes.CreateSchema name) }
    ensures none { IfNone result ((place : ℕ) (own : List ChangeOf) → made_schemas place (change.now ∷ own) ≡ made_schemas place own) }
{
    match change {
        Change::CreateSchema { name } => Some(name),
        _ => None,
    }
}

fn made_schema(own: &[Change], name: &str) -> Option<Ref>
    ensures { result ≡ spec.made_schema 0 own.now name.now }
{
    let mut place = 0u64;
    for at in 0..own.len() {
        if let Some(made) = schema_creation(&own[at]) {
            if made.as_str() == name && !drops_schema(&own[at + 1..], Ref::New(place)) {
                return Some(Ref::New(place));
            }
            place += 1;
        }
    }
    None
}

/// The schema of a name: one that the list leaves, or else one that it makes.
pub fn schema_of(schemas: &[SchemaName], own: &[Change], name: &str) -> Option<Ref>
    ensures { result ≡ spec.schema_of own.now schemas.now name.now }
{
    match old_schema(schemas, own, name) {
        Some(schema) => Some(schema),
        None => made_schema(own, name),
    }
}

fn is_table<F: Held>(own: &[Change], schema: Ref, name: &str, table: &TableView<F>) -> bool
    ensures { result ≡ spec.is_table own.now schema name.now (named_table F.name table.now) }
{
    is_ref(Ref::Old(table.head.schema), schema)
        && table.head.name.as_str() == name
        && !drops_table(own, Ref::Old(table.head.id))
}

/// The table of a schema and a name, among those of a version that the list leaves.
pub fn old_table<'a, F: Held>(
    tables: &'a [Arc<TableView<F>>],
    own: &[Change],
    schema: Ref,
    name: &str,
) -> Option<&'a TableView<F>>
    ensures table { option_map (named_table F.name) (option_copied result)
        ≡ spec.old_table own.now (named_tables F.name tables.now) schema name.now }
    ensures held { IfSome (option_copied result) (Contains (map (λ x. arc_value x) tables.now)) }
{
    for table in tables {
        if is_table(own, schema, name, &**table) {
            return Some(&**table);
        }
    }
    None
}

/// A table that a change creates.
#[derive(Clone, Copy)]
struct Creation<'a> {
    schema: Ref,
    name: &'a Words,
    columns: &'a ColumnList,
}

fn table_creation(change: &Change) -> Option<Creation<'_>>
    ensures some { IfSome result (λ x. change.now ≡ changes.CreateTable x.schema x.name.now x.columns.now) }
    ensures none { IfNone result ((place : ℕ) (own : List ChangeOf) → made_tables place (change.now ∷ own) ≡ made_tables place own) }
{
    match change {
        Change::CreateTable {
            schema,
            name,
            columns,
        } => Some(Creation {
            schema: *schema,
            name,
            columns,
        }),
        _ => None,
    }
}

/// The table of a schema and a name, among those that the list makes.
pub fn made_table<'a>(own: &'a [Change], schema: Ref, name: &str) -> Option<Made<'a>>
    ensures { option_map spec.made_draft result ≡ spec.made_table 0 own.now schema name.now }
{
    let mut place = 0u64;
    for at in 0..own.len() {
        let rest = &own[at + 1..];
        if let Some(made) = table_creation(&own[at]) {
            if is_ref(made.schema, schema)
                && made.name.as_str() == name
                && !drops_table(rest, Ref::New(place))
            {
                return Some(Made {
                    place,
                    schema: made.schema,
                    name: made.name,
                    columns: made.columns.as_slice(),
                    own: rest,
                });
            }
            place += 1;
        }
    }
    None
}
