ghost use Rattle.std.specs.Prelude.{◌≡◌, ◌<◌, ◌+◌, ◌++◌, ◌^◌, length, map, IfOk, OnOk};
ghost use Rattle.std.specs.List.{AllByRecursion, flat_map};
ghost use Rattle.lake_model.specs.Apply.{fields_from};
ghost use Rattle.lake_model.specs.Creations.{made_schemas};
ghost use Rattle.lake_model.specs.Growth.{made_tables};
ghost use Rattle.lake_model.specs.declared.change.Ref.TheVariants.{New};
ghost use Rattle.cat_rows.specs.declared.batch.CatRow.TheVariants as row;
ghost use Rattle.cat_texts.specs.Written.{FitDefaults};
ghost use Rattle.rebase.specs.Made as spec;
ghost use Rattle.rebase.specs.Parts as parts;

use crate::creations::{Made, next, schema_id, table_id};
use cat_rows::{CatRow, SchemaRow, TableRow};
use cat_texts::column_row;
use lake_model::{Change, Ref, drops_schema, drops_table};
use lake_types::{Column, Copied, NoMemory, Words};
use std::alloc::Global;

/// Where new rows begin, and which catalogue ids created things get: from one on, in order of creation.
#[derive(Drop)]
pub(crate) struct Place<'a> {
    pub(crate) begin: u64,
    pub(crate) next: u64,
    pub(crate) made: &'a [Made],
}

/// The row of a created schema.
fn schema_row(
    alloc: Global,
    place: &Place,
    schema: u64,
    name: &Words,
) -> Result<SchemaRow, NoMemory>
    requires { spec.HasIds place.now }
    ensures { IfOk result (λ r. r ≡ parts.schema_row place.now.begin place.now.next (spec.creations_of place.now.made.now)
        (record { at = New schema; name = name.now })) }
{
    Ok(SchemaRow {
        schema_id: schema_id(place.next, place.made, Ref::New(schema)),
        begin_snapshot: place.begin,
        end_snapshot: None,
        schema_name: name.copy(alloc)?,
    })
}

/// Adds the schemas that a list creates and leaves.
pub(crate) fn add_schemas(
    alloc: Global,
    adds: &mut Vec<CatRow>,
    place: &Place,
    own: &[Change],
) -> Result<(), NoMemory>
    requires { spec.HasIds place.now }
    ensures { OnOk result (adds.new.items ≡ adds.old.items ++ spec.schema_adds place.now (made_schemas 0 own.now)) }
{
    let mut schemas = 0;
    let mut rest = own;
    while let [change, more @ ..] = rest {
        if let Change::CreateSchema { name } = change {
            if !drops_schema(more, Ref::New(schemas)) {
                adds.push(CatRow::Schema(schema_row(alloc, place, schemas, name)?))?;
            }
            schemas = next(schemas)?;
        }
        rest = more;
    }
    Ok(())
}

/// The row of a created table.
fn table_row(
    alloc: Global,
    place: &Place,
    table: u64,
    schema: Ref,
    name: &Words,
) -> Result<TableRow, NoMemory>
    requires { spec.HasIds place.now }
    ensures { IfOk result (λ r. r ≡ spec.table_row place.now (New table) schema name.now) }
{
    Ok(TableRow {
        table_id: table_id(place.next, place.made, Ref::New(table)),
        begin_snapshot: place.begin,
        end_snapshot: None,
        schema_id: schema_id(place.next, place.made, schema),
        table_name: name.copy(alloc)?,
    })
}

/// Adds the tables that a list creates and leaves.
pub(crate) fn add_tables(
    alloc: Global,
    adds: &mut Vec<CatRow>,
    place: &Place,
    own: &[Change],
) -> Result<(), NoMemory>
    requires { spec.HasIds place.now }
    ensures { OnOk result (adds.new.items ≡ adds.old.items ++ spec.table_adds place.now (made_tables 0 own.now)) }
{
    let mut tables = 0;
    let mut rest = own;
    while let [change, more @ ..] = rest {
        if let Change::CreateTable { schema, name, .. } = change {
            if !drops_table(more, Ref::New(tables)) {
                adds.push(CatRow::Table(table_row(alloc, place, tables, *schema, name)?))?;
            }
            tables = next(tables)?;
        }
        rest = more;
    }
    Ok(())
}

/// Adds the columns of a created table. Their field ids are 1, 2, .. in their order.
fn add_table_columns(
    alloc: Global,
    adds: &mut Vec<CatRow>,
    table: u64,
    begin: u64,
    columns: &[Column],
) -> Result<(), NoMemory>
    requires { AllByRecursion FitDefaults columns.now }
    ensures { OnOk result (adds.new.items ≡ adds.old.items ++ spec.column_adds
        (parts.column_rows_from table begin 0 (fields_from 1 columns.now))) }
{
    let mut order = 0;
    let mut rest = columns;
    while let [column, more @ ..] = rest {
        let mut row = column_row(alloc, table, begin, order, column)?;
        order = next(order)?;
        row.column_id = order;
        adds.push(CatRow::Column(row))?;
        rest = more;
    }
    Ok(())
}

/// Adds the columns of the tables that a list creates and leaves.
pub(crate) fn add_columns(
    alloc: Global,
    adds: &mut Vec<CatRow>,
    place: &Place,
    own: &[Change],
) -> Result<(), NoMemory>
    requires ids { spec.HasIds place.now }
    requires columns { AllByRecursion spec.HasFittingDefaults own.now }
    ensures { OnOk result (adds.new.items ≡ adds.old.items ++ spec.columns_adds place.now (made_tables 0 own.now)) }
{
    let mut tables = 0;
    let mut rest = own;
    while let [change, more @ ..] = rest {
        if let Change::CreateTable { columns, .. } = change {
            if !drops_table(more, Ref::New(tables)) {
                let id = table_id(place.next, place.made, Ref::New(tables));
                add_table_columns(alloc, adds, id, place.begin, columns.as_slice())?;
            }
            tables = next(tables)?;
        }
        rest = more;
    }
    Ok(())
}
