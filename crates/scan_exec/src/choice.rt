ghost use Rattle.std.specs.Prelude.{◌≡◌, ◌≢◌, ◌++◌, map, None, Some, IfErr, IfOk, OnOk};
ghost use Rattle.std.specs.Option.{option_copied};
ghost use Rattle.lake_types.specs.declared.value.Column.{Column as ColumnOf};
ghost use Rattle.lake_model.specs.Rows.{fault_of_test};
ghost use Rattle.pred.specs.Bound.{bound_chooses};
ghost use Rattle.scan_exec.specs.Chosen as told;
ghost use Rattle.scan_exec.specs.Picking as spec;
ghost use Rattle.pred.specs.Binding.{told as fault_told};
ghost use Rattle.pred.specs.declared.fault.BindNo.TheVariants.{Memory};

use lake_types::{
    CellValues, Column, Copied, NoMemory, Pred, Row, RowList, Value, Words, column_named,
};
use pred::{BindNo, Bound, Cells, bind, chooses};
use std::alloc::Global;

/// Which rows are told, and which of their cells.
#[derive(Drop)]
pub struct Choice {
    /// A row is told where this test is true, or where there is none.
    pub bound: Option<Bound>,
    /// The fields of the cells that are told, in their order.
    pub fields: Vec<u32>,
}

/// The field of the column of a name.
fn field_named(alloc: Global, columns: &[Column], name: &Words) -> Result<u32, BindNo>
    ensures field { IfOk result (λ field. told.field_named columns.now name.now ≡ Some field) }
    ensures faultless { OnOk result (spec.name_fault columns.now name.now ≡ None) }
    ensures fault { IfErr result (λ no. no ≢ Memory → spec.name_fault columns.now name.now ≡ fault_told no) }
{
    match column_named(columns, name.as_str()) {
        Some(column) => Ok(column.field),
        None => Err(BindNo::NoColumn {
            name: name.copy(alloc)?,
        }),
    }
}

/// The fields of the columns of some names.
fn fields_named(alloc: Global, columns: &[Column], names: &[Words]) -> Result<Vec<u32>, BindNo>
    ensures fields { IfOk result (λ fields. fields.items ≡ told.fields_named columns.now names.now) }
    ensures faultless { OnOk result (spec.names_fault columns.now names.now ≡ None) }
    ensures fault { IfErr result (λ no. no ≢ Memory → spec.names_fault columns.now names.now ≡ fault_told no) }
{
    let mut fields = Vec::new(alloc);
    for name in names {
        match field_named(alloc, columns, name) {
            Ok(field) => fields.push(field)?,
            Err(no) => return Err(no),
        }
    }
    Ok(fields)
}

/// The fields of all columns.
fn all_fields(alloc: Global, columns: &[Column]) -> Result<Vec<u32>, NoMemory>
    ensures { IfOk result (λ fields. fields.items ≡ map (λ (c : ColumnOf). c.field) columns.now) }
{
    let mut fields = Vec::with_capacity(alloc, columns.len())?;
    for column in columns {
        fields.push(column.field)?;
    }
    Ok(fields)
}

/// The fields of the columns of some names, or of all columns.
fn told_fields(
    alloc: Global,
    columns: &[Column],
    names: Option<&[Words]>,
) -> Result<Vec<u32>, BindNo>
    ensures fields { IfOk result (λ fields. fields.items ≡ told.fields_told columns.now (option_copied names.entry)) }
    ensures faultless { OnOk result (spec.told_fault columns.now (option_copied names.entry) ≡ None) }
    ensures fault { IfErr result (λ no. no ≢ Memory → spec.told_fault columns.now (option_copied names.entry) ≡ fault_told no) }
{
    match names {
        Some(names) => fields_named(alloc, columns, names),
        None => match all_fields(alloc, columns) {
            Ok(fields) => Ok(fields),
            Err(_) => Err(BindNo::Memory),
        },
    }
}

/// A test by the fields of columns.
fn bound_test(
    alloc: Global,
    columns: &[Column],
    test: Option<&Pred>,
) -> Result<Option<Bound>, BindNo>
    ensures bound { IfOk result (λ bound. spec.IsBound columns.now (option_copied test.entry) bound) }
    ensures faultless { OnOk result (fault_of_test columns.now (option_copied test.entry) ≡ None) }
    ensures fault { IfErr result (λ no. no ≢ Memory → fault_of_test columns.now (option_copied test.entry) ≡ fault_told no) }
{
    let Some(test) = test else {
        return Ok(None);
    };
    match bind(alloc, test, columns) {
        Ok(bound) => Ok(Some(bound)),
        Err(no) => Err(no),
    }
}

/// What a SELECT of some columns, or of all, tells of the rows that a test chooses. The first fault refuses, those of the
/// names before those of the test.
pub fn choice_of(
    alloc: Global,
    columns: &[Column],
    names: Option<&[Words]>,
    test: Option<&Pred>,
) -> Result<Choice, BindNo>
    ensures bound { IfOk result (λ choice. spec.IsBound columns.now (option_copied test.entry) choice.bound) }
    ensures fields { IfOk result (λ choice. choice.fields.items ≡ told.fields_told columns.now (option_copied names.entry)) }
    ensures faultless { OnOk result (spec.fault_of columns.now (option_copied names.entry) (option_copied test.entry) ≡ None) }
    ensures fault { IfErr result (λ no. no ≢ Memory → spec.fault_of columns.now (option_copied names.entry) (option_copied test.entry) ≡ fault_told no) }
{
    let fields = match told_fields(alloc, columns, names) {
        Ok(fields) => fields,
        Err(no) => return Err(no),
    };
    match bound_test(alloc, columns, test) {
        Ok(bound) => Ok(Choice { bound, fields }),
        Err(no) => Err(no),
    }
}

/// A copy of the cell of a field; NULL where the row lacks it.
fn told_value<C: Cells>(alloc: Global, cells: &C, field: u32) -> Result<Value, NoMemory>
    ensures { IfOk result (λ value. (field, value) ≡ told.told_cell (C.cell cells.now) field) }
{
    match cells.cell(field) {
        Some(value) => value.copy(alloc),
        None => Ok(Value::Null),
    }
}

/// Copies of the cells of some fields.
fn picked<C: Cells>(alloc: Global, fields: &[u32], cells: &C) -> Result<CellValues, NoMemory>
    ensures { IfOk result (λ made. made ≡ told.picked fields.now (C.cell cells.now)) }
{
    let mut told = CellValues::from_vec(Vec::with_capacity(alloc, fields.len())?);
    for field in fields {
        let value = told_value(alloc, cells, *field)?;
        told.push((*field, value))?;
    }
    Ok(told)
}

/// Adds a row behind others, where it is chosen.
pub fn push_chosen<C: Cells>(
    alloc: Global,
    rows: &mut RowList,
    choice: &Choice,
    id: u64,
    cells: &C,
) -> Result<bool, NoMemory>
    ensures rows { OnOk result (rows.new ≡ rows.old
        ++ spec.row_if_chosen choice.now.bound choice.now.fields.items id (C.cell cells.now)) }
    ensures chosen { IfOk result (λ is. is ≡ bound_chooses choice.now.bound (C.cell cells.now)) }
{
    let is_chosen = chooses(choice.bound.as_ref(), cells);
    if is_chosen {
        let cells = picked(alloc, choice.fields.as_slice(), cells)?;
        rows.push(Row { id, cells })?;
    }
    Ok(is_chosen)
}
