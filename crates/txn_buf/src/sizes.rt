ghost use Rattle.std.specs.Prelude.{IsTrue, ◌↔◌};
ghost use Rattle.std.specs.List.{AllByRecursion};
ghost use Rattle.lake_model.specs.Fits.{IsAtMost, IsName};
ghost use Rattle.txn_buf.specs.Sizes as spec;

use lake_types::limits::{MAX_CELL_BYTES, MAX_DEFAULT_BYTES, MAX_NAME_BYTES};
use lake_types::{Alter, Cell, CellList, ColumnDef, Stmt, Value, Words};

fn is_at_most(most: usize, value: &Value) -> bool
    ensures { IsTrue result ↔ IsAtMost most value.now }
{
    match value {
        Value::Text(text) => text.as_str().len() <= most,
        Value::Bytes(bytes) => bytes.as_slice().len() <= most,
        _ => true,
    }
}

fn is_name(name: &Words) -> bool
    ensures { IsTrue result ↔ IsName name.now }
{
    name.as_str().len() <= MAX_NAME_BYTES
}

fn is_default(value: &Option<Value>) -> bool
    ensures { IsTrue result ↔ spec.IsSizedDefault value.now }
{
    match value {
        Some(value) => is_at_most(MAX_DEFAULT_BYTES, value),
        None => true,
    }
}

fn is_def(def: &ColumnDef) -> bool
    ensures { IsTrue result ↔ spec.IsSizedDef def.now }
{
    is_name(&def.name) && is_default(&def.default_value)
}

fn are_defs(defs: &[ColumnDef]) -> bool
    ensures { IsTrue result ↔ AllByRecursion spec.IsSizedDef defs.now }
{
    defs.iter().all(is_def)
}

fn is_alter(change: &Alter) -> bool
    ensures { IsTrue result ↔ spec.IsSizedAlter change.now }
{
    match change {
        Alter::Add(def) => is_def(def),
        Alter::Rename { to, .. } => is_name(to),
        Alter::SetDefault { value, .. } => is_at_most(MAX_DEFAULT_BYTES, value),
        _ => true,
    }
}

fn is_cell(cell: &Cell) -> bool
    ensures { IsTrue result ↔ spec.IsSizedCell cell.now }
{
    match cell {
        Cell::Given(value) => is_at_most(MAX_CELL_BYTES, value),
        Cell::Default => true,
    }
}

fn is_row(row: &CellList) -> bool
    ensures { IsTrue result ↔ spec.IsSizedRow row.now }
{
    row.as_slice().iter().all(is_cell)
}

fn are_rows(rows: &[CellList]) -> bool
    ensures { IsTrue result ↔ AllByRecursion spec.IsSizedRow rows.now }
{
    rows.iter().all(is_row)
}

fn is_assignment(assignment: &(Words, Value)) -> bool
    ensures { IsTrue result ↔ spec.IsSizedAssignment assignment.now }
{
    is_at_most(MAX_CELL_BYTES, &assignment.1)
}

fn are_assignments(set: &[(Words, Value)]) -> bool
    ensures { IsTrue result ↔ AllByRecursion spec.IsSizedAssignment set.now }
{
    set.iter().all(is_assignment)
}

/// Whether a statement's names, defaults and cells are within their limits, and a table that it creates has a column.
pub fn is_sized(stmt: &Stmt) -> bool
    ensures { IsTrue result ↔ spec.IsSizedStmt stmt.now }
{
    match stmt {
        Stmt::CreateSchema { name } => is_name(name),
        Stmt::CreateTable { table, columns } => {
            is_name(&table.table) && !columns.is_empty() && are_defs(columns.as_slice())
        }
        Stmt::Change { change, .. } => is_alter(change),
        Stmt::Insert { rows, .. } => are_rows(rows.as_slice()),
        Stmt::Update { set, .. } => are_assignments(set.as_slice()),
        _ => true,
    }
}
