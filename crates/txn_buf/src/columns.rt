ghost use Rattle.std.specs.Prelude.{◌≡◌, ◌≢◌, ◌≤◌, [], length, None, Some, IfErr, IfOk, OnOk};
ghost use Rattle.std.specs.List.{list_any};
ghost use Rattle.lake_types.specs.Fits.{fits as spec_fits};
ghost use Rattle.lake_types.specs.declared.limits.TheConstants.{MAX_COLUMNS};
ghost use Rattle.lake_model.specs.Clashes.{same_name};
ghost use Rattle.lake_model.specs.Plans as plan;
ghost use Rattle.txn_buf.specs.Turns.{answer_of};
ghost use Rattle.txn_buf.specs.declared.no.TxnNo.TheVariants.{Memory};

use crate::no::TxnNo;
use lake_types::{Column, ColumnDef, ColumnList, Copied, NoMemory, Value, fits};
use std::alloc::Global;

fn default_of(alloc: Global, def: &ColumnDef) -> Result<Value, NoMemory>
    ensures { IfOk result (λ v. v ≡ plan.default_of def.now) }
{
    match &def.default_value {
        Some(value) => value.copy(alloc),
        None => Ok(Value::Null),
    }
}

fn new_column(alloc: Global, field: u32, def: &ColumnDef) -> Result<Column, NoMemory>
    ensures { IfOk result (λ column. column ≡ plan.column_of field def.now) }
{
    Ok(Column {
        field,
        name: def.name.copy(alloc)?,
        ty: def.ty,
        initial: default_of(alloc, def)?,
        default_value: default_of(alloc, def)?,
        nulls: def.nulls,
    })
}

/// The columns of a new table. Their field ids are 1, 2, .. in their order.
pub fn new_columns(alloc: Global, defs: &[ColumnDef]) -> Result<ColumnList, NoMemory>
    requires { length defs.now ≤ MAX_COLUMNS }
    ensures { IfOk result (λ columns. columns ≡ plan.columns_from 1 defs.now) }
{
    let mut columns = ColumnList::new(alloc);
    let mut field = 1u32;
    for def in defs {
        let column = new_column(alloc, field, def)?;
        columns.push(column)?;
        field += 1;
    }
    Ok(columns)
}

fn is_used(before: &[ColumnDef], name: &str) -> bool
    ensures { result ≡ list_any (λ b. same_name b.name name.now) before.now }
{
    for def in before {
        if def.name.as_str() == name {
            return true;
        }
    }
    false
}

/// Whether a column's default is of its type.
fn fits_default(def: &ColumnDef) -> bool
    ensures { result ≡ spec_fits (plan.default_of def.now) def.now.ty }
{
    match &def.default_value {
        Some(value) => fits(value, def.ty),
        None => true,
    }
}

fn is_default_null(def: &ColumnDef) -> bool
    ensures { result ≡ plan.is_default_null def.now.default_value }
{
    matches!(&def.default_value, Some(Value::Null))
}

/// What a column of a new table is refused for, behind others.
fn column_fault(alloc: Global, before: &[ColumnDef], def: &ColumnDef) -> Result<(), TxnNo>
    ensures ok { OnOk result (plan.new_column_fault before.now def.now ≡ None) }
    ensures refused { IfErr result (λ why. why ≢ Memory → plan.new_column_fault before.now def.now ≡ Some (answer_of
        why)) }
{
    if is_used(before, def.name.as_str()) {
        return Err(TxnNo::NameUsed {
            name: def.name.copy(alloc)?,
        });
    }
    if !fits_default(def) {
        return Err(TxnNo::WrongType {
            name: def.name.copy(alloc)?,
        });
    }
    if is_default_null(def) && !def.nulls {
        return Err(TxnNo::NotNull {
            name: def.name.copy(alloc)?,
        });
    }
    Ok(())
}

/// What the first column with a fault is refused for.
#[tactic(auto, using(crate::proofs::ColumnLemmas::fault_turn, crate::proofs::ColumnLemmas::fault_found))]
pub fn columns_fault(alloc: Global, defs: &[ColumnDef]) -> Result<(), TxnNo>
    ensures ok { OnOk result (plan.new_columns_fault [] defs.now ≡ None) }
    ensures refused { IfErr result (λ why. why ≢ Memory → plan.new_columns_fault [] defs.now ≡ Some (answer_of why)) }
{
    let mut place = 0usize;
    while place < defs.len() {
        match column_fault(alloc, &defs[..place], &defs[place]) {
            Ok(()) => {}
            Err(no) => return Err(no),
        }
        place += 1;
    }
    Ok(())
}
