ghost use Rattle.std.specs.Prelude.{◌≡◌, ◌≢◌, None, Some, map, IfOk, IfErr, OnOk};
ghost use Rattle.lake_types.specs.Cells.{column_named};
ghost use Rattle.lake_model.specs.Rows as rows;
ghost use Rattle.pred.specs.Binding as spec;
ghost use Rattle.pred.specs.declared.fault.BindNo.TheVariants.{Memory};

use crate::agreeing::agrees;
use crate::bound::{Bound, BoundList};
use crate::fault::BindNo;
use lake_types::{Column, Copied, Op, Pred, Value, Words, column_named};
use sqlite_items::{Boxed, Items};
use std::alloc::Global;

/// The test by the field ids of these columns: it has on every row the truth of the test that names them. A
/// name means the first column that has it.
///
/// `BindNo::NoColumn` and `BindNo::WrongType` tell the first fault of the test from the left: it names a
/// column that isn't there, or compares one with a literal that doesn't agree with the column's type.
#[cycle(bind)]
pub fn bind(alloc: Global, pred: &Pred, columns: &[Column]) -> Result<Bound, BindNo>
    ensures bound { IfOk result (λ bound. spec.IsBinding columns.now pred.now bound) }
    ensures agrees { OnOk result (rows.fault_of_test columns.now (Some pred.now) ≡ None) }
    ensures fault { IfErr result (λ no.
        no ≢ Memory → rows.fault_of_test columns.now (Some pred.now) ≡ spec.told no) }
{
    match pred {
        Pred::Compare { name, op, value } => bind_comparison(alloc, columns, name, *op, value),
        Pred::IsNull { name } => match field_named(alloc, columns, name) {
            Ok(field) => Ok(Bound::IsNull { field }),
            Err(no) => Err(no),
        },
        Pred::NotNull { name } => match field_named(alloc, columns, name) {
            Ok(field) => Ok(Bound::NotNull { field }),
            Err(no) => Err(no),
        },
        Pred::Not(part) => match bind(alloc, part.get(), columns) {
            Ok(part) => Ok(Bound::Not(Boxed::new(alloc, part)?)),
            Err(no) => Err(no),
        },
        Pred::And(parts) => match bind_parts(alloc, parts.as_slice(), columns) {
            Ok(parts) => Ok(Bound::And(parts)),
            Err(no) => Err(no),
        },
        Pred::Or(parts) => match bind_parts(alloc, parts.as_slice(), columns) {
            Ok(parts) => Ok(Bound::Or(parts)),
            Err(no) => Err(no),
        },
    }
}

/// The parts in their order, or the first fault of the first part that has one.
#[cycle(bind)]
fn bind_parts(alloc: Global, parts: &[Pred], columns: &[Column]) -> Result<BoundList, BindNo>
    ensures bound { IfOk result (λ bounds. spec.AreBindings columns.now parts.now bounds) }
    ensures agrees { OnOk result (spec.fault_of_parts columns.now parts.now ≡ None) }
    ensures fault { IfErr result (λ no.
        no ≢ Memory → spec.fault_of_parts columns.now parts.now ≡ spec.told no) }
{
    let mut bounds = Items::new(alloc);
    for part in parts {
        match bind(alloc, part, columns) {
            Ok(bound) => bounds.push(bound)?,
            Err(no) => return Err(no),
        }
    }
    Ok(bounds)
}

/// The field of the first column with a name.
fn field_named(alloc: Global, columns: &[Column], name: &Words) -> Result<u32, BindNo>
    ensures found { IfOk result (λ field. spec.IsFieldOf columns.now name.now field) }
    ensures fault { IfErr result (λ no.
        no ≢ Memory → rows.column_fault name.now (column_named columns.now name.now) ≡ spec.told no) }
{
    match column_named(columns, name.as_str()) {
        Some(column) => Ok(column.field),
        None => Err(BindNo::NoColumn {
            name: name.copy(alloc)?,
        }),
    }
}

fn bind_comparison(
    alloc: Global,
    columns: &[Column],
    name: &Words,
    op: Op,
    value: &Value,
) -> Result<Bound, BindNo>
    ensures bound { IfOk result (λ bound. spec.IsComparison columns.now name.now op value.now bound) }
    ensures agrees { OnOk result (spec.fault_of_comparison columns.now name.now value.now ≡ None) }
    ensures fault { IfErr result (λ no.
        no ≢ Memory → spec.fault_of_comparison columns.now name.now value.now ≡ spec.told no) }
{
    let Some(column) = column_named(columns, name.as_str()) else {
        return Err(BindNo::NoColumn {
            name: name.copy(alloc)?,
        });
    };
    if !agrees(value, column.ty) {
        return Err(BindNo::WrongType {
            name: name.copy(alloc)?,
        });
    }
    Ok(Bound::Compare {
        field: column.field,
        op,
        value: value.copy(alloc)?,
    })
}
