use field_map::{LayFault, lay};
use lake_types::{
    ColType, Column, RowList, Sheet, SheetColumn, SheetColumns, Value, ValueList, Words, cell_at,
};
use std::alloc::{AllocError, Global};
use std::test::Fail;

fn sheet_column(
    alloc: Global,
    field: u32,
    name: &str,
    ty: ColType,
    cells: Vec<Value>,
) -> Result<SheetColumn, AllocError> {
    Ok(SheetColumn {
        field: Some(field),
        name: Words::of(alloc, name)?,
        ty,
        optional: true,
        cells: ValueList::from_vec(cells),
    })
}

/// A file of two rows: `a` with field id 1 and `b` with field id 2.
fn sheet(alloc: Global) -> Result<Sheet, AllocError> {
    let a = vec![in alloc; Value::Int(7), Value::Null]?;
    let b = vec![in alloc; Value::Int(8), Value::Int(9)]?;
    let columns = vec![in alloc;
        sheet_column(alloc, 1, "a", ColType::Int8, a)?,
        sheet_column(alloc, 2, "b", ColType::Int64, b)?,
    ]?;
    Ok(Sheet {
        columns: SheetColumns::from_vec(columns),
        rows: 2,
    })
}

fn column(alloc: Global, field: u32, name: &str, ty: ColType) -> Result<Column, AllocError> {
    Ok(Column {
        field,
        name: Words::of(alloc, name)?,
        ty,
        initial: Value::Int(5),
        default_value: Value::Int(6),
        nulls: true,
    })
}

fn has(rows: &RowList, row: usize, field: u32, number: i64) -> bool {
    match rows.as_slice().get(row) {
        Some(row) => match cell_at(row.cells.as_slice(), field) {
            Some(Value::Int(found)) => *found == number,
            _ => false,
        },
        None => false,
    }
}

/// The column `a` is named `c` and promoted now. The column `b` was dropped and added again: a new field id.
#[test]
fn renamed_promoted_dropped_and_added(rt: HostRuntime) -> Result<(), Fail> {
    let alloc = rt.alloc();
    let sheet = sheet(alloc)?;
    let columns = vec![in alloc;
        column(alloc, 1, "c", ColType::Int32)?,
        column(alloc, 3, "b", ColType::Int64)?,
    ]?;
    let rows = lay(alloc, &sheet, columns.as_slice())?;
    assert_eq!(rt; rows.len(), 2);
    assert_eq!(rt; has(&rows, 0, 1, 7), true);
    assert_eq!(rt; has(&rows, 1, 3, 5), true);
    Ok(())
}

#[test]
fn a_type_that_does_not_promote(rt: HostRuntime) -> Result<(), Fail> {
    let alloc = rt.alloc();
    let sheet = sheet(alloc)?;
    let columns = vec![in alloc;
        column(alloc, 1, "a", ColType::Int8)?,
        column(alloc, 2, "b", ColType::Int32)?,
        column(alloc, 1, "c", ColType::Varchar)?,
    ]?;
    let fault = lay(alloc, &sheet, columns.as_slice()).err();
    let expected = LayFault::Kind {
        field: 2,
        have: ColType::Int64,
        want: ColType::Int32,
    };
    assert_eq!(rt; fault, Some(expected));
    Ok(())
}
