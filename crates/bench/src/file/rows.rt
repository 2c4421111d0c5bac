//! The sheet.

use lake_types::{ColType, NoMemory, Sheet, SheetColumn, SheetColumns, Value, ValueList, Words};
use std::alloc::Global;

fn column(
    alloc: Global,
    field: u32,
    name: &str,
    ty: ColType,
    cells: ValueList,
) -> Result<SheetColumn, NoMemory> {
    Ok(SheetColumn {
        field: Some(field),
        name: Words::of(alloc, name)?,
        ty,
        optional: true,
        cells,
    })
}

fn numbers(alloc: Global, rows: u32) -> Result<ValueList, NoMemory> {
    let mut cells = ValueList::new(alloc);
    for row in 0..rows {
        cells.push(Value::Int(1_000_003 * i64::from(row)))?;
    }
    Ok(cells)
}

/// Texts of 12 bytes.
fn texts(alloc: Global, rows: u32) -> Result<ValueList, NoMemory> {
    let mut cells = ValueList::new(alloc);
    for row in 0..rows {
        let text = format!(in alloc; "text {:07}", row % 10_000_000)?;
        cells.push(Value::Text(Words::from_string(text)))?;
    }
    Ok(cells)
}

fn dates(alloc: Global, rows: u32) -> Result<ValueList, NoMemory> {
    let mut cells = ValueList::new(alloc);
    for row in 0..rows {
        cells.push(Value::Date((row % 20_000) as i32))?;
    }
    Ok(cells)
}

/// A sheet of so many rows.
pub fn sheet_of(alloc: Global, rows: u32) -> Result<Sheet, NoMemory> {
    let mut columns = SheetColumns::new(alloc);
    let cells = numbers(alloc, rows)?;
    columns.push(column(alloc, 1, "number", ColType::Int64, cells)?)?;
    let cells = texts(alloc, rows)?;
    columns.push(column(alloc, 2, "text", ColType::Varchar, cells)?)?;
    let cells = dates(alloc, rows)?;
    columns.push(column(alloc, 3, "date", ColType::Date, cells)?)?;
    Ok(Sheet {
        columns,
        rows: u64::from(rows),
    })
}
