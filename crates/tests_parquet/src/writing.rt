//! Files that are written.

use crate::files::FILE;
use lake_types::{ColType, NoMemory, Sheet, SheetColumn, SheetColumns, Value, ValueList, Words};
use pq_file::{is_writable, read_columns, read_file, write_file};
use pq_meta::read_meta;
use std::alloc::Global;
use std::test::*;

/// A sheet of one column `a` with the field id 1.
fn sheet_of(
    alloc: Global,
    ty: ColType,
    optional: bool,
    cells: ValueList,
) -> Result<Sheet, NoMemory> {
    let rows = cells.len() as u64;
    let mut columns = SheetColumns::new(alloc);
    columns.push(SheetColumn {
        field: Some(1),
        name: Words::of(alloc, "a")?,
        ty,
        optional,
        cells,
    })?;
    Ok(Sheet { columns, rows })
}

/// The numbers from 0 on, in a required column.
fn numbers(alloc: Global, rows: u32) -> Result<Sheet, NoMemory> {
    let mut cells = ValueList::new(alloc);
    for number in 0..rows {
        cells.push(Value::Int(i64::from(number)))?;
    }
    sheet_of(alloc, ColType::Int32, false, cells)
}

/// Texts of 16,380 bytes, of which 4,096 fill a group.
fn texts(alloc: Global, rows: u32) -> Result<Sheet, NoMemory> {
    let mut cells = ValueList::new(alloc);
    let mut text = String::new(alloc);
    for _ in 0..1_638 {
        text.push_str("ten bytes.")?;
    }
    for _ in 0..rows {
        cells.push(Value::Text(Words::of(alloc, &text)?))?;
    }
    sheet_of(alloc, ColType::Varchar, true, cells)
}

/// The file of a sheet that can be written; of any other no bytes.
fn file_of(alloc: Global, sheet: &Sheet) -> Result<Vec<u8>, NoMemory> {
    if !is_writable(sheet) {
        return Ok(Vec::new(alloc));
    }
    write_file(alloc, sheet)
}

/// The footer of a file: its last eight bytes are the footer's length and the mark.
fn footer_of(file: &[u8]) -> &[u8] {
    let [front @ .., a, b, c, d, _, _, _, _] = file else {
        return &[];
    };
    let size = u32::from_le_bytes([*a, *b, *c, *d]) as usize;
    if front.len() < size {
        return &[];
    }
    &front[front.len() - size..]
}

/// Whether the groups of a file have these numbers of rows.
fn has_groups(alloc: Global, file: &[u8], sizes: &[u64]) -> bool {
    match read_meta(alloc, footer_of(file)) {
        Ok(meta) => meta
            .groups
            .as_slice()
            .iter()
            .map(|group| group.rows)
            .eq(sizes.iter().copied()),
        Err(_) => false,
    }
}

/// Whether the one column of a sheet holds the numbers from 0 on.
fn counts_up(sheet: &Sheet) -> bool {
    let [column] = sheet.columns.as_slice() else {
        return false;
    };
    let mut next = 0;
    for cell in column.cells.as_slice() {
        match cell {
            Value::Int(number) if *number == next => next = next.wrapping_add(1),
            _ => return false,
        }
    }
    sheet.rows == column.cells.len() as u64
}

#[test]
fn writes_the_known_file(rt: HostRuntime) -> Result<(), Fail> {
    let alloc = rt.alloc();
    let mut cells = ValueList::new(alloc);
    cells.push(Value::Int(7))?;
    cells.push(Value::Null)?;
    let sheet = sheet_of(alloc, ColType::Int64, true, cells)?;
    assert!(rt; file_of(alloc, &sheet)?.as_slice() == FILE.as_slice());
    Ok(())
}

fn makes_groups(alloc: Global, rows: u32, sizes: &[u64]) -> Result<bool, NoMemory> {
    let file = file_of(alloc, &numbers(alloc, rows)?)?;
    let read = match read_file(alloc, &file) {
        Ok(sheet) => sheet.rows == u64::from(rows) && counts_up(&sheet),
        Err(_) => false,
    };
    Ok(read && has_groups(alloc, &file, sizes))
}

#[test]
fn a_group_has_8192_rows(rt: HostRuntime) -> Result<(), Fail> {
    let alloc = rt.alloc();
    assert!(rt; makes_groups(alloc, 0, &[])?);
    assert!(rt; makes_groups(alloc, 1, &[1])?);
    assert!(rt; makes_groups(alloc, 8_192, &[8_192])?);
    assert!(rt; makes_groups(alloc, 8_193, &[8_192, 1])?);
    Ok(())
}

#[test]
fn texts_fill_a_group(rt: HostRuntime) -> Result<(), Fail> {
    let alloc = rt.alloc();
    let file = file_of(alloc, &texts(alloc, 4_097)?)?;
    assert!(rt; has_groups(alloc, &file, &[4_096, 1]));
    assert!(rt; read_file(alloc, &file)?.rows == 4_097);
    Ok(())
}

/// A boolean column `a` with the field id 1 and a column `b` of numbers with the field id 2, of one row.
fn two_columns(alloc: Global) -> Result<Sheet, NoMemory> {
    let mut truths = ValueList::new(alloc);
    truths.push(Value::Bool(true))?;
    let mut sheet = sheet_of(alloc, ColType::Bool, true, truths)?;
    let mut numbers = ValueList::new(alloc);
    numbers.push(Value::Int(5))?;
    sheet.columns.push(SheetColumn {
        field: Some(2),
        name: Words::of(alloc, "b")?,
        ty: ColType::Int32,
        optional: false,
        cells: numbers,
    })?;
    Ok(sheet)
}

fn is_first(sheet: &Sheet) -> bool {
    let [column] = sheet.columns.as_slice() else {
        return false;
    };
    column.name.as_str() == "a" && matches!(column.cells.as_slice(), [Value::Bool(true)])
}

fn is_second(sheet: &Sheet) -> bool {
    let [column] = sheet.columns.as_slice() else {
        return false;
    };
    column.name.as_str() == "b" && matches!(column.cells.as_slice(), [Value::Int(5)])
}

#[test]
fn one_column_of_two(rt: HostRuntime) -> Result<(), Fail> {
    let alloc = rt.alloc();
    let file = file_of(alloc, &two_columns(alloc)?)?;
    assert!(rt; read_file(alloc, &file)?.columns.len() == 2);
    assert!(rt; is_first(&read_columns(alloc, &file, &[1])?));
    assert!(rt; is_second(&read_columns(alloc, &file, &[2])?));
    Ok(())
}
