ghost use Rattle.std.specs.Prelude.{◌≡◌, ◌++◌, decimal, map, IfOk, OnOk};
ghost use Rattle.std.specs.String.{string_bytes};
ghost use Rattle.session.specs.Shown as spec;

use crate::literals::push_literal;
use itoa::Buffer;
use lake_model::WordsList;
use lake_types::{Item, NoMemory, Row, Value, Words};
use std::alloc::Global;

/// Adds the texts of cells, joined by commas.
fn push_cells(alloc: Global, text: &mut String, cells: &[(u32, Value)]) -> Result<(), NoMemory>
    ensures { OnOk result (string_bytes text.new ≡ string_bytes text.old ++ spec.joined (spec.cell_texts cells.now)) }
{
    let mut before = "";
    for cell in cells {
        text.push_str(before)?;
        push_literal(alloc, text, &cell.1)?;
        before = ",";
    }
    Ok(())
}

fn push_id(text: &mut String, id: u64) -> Result<(), NoMemory>
    ensures { OnOk result (string_bytes text.new ≡ string_bytes text.old ++ decimal id) }
{
    let mut buffer = Buffer::new();
    text.push_str(buffer.format(id))
}

/// Adds the text of an item. A column takes the first of the cells that are left, and the others are left then.
fn push_item<'a>(
    alloc: Global,
    text: &mut String,
    item: &Item,
    id: u64,
    left: &'a [(u32, Value)],
) -> Result<&'a [(u32, Value)], NoMemory>
    ensures text { OnOk result (string_bytes text.new ≡ string_bytes text.old ++ spec.item_text id item.now left.now) }
    ensures left { IfOk result (λ rest. rest.now ≡ spec.left_after item.now left.now) }
{
    match item {
        Item::RowId => {
            push_id(text, id)?;
            Ok(left)
        }
        Item::Column { .. } => match left.split_first() {
            Some((cell, rest)) => {
                push_literal(alloc, text, &cell.1)?;
                Ok(rest)
            }
            None => {
                push_literal(alloc, text, &Value::Null)?;
                Ok(left)
            }
        },
    }
}

/// Adds the texts of items, joined by commas. The cells are those of its columns, in their order.
fn push_items(
    alloc: Global,
    text: &mut String,
    items: &[Item],
    id: u64,
    cells: &[(u32, Value)],
) -> Result<(), NoMemory>
    ensures { OnOk result (string_bytes text.new ≡ string_bytes text.old ++ spec.joined (spec.item_texts id items.now cells.now)) }
{
    let mut before = "";
    let mut left = cells;
    for item in items {
        text.push_str(before)?;
        left = match push_item(alloc, text, item, id, left) {
            Ok(rest) => rest,
            Err(why) => return Err(why),
        };
        before = ",";
    }
    Ok(())
}

/// The text of a row that is told.
fn row_text(alloc: Global, items: &[Item], row: &Row) -> Result<Words, NoMemory>
    ensures { IfOk result (λ text. text ≡ spec.row_shown items.now row.now) }
{
    let mut text = String::new(alloc);
    if items.is_empty() {
        push_cells(alloc, &mut text, row.cells.as_slice())?;
    } else {
        push_items(alloc, &mut text, items, row.id, row.cells.as_slice())?;
    }
    Ok(Words::from_string(text))
}

/// The texts of rows that are told.
pub fn row_texts(alloc: Global, items: &[Item], rows: &[Row]) -> Result<WordsList, NoMemory>
    ensures { IfOk result (λ texts. texts ≡ map (spec.row_shown items.now) rows.now) }
{
    let mut texts = WordsList::new(alloc);
    for row in rows {
        texts.push(row_text(alloc, items, row)?)?;
    }
    Ok(texts)
}
