//! What a chunk holds of the cells of a column.

ghost use Rattle.std.specs.Prelude.{◌≡◌, ◌≤◌, ◌++◌, [], All, IfOk, OnOk, length, map};
ghost use Rattle.std.specs.List.{cons_option, filter_map, flat_map};
ghost use Rattle.std.specs.Option.{option_copied};
ghost use Rattle.lake_types.specs.declared.value.ColType.TheVariants.{Varchar};
ghost use Rattle.lake_types.specs.declared.limits.TheConstants.{MAX_CELL_BYTES};
ghost use Rattle.pq_encodings.specs.Plain.{bool_bytes, string_bytes};
ghost use Rattle.pq_encodings.specs.Values.{value_bytes};
ghost use Rattle.pq_file.specs.Raw as spec;
ghost use Rattle.pq_file.specs.Writable.{HasText, HoldTexts, IsCell};

use byteorder::{ByteOrder, LittleEndian};
use lake_types::{ColType, NoMemory, Value};
use pq_encodings::{Plain, encode_plain};
use std::alloc::Global;

/// Which of the cells are values.
pub fn flags_of(alloc: Global, cells: &[Value]) -> Result<Vec<bool>, NoMemory>
    ensures { IfOk result (λ v. v.items ≡ map spec.is_value cells.now) }
{
    cells
        .iter()
        .map(|cell| !matches!(cell, Value::Null))
        .collect(alloc)
}

fn number_in(cell: &Value) -> Option<i64>
    ensures { result ≡ spec.number_in cell.now }
{
    match cell {
        Value::Int(number) => Some(*number),
        Value::Date(day) => Some(i64::from(*day)),
        _ => None,
    }
}

fn string_in(cell: &Value) -> Option<&[u8]>
    ensures string { option_copied result ≡ spec.string_in cell.now }
    ensures text { HasText cell.now }
{
    match cell {
        Value::Text(text) => Some(text.as_str().as_bytes()),
        Value::Bytes(bytes) => Some(bytes.as_slice()),
        _ => None,
    }
}

fn push_int(out: &mut Vec<u8>, number: i32) -> Result<(), NoMemory>
    ensures { OnOk result (out.new.items ≡ out.old.items ++ spec.int_bytes number) }
{
    let mut bytes = [0u8; 4];
    LittleEndian::write_i32(&mut bytes, number);
    out.extend_from_slice(&bytes)
}

fn push_long(out: &mut Vec<u8>, number: i64) -> Result<(), NoMemory>
    ensures { OnOk result (out.new.items ≡ out.old.items ++ spec.long_bytes number) }
{
    let mut bytes = [0u8; 8];
    LittleEndian::write_i64(&mut bytes, number);
    out.extend_from_slice(&bytes)
}

/// Appends a byte string behind its length.
fn push_string(out: &mut Vec<u8>, string: &[u8]) -> Result<(), NoMemory>
    requires { length string.now ≤ MAX_CELL_BYTES }
    ensures { OnOk result (out.new.items ≡ out.old.items ++ string_bytes string.now) }
{
    let mut size = [0u8; 4];
    LittleEndian::write_u32(&mut size, string.len() as u32);
    out.extend_from_slice(&size)?;
    out.extend_from_slice(string)
}

/// Appends the plain bytes of a cell of a type other than BOOLEAN.
fn push_cell(out: &mut Vec<u8>, ty: ColType, cell: &Value) -> Result<(), NoMemory>
    requires { IsCell ty cell.now }
    ensures bytes { OnOk result (out.new.items ≡ out.old.items ++ spec.cell_bytes ty cell.now) }
    ensures text { ty ≡ Varchar → HasText cell.now }
{
    match ty {
        ColType::Bool => Ok(()),
        ColType::Int64 => match number_in(cell) {
            Some(number) => push_long(out, number),
            None => Ok(()),
        },
        ColType::Varchar | ColType::Blob => match string_in(cell) {
            Some(string) => push_string(out, string),
            None => Ok(()),
        },
        ColType::Int8 | ColType::Int16 | ColType::Int32 | ColType::Date => match number_in(cell) {
            Some(number) => push_int(out, number as i32),
            None => Ok(()),
        },
    }
}

/// The plain bytes of the cells, one by one.
fn cells_bytes(alloc: Global, ty: ColType, cells: &[Value]) -> Result<Vec<u8>, NoMemory>
    requires { All (IsCell ty) cells.now }
    ensures bytes { IfOk result (λ v. v.items ≡ flat_map (spec.cell_bytes ty) cells.now) }
    ensures texts { OnOk result (HoldTexts ty cells.now) }
{
    let mut out = Vec::new(alloc);
    for cell in cells {
        push_cell(&mut out, ty, cell)?;
    }
    Ok(out)
}

/// Appends a cell's boolean, if it has one.
fn push_bool(bools: &mut Vec<bool>, cell: &Value) -> Result<(), NoMemory>
    ensures { OnOk result (bools.new.items ≡ bools.old.items ++ cons_option (spec.bool_in cell.now) []) }
{
    if let Value::Bool(truth) = cell {
        bools.push(*truth)?;
    }
    Ok(())
}

/// The booleans among the cells.
#[tactic(auto, using(crate::proofs::HeldLemmas::bools_more))]
fn bools_in(alloc: Global, cells: &[Value]) -> Result<Vec<bool>, NoMemory>
    ensures { IfOk result (λ v. v.items ≡ filter_map spec.bool_in cells.now) }
{
    let mut bools = Vec::new(alloc);
    for cell in cells {
        push_bool(&mut bools, cell)?;
    }
    Ok(bools)
}

/// The plain bytes of the booleans among the cells, eight to a byte.
fn bools_bytes(alloc: Global, cells: &[Value]) -> Result<Vec<u8>, NoMemory>
    ensures { IfOk result (λ v. v.items ≡ bool_bytes (filter_map spec.bool_in cells.now)) }
{
    let bools = Plain::Bools(bools_in(alloc, cells)?);
    encode_plain(alloc, &bools)
}

/// The plain bytes of the values among the cells of a column.
pub fn values_bytes(alloc: Global, ty: ColType, cells: &[Value]) -> Result<Vec<u8>, NoMemory>
    requires { All (IsCell ty) cells.now }
    ensures bytes { IfOk result (λ v. v.items ≡ value_bytes (spec.values_in ty cells.now)) }
    ensures texts { OnOk result (HoldTexts ty cells.now) }
{
    match ty {
        ColType::Bool => bools_bytes(alloc, cells),
        _ => cells_bytes(alloc, ty, cells),
    }
}
