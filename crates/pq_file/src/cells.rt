//! The cells of a column, from the values that its chunks hold.

ghost use Rattle.std.specs.Prelude.{◌≡◌, ◌↔◌, ◌∷◌, [], List, Bool, IfOk, IsTrue, All, map, true};
ghost use Rattle.std.specs.Str.{IsUtf8};
ghost use Rattle.std.specs.Vec.Iter.{into_iter_items};
ghost use Rattle.lake_types.specs.declared.value.ColType.TheVariants.{Varchar};
ghost use Rattle.pq_encodings.specs.Values.{values_of};
ghost use Rattle.pq_pages.specs.Pages as pages;
ghost use Rattle.pq_pages.specs.Writing.{AreTexts};
ghost use Rattle.pq_file.specs.Cells as spec;

use lake_types::{Blob, ColType, NoMemory, Value, ValueList, Words};
use pq_encodings::{ByteLists, Physical, Plain};
use pq_pages::RawCells;
use std::alloc::Global;
use std::vec::IntoIter;

/// The physical type of a column's values.
pub fn kind_of(ty: ColType) -> Physical
    ensures { result ≡ spec.kind_of ty }
{
    match ty {
        ColType::Bool => Physical::Boolean,
        ColType::Int8 | ColType::Int16 | ColType::Int32 | ColType::Date => Physical::Int32,
        ColType::Int64 => Physical::Int64,
        ColType::Varchar | ColType::Blob => Physical::ByteArray,
    }
}

/// Whether the byte strings of a column are texts.
pub fn is_text(ty: ColType) -> bool
    ensures { result ≡ spec.is_text ty }
{
    match ty {
        ColType::Varchar => true,
        _ => false,
    }
}

fn number_of(ty: ColType, number: i32) -> Value
    ensures { result ≡ spec.number_of ty number }
{
    match ty {
        ColType::Date => Value::Date(number),
        _ => Value::Int(i64::from(number)),
    }
}

/// An empty list with room for so many cells.
fn with_room(alloc: Global, count: usize) -> Result<ValueList, NoMemory>
    ensures { IfOk result (λ cells. cells ≡ []) }
{
    Ok(ValueList::from_vec(Vec::with_capacity(alloc, count)?))
}

fn bools_of(alloc: Global, bools: &[bool]) -> Result<ValueList, NoMemory>
    ensures { IfOk result (λ cells. cells ≡ map spec.bool_of bools.now) }
{
    let mut cells = with_room(alloc, bools.len())?;
    for truth in bools {
        cells.push(Value::Bool(*truth))?;
    }
    Ok(cells)
}

fn numbers_of(alloc: Global, ty: ColType, numbers: &[i32]) -> Result<ValueList, NoMemory>
    ensures { IfOk result (λ cells. cells ≡ map (spec.number_of ty) numbers.now) }
{
    let mut cells = with_room(alloc, numbers.len())?;
    for number in numbers {
        cells.push(number_of(ty, *number))?;
    }
    Ok(cells)
}

fn longs_of(alloc: Global, numbers: &[i64]) -> Result<ValueList, NoMemory>
    ensures { IfOk result (λ cells. cells ≡ map spec.long_of numbers.now) }
{
    let mut cells = with_room(alloc, numbers.len())?;
    for number in numbers {
        cells.push(Value::Int(*number))?;
    }
    Ok(cells)
}

/// Byte strings that are texts, as values. Only the list takes memory.
fn texts_of(alloc: Global, strings: ByteLists) -> Result<ValueList, NoMemory>
    requires { All (λ x. IsUtf8 x) strings }
    ensures { IfOk result (λ cells. cells ≡ map spec.text_of strings) }
{
    let strings = strings.into_vec();
    let mut cells = with_room(alloc, strings.len())?;
    for bytes in strings {
        let Ok(text) = String::from_utf8(bytes) else {
            unreachable!()
        };
        cells.push(Value::Text(Words::from_string(text)))?;
    }
    Ok(cells)
}

/// Byte strings as values. Only the list takes memory.
fn blobs_of(alloc: Global, strings: ByteLists) -> Result<ValueList, NoMemory>
    ensures { IfOk result (λ cells. cells ≡ map spec.blob_of strings) }
{
    let strings = strings.into_vec();
    let mut cells = with_room(alloc, strings.len())?;
    for bytes in strings {
        cells.push(Value::Bytes(Blob::from_vec(bytes)))?;
    }
    Ok(cells)
}

/// Byte strings as values of a column's type.
fn strings_of(alloc: Global, ty: ColType, strings: ByteLists) -> Result<ValueList, NoMemory>
    requires { ty ≡ Varchar → All (λ x. IsUtf8 x) strings }
    ensures { IfOk result (λ cells. cells ≡ map (spec.string_of ty) strings) }
{
    match ty {
        ColType::Varchar => texts_of(alloc, strings),
        _ => blobs_of(alloc, strings),
    }
}

/// Physical values, as values of a column's type.
fn typed(alloc: Global, ty: ColType, values: Plain) -> Result<ValueList, NoMemory>
    requires { ty ≡ Varchar → AreTexts (values_of values) }
    ensures { IfOk result (λ cells. cells ≡ spec.typed ty (values_of values)) }
{
    match values {
        Plain::Bools(bools) => bools_of(alloc, bools.as_slice()),
        Plain::I32s(numbers) => numbers_of(alloc, ty, numbers.as_slice()),
        Plain::I64s(numbers) => longs_of(alloc, numbers.as_slice()),
        Plain::Strings(strings) => strings_of(alloc, ty, strings),
    }
}

/// The next cell: NULL, or the next of the values.
fn next_cell(flag: bool, values: &mut IntoIter<Value>) -> Value
    ensures { (flags : List Bool) →
        spec.spread (flag ∷ flags) (into_iter_items values.old)
        ≡ result ∷ spec.spread flags (into_iter_items values.new) }
{
    if !flag {
        return Value::Null;
    }
    match values.next() {
        Some(value) => value,
        None => Value::Null,
    }
}

/// The values in order where the flags say so, and NULL elsewhere.
#[tactic(auto, using(crate::proofs::CellLemmas::spreading))]
fn spread(alloc: Global, flags: &[bool], values: ValueList) -> Result<ValueList, NoMemory>
    ensures { IfOk result (λ cells. cells ≡ spec.spread flags.now values) }
{
    let mut cells = with_room(alloc, flags.len())?;
    let mut values = values.into_vec().into_iter();
    for flag in flags {
        cells.push(next_cell(*flag, &mut values))?;
    }
    Ok(cells)
}

/// Whether each cell is a value.
fn are_values(flags: &[bool]) -> bool
    ensures { IsTrue result ↔ All (λ flag. flag ≡ true) flags.now }
{
    flags.iter().all(|flag| *flag)
}

/// The cells of a column that a chunk holds.
#[tactic(auto, using(crate::proofs::CellLemmas::spread_all))]
pub fn cells_of(alloc: Global, ty: ColType, raw: RawCells) -> Result<ValueList, NoMemory>
    requires { ty ≡ Varchar → AreTexts (values_of raw.plain) }
    ensures { IfOk result (λ cells. cells ≡ spec.cells_of ty (pages.cells_of raw)) }
{
    let RawCells { defined, plain } = raw;
    let values = typed(alloc, ty, plain)?;
    // Without NULLs the values are the cells, as they lie.
    if values.len() == defined.len() && are_values(defined.as_slice()) {
        return Ok(values);
    }
    spread(alloc, defined.as_slice(), values)
}
