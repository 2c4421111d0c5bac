ghost use Rattle.std.specs.Prelude.{◌≡◌, true, Err, IfOk};
ghost use Rattle.lake_types.specs.Fits.{fits, fits_some};
ghost use Rattle.lake_types.specs.declared.value.ColType.{ColType};
ghost use Rattle.cat_texts.specs.Spelled.{IsColumnOf, IsValueOf, SpellsNone};
ghost use Rattle.cat_texts.specs.Written as spec;
ghost use Rattle.cat_texts.specs.declared.reading.ReadTextNo.TheVariants.{BadText};

use crate::reading::{ReadTextNo, read_default};
use crate::types::{type_of, type_text};
use cat_rows::ColumnRow;
use lake_types::{Column, Copied, NoMemory, Value, Words, text_of};
use std::alloc::Global;

/// The column that a row spells. `BadText` where it spells none whose field id has 32 bits.
#[tactic(auto, using(crate::proofs::TypeLemmas::types_of))]
pub fn read_column(alloc: Global, row: &ColumnRow) -> Result<Column, ReadTextNo>
    ensures ok { IfOk result (IsColumnOf row.now) }
    ensures bad { result ≡ Err BadText → SpellsNone row.now }
{
    let Ok(field) = u32::try_from(row.column_id) else {
        return Err(ReadTextNo::BadText);
    };
    let Some(ty) = type_of(row.column_type.as_str()) else {
        return Err(ReadTextNo::BadText);
    };
    let initial = match read_default(alloc, ty, &row.initial_default) {
        Ok(initial) => initial,
        Err(why) => return Err(why),
    };
    let default_value = match read_default(alloc, ty, &row.default_value) {
        Ok(default_value) => default_value,
        Err(why) => return Err(why),
    };
    Ok(Column {
        field,
        name: row.column_name.copy(alloc)?,
        ty,
        initial,
        default_value,
        nulls: row.nulls_allowed,
    })
}

/// The row of a column that a table has from the snapshot `begin` on. It has no end, and spells the column.
pub fn column_row(
    alloc: Global,
    table: u64,
    begin: u64,
    order: u64,
    column: &Column,
) -> Result<ColumnRow, NoMemory>
    requires { spec.FitDefaults column.now }
    ensures row { IfOk result (λ row. row ≡ spec.column_row table begin order column.now) }
    ensures spells { IfOk result (λ row. IsColumnOf row column.now) }
{
    Ok(ColumnRow {
        table_id: table,
        column_id: u64::from(column.field),
        begin_snapshot: begin,
        end_snapshot: None,
        column_order: order,
        column_name: column.name.copy(alloc)?,
        column_type: Words::of(alloc, type_text(column.ty))?,
        initial_default: default_text(alloc, &column.initial)?,
        default_value: default_text(alloc, &column.default_value)?,
        nulls_allowed: column.nulls,
    })
}

/// The text of a default; none of NULL.
fn default_text(alloc: Global, value: &Value) -> Result<Option<Words>, NoMemory>
    requires { fits_some value.now ≡ true }
    ensures text { IfOk result (λ text. text ≡ spec.default_text value.now) }
    ensures back { IfOk result (λ text. (ty : ColType) → fits value.now ty ≡ true → IsValueOf ty text value.now) }
{
    match value {
        Value::Null => Ok(None),
        _ => Ok(Some(text_of(alloc, value)?)),
    }
}
