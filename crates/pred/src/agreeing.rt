ghost use Rattle.std.specs.Prelude.{◌≡◌, is_some};
ghost use Rattle.lake_types.specs.Fits.{reach};
ghost use Rattle.lake_model.specs.Rows as rows;

use lake_types::{ColType, Value};

/// Whether a literal may be compared with the cells of a column of this type: NULL with all, an integer of
/// any size with all integer types, and any other literal with the type that has its values.
pub fn agrees(value: &Value, ty: ColType) -> bool
    ensures { result ≡ rows.agrees value.now ty }
{
    match (value, ty) {
        (Value::Null, _) => true,
        (Value::Bool(_), ColType::Bool) => true,
        (Value::Int(_), ty) => is_integer(ty),
        (Value::Text(_), ColType::Varchar) => true,
        (Value::Bytes(_), ColType::Blob) => true,
        (Value::Date(_), ColType::Date) => true,
        _ => false,
    }
}

fn is_integer(ty: ColType) -> bool
    ensures { result ≡ is_some (reach ty) }
{
    matches!(
        ty,
        ColType::Int8 | ColType::Int16 | ColType::Int32 | ColType::Int64
    )
}
