ghost use Rattle.std.specs.Prelude.{◌≡◌};
ghost use Rattle.lake_types.specs.Calendar as calendar;
ghost use Rattle.lake_types.specs.Fits as spec;

use crate::value::{ColType, Value};

/// Whether a day, counted from 1970-01-01, lies from 0001-01-01 to 9999-12-31.
pub fn is_day(day: i32) -> bool
    ensures { result ≡ calendar.is_day day }
{
    -719_162 <= day && day <= 2_932_896
}

/// Two to the bits less one of a signed integer type; none of another type.
fn reach(ty: ColType) -> Option<u64>
    ensures { result ≡ spec.reach ty }
{
    match ty {
        ColType::Int8 => Some(1 << 7),
        ColType::Int16 => Some(1 << 15),
        ColType::Int32 => Some(1 << 31),
        ColType::Int64 => Some(1 << 63),
        _ => None,
    }
}

pub(crate) fn fits_integer(number: i64, ty: ColType) -> bool
    ensures { result ≡ spec.reaches (spec.reach ty) number }
{
    match ty {
        ColType::Int8 => i8::try_from(number).is_ok(),
        ColType::Int16 => i16::try_from(number).is_ok(),
        ColType::Int32 => i32::try_from(number).is_ok(),
        ColType::Int64 => true,
        _ => false,
    }
}

/// Whether a column of this type may hold the value, where it may hold NULL: an integer where its range allows, a date
/// where the calendar has it.
pub fn fits(value: &Value, ty: ColType) -> bool
    ensures { result ≡ spec.fits value.now ty }
{
    match (value, ty) {
        (Value::Null, _) => true,
        (Value::Bool(_), ColType::Bool) => true,
        (Value::Int(number), ty) => fits_integer(*number, ty),
        (Value::Text(_), ColType::Varchar) => true,
        (Value::Bytes(_), ColType::Blob) => true,
        (Value::Date(day), ColType::Date) => is_day(*day),
        _ => false,
    }
}

/// Whether values of the first type may stand in a column of the second that is altered: from a smaller signed integer
/// type to a larger one.
pub fn promotes(from: ColType, to: ColType) -> bool
    ensures { result ≡ spec.promotes from to }
{
    match (reach(from), reach(to)) {
        (Some(from), Some(to)) => from < to,
        _ => false,
    }
}
