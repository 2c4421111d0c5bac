ghost use Rattle.std.specs.Prelude.{◌≡◌, ◌-◌, ◌^◌, min};
ghost use Rattle.lake_types.specs.Weights as spec;

use crate::value::Value;

/// How much a value weighs, in the unit of the limit on what a transaction may insert.
pub fn weight(value: &Value) -> u64
    ensures { result ≡ spec.weight value.now }
{
    match value {
        Value::Null | Value::Bool(_) => 1,
        Value::Date(_) => 4,
        Value::Int(_) => 8,
        Value::Text(text) => 4 + text.as_str().len() as u64,
        Value::Bytes(bytes) => 4 + bytes.as_slice().len() as u64,
    }
}

/// How much a row weighs: 16 and its cells. It stays at its type's last value.
pub fn row_weight(cells: &[(u32, Value)]) -> u64
    ensures { result ≡ min (spec.row_weight cells.now) (2 ^ 64 - 1) }
{
    let mut total = 16u64;
    for (_, value) in cells {
        total = total.saturating_add(weight(value));
    }
    total
}
