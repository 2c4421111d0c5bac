ghost use Rattle.std.specs.Prelude.{IfOk};
ghost use Rattle.std.specs.Bool.{Decides};
ghost use Rattle.cat_rules.specs.ColumnRule as spec;

use cat_texts::type_of;
use lake_types::{BadValue, NoMemory, Value, Words, value_of};
use std::alloc::{AllocError, Global};

/// The most bytes of a default.
const MAX_DEFAULT_BYTES: usize = 1_048_576;

fn is_short(value: &Value) -> bool
    ensures { Decides result (spec.IsShort value.now) }
{
    match value {
        Value::Text(text) => text.as_str().len() <= MAX_DEFAULT_BYTES,
        Value::Bytes(bytes) => bytes.as_slice().len() <= MAX_DEFAULT_BYTES,
        _ => true,
    }
}

/// Whether a default is absent, or the text of a short value of the type.
pub(crate) fn is_default(
    alloc: Global,
    type_text: &str,
    text: &Option<Words>,
) -> Result<bool, NoMemory>
    ensures { IfOk result (λ yes. Decides yes (spec.IsDefault type_text.now text.now)) }
{
    let Some(text) = text else {
        return Ok(true);
    };
    let Some(ty) = type_of(type_text) else {
        return Ok(false);
    };
    match value_of(alloc, ty, text.as_str()) {
        Ok(value) => Ok(is_short(&value)),
        Err(BadValue::Text) => Ok(false),
        Err(BadValue::Memory) => Err(AllocError),
    }
}
