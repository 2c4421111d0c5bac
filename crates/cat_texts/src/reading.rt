ghost use Rattle.std.specs.Prelude.{◌≡◌, Err, Option, IfOk};
ghost use Rattle.lake_types.specs.Texts.{HasText};
ghost use Rattle.lake_types.specs.declared.value.Value.{Value};
ghost use Rattle.cat_texts.specs.Spelled.{IsBoundOf, IsValueOf};
ghost use Rattle.cat_texts.specs.declared.reading.ReadTextNo.TheVariants.{BadText, Memory};

use lake_types::{BadValue, ColType, Value, Words, value_of};
use std::alloc::{AllocError, Global};
use thiserror::Error;

/// Why a row of the catalogue gives no column or no statistics.
#[derive(Clone, Copy, Debug, PartialEq, Eq, Error)]
pub enum ReadTextNo {
    /// A text of the row is no type's or no value's, or its field id is past 32 bits.
    #[error("a text of the catalogue can't be read")]
    BadText,
    #[error("no memory")]
    Memory,
}

impl From<AllocError> for ReadTextNo {
    ghost from_gives = { λ _ e. e ≡ Memory };

    fn from(_error: AllocError) -> ReadTextNo {
        ReadTextNo::Memory
    }
}

/// The value of a type that has this text.
fn read_text(alloc: Global, ty: ColType, text: &Words) -> Result<Value, ReadTextNo>
    ensures ok { IfOk result (λ value. HasText ty value text.now) }
    ensures bad { result ≡ Err BadText → (value : Value) → HasText ty value text.now → ⊥ }
{
    match value_of(alloc, ty, text.as_str()) {
        Ok(value) => Ok(value),
        Err(BadValue::Text) => Err(ReadTextNo::BadText),
        Err(BadValue::Memory) => Err(ReadTextNo::Memory),
    }
}

/// The value of a default's text, NULL of none.
pub(crate) fn read_default(
    alloc: Global,
    ty: ColType,
    text: &Option<Words>,
) -> Result<Value, ReadTextNo>
    ensures ok { IfOk result (IsValueOf ty text.now) }
    ensures bad { result ≡ Err BadText → (value : Value) → IsValueOf ty text.now value → ⊥ }
{
    match text {
        None => Ok(Value::Null),
        Some(text) => read_text(alloc, ty, text),
    }
}

/// The bound of a text, none of none.
pub(crate) fn read_bound(
    alloc: Global,
    ty: ColType,
    text: &Option<Words>,
) -> Result<Option<Value>, ReadTextNo>
    ensures ok { IfOk result (IsBoundOf ty text.now) }
    ensures bad { result ≡ Err BadText → (bound : Option Value) → IsBoundOf ty text.now bound → ⊥ }
{
    let Some(text) = text else {
        return Ok(None);
    };
    match read_text(alloc, ty, text) {
        Ok(value) => Ok(Some(value)),
        Err(why) => Err(why),
    }
}
