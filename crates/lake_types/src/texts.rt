ghost use Rattle.std.specs.Prelude.{◌≡◌, ◌≢◌, ◌++◌, ◌∷◌, ◌<◌, length, true, Ok, Err, None, Bool, ℕ, ℤ, List, IfOk, IfSome};
ghost use Rattle.std.specs.Fmt.{signed_decimal};
ghost use Rattle.std.specs.String.{string_bytes};
ghost use Rattle.hex.specs.Hex.{IsBytes, encode_lower};
ghost use Rattle.lake_types.specs.Fits.{fits, fits_some, reach, reaches};
ghost use Rattle.lake_types.specs.Texts as spec;
ghost use Rattle.lake_types.specs.declared.value.ColType.{ColType};
ghost use Rattle.lake_types.specs.declared.value.Value.{Value};
ghost use Rattle.lake_types.specs.declared.value.Value.TheVariants.{Null};
ghost use Rattle.lake_types.specs.declared.texts.BadValue.TheVariants.{Memory, Text};

use crate::dates::{day_of, day_text};
use crate::ranges::fits_integer;
use crate::value::{ColType, Value};
use crate::words::{Blob, NoMemory, Words};
use hex::{FromHexError, decode, encode};
use itoa::Buffer;
use std::alloc::{AllocError, Global};
use thiserror::Error;

/// Why a text gives no value.
#[derive(Clone, Copy, Debug, PartialEq, Eq, Error)]
pub enum BadValue {
    /// No value of the type has this text.
    #[error("no value of the type has this text")]
    Text,
    #[error("no memory")]
    Memory,
}

impl From<AllocError> for BadValue {
    ghost from_gives = { λ _ e. e ≡ Memory };

    fn from(_error: AllocError) -> BadValue {
        BadValue::Memory
    }
}

/// The catalogue's text of a value: `true` or `false`, a decimal number without leading zeros, the text itself,
/// lower-case hexadecimal, `YYYY-MM-DD`. `value_of` gives the value back, of each type that it fits.
pub fn text_of(alloc: Global, value: &Value) -> Result<Words, NoMemory>
    requires some { value.now ≢ Null }
    requires fits { fits_some value.now ≡ true }
    ensures text { IfOk result (λ text. text ≡ spec.value_text value.now) }
    ensures back { IfOk result (λ text. (ty : ColType) → fits value.now ty ≡ true → spec.HasText ty value.now text) }
{
    match value {
        Value::Null => Words::of(alloc, ""),
        Value::Bool(truth) => Words::of(alloc, bool_text(*truth)),
        Value::Int(number) => Ok(Words::from_string(format!(in alloc; "{number}")?)),
        Value::Text(text) => Words::of(alloc, text.as_str()),
        Value::Bytes(bytes) => Ok(Words::from_string(encode(alloc, bytes.as_slice())?)),
        Value::Date(day) => Ok(Words::from_string(day_text(alloc, *day)?)),
    }
}

fn bool_text(truth: bool) -> &'static str
    ensures { result.now ≡ spec.bool_text truth }
{
    if truth { "true" } else { "false" }
}

/// The printed text of a value, which a statement can give again: `NULL`, `true`, `false`, decimal numbers, `'text'` with
/// inner quotes doubled, `x'0a'` in lower case, `DATE '2024-02-29'`.
pub fn literal_of(alloc: Global, value: &Value) -> Result<Words, NoMemory>
    requires { fits_some value.now ≡ true }
    ensures { IfOk result (λ text. text ≡ spec.literal_text value.now) }
{
    match value {
        Value::Null => Words::of(alloc, "NULL"),
        Value::Bool(truth) => Words::of(alloc, bool_text(*truth)),
        Value::Int(number) => Ok(Words::from_string(format!(in alloc; "{number}")?)),
        Value::Text(text) => text_literal(alloc, text.as_str()),
        Value::Bytes(bytes) => {
            let digits = encode(alloc, bytes.as_slice())?;
            Ok(Words::from_string(format!(in alloc; "x'{digits}'")?))
        }
        Value::Date(day) => {
            let date = day_text(alloc, *day)?;
            Ok(Words::from_string(format!(in alloc; "DATE '{date}'")?))
        }
    }
}

/// The text in single quotes, inner ones doubled.
fn text_literal(alloc: Global, text: &str) -> Result<Words, NoMemory>
    ensures { IfOk result (λ literal. literal ≡ spec.text_literal text.now) }
{
    let mut literal = String::from_str(alloc, "'")?;
    let mut rest = text;
    while let Some((before, after)) = at_quote(rest) {
        literal.push_str(before)?;
        literal.push_str("''")?;
        rest = after;
    }
    literal.push_str(rest)?;
    literal.push_str("'")?;
    Ok(Words::from_string(literal))
}

/// The text before and after its first single quote.
fn at_quote(text: &str) -> Option<(&str, &str)>
    ensures doubled { IfSome result (λ x. spec.all_doubled 39 text.now ≡ x.0.now ++ 39 ∷ 39 ∷ spec.all_doubled 39 x.1.now) }
    ensures shorter { IfSome result (λ x. length x.1.now < length text.now) }
    ensures none { result ≡ None → spec.all_doubled 39 text.now ≡ text.now }
{
    text.split_once('\'')
}

/// The value of a type that has this text in the catalogue: the inverse of `text_of`. `BadValue::Text` where no value of
/// the type has it, as `007`, `+7`, `-0`, `TRUE`, upper-case hexadecimal or a day that the calendar lacks.
pub fn value_of(alloc: Global, ty: ColType, text: &str) -> Result<Value, BadValue>
    ensures ok { IfOk result (λ value. spec.HasText ty value text.now) }
    ensures text { result ≡ Err Text → (value : Value) → spec.HasText ty value text.now → ⊥ }
{
    let found = match ty {
        ColType::Bool => bool_of(text).map(Value::Bool),
        ColType::Int8 | ColType::Int16 | ColType::Int32 | ColType::Int64 => integer_of(
            ty, text,
        ).map(Value::Int),
        ColType::Varchar => Some(Value::Text(Words::of(alloc, text)?)),
        ColType::Blob => bytes_of(alloc, text)?.map(Value::Bytes),
        ColType::Date => day_of(text).map(Value::Date),
    };
    found.ok_or(BadValue::Text)
}

fn bool_of(text: &str) -> Option<bool>
    ensures some { IfSome result (λ truth. spec.bool_text truth ≡ text.now) }
    ensures none { result ≡ None → (truth : Bool) → spec.bool_text truth ≢ text.now }
{
    match text {
        "true" => Some(true),
        "false" => Some(false),
        _ => None,
    }
}

/// The integer of the type with this text. Other spellings of a number parse too, so the text is compared with the one
/// that is printed.
fn integer_of(ty: ColType, text: &str) -> Option<i64>
    ensures some { IfSome result (λ number. (reaches (reach ty) number ≡ true) × (signed_decimal number ≡ text.now)) }
    ensures none { result ≡ None → (number : ℤ) → reaches (reach ty) number ≡ true → signed_decimal number ≢ text.now }
{
    let Ok(number) = text.parse::<i64>() else {
        return None;
    };
    if Buffer::new().format(number) != text {
        return None;
    }
    if fits_integer(number, ty) {
        Some(number)
    } else {
        None
    }
}

/// The bytes with this text. Upper-case digits decode too, so the text is compared with the one that is printed.
fn bytes_of(alloc: Global, text: &str) -> Result<Option<Blob>, NoMemory>
    ensures some { IfOk result (λ found. IfSome found (λ bytes. IsBytes bytes × (encode_lower bytes ≡ text.now))) }
    ensures none { result ≡ Ok None → (bytes : List ℕ) → IsBytes bytes → encode_lower bytes ≢ text.now }
{
    let bytes = match decode(alloc, text.as_bytes()) {
        Ok(bytes) => bytes,
        Err(fault) => {
            return if fault == FromHexError::OutOfMemory {
                Err(AllocError)
            } else {
                Ok(None)
            };
        }
    };
    if encode(alloc, bytes.as_slice())?.as_str() != text {
        return Ok(None);
    }
    Ok(Some(Blob::from_vec(bytes)))
}
