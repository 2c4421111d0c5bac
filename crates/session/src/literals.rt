ghost use Rattle.std.specs.Prelude.{◌≡◌, ◌++◌, ◌∷◌, ◌<◌, ◌≢◌, [], length, IfSome, None, OnOk};
ghost use Rattle.std.specs.Fmt.{signed_decimal};
ghost use Rattle.std.specs.String.{string_bytes};
ghost use Rattle.hex.specs.Hex.{encode_lower};
ghost use Rattle.lake_types.specs.Calendar.{day_text};
ghost use Rattle.lake_types.specs.Texts as spec;

use hex::encode;
use itoa::Buffer;
use jiff_core::civil::Date;
use jiff_fmt::temporal::DateTimePrinter;
use lake_types::{NoMemory, Value, is_day};
use std::alloc::{AllocError, Global};

fn push_number(text: &mut String, number: i64) -> Result<(), NoMemory>
    ensures { OnOk result (string_bytes text.new ≡ string_bytes text.old ++ signed_decimal number) }
{
    let mut buffer = Buffer::new();
    text.push_str(buffer.format(number))
}

/// The text before and after its first single quote.
fn at_quote(text: &str) -> Option<(&str, &str)>
    ensures doubled { IfSome result (λ x. spec.all_doubled 39 text.now ≡ x.0.now ++ 39 ∷ 39 ∷ spec.all_doubled 39 x.1.now) }
    ensures shorter { IfSome result (λ x. length x.1.now < length text.now) }
    ensures none { result ≡ None → spec.all_doubled 39 text.now ≡ text.now }
{
    text.split_once('\'')
}

/// Adds a text in single quotes, inner ones doubled.
fn push_quoted(text: &mut String, value: &str) -> Result<(), NoMemory>
    ensures { OnOk result (string_bytes text.new ≡ string_bytes text.old ++ spec.text_literal value.now) }
{
    text.push_str("'")?;
    let mut rest = value;
    while let Some((before, after)) = at_quote(rest) {
        text.push_str(before)?;
        text.push_str("''")?;
        rest = after;
    }
    text.push_str(rest)?;
    text.push_str("'")
}

fn push_bytes(alloc: Global, text: &mut String, bytes: &[u8]) -> Result<(), NoMemory>
    ensures { OnOk result (string_bytes text.new ≡ string_bytes text.old ++ encode_lower bytes.now) }
{
    let digits = encode(alloc, bytes)?;
    text.push_str(digits.as_str())
}

/// Adds the text of a day. One that the calendar lacks has none, and is refused: no INSERT, default or data file
/// brings one.
fn push_day(text: &mut String, day: i32) -> Result<(), NoMemory>
    ensures { OnOk result (string_bytes text.new ≡ string_bytes text.old ++ day_text day) }
{
    if !is_day(day) {
        return Err(AllocError);
    }
    let Ok(date) = Date::from_unix_epoch_day(i64::from(day)) else {
        unreachable!()
    };
    text.push_str(DateTimePrinter::new().date_text(date).as_str())
}

/// Adds the printed text of a value.
pub fn push_literal(alloc: Global, text: &mut String, value: &Value) -> Result<(), NoMemory>
    ensures { OnOk result (string_bytes text.new ≡ string_bytes text.old ++ spec.literal_text value.now) }
{
    match value {
        Value::Null => text.push_str("NULL"),
        Value::Bool(true) => text.push_str("true"),
        Value::Bool(false) => text.push_str("false"),
        Value::Int(number) => push_number(text, *number),
        Value::Text(value) => push_quoted(text, value.as_str()),
        Value::Bytes(bytes) => {
            text.push_str("x'")?;
            push_bytes(alloc, text, bytes.as_slice())?;
            text.push_str("'")
        }
        Value::Date(day) => {
            text.push_str("DATE '")?;
            push_day(text, *day)?;
            text.push_str("'")
        }
    }
}
