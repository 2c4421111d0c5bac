ghost use Rattle.std.specs.Prelude.{◌≡◌, ◌++◌, IfOk, OnOk};
ghost use Rattle.stmt_text.specs.Printed as spec;

use crate::draft::Draft;
use crate::lists::Put;
use lake_types::{ColType, ColumnDef, TableName, Value, Words, is_day, text_of};
use std::alloc::{AllocError, Global};
use stmt_tokens::{Keyword, Sign};

/// Adds a table's name with its schema.
pub fn put_table(alloc: Global, line: &mut Draft, table: &TableName) -> Result<(), AllocError>
    ensures { OnOk result (line.new.tokens ≡ line.old.tokens ++ spec.table_tokens table.now) }
{
    line.name(alloc, &table.schema)?;
    line.sign(alloc, Sign::Dot)?;
    line.name(alloc, &table.table)
}

fn type_word(ty: ColType) -> Keyword
    ensures { result ≡ spec.type_word ty }
{
    match ty {
        ColType::Bool => Keyword::Boolean,
        ColType::Int8 => Keyword::TinyInt,
        ColType::Int16 => Keyword::SmallInt,
        ColType::Int32 => Keyword::Integer,
        ColType::Int64 => Keyword::BigInt,
        ColType::Varchar => Keyword::Varchar,
        ColType::Blob => Keyword::Blob,
        ColType::Date => Keyword::Date,
    }
}

/// Adds a type's name.
pub fn put_type(alloc: Global, line: &mut Draft, ty: ColType) -> Result<(), AllocError>
    ensures { OnOk result (line.new.tokens ≡ line.old.tokens ++ spec.type_tokens ty) }
{
    line.word(alloc, type_word(ty))
}

fn day_words(alloc: Global, day: i32) -> Result<Words, AllocError>
    ensures { IfOk result (λ text. text ≡ spec.day_words day) }
{
    if is_day(day) {
        text_of(alloc, &Value::Date(day))
    } else {
        Words::of(alloc, "")
    }
}

fn put_day(alloc: Global, line: &mut Draft, day: i32) -> Result<(), AllocError>
    ensures { OnOk result (line.new.tokens ≡ line.old.tokens ++ spec.day_tokens day) }
{
    line.word(alloc, Keyword::Date)?;
    let text = day_words(alloc, day)?;
    line.text(alloc, text.as_str())
}

fn put_integer(alloc: Global, line: &mut Draft, number: i64) -> Result<(), AllocError>
    ensures { OnOk result (line.new.tokens ≡ line.old.tokens ++ spec.integer_tokens number) }
{
    let digits = format!(in alloc; "{number}")?;
    line.number(alloc, digits.as_str())
}

/// Adds a number that has no sign.
pub fn put_number(alloc: Global, line: &mut Draft, number: u64) -> Result<(), AllocError>
    ensures { OnOk result (line.new.tokens ≡ line.old.tokens ++ spec.number_tokens number) }
{
    let digits = format!(in alloc; "{number}")?;
    line.number(alloc, digits.as_str())
}

/// Adds a value as a statement gives it.
pub fn put_literal(alloc: Global, line: &mut Draft, value: &Value) -> Result<(), AllocError>
    ensures { OnOk result (line.new.tokens ≡ line.old.tokens ++ spec.literal_tokens value.now) }
{
    match value {
        Value::Null => line.word(alloc, Keyword::Null),
        Value::Bool(true) => line.word(alloc, Keyword::True),
        Value::Bool(false) => line.word(alloc, Keyword::False),
        Value::Int(number) => put_integer(alloc, line, *number),
        Value::Text(text) => line.text(alloc, text.as_str()),
        Value::Bytes(bytes) => line.bytes(alloc, bytes.as_slice()),
        Value::Date(day) => put_day(alloc, line, *day),
    }
}

fn put_nulls(alloc: Global, line: &mut Draft, nulls: bool) -> Result<(), AllocError>
    ensures { OnOk result (line.new.tokens ≡ line.old.tokens ++ spec.nulls_tokens nulls) }
{
    if nulls {
        return Ok(());
    }
    line.word(alloc, Keyword::Not)?;
    line.word(alloc, Keyword::Null)
}

fn put_default(alloc: Global, line: &mut Draft, value: &Option<Value>) -> Result<(), AllocError>
    ensures { OnOk result (line.new.tokens ≡ line.old.tokens ++ spec.default_tokens value.now) }
{
    match value {
        Some(value) => {
            line.word(alloc, Keyword::Default)?;
            put_literal(alloc, line, value)
        }
        None => Ok(()),
    }
}

impl Put for ColumnDef {
    ghost use Rattle.stmt_text.specs.Printed.{column_tokens};

    ghost tokens = { column_tokens };

    fn put(&self, alloc: Global, line: &mut Draft) -> Result<(), AllocError> {
        line.name(alloc, &self.name)?;
        put_type(alloc, line, self.ty)?;
        put_nulls(alloc, line, self.nulls)?;
        put_default(alloc, line, &self.default_value)
    }
}
