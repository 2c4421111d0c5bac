//! What a cell holds, as it lies in the bytes.

ghost use Rattle.std.specs.Prelude.{◌≡◌, IfOk};
ghost use Rattle.inline_rows.specs.Content.{held};

use lake_types::{Blob, Value, Words};
use std::alloc::{AllocError, Global};

/// A value whose text or bytes are a part of what is read.
#[derive(Clone, Copy)]
pub(crate) enum Content<'a> {
    Null,
    Bool(bool),
    Int(i64),
    Text(&'a str),
    Bytes(&'a [u8]),
    Date(i32),
}

impl<'a> Content<'a> {
    pub(crate) fn to_value(self, alloc: Global) -> Result<Value, AllocError>
        ensures { IfOk result (λ value. value ≡ held self.entry) }
    {
        match self {
            Content::Null => Ok(Value::Null),
            Content::Bool(truth) => Ok(Value::Bool(truth)),
            Content::Int(number) => Ok(Value::Int(number)),
            Content::Text(text) => Ok(Value::Text(Words::of(alloc, text)?)),
            Content::Bytes(bytes) => Ok(Value::Bytes(Blob::of(alloc, bytes)?)),
            Content::Date(day) => Ok(Value::Date(day)),
        }
    }
}
