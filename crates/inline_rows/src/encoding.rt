ghost use Rattle.std.specs.Prelude.{◌≡◌, ◌++◌, ◌∷◌, [], None, IfOk, OnOk};
ghost use Rattle.thrift_compact.specs.Shortest.{binary_spelling};
ghost use Rattle.inline_rows.specs.Spelling as spec;

use crate::numbers::{push_signed, push_unsigned};
use lake_types::{Blob, Value};
use std::alloc::{AllocError, Global};

/// The bytes that spell the cells of a row, which stand by rising field id.
pub fn encode_cells(alloc: Global, cells: &[(u32, Value)]) -> Result<Blob, AllocError>
    requires { spec.RisesFrom None cells.now }
    ensures { IfOk result (λ bytes. bytes ≡ spec.cells_spelling cells.now) }
{
    let mut out = Vec::new(alloc);
    push_unsigned(&mut out, cells.len() as u64)?;
    for (field, value) in cells {
        push_cell(&mut out, *field, value)?;
    }
    Ok(Blob::from_vec(out))
}

fn push_cell(out: &mut Vec<u8>, field: u32, value: &Value) -> Result<(), AllocError>
    ensures { OnOk result (out.new.items ≡ out.old.items ++ spec.cell_spelling (field, value.now)) }
{
    push_unsigned(out, u64::from(field))?;
    push_value(out, value)
}

fn push_value(out: &mut Vec<u8>, value: &Value) -> Result<(), AllocError>
    ensures { OnOk result (out.new.items ≡ out.old.items ++ spec.content value.now) }
{
    match value {
        Value::Null => push_tag(out, 0),
        Value::Bool(truth) => push_tag(out, if *truth { 2 } else { 1 }),
        Value::Int(number) => {
            push_tag(out, 3)?;
            push_signed(out, *number)
        }
        Value::Text(text) => {
            push_tag(out, 4)?;
            push_binary(out, text.as_str().as_bytes())
        }
        Value::Bytes(bytes) => {
            push_tag(out, 5)?;
            push_binary(out, bytes.as_slice())
        }
        Value::Date(day) => {
            push_tag(out, 6)?;
            push_signed(out, i64::from(*day))
        }
    }
}

fn push_tag(out: &mut Vec<u8>, tag: u8) -> Result<(), AllocError>
    ensures { OnOk result (out.new.items ≡ out.old.items ++ tag ∷ []) }
{
    out.push(tag)?;
    Ok(())
}

fn push_binary(out: &mut Vec<u8>, bytes: &[u8]) -> Result<(), AllocError>
    ensures { OnOk result (out.new.items ≡ out.old.items ++ binary_spelling bytes.now) }
{
    push_unsigned(out, bytes.len() as u64)?;
    out.extend_from_slice(bytes)?;
    Ok(())
}
