ghost use Rattle.std.specs.Prelude.{◌≡◌, IfOk, IfSome, None, fold};
ghost use Rattle.std.specs.Option.{option_copied};
ghost use Rattle.col_stats.specs.Bounds as spec;

use lake_types::limits::MAX_BOUND_BYTES;
use lake_types::{Copied, NoMemory, Op, Row, Truth, Value, Words, cell_at, compared, text_of};
use std::alloc::Global;

/// One of the two bounds of some values.
#[derive(Clone, Copy, Debug)]
pub enum Side {
    Least,
    Greatest,
}

impl Side {
    /// How this bound compares to each of the values.
    fn op(self) -> Op
        ensures { result ≡ spec.op_of self }
    {
        match self {
            Side::Least => Op::Le,
            Side::Greatest => Op::Ge,
        }
    }
}

/// The outer one of two values, where both are there.
pub fn outer<'a>(side: Side, a: Option<&'a Value>, b: Option<&'a Value>) -> Option<&'a Value>
    ensures { option_copied result ≡ spec.outer side (option_copied a.entry) (option_copied b.entry) }
{
    match (a, b) {
        (None, b) => b,
        (a, None) => a,
        (Some(x), Some(y)) => {
            if compared(side.op(), Some(x), y) == Truth::True {
                Some(x)
            } else {
                Some(y)
            }
        }
    }
}

/// The outer one of a bound and a cell, of which NULL is no value.
fn outer_cell<'a>(
    side: Side,
    bound: Option<&'a Value>,
    cell: Option<&'a Value>,
) -> Option<&'a Value>
    ensures { option_copied result ≡ spec.outer_cell side (option_copied bound.entry) (spec.value_in (option_copied cell.entry)) }
{
    match cell {
        None | Some(Value::Null) => bound,
        Some(value) => outer(side, bound, Some(value)),
    }
}

/// The outermost value that a field has in some rows.
pub fn outermost(side: Side, field: u32, rows: &[Row]) -> Option<&Value>
    ensures { option_copied result ≡ fold (spec.outer_cell side) None (spec.cells field rows.now) }
{
    let mut bound: Option<&Value> = None;
    for row in rows {
        bound = outer_cell(side, bound, cell_at(row.cells.as_slice(), field));
    }
    bound
}

/// The outermost value among some cells.
pub fn outermost_cell(side: Side, cells: &[Value]) -> Option<&Value>
    ensures { option_copied result ≡ fold (spec.outer_cell side) None cells.now }
{
    let mut bound: Option<&Value> = None;
    for cell in cells {
        bound = outer_cell(side, bound, Some(cell));
    }
    bound
}

/// The text of a bound in the catalogue; none where there is no bound.
pub fn bound_text(alloc: Global, bound: &Option<Value>) -> Result<Option<Words>, NoMemory>
    requires { IfSome bound.now spec.HasText }
    ensures { IfOk result (λ text. text ≡ spec.bound_text bound.now) }
{
    match bound {
        Some(value) => Ok(Some(text_of(alloc, value)?)),
        None => Ok(None),
    }
}

/// A copy of the bound, where its text is not too long for the catalogue.
pub fn kept(alloc: Global, bound: Option<&Value>) -> Result<Option<Value>, NoMemory>
    requires { IfSome (option_copied bound) spec.HasText }
    ensures { IfOk result (λ kept. kept ≡ spec.kept (option_copied bound.entry)) }
{
    let Some(bound) = bound else {
        return Ok(None);
    };
    let text = text_of(alloc, bound)?;
    if text.as_str().len() <= MAX_BOUND_BYTES {
        Ok(Some(bound.copy(alloc)?))
    } else {
        Ok(None)
    }
}
