//! Whether a row of a table may hold some cells.

ghost use Rattle.std.specs.Prelude.{IsTrue, ◌↔◌, ◌≡◌};
ghost use Rattle.std.specs.List.{list_all};
ghost use Rattle.inline_rows.specs.Allowed.{AreAllowed};
ghost use Rattle.inline_rows.specs.Tests as tests;

use lake_types::limits::{MAX_CELL_BYTES, MAX_ROW_WEIGHT};
use lake_types::{Value, row_weight};

/// Whether the cells have at most 16,777,216 bytes each and weigh at most 67,108,864 together, and each has a field id
/// below `next_field`, where that is given.
pub fn cells_ok(cells: &[(u32, Value)], next_field: Option<u64>) -> bool
    ensures { IsTrue result ↔ AreAllowed next_field cells.now }
{
    are_allowed(next_field, cells)
}

fn are_allowed(next_field: Option<u64>, cells: &[(u32, Value)]) -> bool
    ensures { result ≡ tests.are_allowed next_field cells.now }
{
    each_is_allowed(next_field, cells) && are_light(cells)
}

fn each_is_allowed(next_field: Option<u64>, cells: &[(u32, Value)]) -> bool
    ensures { result ≡ list_all (tests.is_allowed next_field) cells.now }
{
    cells.iter().all(|cell| is_allowed(next_field, cell))
}

/// Whether the cells weigh no more than those of a row may.
#[tactic(auto, using(crate::proofs::AllowedLemmas::weighing))]
fn are_light(cells: &[(u32, Value)]) -> bool
    ensures { result ≡ tests.are_light cells.now }
{
    // A row weighs 16 more than its cells.
    row_weight(cells) <= 16 + MAX_ROW_WEIGHT
}

fn is_allowed(next_field: Option<u64>, cell: &(u32, Value)) -> bool
    ensures { result ≡ tests.is_allowed next_field cell.now }
{
    is_small(&cell.1) && is_known(next_field, cell.0)
}

fn is_small(value: &Value) -> bool
    ensures { result ≡ tests.is_small value.now }
{
    match value {
        Value::Text(text) => text.as_str().len() <= MAX_CELL_BYTES,
        Value::Bytes(bytes) => bytes.as_slice().len() <= MAX_CELL_BYTES,
        _ => true,
    }
}

fn is_known(next_field: Option<u64>, field: u32) -> bool
    ensures { result ≡ tests.is_known next_field field }
{
    match next_field {
        Some(next) => u64::from(field) < next,
        None => true,
    }
}
