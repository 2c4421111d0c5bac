ghost use Rattle.std.specs.Prelude.{IfOk, None};
ghost use Rattle.inline_rows.specs.Spelling.{RisesFrom};

use inline_rows::{CellsFault, cells_ok, decode_cells, encode_cells};
use lake_types::{Value, Words};
use std::alloc::{AllocError, Global};
use std::test::Fail;

/// The integer 7 in field 1 and the text `ab` in field 2.
fn cells(alloc: Global) -> Result<Vec<(u32, Value)>, AllocError>
    ensures { IfOk result (λ cells. RisesFrom None cells.items) }
{
    let text = Words::of(alloc, "ab")?;
    let mut cells = Vec::new(alloc);
    cells.push((1, Value::Int(7)))?;
    cells.push((2, Value::Text(text)))?;
    Ok(cells)
}

/// Their spelling.
const BYTES: [u8; 9] = [2, 1, 3, 14, 2, 4, 2, 97, 98];

#[test]
fn two_cells_both_ways(rt: HostRuntime) -> Result<(), Fail> {
    let alloc = rt.alloc();
    let cells = cells(alloc)?;
    let bytes = encode_cells(alloc, cells.as_slice())?;
    assert_eq!(rt; bytes.as_slice(), &BYTES[..]);
    let back = decode_cells(alloc, &BYTES[..])?;
    assert_eq!(rt;
        format!(in alloc; "{back:?}")?,
        format!(in alloc; "{cells:?}")?
    );
    Ok(())
}

fn is_bad_at(alloc: Global, bytes: &[u8], place: u64) -> bool {
    matches!(&decode_cells(alloc, bytes), Err(CellsFault::BadCells { at }) if *at == place)
}

#[test]
fn places_of_what_is_wrong(rt: HostRuntime) -> Result<(), Fail> {
    let alloc = rt.alloc();
    let last_byte_gone: &[u8] = &BYTES[..8];
    let nothing: &[u8] = &[];
    let long_number: &[u8] = &[129, 0, 1, 0];
    let repeated_field: &[u8] = &[2, 1, 0, 1, 0];
    let more_behind: &[u8] = &[1, 1, 0, 0];
    let no_text: &[u8] = &[1, 1, 4, 1, 255];
    let cases = [
        (last_byte_gone, 4),
        (nothing, 0),
        (long_number, 0),
        (repeated_field, 3),
        (more_behind, 3),
        (no_text, 1),
    ];
    for (bytes, place) in cases.iter() {
        assert_eq!(rt; is_bad_at(alloc, bytes, *place), true);
    }
    Ok(())
}

#[test]
fn cells_that_a_row_may_hold(rt: HostRuntime) -> Result<(), Fail> {
    let alloc = rt.alloc();
    let cells = cells(alloc)?;
    for (next, answer) in [(Some(3), true), (None, true), (Some(2), false)] {
        assert_eq!(rt; cells_ok(cells.as_slice(), next), answer);
    }
    Ok(())
}
