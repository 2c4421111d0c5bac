ghost use Rattle.std.specs.Prelude.{◌≡◌, ◌≢◌, true, false, Ok, None, IfOk, IfErr, IfSome};
ghost use Rattle.std.specs.Str.{is_utf8};
ghost use Rattle.inline_rows.specs.Faults.{HasCause};
ghost use Rattle.inline_rows.specs.Finding.{Finds, FindsCell, FindsContent, Stops};
ghost use Rattle.inline_rows.specs.Laws.{Spells, SpellsNone};
ghost use Rattle.inline_rows.specs.Reading as spec;
ghost use Rattle.inline_rows.specs.Spelling.{is_past};
ghost use Rattle.inline_rows.specs.declared.fault.CellsFault.TheVariants.{Memory};

use crate::content::Content;
use crate::fault::CellsFault;
use crate::numbers::{parse_binary, parse_i32, parse_i64, parse_unsigned};
use lake_types::Value;
use std::alloc::Global;
use std::str;

/// The cells that the bytes spell: the inverse of `encode_cells`.
pub fn decode_cells(alloc: Global, bytes: &[u8]) -> Result<Vec<(u32, Value)>, CellsFault>
    ensures ok { IfOk result (λ cells. Spells bytes.now cells.items) }
    ensures none { IfErr result (λ fault. fault ≢ Memory → SpellsNone bytes.now) }
    ensures cause { IfErr result (HasCause bytes.now) }
{
    read_all(alloc, bytes)
}

#[tactic(auto, unfolding(crate::specs::Reading::decoded))]
fn read_all(alloc: Global, bytes: &[u8]) -> Result<Vec<(u32, Value)>, CellsFault>
    ensures ok { IfOk result (λ cells. spec.decoded bytes.now ≡ Ok cells.items) }
    ensures bad { IfErr result (λ fault. Stops fault (spec.decoded bytes.now)) }
{
    let Some((count, rest)) = parse_unsigned(1 << 64, bytes) else {
        return Err(CellsFault::BadCells { at: 0 });
    };
    read_cells(alloc, bytes.len(), count, rest)
}

/// So many cells, and then the end. All bytes end at the offset `end`.
fn read_cells(
    alloc: Global,
    end: usize,
    count: u64,
    bytes: &[u8],
) -> Result<Vec<(u32, Value)>, CellsFault>
    ensures ok { IfOk result (λ cells. spec.cells_in end count None bytes.now ≡ Ok cells.items) }
    ensures bad { IfErr result (λ fault. Stops fault (spec.cells_in end count None bytes.now)) }
{
    let mut cells = Vec::new(alloc);
    let mut last = None;
    let mut rest = bytes;
    for _turn in 0..count {
        let Some((cell, behind)) = cell_at(last, rest) else {
            return Err(CellsFault::BadCells {
                at: place(end, rest),
            });
        };
        last = Some(cell.0);
        cells.push((cell.0, cell.1.to_value(alloc)?))?;
        rest = behind;
    }
    if rest.is_empty() {
        Ok(cells)
    } else {
        Err(CellsFault::BadCells {
            at: place(end, rest),
        })
    }
}

/// The offset of the first of the bytes, where all end at the offset `end`.
fn place(end: usize, bytes: &[u8]) -> u64
    ensures { result ≡ spec.place end bytes.now }
{
    end.saturating_sub(bytes.len()) as u64
}

/// A cell past the field `last`, and the bytes behind it.
#[tactic(auto, unfolding(crate::specs::Reading::cell_in))]
fn cell_at(last: Option<u32>, bytes: &[u8]) -> Option<((u32, Content<'_>), &[u8])>
    ensures { FindsCell result (spec.cell_in last bytes.now) }
{
    let (field, rest) = field_at(last, bytes)?;
    let (content, behind) = content_at(rest)?;
    Some(((field, content), behind))
}

fn field_at(last: Option<u32>, bytes: &[u8]) -> Option<(u32, &[u8])>
    ensures { Finds result (spec.field_in last bytes.now) }
{
    let (number, rest) = parse_unsigned(1 << 32, bytes)?;
    let field = number as u32;
    if is_past(last, field) {
        Some((field, rest))
    } else {
        None
    }
}

fn is_past(last: Option<u32>, field: u32) -> bool
    ensures { result ≡ is_past last field }
{
    match last {
        Some(last) => last < field,
        None => true,
    }
}

fn content_at(bytes: &[u8]) -> Option<(Content<'_>, &[u8])>
    ensures { FindsContent result (spec.value_in bytes.now) }
{
    let [tag, rest @ ..] = bytes else {
        return None;
    };
    match *tag {
        0 => Some((Content::Null, rest)),
        1 => Some((Content::Bool(false), rest)),
        2 => Some((Content::Bool(true), rest)),
        3 => integer_at(rest),
        4 => text_at(rest),
        5 => bytes_at(rest),
        6 => date_at(rest),
        _ => None,
    }
}

fn integer_at(bytes: &[u8]) -> Option<(Content<'_>, &[u8])>
    ensures { FindsContent result (spec.integer_in bytes.now) }
{
    let (number, behind) = parse_i64(bytes)?;
    Some((Content::Int(number), behind))
}

fn date_at(bytes: &[u8]) -> Option<(Content<'_>, &[u8])>
    ensures { FindsContent result (spec.date_in bytes.now) }
{
    let (day, behind) = parse_i32(bytes)?;
    Some((Content::Date(day), behind))
}

fn bytes_at(bytes: &[u8]) -> Option<(Content<'_>, &[u8])>
    ensures { FindsContent result (spec.bytes_in bytes.now) }
{
    let (bytes, behind) = parse_binary(bytes)?;
    Some((Content::Bytes(bytes), behind))
}

fn text_at(bytes: &[u8]) -> Option<(Content<'_>, &[u8])>
    ensures { FindsContent result (spec.text_in bytes.now) }
{
    let (bytes, behind) = parse_binary(bytes)?;
    let text = text_of(bytes)?;
    Some((Content::Text(text), behind))
}

/// The bytes as a text, where they are UTF-8.
#[tactic(auto, using(crate::proofs::TextLemmas::text_tests))]
fn text_of(bytes: &[u8]) -> Option<&str>
    ensures text { IfSome result (λ text. (text.now ≡ bytes.now) × (is_utf8 bytes.now ≡ true)) }
    ensures none { result ≡ None → is_utf8 bytes.now ≡ false }
{
    str::from_utf8(bytes).ok()
}
