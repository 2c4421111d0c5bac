//! A column chunk, written.

ghost use Rattle.std.specs.Prelude.{◌≡◌, ◌<◌, ◌<ℤ◌, ◌^◌, ◌+◌, ◌++◌, ℤ, pos, length, IfOk, OnOk, OnErr};
ghost use Rattle.pq_encodings.specs.Levels.{level_bytes};
ghost use Rattle.pq_encodings.specs.Values.{AreShort, value_bytes, values_of};
ghost use Rattle.pq_pages.specs.Pages.{cells_of};
ghost use Rattle.pq_pages.specs.Writing.{AreWritable, chunk_bytes, data_header_bytes, frame, header_bytes, int_field, levels_part, page_bytes, whole_page};

use crate::chunk::RawCells;
use byteorder::{ByteOrder, LittleEndian};
use pq_encodings::{Plain, encode_levels, encode_plain};
use std::alloc::{AllocError, Global};
use thrift_compact::Writer;
use thrift_compact::types::{I32, STRUCT};

/// Writes a field of 32 bits behind the field `last`.
fn put_int(writer: &mut Writer, last: i16, id: i16, value: u32) -> Result<(), AllocError>
    requires { last <ℤ id }
    ensures { OnOk result (writer.new ≡ writer.old ++ int_field last id (pos value)) }
{
    writer.put_header(last, id, I32)?;
    writer.put_i64(i64::from(value))
}

/// Writes the header inside a page's header.
fn put_data_header(writer: &mut Writer, count: u32) -> Result<(), AllocError>
    ensures { OnOk result (writer.new ≡ writer.old ++ data_header_bytes count) }
{
    put_int(writer, 0, 1, count)?;
    put_int(writer, 1, 2, 0)?;
    put_int(writer, 2, 3, 3)?;
    put_int(writer, 3, 4, 3)?;
    writer.put_stop()
}

/// The page's header.
fn page_header(alloc: Global, size: u32, count: u32) -> Result<Vec<u8>, AllocError>
    ensures { IfOk result (λ v. v.items ≡ header_bytes size count) }
{
    let mut writer = Writer::new(alloc);
    put_int(&mut writer, 0, 1, 0)?;
    put_int(&mut writer, 1, 2, size)?;
    put_int(&mut writer, 2, 3, size)?;
    writer.put_header(3, 5, STRUCT)?;
    put_data_header(&mut writer, count)?;
    writer.put_stop()?;
    Ok(writer.finish())
}

/// Appends bytes behind their length.
fn push_framed(out: &mut Vec<u8>, bytes: &[u8]) -> Result<(), AllocError>
    requires { length bytes.now < 2 ^ 32 }
    ensures { OnOk result (out.new.items ≡ out.old.items ++ frame bytes.now) }
{
    let mut size = [0u8; 4];
    LittleEndian::write_u32(&mut size, bytes.len() as u32);
    out.extend_from_slice(&size)?;
    out.extend_from_slice(bytes)
}

fn level_bytes(alloc: Global, flags: &[bool]) -> Result<Vec<u8>, AllocError>
    ensures { IfOk result (λ v. v.items ≡ level_bytes flags.now) }
{
    encode_levels(alloc, flags)
}

fn value_bytes(alloc: Global, values: &Plain) -> Result<Vec<u8>, AllocError>
    requires { AreShort (values_of values.now) }
    ensures { IfOk result (λ v. v.items ≡ value_bytes (values_of values.now)) }
{
    encode_plain(alloc, values)
}

/// The levels of an OPTIONAL column, behind their length.
fn levels_part(alloc: Global, optional: bool, flags: &[bool]) -> Result<Vec<u8>, AllocError>
    requires { length (levels_part optional flags.now) < 2 ^ 31 }
    ensures { IfOk result (λ v. v.items ≡ levels_part optional flags.now) }
{
    let mut part = Vec::new(alloc);
    if optional {
        let levels = level_bytes(alloc, flags)?;
        push_framed(&mut part, levels.as_slice())?;
    }
    Ok(part)
}

/// Appends two slices, or nothing.
#[tactic(auto, using(crate::proofs::PushLemmas::taken_back))]
fn push_both(out: &mut Vec<u8>, front: &[u8], back: &[u8]) -> Result<(), AllocError>
    ensures ok { OnOk result (out.new.items ≡ out.old.items ++ (front.now ++ back.now)) }
    ensures err { OnErr result (out.new.items ≡ out.old.items) }
{
    let had = out.len();
    out.extend_from_slice(front)?;
    match out.extend_from_slice(back) {
        Ok(()) => Ok(()),
        Err(error) => {
            out.truncate(had);
            Err(error)
        }
    }
}

/// Appends a chunk of cells: which of them are values, and the plain bytes of those that are. Where memory runs out
/// nothing is appended.
#[tactic(auto, using(crate::proofs::PushLemmas::regrouped))]
pub fn push_chunk(
    alloc: Global,
    out: &mut Vec<u8>,
    optional: bool,
    flags: &[bool],
    values: &[u8],
) -> Result<(), AllocError>
    requires few { length flags.now < 2 ^ 31 }
    requires small { length (page_bytes optional flags.now values.now) < 2 ^ 31 }
    ensures spelled { OnOk result (out.new.items ≡ out.old.items ++ whole_page optional flags.now values.now) }
    ensures err { OnErr result (out.new.items ≡ out.old.items) }
{
    let levels = levels_part(alloc, optional, flags)?;
    let size = levels.len() + values.len();
    let mut front = page_header(alloc, size as u32, flags.len() as u32)?;
    front.extend_from_slice(levels.as_slice())?;
    push_both(out, front.as_slice(), values)
}

/// The bytes of a chunk with these cells: one data page, plain and not compressed.
pub fn write_chunk(alloc: Global, cells: &RawCells, optional: bool) -> Result<Vec<u8>, AllocError>
    requires { AreWritable optional (cells_of cells.now) }
    ensures spelled { IfOk result (λ v. v.items ≡ chunk_bytes optional (cells_of cells.now)) }
{
    let values = value_bytes(alloc, &cells.plain)?;
    let flags = cells.defined.as_slice();
    let mut chunk = Vec::new(alloc);
    push_chunk(alloc, &mut chunk, optional, flags, values.as_slice())?;
    Ok(chunk)
}
