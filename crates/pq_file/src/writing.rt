//! The one file that is written for a sheet.

ghost use Rattle.std.specs.Prelude.{◌≡◌, ◌≤◌, ◌<◌, ◌+◌, ◌++◌, ◌^◌, None, All, IfOk, OnOk, length, map};
ghost use Rattle.std.specs.List.{sum_by};
ghost use Rattle.lake_types.specs.declared.limits.TheConstants.{MAX_FILE_ROWS};
ghost use Rattle.pq_file.specs.declared.limits.TheConstants.{MAX_SHEET_WEIGHT};
ghost use Rattle.pq_file.specs.Canonical as spec;
ghost use Rattle.pq_file.specs.Canonical.{HasPieceTexts};
ghost use Rattle.pq_file.specs.Reading.{file_of};
ghost use Rattle.pq_file.specs.Writable.{HasCellTexts, IsColumn, IsWritable, column_weight};

use crate::cuts::group_rows;
use crate::frame::MARK;
use crate::raw::{flags_of, values_bytes};
use byteorder::{ByteOrder, LittleEndian};
use lake_types::{Copied, Listed, NoMemory, Sheet, SheetColumn};
use pq_meta::{FileMeta, MetaChunk, MetaColumn, MetaGroup, write_meta};
use pq_pages::{body_size, push_chunk, reads_back};
use std::alloc::{AllocError, Global};

/// Appends the chunk of a column's cells in a group.
fn push_piece(
    alloc: Global,
    out: &mut Vec<u8>,
    column: &SheetColumn,
    row: usize,
    rows: usize,
) -> Result<(), NoMemory>
    requires column { IsColumn column.now }
    requires light { column_weight column.now ≤ MAX_SHEET_WEIGHT }
    requires within { row + rows ≤ length column.now.cells }
    requires few { rows ≤ MAX_FILE_ROWS }
    ensures bytes { OnOk result (out.new.items ≡ out.old.items ++ spec.piece_bytes row rows column.now) }
    ensures texts { OnOk result (HasPieceTexts row rows column.now) }
{
    body_size();
    let cells = &column.cells.as_slice()[row..row + rows];
    let flags = flags_of(alloc, cells)?;
    let values = values_bytes(alloc, column.ty, cells)?;
    push_chunk(
        alloc,
        out,
        column.optional,
        flags.as_slice(),
        values.as_slice(),
    )
}

/// Appends a chunk, and answers where it lies.
fn push_placed(
    alloc: Global,
    out: &mut Vec<u8>,
    column: &SheetColumn,
    row: usize,
    rows: usize,
) -> Result<MetaChunk, NoMemory>
    requires column { IsColumn column.now }
    requires light { column_weight column.now ≤ MAX_SHEET_WEIGHT }
    requires within { row + rows ≤ length column.now.cells }
    requires few { rows ≤ MAX_FILE_ROWS }
    ensures bytes { OnOk result (out.new.items ≡ out.old.items ++ spec.piece_bytes row rows column.now) }
    ensures chunk { IfOk result (λ chunk. chunk ≡ spec.chunk_at row rows (length out.old.items) column.now) }
    ensures texts { OnOk result (HasPieceTexts row rows column.now) }
{
    let first = out.len();
    push_piece(alloc, out, column, row, rows)?;
    Ok(MetaChunk {
        codec: 0,
        num_values: rows as u64,
        first: first as u64,
        length: (out.len() - first) as u64,
    })
}

/// Appends the chunks of a group, and answers where they lie.
#[tactic(auto, using(crate::proofs::GroupLemmas::group_turn))]
fn push_group(
    alloc: Global,
    out: &mut Vec<u8>,
    columns: &[SheetColumn],
    row: usize,
    rows: usize,
) -> Result<MetaGroup, NoMemory>
    requires columns { All IsColumn columns.now }
    requires light { sum_by column_weight columns.now ≤ MAX_SHEET_WEIGHT }
    requires within { All (λ column. row + rows ≤ length column.cells) columns.now }
    requires few { rows ≤ MAX_FILE_ROWS }
    ensures bytes { OnOk result (out.new.items ≡ out.old.items ++ spec.group_bytes columns.now row rows) }
    ensures group { IfOk result (λ group. group ≡ spec.group_at row rows (length out.old.items) columns.now) }
    ensures texts { OnOk result (All (HasPieceTexts row rows) columns.now) }
{
    let mut chunks = Listed::new(alloc);
    for column in columns {
        chunks.push(push_placed(alloc, out, column, row, rows)?)?;
    }
    Ok(MetaGroup {
        rows: rows as u64,
        chunks,
    })
}

/// Appends the chunks of all groups, and answers where they lie.
#[tactic(auto, using(crate::proofs::GroupLemmas::groups_turn))]
fn push_groups(
    alloc: Global,
    out: &mut Vec<u8>,
    sheet: &Sheet,
) -> Result<Listed<MetaGroup>, NoMemory>
    requires { IsWritable sheet.now }
    ensures bytes { OnOk result (out.new.items ≡ out.old.items ++ spec.groups_bytes sheet.now.columns 0 (spec.cuts_of sheet.now)) }
    ensures groups { IfOk result (λ groups. groups ≡ spec.groups_at sheet.now.columns 0 (length out.old.items) (spec.cuts_of sheet.now)) }
    ensures texts { OnOk result (All HasCellTexts sheet.now.columns) }
{
    let columns = sheet.columns.as_slice();
    let rows = sheet.rows as usize;
    let mut groups = Listed::new(alloc);
    let mut row = 0;
    while row < rows {
        let count = group_rows(columns, row, rows);
        groups.push(push_group(alloc, out, columns, row, count)?)?;
        row += count;
    }
    Ok(groups)
}

fn meta_column(alloc: Global, column: &SheetColumn) -> Result<MetaColumn, NoMemory>
    ensures { IfOk result (λ made. made ≡ spec.meta_column column.now) }
{
    Ok(MetaColumn {
        name: column.name.copy(alloc)?,
        field: column.field,
        ty: column.ty,
        optional: column.optional,
    })
}

fn meta_columns(alloc: Global, columns: &[SheetColumn]) -> Result<Listed<MetaColumn>, NoMemory>
    ensures { IfOk result (λ made. made ≡ map spec.meta_column columns.now) }
{
    let mut made = Listed::new(alloc);
    for column in columns {
        made.push(meta_column(alloc, column)?)?;
    }
    Ok(made)
}

/// Appends the footer, its length and the mark.
///
/// A footer whose length does not fit four bytes is answered like want of memory. That no sheet that can be written has one
/// is not proved.
fn push_footer(out: &mut Vec<u8>, footer: &[u8]) -> Result<(), NoMemory>
    ensures bytes { OnOk result (out.new.items ≡ out.old.items ++ spec.footer_part footer.now) }
    ensures small { OnOk result (length footer.now < 2 ^ 32) }
{
    if footer.len() > u32::MAX as usize {
        return Err(AllocError);
    }
    let mut size = [0u8; 4];
    LittleEndian::write_u32(&mut size, footer.len() as u32);
    out.extend_from_slice(footer)?;
    out.extend_from_slice(&size)?;
    out.extend_from_slice(&MARK)
}

/// Writes the canonical file of a sheet. [`read_file`](crate::read_file) gives the sheet back.
///
/// A sheet that can be written has at most 4,194,304 rows and 101 columns, a cell for each row in each column, names of at
/// most 255 bytes, and field ids of at most 2,147,483,647, no two of them the same. Each cell fits its column, none of a
/// column that is not optional is NULL, no text or blob has more than 16,777,216 bytes, and all cells together weigh at
/// most 1,073,741,824. [`is_writable`](crate::is_writable) tells such a sheet.
pub fn write_file(alloc: Global, sheet: &Sheet) -> Result<Vec<u8>, NoMemory>
    requires { IsWritable sheet.now }
    ensures bytes { IfOk result (λ file. file.items ≡ spec.canonical sheet.now) }
    ensures back { IfOk result (λ file. file_of None file.items ≡ Ok sheet.now) }
{
    body_size();
    reads_back();
    let mut file = Vec::new(alloc);
    file.extend_from_slice(&MARK)?;
    let groups = push_groups(alloc, &mut file, sheet)?;
    let meta = FileMeta {
        columns: meta_columns(alloc, sheet.columns.as_slice())?,
        num_rows: sheet.rows,
        groups,
    };
    let footer = write_meta(alloc, &meta)?;
    push_footer(&mut file, footer.as_slice())?;
    Ok(file)
}
