//! The sheet that a file holds.

ghost use Rattle.std.specs.Prelude.{◌≡◌, ◌≤◌, ◌<◌, ◌^◌, ◌∷◌, List, All, None, Some, IfOk, filter, length, map};
ghost use Rattle.std.specs.List.{sum_by};
ghost use Rattle.std.specs.Option.{option_copied};
ghost use Rattle.std.specs.Vec.Iter.{into_iter_items};
ghost use Rattle.lake_types.specs.declared.sheet.Sheet.{Sheet};
ghost use Rattle.lake_types.specs.declared.sheet.SheetColumn.{SheetColumn};
ghost use Rattle.pq_meta.specs.Consistency.{FitsColumns, IsConsistent};
ghost use Rattle.answers.specs.Answers.{Answers};
ghost use Rattle.pq_file.specs.Answers.{is_memory};
ghost use Rattle.pq_file.specs.Holding.{AnswersReading, IsReading, named};
ghost use Rattle.pq_file.specs.Joining as joining;
ghost use Rattle.pq_file.specs.Reading as spec;
ghost use Rattle.pq_file.specs.Sheets.{IsSound};

use crate::fault::{FileFault, meta_fault};
use crate::frame::footer_in;
use crate::groups::{is_wanted, parts_in};
use crate::holding::{reads_named, reads_what_is_held};
use crate::parts::{Misfit, Part};
use crate::ranges::misfit_in;
use crate::sound::reads_sound;
use lake_types::limits::MAX_FILE_ROWS;
use lake_types::{Copied, Listed, NoMemory, Sheet, SheetColumn, SheetColumns, ValueList};
use pq_meta::{FileMeta, MetaColumn, MetaGroup, read_meta};
use std::alloc::Global;
use std::vec::IntoIter;

/// A column of the sheet, without cells.
fn bare(alloc: Global, column: &MetaColumn) -> Result<SheetColumn, NoMemory>
    ensures { IfOk result (λ bare. bare ≡ spec.bare column.now) }
{
    Ok(SheetColumn {
        field: column.field,
        name: column.name.copy(alloc)?,
        ty: column.ty,
        optional: column.optional,
        cells: ValueList::new(alloc),
    })
}

/// The columns of the sheet, without cells.
fn bare_columns(
    alloc: Global,
    fields: Option<&[u32]>,
    columns: &[MetaColumn],
) -> Result<SheetColumns, NoMemory>
    ensures { IfOk result (λ kept. kept
        ≡ map spec.bare (filter (spec.is_wanted (option_copied fields.entry)) columns.now)) }
{
    let mut kept = SheetColumns::new(alloc);
    for column in columns {
        if is_wanted(fields, column) {
            kept.push(bare(alloc, column)?)?;
        }
    }
    Ok(kept)
}

/// A column with the cells of a part behind its own.
fn longer(column: SheetColumn, part: Part) -> Result<SheetColumn, NoMemory>
    ensures { IfOk result (λ longer. longer ≡ spec.longer column part) }
{
    let SheetColumn {
        field,
        name,
        ty,
        optional,
        cells,
    } = column;
    let Part {
        place: _,
        ty: _,
        cells: more,
    } = part;
    let mut cells = cells.into_vec();
    let mut more = more.into_vec();
    cells.append(&mut more)?;
    Ok(SheetColumn {
        field,
        name,
        ty,
        optional,
        cells: ValueList::from_vec(cells),
    })
}

/// A column with the next part.
fn next_column(column: SheetColumn, parts: &mut IntoIter<Part>) -> Result<SheetColumn, NoMemory>
    ensures { IfOk result (λ longer. (columns : List SheetColumn) →
        spec.beside (column ∷ columns) (into_iter_items parts.old)
        ≡ longer ∷ spec.beside columns (into_iter_items parts.new)) }
{
    match parts.next() {
        Some(part) => longer(column, part),
        None => Ok(column),
    }
}

/// The parts of a group, behind the cells of the groups before it.
#[tactic(auto, using(crate::proofs::SheetLemmas::beside_goes_on))]
fn beside(
    alloc: Global,
    columns: SheetColumns,
    parts: Listed<Part>,
) -> Result<SheetColumns, NoMemory>
    ensures { IfOk result (λ grown. grown ≡ spec.beside columns parts) }
{
    let mut grown = SheetColumns::new(alloc);
    let mut parts = parts.into_vec().into_iter();
    for column in columns.into_vec() {
        grown.push(next_column(column, &mut parts)?)?;
    }
    Ok(grown)
}

/// The columns with the parts of all groups.
///
/// The parts of a group join the columns as soon as they are read, so that no cell is held twice. A cell that does not
/// fit its column's type is a fault once all chunks are read.
#[tactic(auto, using(crate::proofs::JoinLemmas::groups_turn))]
fn joined(
    alloc: Global,
    bytes: &[u8],
    fields: Option<&[u32]>,
    metas: &[MetaColumn],
    groups: &[MetaGroup],
    bare: SheetColumns,
) -> Result<SheetColumns, FileFault>
    requires fit { All (FitsColumns (length metas.now)) groups.now }
    requires few { sum_by spec.stated_rows groups.now < 2 ^ 63 }
    ensures { Answers is_memory result (joining.joined bytes.now (option_copied fields.entry) metas.now 0 0 (joining.verdict None) bare groups.now) }
{
    let mut columns = bare;
    let mut misfit = None;
    let mut row = 0u64;
    for (number, group) in groups.iter().enumerate() {
        let chunks = group.chunks.as_slice();
        let parts = match parts_in(alloc, bytes, fields, number as u64, metas, chunks) {
            Ok(parts) => parts,
            Err(fault) => return Err(fault),
        };
        misfit = misfit.or(misfit_in(row, parts.as_slice()));
        row += group.rows;
        columns = beside(alloc, columns, parts)?;
    }
    match misfit {
        None => Ok(columns),
        Some(Misfit { column, row }) => Err(FileFault::BadCell { column, row }),
    }
}

fn few_rows(rows: u64) -> Result<(), FileFault>
    ensures exact { result ≡ spec.few_rows rows }
    ensures few { IfOk result (λ u. rows ≤ MAX_FILE_ROWS) }
{
    if rows > MAX_FILE_ROWS {
        Err(FileFault::TooManyRows { rows })
    } else {
        Ok(())
    }
}

/// What a footer's chunks hold, in the order of faults.
#[tactic(auto, using(answers::proofs::AnswerLemmas::handed_on, crate::proofs::JoinLemmas::sheets), unfolding(crate::specs::Reading::sheet_in))]
fn sheet_in(
    alloc: Global,
    bytes: &[u8],
    fields: Option<&[u32]>,
    meta: &FileMeta,
) -> Result<Sheet, FileFault>
    requires { IsConsistent meta.now }
    ensures { Answers is_memory result (spec.sheet_in bytes.now (option_copied fields.entry) meta.now) }
{
    match few_rows(meta.num_rows) {
        Ok(()) => {}
        Err(fault) => return Err(fault),
    }
    let metas = meta.columns.as_slice();
    let Ok(bare) = bare_columns(alloc, fields, metas) else {
        return Err(FileFault::Memory);
    };
    match joined(alloc, bytes, fields, metas, meta.groups.as_slice(), bare) {
        Ok(columns) => Ok(Sheet {
            columns,
            rows: meta.num_rows,
        }),
        Err(fault) => Err(fault),
    }
}

#[tactic(auto, using(answers::proofs::AnswerLemmas::handed_on, crate::proofs::AnswerLemmas::meta_fails), unfolding(crate::specs::Reading::file_of))]
fn file_of(alloc: Global, fields: Option<&[u32]>, bytes: &[u8]) -> Result<Sheet, FileFault>
    ensures { Answers is_memory result (spec.file_of (option_copied fields.entry) bytes.now) }
{
    let footer = match footer_in(bytes) {
        Ok(footer) => footer,
        Err(fault) => return Err(fault),
    };
    let meta = match read_meta(alloc, footer) {
        Ok(meta) => meta,
        Err(fault) => return Err(meta_fault(fault)),
    };
    sheet_in(alloc, bytes, fields, &meta)
}

/// Reads a whole file.
///
/// It answers the sheet exactly where the file holds one, and else the first fault in reading order: the two ends, the
/// footer's length, the footer, the number of rows; then each chunk, by group and column; last the ranges of the cells,
/// by group, column and row. No memory is taken for rows of a file that has more than 4,194,304, nor for a value of more
/// than 16,777,216 bytes.
pub fn read_file(alloc: Global, bytes: &[u8]) -> Result<Sheet, FileFault>
    // The sheet exactly where the file holds one, and it holds no other.
    ensures holds { AnswersReading None bytes.now result }

    // Else the first fault, and that alone.
    ensures exact { Answers is_memory result (spec.file_of None bytes.now) }

    // Each column has a cell for each row, of its type, and NULL only where it is optional; field ids differ.
    ensures sound { IfOk result IsSound }
{
    // The laws on which the clauses stand.
    reads_what_is_held();
    reads_sound();
    file_of(alloc, None, bytes)
}

/// Reads the columns of a file that have one of these field ids, in the file's order.
///
/// The chunks of other columns are not looked at, so nothing in them is a fault. In a fault the column is its place among
/// all columns of the file.
pub fn read_columns(alloc: Global, bytes: &[u8], fields: &[u32]) -> Result<Sheet, FileFault>
    // The sheet of these columns exactly where the file holds one, and it holds no other.
    ensures holds { AnswersReading (Some fields.now) bytes.now result }

    // Where the file holds a sheet of all its columns, it is that sheet without the others.
    ensures named { IfOk result (λ sheet. (whole : Sheet) → IsReading None bytes.now whole → sheet ≡ named fields.now whole) }

    // Else the first fault, and that alone.
    ensures exact { Answers is_memory result (spec.file_of (Some fields.now) bytes.now) }

    // It is sound, as a whole one is.
    ensures sound { IfOk result IsSound }
{
    // The laws on which the clauses stand.
    reads_what_is_held();
    reads_named();
    reads_sound();
    file_of(alloc, Some(fields), bytes)
}
