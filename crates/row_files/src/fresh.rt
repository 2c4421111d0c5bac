ghost use Rattle.std.specs.Prelude.{◌≡◌, ◌≤◌, ◌⊎◌, false, length, map, All, Some, IfOk, IfSome, IfNone, IsSome, OnOk, IsErrOf};
ghost use Rattle.std.specs.List.{AllZip};
ghost use Rattle.lake_io.specs.Causes.{Rose};
ghost use Rattle.lake_types.specs.Texts.{HoldsBytes};
ghost use Rattle.file_disk.specs.Folder.{Changes, MayBecomeAny, Same, Touches};
ghost use Rattle.new_files.specs.Drawing.{Drew, IfTaken};
ghost use Rattle.new_files.specs.Writing.{Stays};
ghost use Rattle.new_files.specs.declared.fault.NewFileNo.TheVariants as new_file_no;
ghost use Rattle.sheet_rows.specs.Sheets as sheets;
ghost use Rattle.row_files.specs.Folders.{sheet_in};
ghost use Rattle.row_files.specs.Fresh.{AreFresh, HoldAllBytes};
ghost use Rattle.cat_view.specs.Workable.{AreColumns};
ghost use Rattle.row_files.specs.Own.{laid_rows, own_rows, rows_at as rows_inserted};
ghost use Rattle.row_files.specs.Staging.{AddsRows, Describes, WroteNone, WroteOne, named_file};

use cat_view::{StagedFile, StatsList};
use file_disk::FileDisk;
use lake_io::Names;
use lake_model::Change;
use lake_types::{CellValues, Column, NoMemory, Sheet, SheetColumn, SheetColumns, Value};
use new_files::{NewFileNo, write_new};
use pq_file::write_file;
use sheet_rows::{add_cells, column_stats, empty_column, sheet_weight};
use std::alloc::{AllocError, Global};

/// The bytes of a data file, and what the catalogue will say of it.
#[derive(Drop)]
struct Prepared {
    bytes: Vec<u8>,
    rows: u64,
    weight: u64,
    stats: StatsList,
}

/// The rows that the change at a place of a list inserts.
pub fn rows_at(own: &[Change], place: usize) -> &[CellValues]
    ensures { result.now ≡ rows_inserted own.now place }
{
    match own.get(place) {
        Some(Change::Insert { rows, .. }) => rows.as_slice(),
        _ => &[],
    }
}

#[tactic(auto, using(crate::proofs::LaidLemmas::column_more))]
/// A column of the rows that changes at these places of a list insert.
fn own_column(
    alloc: Global,
    column: &Column,
    own: &[Change],
    places: &[usize],
) -> Result<SheetColumn, NoMemory>
    ensures { IfOk result (λ made. made ≡ sheets.file_column (own_rows own.now places.now) column.now) }
{
    let mut made = empty_column(alloc, column)?;
    for place in places {
        add_cells(alloc, &mut made, column, rows_at(own, *place))?;
    }
    Ok(made)
}

fn own_columns(
    alloc: Global,
    columns: &[Column],
    own: &[Change],
    places: &[usize],
) -> Result<SheetColumns, NoMemory>
    ensures { IfOk result (λ made. made ≡ map (sheets.file_column (own_rows own.now places.now)) columns.now) }
{
    let mut made = SheetColumns::new(alloc);
    for column in columns {
        made.push(own_column(alloc, column, own, places)?)?;
    }
    Ok(made)
}

#[tactic(auto, using(crate::proofs::LaidLemmas::count_more))]
/// How many rows changes at these places of a list insert.
fn row_count(own: &[Change], places: &[usize]) -> Result<u64, NoMemory>
    ensures { IfOk result (λ count. count ≡ length (own_rows own.now places.now)) }
{
    let mut count = 0u64;
    for place in places {
        let Some(sum) = count.checked_add(rows_at(own, *place).len() as u64) else {
            return Err(AllocError);
        };
        count = sum;
    }
    Ok(count)
}

/// The sheet of the rows that changes at these places of a list insert. Each cell is copied once.
fn own_sheet(
    alloc: Global,
    columns: &[Column],
    own: &[Change],
    places: &[usize],
) -> Result<Sheet, NoMemory>
    ensures { IfOk result (λ sheet. sheet ≡ sheets.sheet_of columns.now (own_rows own.now places.now)) }
{
    Ok(Sheet {
        columns: own_columns(alloc, columns, own, places)?,
        rows: row_count(own, places)?,
    })
}

/// Says that the bytes of a value are bytes, and does nothing. The type of a blob knows it; a contract sees a list of
/// numbers.
fn holds_bytes(value: &Value)
    ensures { HoldsBytes value.now }
{
    if let Value::Bytes(bytes) = value {
        let _bytes = bytes.as_slice();
    }
}

/// Says so of each cell.
fn hold_bytes(cells: &[Value])
    ensures { All HoldsBytes cells.now }
{
    for cell in cells {
        holds_bytes(cell);
    }
}

/// Says so of each cell of the columns.
fn columns_hold_bytes(columns: &[SheetColumn])
    ensures { HoldAllBytes columns.now }
{
    for column in columns {
        hold_bytes(column.cells.as_slice());
    }
}

#[tactic(auto, using(crate::proofs::LaidLemmas::sheet_laid, crate::proofs::LaidLemmas::laid_count))]
fn prepare(
    alloc: Global,
    columns: &[Column],
    own: &[Change],
    places: &[usize],
) -> Result<Prepared, NoMemory>
    requires columns { AreColumns columns.now }
    requires rows { AreFresh columns.now (laid_rows columns.now own.now places.now) }
    ensures sheet { IfOk result (λ made. sheet_in made.bytes.items ≡ Some (sheets.sheet_of columns.now (laid_rows columns.now own.now places.now))) }
    ensures bytes { OnOk result (HoldAllBytes (sheets.sheet_of columns.now (laid_rows columns.now own.now places.now)).columns) }
    ensures rows { IfOk result (λ made. made.rows ≡ length (laid_rows columns.now own.now places.now)) }
    ensures weight { IfOk result (λ made. made.weight ≡ sheets.sheet_weight (sheets.sheet_of columns.now (laid_rows columns.now own.now places.now))) }
    ensures stats { IfOk result (λ made.
        AllZip sheets.AreCounts (sheets.sheet_of columns.now (laid_rows columns.now own.now places.now)).columns made.stats) }
{
    let sheet = own_sheet(alloc, columns, own, places)?;
    let laid = sheet.columns.as_slice();
    columns_hold_bytes(laid);
    let Some(weight) = sheet_weight(&sheet) else {
        unreachable!();
    };
    let stats = column_stats(alloc, columns, laid)?;
    let bytes = write_file(alloc, &sheet)?;
    Ok(Prepared {
        bytes,
        rows: sheet.rows,
        weight,
        stats: StatsList::from_vec(stats),
    })
}

/// Writes the rows that changes at these places of a list insert into a table as one new data file, which is synced,
/// under the name of the one number that it draws. The rows have no ids yet.
///
/// `NewFileNo::Taken` tells the name of that number, which is there. After a refusal a part of the file may lie
/// under the name.
#[tactic(auto, using(crate::proofs::FileLemmas::staging))]
pub fn stage_rows<D: FileDisk, N: Names>(
    alloc: Global,
    disk: &mut D,
    names: &mut N,
    columns: &[Column],
    own: &[Change],
    places: &[usize],
) -> Result<StagedFile<D::File>, NewFileNo>
    requires columns { AreColumns columns.now }
    requires rows { AreFresh columns.now (laid_rows columns.now own.now places.now) }
    ensures name { IfOk result (λ x.
        Drew false (N.drawn names.old) (N.drawn names.new) (D.File.name x.file)) }
    ensures own_part { IfOk result (λ x. D.File.part x.file ≡ D.part disk.new) }
    ensures describes { IfOk result (Describes columns.now (laid_rows columns.now own.now places.now)) }
    ensures files { IfOk result (λ x. Changes
        (AddsRows columns.now (laid_rows columns.now own.now places.now) (named_file D.File.name D.File.size x) (D.File.bytes x.file) (D.images disk.new))
        (D.files disk.old) (D.files disk.new)) }
    ensures images { IfOk result (λ x.
        Touches MayBecomeAny (D.File.name x.file) (D.images disk.old) (D.images disk.new)) }

    ensures taken { IfTaken result (λ name. Drew false (N.drawn names.old) (N.drawn names.new) name) }
    ensures exists { IfTaken result (λ name. IfSome (D.files disk.old) (λ old. IsSome (old name))) }
    ensures exists_untold { IfTaken result (λ _.
        IfNone (D.files disk.old) (Rose (D.faults disk.old) (D.faults disk.new))) }
    ensures unchanged { IfTaken result (λ _. Changes Same (D.files disk.old) (D.files disk.new)) }

    ensures cause { IsErrOf result new_file_no.DiskFault → Rose (D.faults disk.old) (D.faults disk.new) }
    ensures later { D.faults disk.old ≤ D.faults disk.new }

    // On every answer.
    ensures wrote { WroteNone (N.drawn names.old) (N.drawn names.new) (D.files disk.old) (D.files disk.new)
        (D.images disk.old) (D.images disk.new)
        ⊎ WroteOne (N.drawn names.old) (N.drawn names.new) (D.files disk.old) (D.files disk.new)
        (D.images disk.old) (D.images disk.new) }
    ensures stays { Changes Stays (D.files disk.old) (D.files disk.new) }
    ensures opens { D.opens disk.new ≡ D.opens disk.old }
    ensures part { D.part disk.new ≡ D.part disk.old }
{
    let Ok(made) = prepare(alloc, columns, own, places) else {
        return Err(NewFileNo::Memory);
    };
    match write_new(alloc, disk, names, false, made.bytes.as_slice()) {
        Ok(file) => Ok(StagedFile {
            file,
            rows: made.rows,
            weight: made.weight,
            stats: made.stats,
        }),
        Err(why) => Err(why),
    }
}
