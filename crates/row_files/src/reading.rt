ghost use Rattle.std.specs.Prelude.{◌≡◌, ◌≢◌, ◌≤◌, ◌+◌, ◌⊎◌, None, Some, true, IfOk, IfSome, OnOk, IsErrOf, length};
ghost use Rattle.std.specs.Option.{option_map};
ghost use Rattle.lake_io.specs.Causes.{raised, Rose};
ghost use Rattle.lake_types.specs.declared.limits.TheConstants.{MAX_COUNTER};
ghost use Rattle.file_disk.specs.Calls.{IsGone};
ghost use Rattle.file_disk.specs.Folder.{Changes, Same, AddsNone};
ghost use Rattle.sheet_rows.specs.Live.{rise_within};
ghost use Rattle.row_files.specs.Reading as spec;
ghost use Rattle.row_files.specs.Reading.{IfDamaged, IfNamed};
ghost use Rattle.row_files.specs.declared.fault.ReadNo.TheVariants as read_no;

use crate::fault::ReadNo;
use cat_view::{LiveDelete, LiveFile};
use file_disk::{DiskNo, FileDisk, Held};
use lake_types::{Column, ColumnList, Copied, NoMemory};
use pq_file::{FileFault, read_file};
use sheet_rows::{SheetRows, Stated, deleted_in, live_of};
use std::alloc::{AllocError, Global};

fn copied(alloc: Global, columns: &[Column]) -> Result<ColumnList, NoMemory>
    ensures { IfOk result (λ copy. copy ≡ columns.now) }
{
    let mut copy = ColumnList::new(alloc);
    for column in columns {
        copy.push(column.copy(alloc)?)?;
    }
    Ok(copy)
}

/// The rows that a data file's bytes hold, laid into columns; none where they are damaged.
#[tactic(auto, using(crate::proofs::ReadLemmas::sound_cells, crate::proofs::ReadLemmas::row_count))]
fn rows_in(
    alloc: Global,
    stated: Stated,
    columns: &[Column],
    bytes: &[u8],
) -> Result<Option<SheetRows>, NoMemory>
    requires { IfSome stated.first_row (λ first. first + stated.rows ≤ MAX_COUNTER) }
    ensures rows { IfOk result (λ rows. rows ≡ spec.rows_in stated columns.now bytes.now) }
    ensures count { IfOk result (λ rows. IfSome rows (λ rows. length rows ≡ stated.rows)) }
{
    let sheet = match read_file(alloc, bytes) {
        Ok(sheet) => sheet,
        Err(FileFault::Memory) => return Err(AllocError),
        Err(_) => return Ok(None),
    };
    if sheet.rows != stated.rows {
        return Ok(None);
    }
    let columns = copied(alloc, columns)?;
    live_of(alloc, sheet, columns, stated)
}

/// The places that a delete file's bytes list of a data file with this path and so many rows; none where they
/// are damaged.
#[tactic(auto, using(crate::proofs::ReadLemmas::places_rise))]
fn places_in(
    alloc: Global,
    path: &str,
    rows: u64,
    count: u64,
    bytes: &[u8],
) -> Result<Option<Vec<u64>>, NoMemory>
    ensures places { IfOk result (λ found. option_map (λ places. places.items) found
        ≡ spec.places_in (record { path = path.now; rows = rows; count = count }) bytes.now) }
    ensures rise { IfOk result (λ found. IfSome found (λ places. rise_within 0 rows places.items ≡ true)) }
{
    let sheet = match read_file(alloc, bytes) {
        Ok(sheet) => sheet,
        Err(FileFault::Memory) => return Err(AllocError),
        Err(_) => return Ok(None),
    };
    deleted_in(alloc, path, rows, count, &sheet)
}

fn damaged<F: Held>(alloc: Global, file: &F) -> ReadNo
    ensures memory { result ≢ read_no.DiskFault }
    ensures named { IfNamed result (λ name. name ≡ F.name file.now) }
{
    match file.name().copy(alloc) {
        Ok(name) => ReadNo::Damaged { name },
        Err(_) => ReadNo::Memory,
    }
}

/// All rows of a data file, the deleted ones too.
fn read_data<D: FileDisk>(
    alloc: Global,
    disk: &mut D,
    file: &LiveFile<D::File>,
    columns: &[Column],
) -> Result<SheetRows, ReadNo>
    requires ids { IfSome file.now.first_row (λ first. first + file.now.rows ≤ MAX_COUNTER) }
    ensures rows { IfSome (D.File.bytes file.now.file) (λ bytes. IfOk result (λ rows.
        spec.rows_in (spec.stated file.now) columns.now bytes ≡ Some rows)) }
    ensures count { IfOk result (λ rows. length rows ≡ file.now.rows) }
    ensures there { IfSome (D.files disk.old) (λ old. OnOk result
        (IsGone (D.part disk.old) old (D.File.part file.now.file) (D.File.name file.now.file) → ⊥)) }

    ensures damaged { IfSome (D.files disk.old) (λ old. IfSome (D.File.bytes file.now.file) (λ bytes.
        IfDamaged result (λ _.
        IsGone (D.part disk.old) old (D.File.part file.now.file) (D.File.name file.now.file)
        ⊎ (spec.rows_in (spec.stated file.now) columns.now bytes ≡ None)))) }
    ensures named { IfDamaged result (λ name. name ≡ D.File.name file.now.file) }
    ensures cause { IsErrOf result read_no.DiskFault → Rose (D.faults disk.old) (D.faults disk.new) }
    ensures later { D.faults disk.old ≤ D.faults disk.new }

    ensures opens { D.opens disk.new ≡ raised (D.opens disk.old) }
    ensures files { Changes Same (D.files disk.old) (D.files disk.new) }
    ensures images { AddsNone (D.images disk.old) (D.images disk.new) }
    ensures part { D.part disk.new ≡ D.part disk.old }
{
    let bytes = match disk.read(alloc, &file.file) {
        Ok(Some(bytes)) => bytes,
        Ok(None) => return Err(damaged(alloc, &file.file)),
        Err(DiskNo::Memory) => return Err(ReadNo::Memory),
        Err(_) => return Err(ReadNo::DiskFault),
    };
    let stated = Stated {
        rows: file.rows,
        weight: file.weight,
        first_row: file.first_row,
    };
    match rows_in(alloc, stated, columns, bytes.as_slice()) {
        Ok(Some(rows)) => Ok(rows),
        Ok(None) => Err(damaged(alloc, &file.file)),
        Err(_) => Err(ReadNo::Memory),
    }
}

/// The places of a data file's rows that its delete file lists.
fn read_deletes<D: FileDisk>(
    alloc: Global,
    disk: &mut D,
    file: &LiveFile<D::File>,
    deletes: &LiveDelete<D::File>,
) -> Result<Vec<u64>, ReadNo>
    ensures places { IfSome (D.File.bytes deletes.now.file) (λ bytes. IfOk result (λ places.
        spec.places_in (spec.stated_deletes D.File.name file.now deletes.now) bytes ≡ Some places.items)) }
    ensures rise { IfOk result (λ places. rise_within 0 file.now.rows places.items ≡ true) }
    ensures there { IfSome (D.files disk.old) (λ old. OnOk result
        (IsGone (D.part disk.old) old (D.File.part deletes.now.file) (D.File.name deletes.now.file) → ⊥)) }

    ensures damaged { IfSome (D.files disk.old) (λ old. IfSome (D.File.bytes deletes.now.file) (λ bytes.
        IfDamaged result (λ _.
        IsGone (D.part disk.old) old (D.File.part deletes.now.file) (D.File.name deletes.now.file)
        ⊎ (spec.places_in (spec.stated_deletes D.File.name file.now deletes.now) bytes ≡ None)))) }
    ensures named { IfDamaged result (λ name. name ≡ D.File.name deletes.now.file) }
    ensures cause { IsErrOf result read_no.DiskFault → Rose (D.faults disk.old) (D.faults disk.new) }
    ensures later { D.faults disk.old ≤ D.faults disk.new }

    ensures opens { D.opens disk.new ≡ raised (D.opens disk.old) }
    ensures files { Changes Same (D.files disk.old) (D.files disk.new) }
    ensures images { AddsNone (D.images disk.old) (D.images disk.new) }
    ensures part { D.part disk.new ≡ D.part disk.old }
{
    let bytes = match disk.read(alloc, &deletes.file) {
        Ok(Some(bytes)) => bytes,
        Ok(None) => return Err(damaged(alloc, &deletes.file)),
        Err(DiskNo::Memory) => return Err(ReadNo::Memory),
        Err(_) => return Err(ReadNo::DiskFault),
    };
    let path = file.file.name().as_str();
    match places_in(alloc, path, file.rows, deletes.count, bytes.as_slice()) {
        Ok(Some(places)) => Ok(places),
        Ok(None) => Err(damaged(alloc, &deletes.file)),
        Err(_) => Err(ReadNo::Memory),
    }
}

/// What is left of a data file's rows without those that its delete file lists.
fn without_deleted<D: FileDisk>(
    alloc: Global,
    disk: &mut D,
    file: &LiveFile<D::File>,
    deletes: &LiveDelete<D::File>,
    rows: SheetRows,
) -> Result<SheetRows, ReadNo>
    requires { length rows ≡ file.now.rows }
    ensures left { IfSome (D.File.bytes deletes.now.file) (λ bytes. IfOk result (λ left.
        spec.left_of (spec.places_in (spec.stated_deletes D.File.name file.now deletes.now) bytes) (Some rows)
        ≡ Some left)) }
    ensures there { IfSome (D.files disk.old) (λ old. OnOk result
        (IsGone (D.part disk.old) old (D.File.part deletes.now.file) (D.File.name deletes.now.file) → ⊥)) }

    ensures damaged { IfSome (D.files disk.old) (λ old. IfSome (D.File.bytes deletes.now.file) (λ bytes.
        IfDamaged result (λ _.
        IsGone (D.part disk.old) old (D.File.part deletes.now.file) (D.File.name deletes.now.file)
        ⊎ (spec.places_in (spec.stated_deletes D.File.name file.now deletes.now) bytes ≡ None)))) }
    ensures named { IfDamaged result (λ name. name ≡ D.File.name deletes.now.file) }
    ensures cause { IsErrOf result read_no.DiskFault → Rose (D.faults disk.old) (D.faults disk.new) }
    ensures later { D.faults disk.old ≤ D.faults disk.new }

    ensures opens { D.opens disk.new ≡ raised (D.opens disk.old) }
    ensures files { Changes Same (D.files disk.old) (D.files disk.new) }
    ensures images { AddsNone (D.images disk.old) (D.images disk.new) }
    ensures part { D.part disk.new ≡ D.part disk.old }
{
    let places = match read_deletes(alloc, disk, file, deletes) {
        Ok(places) => places,
        Err(why) => return Err(why),
    };
    match rows.without(alloc, places.as_slice()) {
        Ok(left) => Ok(left),
        Err(_) => Err(ReadNo::Memory),
    }
}

/// The live rows of a data file, with their ids, in the file's order: without those that its delete file lists.
/// No cell is copied.
///
/// `ReadNo::Damaged` names the data file where that is gone, or doesn't hold what the catalogue says of it, and
/// else its delete file.
#[tactic(auto, using(crate::proofs::LeftLemmas::same_twice))]
pub fn read_live<D: FileDisk>(
    alloc: Global,
    disk: &mut D,
    file: &LiveFile<D::File>,
    columns: &[Column],
) -> Result<SheetRows, ReadNo>
    requires ids { IfSome file.now.first_row (λ first. first + file.now.rows ≤ MAX_COUNTER) }
    ensures rows { IfOk result (λ rows.
        spec.AreLeft D.File.name D.File.bytes file.now columns.now rows file.now.deletes) }
    ensures there { IfSome (D.files disk.old) (λ old. OnOk result
        (IsGone (D.part disk.old) old (D.File.part file.now.file) (D.File.name file.now.file) → ⊥)) }
    ensures deletes_there { IfSome (D.files disk.old) (λ old. OnOk result (IfSome file.now.deletes (λ d.
        IsGone (D.part disk.old) old (D.File.part d.file) (D.File.name d.file) → ⊥))) }

    ensures damaged { IfDamaged result (λ name.
        spec.IsDamagedData D.File.name D.File.part D.File.bytes
        (D.part disk.old) (D.files disk.old) file.now columns.now name
        ⊎ spec.IsDamagedDelete D.File.name D.File.part D.File.bytes
        (D.part disk.old) (D.files disk.old) file.now columns.now name) }
    ensures cause { IsErrOf result read_no.DiskFault → Rose (D.faults disk.old) (D.faults disk.new) }
    ensures later { D.faults disk.old ≤ D.faults disk.new }

    ensures opens { spec.Opened file.now.deletes result (D.opens disk.old) (D.opens disk.new) }
    ensures files { Changes Same (D.files disk.old) (D.files disk.new) }
    ensures images { AddsNone (D.images disk.old) (D.images disk.new) }
    ensures part { D.part disk.new ≡ D.part disk.old }
{
    let rows = match read_data(alloc, disk, file, columns) {
        Ok(rows) => rows,
        Err(why) => return Err(why),
    };
    match &file.deletes {
        None => Ok(rows),
        Some(deletes) => without_deleted(alloc, disk, file, deletes, rows),
    }
}
