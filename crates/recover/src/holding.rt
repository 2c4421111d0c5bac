ghost use Rattle.std.specs.Prelude.{◌≡◌, ◌≢◌, ◌≤◌, ◌∷◌, [], IfErr, IfOk, IfSome, OnErr, OnOk, IsErrOf, map};
ghost use Rattle.std.specs.List.{AllByRecursion};
ghost use Rattle.cat_rows.specs.Batches.{tables_of};
ghost use Rattle.cat_tables.specs.Table.{LacksKey, put};
ghost use Rattle.cat_view.specs.Held.{held_in, name_by};
ghost use Rattle.file_disk.specs.Folder.{AddsNone, Changes, Same};
ghost use Rattle.row_files.specs.Stages.{TellsBytes};
ghost use Rattle.recover.specs.Holding as spec;

use crate::no::OpenNo;
use cat_rows::{CatRows, DataFileRow, DeleteFileRow};
use cat_view::HeldFiles;
use file_disk::{DiskNo, FileDisk, Held};
use lake_types::{Copied, NoMemory, Words};
use std::alloc::Global;

/// That a file is missing, or want of memory for its name.
fn missing(alloc: Global, name: &Words) -> OpenNo
    ensures { spec.TellsMissing name.now result }
{
    match name.copy(alloc) {
        Ok(name) => OpenNo::FileMissing { name },
        Err(_) => OpenNo::Memory,
    }
}

/// Whether a file has as many bytes as its row says.
fn sized(alloc: Global, name: &Words, want: u64, got: u64) -> Result<(), OpenNo>
    ensures ok { OnOk result (got ≡ want) }
    ensures others { OnErr result (got ≢ want) }
    ensures told { IfErr result (spec.TellsSize name.now want got) }
{
    if got == want {
        return Ok(());
    }
    match name.copy(alloc) {
        Ok(name) => Err(OpenNo::FileSize { name, want, got }),
        Err(_) => Err(OpenNo::Memory),
    }
}

/// Finds the file that a row names.
fn find_named<D: FileDisk>(
    alloc: Global,
    disk: &mut D,
    path: &Words,
    want: u64,
) -> Result<D::File, OpenNo>
    ensures name { IfOk result (λ file. D.File.name file ≡ path.now) }
    ensures size { IfOk result (λ file. D.File.size file ≡ want) }
    ensures told { IfOk result (λ file. IfSome (D.files disk.old) (λ folder.
        TellsBytes D.File.name D.File.size D.File.bytes folder file)) }
    ensures refused { IfErr result (spec.WhyNoFiles (D.faults disk.old) (D.faults disk.new) (D.files disk.old)
        (record { name = path.now; size = want } ∷ [])) }
    ensures later { D.faults disk.old ≤ D.faults disk.new }
    ensures files { Changes Same (D.files disk.old) (D.files disk.new) }
    ensures images { AddsNone (D.images disk.old) (D.images disk.new) }
    ensures opens { D.opens disk.new ≡ D.opens disk.old }
    ensures part { D.part disk.new ≡ D.part disk.old }
{
    match disk.find(alloc, path) {
        Ok(Some(file)) => match sized(alloc, path, want, file.size()) {
            Ok(()) => Ok(file),
            Err(why) => Err(why),
        },
        Ok(None) => Err(missing(alloc, path)),
        Err(DiskNo::Memory) => Err(OpenNo::Memory),
        Err(DiskNo::Exists | DiskNo::Failed) => Err(OpenNo::DiskFault),
    }
}

/// Holds one more file.
fn hold<F: Held>(held: &mut HeldFiles<F>, file: F) -> Result<(), OpenNo>
    requires { LacksKey (name_by F.name) (F.name file) (held_in held.old).rows }
    ensures more { OnOk result ((held_in held.new).rows ≡ put (name_by F.name) (record { file = file }) (held_in
        held.old).rows) }
    ensures refused { IfErr result (λ why. why ≡ OpenNo.Memory) }
{
    if held.reserve(1).is_err() {
        return Err(OpenNo::Memory);
    }
    held.add(file);
    Ok(())
}

/// Holds the file that a row names, if that isn't held yet.
fn hold_named<D: FileDisk>(
    alloc: Global,
    disk: &mut D,
    held: &mut HeldFiles<D::File>,
    path: &Words,
    want: u64,
) -> Result<(), OpenNo>
    requires told { spec.TellTheirs D.File.name D.File.size D.File.bytes (D.files disk.old) (held_in held.old).rows }
    ensures holds { OnOk result (spec.HoldsThese D.File.name D.File.size D.File.bytes
        (record { name = path.now; size = want } ∷ [])
        (D.files disk.old) (held_in held.old).rows (D.files disk.new) (held_in held.new).rows) }
    ensures refused { IfErr result (spec.WhyNoFiles (D.faults disk.old) (D.faults disk.new) (D.files disk.old)
        (record { name = path.now; size = want } ∷ [])) }
    ensures later { D.faults disk.old ≤ D.faults disk.new }
    ensures files { Changes Same (D.files disk.old) (D.files disk.new) }
    ensures images { AddsNone (D.images disk.old) (D.images disk.new) }
    ensures opens { D.opens disk.new ≡ D.opens disk.old }
    ensures part { D.part disk.new ≡ D.part disk.old }
{
    if let Some(file) = held.get(path) {
        return sized(alloc, path, want, file.size());
    }
    match find_named(alloc, disk, path, want) {
        Ok(file) => hold(held, file),
        Err(why) => Err(why),
    }
}

/// Holds the files of data files' rows.
fn hold_data_files<D: FileDisk>(
    alloc: Global,
    disk: &mut D,
    held: &mut HeldFiles<D::File>,
    rows: &[DataFileRow],
) -> Result<(), OpenNo>
    requires told { spec.TellTheirs D.File.name D.File.size D.File.bytes (D.files disk.old) (held_in held.old).rows }
    ensures holds { OnOk result (spec.HoldsThese D.File.name D.File.size D.File.bytes
        (map spec.named_data rows.now)
        (D.files disk.old) (held_in held.old).rows (D.files disk.new) (held_in held.new).rows) }
    ensures refused { IfErr result (spec.WhyNoFiles (D.faults disk.old) (D.faults disk.new) (D.files disk.old)
        (map spec.named_data rows.now)) }
    ensures later { D.faults disk.old ≤ D.faults disk.new }
    ensures files { Changes Same (D.files disk.old) (D.files disk.new) }
    ensures images { AddsNone (D.images disk.old) (D.images disk.new) }
    ensures opens { D.opens disk.new ≡ D.opens disk.old }
    ensures part { D.part disk.new ≡ D.part disk.old }
{
    for row in rows {
        match hold_named(alloc, disk, held, &row.path, row.file_size_bytes) {
            Ok(()) => {}
            Err(why) => return Err(why),
        }
    }
    Ok(())
}

/// Holds the files of delete files' rows.
fn hold_delete_files<D: FileDisk>(
    alloc: Global,
    disk: &mut D,
    held: &mut HeldFiles<D::File>,
    rows: &[DeleteFileRow],
) -> Result<(), OpenNo>
    requires told { spec.TellTheirs D.File.name D.File.size D.File.bytes (D.files disk.old) (held_in held.old).rows }
    ensures holds { OnOk result (spec.HoldsThese D.File.name D.File.size D.File.bytes
        (map spec.named_delete rows.now)
        (D.files disk.old) (held_in held.old).rows (D.files disk.new) (held_in held.new).rows) }
    ensures refused { IfErr result (spec.WhyNoFiles (D.faults disk.old) (D.faults disk.new) (D.files disk.old)
        (map spec.named_delete rows.now)) }
    ensures later { D.faults disk.old ≤ D.faults disk.new }
    ensures files { Changes Same (D.files disk.old) (D.files disk.new) }
    ensures images { AddsNone (D.images disk.old) (D.images disk.new) }
    ensures opens { D.opens disk.new ≡ D.opens disk.old }
    ensures part { D.part disk.new ≡ D.part disk.old }
{
    for row in rows {
        match hold_named(alloc, disk, held, &row.path, row.file_size_bytes) {
            Ok(()) => {}
            Err(why) => return Err(why),
        }
    }
    Ok(())
}

/// Finds and holds the files that the catalogue's rows name: those of data files in the order of their rows, and then
/// those of delete files. No file is read.
pub fn hold_files<D: FileDisk>(
    alloc: Global,
    disk: &mut D,
    rows: &CatRows,
) -> Result<HeldFiles<D::File>, OpenNo>
    ensures named { IfOk result (λ held. AllByRecursion (spec.IsHeldAs D.File.name D.File.size (held_in held).rows)
        (spec.named_files (tables_of rows.now))) }
    ensures told { IfOk result (λ held.
        spec.TellTheirs D.File.name D.File.size D.File.bytes (D.files disk.new) (held_in held).rows) }
    // The first file that isn't there as its row says is named.
    ensures refused { IfErr result (spec.WhyNoFiles (D.faults disk.old) (D.faults disk.new) (D.files disk.old)
        (spec.named_files (tables_of rows.now))) }
    ensures later { D.faults disk.old ≤ D.faults disk.new }

    // On every answer.
    ensures files { Changes Same (D.files disk.old) (D.files disk.new) }
    ensures images { AddsNone (D.images disk.old) (D.images disk.new) }
    ensures opens { D.opens disk.new ≡ D.opens disk.old }
    ensures part { D.part disk.new ≡ D.part disk.old }
{
    let mut held = HeldFiles::new(alloc);
    match hold_data_files(alloc, disk, &mut held, rows.data_file()) {
        Ok(()) => {}
        Err(why) => return Err(why),
    }
    match hold_delete_files(alloc, disk, &mut held, rows.delete_file()) {
        Ok(()) => Ok(held),
        Err(why) => Err(why),
    }
}
