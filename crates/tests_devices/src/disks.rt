ghost use Rattle.std.specs.Prelude.{◌≡◌, Some, IfOk, OnOk, OnSome, IsErrOf};
ghost use Rattle.lake_io.specs.Causes.{Rose};
ghost use Rattle.file_disk.specs.Calls.{AllHold};

use file_disk::{DiskNo, FileDisk, Held, MemDisk, MemDraft, MemFile, SureDisk};
use lake_io::FailList;
use lake_types::Words;
use std::alloc::{AllocError, Global};
use std::process::Abort;
use std::test::Fail;

/// Makes a whole file over any disk, to show that its clauses carry the promise that matters.
fn write_whole<D: FileDisk>(
    alloc: Global,
    disk: &mut D,
    name: &Words,
    bytes: &[u8],
) -> Result<D::File, DiskNo>
    ensures durable { OnSome (D.files disk.old) (OnOk result (AllHold name.now bytes.now (D.images disk.new))) }
    ensures bytes { OnSome (D.files disk.old) (IfOk result (λ file. D.File.bytes file ≡ Some bytes.now)) }
    ensures name { IfOk result (λ file. D.File.name file ≡ name.now) }
    ensures failed { IsErrOf result DiskNo.Failed → Rose (D.faults disk.old) (D.faults disk.new) }
{
    let mut draft = disk.create(alloc, name)?;
    disk.append(alloc, &mut draft, bytes)?;
    match disk.sync(draft) {
        Ok(file) => Ok(file),
        Err((_draft, why)) => Err(why),
    }
}

fn disk_failing_at(alloc: Global, calls: &[u64]) -> Result<MemDisk, AllocError> {
    let calls = calls.to_vec(alloc)?;
    Ok(MemDisk::new(alloc, FailList { calls, from: None }))
}

/// Begins a draft and appends to it, each at the second try.
fn drafted(
    rt: &impl Abort,
    alloc: Global,
    disk: &mut MemDisk,
    name: &Words,
) -> Result<MemDraft, DiskNo> {
    assert!(rt; disk.create(alloc, name).is_err());
    let mut draft = disk.create(alloc, name)?;
    assert_eq!(rt; disk.append(alloc, &mut draft, b"no"), Err(DiskNo::Failed));
    disk.append(alloc, &mut draft, b"yes")?;
    Ok(draft)
}

/// Syncs a draft at the second try.
fn synced(disk: &mut MemDisk, draft: MemDraft) -> Option<MemFile> {
    match disk.sync(draft) {
        Err((draft, DiskNo::Failed)) => disk.sync(draft).ok(),
        _ => None,
    }
}

#[test]
fn making_fails_once_a_call(rt: HostRuntime) -> Result<(), Fail> {
    let alloc = rt.alloc();
    let name = Words::of(alloc, "a")?;
    let mut disk = disk_failing_at(alloc, &[1, 3, 5])?;
    let draft = drafted(&rt, alloc, &mut disk, &name)?;
    let size = synced(&mut disk, draft).map(|file| file.size());
    assert_eq!(rt; (size, disk.faults()), (Some(3), 3));
    Ok(())
}

/// Finds the file of a name at the second try.
fn found(alloc: Global, disk: &mut MemDisk, name: &Words) -> Option<MemFile> {
    match disk.find(alloc, name) {
        Err(DiskNo::Failed) => disk.find(alloc, name).ok()?,
        _ => None,
    }
}

/// How many bytes a file has, read at the second try.
fn read_len(alloc: Global, disk: &mut MemDisk, file: &MemFile) -> Option<usize> {
    match disk.read(alloc, file) {
        Err(DiskNo::Failed) => disk.read(alloc, file).ok()?.map(|bytes| bytes.len()),
        _ => None,
    }
}

/// How many names there are, listed at the second try.
fn list_len(alloc: Global, disk: &mut MemDisk) -> Option<usize> {
    match disk.list(alloc) {
        Err(DiskNo::Failed) => disk.list(alloc).ok().map(|names| names.len()),
        _ => None,
    }
}

/// Removes a name at the second try.
fn removed(disk: &mut MemDisk, name: &Words) -> Option<bool> {
    match disk.remove(name) {
        Err(DiskNo::Failed) => disk.remove(name).ok(),
        _ => None,
    }
}

/// Whether the disk reads a file.
fn reads(alloc: Global, disk: &mut MemDisk, file: &MemFile) -> bool {
    matches!(disk.read(alloc, file), Ok(Some(_)))
}

#[test]
fn using_fails_once_a_call(rt: HostRuntime) -> Result<(), Fail> {
    let alloc = rt.alloc();
    let name = Words::of(alloc, "a")?;
    let mut disk = disk_failing_at(alloc, &[1, 3, 5, 7])?;
    disk.plant(alloc, &name, b"yes")?;
    let file = found(alloc, &mut disk, &name).ok_or("not found")?;
    let len = read_len(alloc, &mut disk, &file);
    let count = list_len(alloc, &mut disk);
    let gone = removed(&mut disk, &name);
    let still = reads(alloc, &mut disk, &file);
    assert_eq!(rt;
        (len, count, gone, still),
        (Some(3), Some(1), Some(true), false)
    );
    assert_eq!(rt; (disk.faults(), disk.opens()), (4, 3));
    Ok(())
}

#[test]
fn create_refuses_a_name_that_is_there(rt: HostRuntime) -> Result<(), Fail> {
    let alloc = rt.alloc();
    let name = Words::of(alloc, "a")?;
    let mut disk = disk_failing_at(alloc, &[1])?;
    disk.plant(alloc, &name, b"")?;
    let listed = disk.create(alloc, &name).err();
    let other = disk.create(alloc, &name).err();
    assert_eq!(rt;
        (listed, other),
        (Some(DiskNo::Exists), Some(DiskNo::Exists))
    );
    assert_eq!(rt; disk.faults(), 1);
    Ok(())
}

/// What the disk that has the name and another one of its family answer.
fn answers(
    alloc: Global,
    own: &mut MemDisk,
    other: &mut MemDisk,
    name: &Words,
) -> Option<(usize, bool, bool, bool)> {
    own.plant(alloc, name, b"yes").ok()?;
    let file = own.find(alloc, name).ok()??;
    let count = other.list(alloc).ok()?.len();
    let removed = own.remove(name).ok()?;
    Some((
        count,
        removed,
        reads(alloc, own, &file),
        reads(alloc, other, &file),
    ))
}

#[test]
fn a_family_shares_no_part(rt: HostRuntime) -> Result<(), Fail> {
    let alloc = rt.alloc();
    let name = Words::of(alloc, "a")?;
    let mut disks = MemDisk::family(alloc, 3)?;
    let mut third = disks.pop().ok_or("no third")?;
    let mut second = disks.pop().ok_or("no second")?;
    assert_eq!(rt; disks.len(), 1);
    assert_eq!(rt;
        answers(alloc, &mut third, &mut second, &name),
        Some((0, true, false, true))
    );
    Ok(())
}

/// The bytes of a file that a sure disk made.
fn read_back(alloc: Global, disk: &mut SureDisk, name: &Words) -> Option<Vec<u8>> {
    let file = write_whole(alloc, disk, name, b"yes").ok()?;
    let copy = file.copy(alloc).ok()?;
    disk.read(alloc, &copy).ok()?
}

#[test]
fn a_sure_disk_makes_and_reads(rt: HostRuntime) -> Result<(), Fail> {
    let alloc = rt.alloc();
    let mut disk = SureDisk::new(alloc);
    let name = Words::of(alloc, "a")?;
    let bytes = read_back(alloc, &mut disk, &name).ok_or("not read")?;
    assert_eq!(rt; bytes.as_slice(), b"yes".as_slice());
    assert_eq!(rt; disk.opens(), 1);
    Ok(())
}

/// Whether a copy of a file adds one to those that hold its bytes.
fn copy_shares(alloc: Global, file: &MemFile) -> bool {
    let before = file.holders();
    match file.copy(alloc) {
        Ok(copy) => copy.holders() == before.saturating_add(1) && file.holders() == copy.holders(),
        Err(_) => false,
    }
}

#[test]
fn copies_share_their_bytes(rt: HostRuntime) -> Result<(), Fail> {
    let alloc = rt.alloc();
    let name = Words::of(alloc, "a")?;
    let mut disk = disk_failing_at(alloc, &[])?;
    disk.plant(alloc, &name, b"yes")?;
    let file = disk.find(alloc, &name).ok().flatten().ok_or("not found")?;
    // The folder and this value.
    assert_eq!(rt; file.holders(), 2);
    assert!(rt; copy_shares(alloc, &file));
    Ok(())
}

/// A file whose name was removed and made anew before the older draft of it is synced.
fn sealed_over(alloc: Global, disk: &mut SureDisk, name: &Words) -> Option<MemFile> {
    let first = disk.create(alloc, name).ok()?;
    disk.remove(name).ok()?;
    write_whole(alloc, disk, name, b"newer").ok()?;
    disk.sync(first).ok()?;
    disk.find(alloc, name).ok()?
}

#[test]
fn an_older_draft_seals_over_a_newer_file(rt: HostRuntime) -> Result<(), Fail> {
    let alloc = rt.alloc();
    let name = Words::of(alloc, "a")?;
    let mut disk = SureDisk::new(alloc);
    let file = sealed_over(alloc, &mut disk, &name).ok_or("not found")?;
    assert_eq!(rt; file.size(), 0);
    Ok(())
}
