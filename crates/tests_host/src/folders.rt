use file_disk::{DiskNo, FileDisk, Held};
use host_edge::{HostDisk, HostFile, OpenNo, expect_rows};
use lake_types::Words;
use std::alloc::Global;
use std::fs;
use std::os::unix::fs::symlink;
use std::test::Fail;

/// A name of the form of the lake's own files.
const OWN: &str = "00000000-0000-0000-0000-000000000001.parquet";

/// Writes a whole file of two pieces.
fn written(alloc: Global, disk: &mut HostDisk<'_>, name: &Words) -> Option<HostFile> {
    let mut draft = disk.create(alloc, name).ok()?;
    disk.append(alloc, &mut draft, b"ab").ok()?;
    disk.append(alloc, &mut draft, b"c").ok()?;
    disk.sync(draft).ok()
}

/// What is read of a file that is found.
fn read_back(alloc: Global, disk: &mut HostDisk<'_>, name: &Words) -> Option<Vec<u8>> {
    let file = disk.find(alloc, name).ok()??;
    let copy = file.copy(alloc).ok()?;
    disk.read(alloc, &copy).ok()?
}

/// Whether the name is neither found nor removed.
fn is_absent(alloc: Global, disk: &mut HostDisk<'_>, name: &Words) -> bool {
    matches!(disk.find(alloc, name), Ok(None)) && disk.remove(name) == Ok(false)
}

#[test]
fn a_folder_keeps_a_file(rt: HostRuntime) -> Result<(), Fail> {
    let alloc = rt.alloc();
    let mut disk = HostDisk::open(&rt, "kept").ok().ok_or("not opened")?;
    let name = Words::of(alloc, OWN)?;
    let file = written(alloc, &mut disk, &name).ok_or("not written")?;
    assert_eq!(rt; (file.size(), file.name().as_str()), (3, OWN));
    let bytes = read_back(alloc, &mut disk, &name).ok_or("not read")?;
    assert_eq!(rt; bytes.as_slice(), b"abc".as_slice());
    let names = disk.list(alloc).ok().ok_or("not listed")?;
    assert_eq!(rt; names.len(), 1);
    assert_eq!(rt; disk.create(alloc, &name).err(), Some(DiskNo::Exists));
    assert_eq!(rt; (disk.faults(), disk.opens()), (1, 1));
    assert_eq!(rt; disk.remove(&name), Ok(true));
    assert!(rt; is_absent(alloc, &mut disk, &name));
    assert!(rt; matches!(disk.read(alloc, &file), Ok(None)));
    assert_eq!(rt; disk.faults(), 1);
    fs::remove_dir_all(&rt, "kept")?;
    Ok(())
}

/// Names that are no file's, or lead out of the folder.
const NO_NAMES: [&str; 6] = ["", ".", "..", "../beside", "a/b", "a\0b"];

#[test]
fn no_name_leads_out(rt: HostRuntime) -> Result<(), Fail> {
    let alloc = rt.alloc();
    let mut disk = HostDisk::open(&rt, "inner").ok().ok_or("not opened")?;
    fs::write(&rt, "beside", b"x")?;
    for text in NO_NAMES {
        let name = Words::of(alloc, text)?;
        assert!(rt; is_absent(alloc, &mut disk, &name), "{text}");
        assert_eq!(rt; disk.create(alloc, &name).err(), Some(DiskNo::Failed));
    }
    assert_eq!(rt; disk.faults(), 6);
    assert!(rt; fs::exists(&rt, "beside")?);
    fs::remove_file(&rt, "beside")?;
    fs::remove_dir_all(&rt, "inner")?;
    Ok(())
}

#[test]
fn what_is_no_file_is_not_there(rt: HostRuntime) -> Result<(), Fail> {
    let alloc = rt.alloc();
    let mut disk = HostDisk::open(&rt, "odd").ok().ok_or("not opened")?;
    fs::create_dir(&rt, "odd/folder")?;
    fs::write(&rt, "odd/file", b"x")?;
    fs::hard_link(&rt, "odd/file", "odd/again")?;
    symlink(&rt, "file", "odd/link")?;
    for text in ["folder", "link"] {
        let name = Words::of(alloc, text)?;
        assert!(rt; is_absent(alloc, &mut disk, &name), "{text}");
        assert_eq!(rt; disk.create(alloc, &name).err(), Some(DiskNo::Exists));
    }
    let names = disk.list(alloc).ok().ok_or("not listed")?;
    assert_eq!(rt; (names.len(), disk.faults()), (2, 2));
    assert_eq!(rt; (names[0].as_str(), names[1].as_str()), ("again", "file"));
    fs::remove_dir_all(&rt, "odd")?;
    Ok(())
}

#[test]
fn lost_rows_are_refused(rt: HostRuntime) -> Result<(), Fail> {
    fs::create_dir(&rt, "files")?;
    assert_eq!(rt; expect_rows(&rt, "rows.db", "files"), Ok(()));
    fs::write(&rt, "files/other.parquet", b"x")?;
    assert_eq!(rt; expect_rows(&rt, "rows.db", "files"), Ok(()));
    fs::write(&rt, format!(in rt.alloc(); "files/{OWN}")?.as_str(), b"x")?;
    assert_eq!(rt; expect_rows(&rt, "rows.db", "files"), Err(OpenNo::Rows));
    assert_eq!(rt; expect_rows(&rt, "rows.db", "nowhere"), Ok(()));
    fs::remove_dir_all(&rt, "files")?;
    Ok(())
}
