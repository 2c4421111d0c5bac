use file_disk::{FileDisk, Held, MemDisk};
use lake_io::{CountNames, FailList};
use new_files::{NewFileNo, file_name, own_form, write_new};
use std::alloc::{AllocError, Global};
use std::test::Fail;

fn disk_failing_at(alloc: Global, calls: &[u64]) -> Result<MemDisk, AllocError> {
    let calls = calls.to_vec(alloc)?;
    Ok(MemDisk::new(alloc, FailList { calls, from: None }))
}

/// Whether the next file is written under this name, with these bytes.
fn writes(
    alloc: Global,
    disk: &mut MemDisk,
    names: &mut CountNames,
    deletes: bool,
    name: &str,
) -> bool {
    let Ok(file) = write_new(alloc, disk, names, deletes, b"rows") else {
        return false;
    };
    match disk.read(alloc, &file) {
        Ok(Some(bytes)) => file.name().as_str() == name && bytes.as_slice() == b"rows".as_slice(),
        _ => false,
    }
}

#[test]
fn a_file_has_the_name_of_the_next_number(rt: HostRuntime) -> Result<(), Fail> {
    let alloc = rt.alloc();
    let mut disk = disk_failing_at(alloc, &[])?;
    let mut names = CountNames::new(0x6ba7_b810_9dad_11d1_80b4_00c0_4fd4_30c8);
    assert!(rt;
        writes(
            alloc,
            &mut disk,
            &mut names,
            false,
            "6ba7b810-9dad-11d1-80b4-00c04fd430c8.parquet"
        )
    );
    assert!(rt;
        writes(
            alloc,
            &mut disk,
            &mut names,
            true,
            "6ba7b810-9dad-11d1-80b4-00c04fd430c9-delete.parquet"
        )
    );
    Ok(())
}

/// Whether the file of the next number is refused, since this name is there.
fn is_taken(alloc: Global, disk: &mut MemDisk, names: &mut CountNames, name: &str) -> bool {
    match write_new(alloc, disk, names, false, b"new") {
        Err(NewFileNo::Taken { name: told }) => told.as_str() == name,
        _ => false,
    }
}

#[test]
fn a_taken_name_is_told(rt: HostRuntime) -> Result<(), Fail> {
    let alloc = rt.alloc();
    let mut disk = disk_failing_at(alloc, &[])?;
    let mut names = CountNames::new(5);
    let name = file_name(alloc, 5, false)?;
    disk.plant(alloc, &name, b"old")?;
    assert!(rt; is_taken(alloc, &mut disk, &mut names, name.as_str()));
    Ok(())
}

/// Each of the three calls of the disk fails once; then the next number is taken.
#[test]
fn a_fault_of_the_disk_is_told(rt: HostRuntime) -> Result<(), Fail> {
    let alloc = rt.alloc();
    let mut disk = disk_failing_at(alloc, &[1, 3, 6])?;
    let mut names = CountNames::new(1);
    for _ in 0..3 {
        let written = write_new(alloc, &mut disk, &mut names, false, b"rows");
        assert!(rt; matches!(written, Err(NewFileNo::DiskFault)));
    }
    let fourth = "00000000-0000-0000-0000-000000000004.parquet";
    assert!(rt; writes(alloc, &mut disk, &mut names, false, fourth));
    Ok(())
}

#[test]
fn other_spellings_are_not_own(rt: HostRuntime) {
    assert!(rt; own_form("6ba7b810-9dad-11d1-80b4-00c04fd430c8.parquet"));
    assert!(rt; own_form("6ba7b810-9dad-11d1-80b4-00c04fd430c8-delete.parquet"));
    assert!(rt; !own_form("6BA7B810-9dad-11d1-80b4-00c04fd430c8.parquet"));
    assert!(rt; !own_form("6ba7b8109dad11d180b400c04fd430c8.parquet"));
    assert!(rt; !own_form("6ba7b810-9dad-11d1-80b4-00c04fd430c8.parquet.tmp"));
    assert!(rt; !own_form(".parquet"));
}
