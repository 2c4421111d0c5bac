use crate::sane::{changes, stored};
use cat_rows::{CatRow, CatRows, DataFileRow, DeleteFileRow};
use cat_view::HeldFiles;
use file_disk::{MemDisk, MemFile};
use keeper::MemKeeper;
use lake_io::FailList;
use lake_types::{Listed, NoMemory, Words};
use recover::{OpenNo, hold_files, open_rows};
use std::alloc::Global;
use std::test::Fail;

fn failing_at(alloc: Global, calls: &[u64]) -> Result<FailList, NoMemory> {
    let calls = calls.to_vec(alloc)?;
    Ok(FailList { calls, from: None })
}

/// The time of the only snapshot of a keeper that is opened.
fn opened_at(alloc: Global, keeper: &mut MemKeeper, time: i64) -> Option<i64> {
    match open_rows(alloc, keeper, time) {
        Ok(rows) => match rows.snapshot() {
            [only] => Some(only.snapshot_time),
            _ => None,
        },
        Err(_) => None,
    }
}

#[test]
fn a_new_lake_keeps_the_time_of_its_first_opening(rt: HostRuntime) -> Result<(), Fail> {
    let alloc = rt.alloc();
    let fails = failing_at(alloc, &[])?;
    let mut keeper = MemKeeper::new(alloc, CatRows::empty(alloc), fails);
    assert_eq!(rt; opened_at(alloc, &mut keeper, 7), Some(7));
    assert_eq!(rt; opened_at(alloc, &mut keeper, 9), Some(7));
    Ok(())
}

/// Whether an empty keeper that fails at one call is refused once, and opens then.
fn opens_after(alloc: Global, call: u64) -> Result<bool, NoMemory> {
    let fails = failing_at(alloc, &[call])?;
    let mut keeper = MemKeeper::new(alloc, CatRows::empty(alloc), fails);
    let refused = matches!(open_rows(alloc, &mut keeper, 7), Err(OpenNo::KeeperFault));
    Ok(refused && keeper.faults() == 1 && opened_at(alloc, &mut keeper, 9) == Some(9))
}

#[test]
fn each_call_of_the_keeper_may_fail(rt: HostRuntime) -> Result<(), Fail> {
    // The barrier, the load and snapshot 0.
    for call in [1, 2, 3] {
        assert!(rt; opens_after(rt.alloc(), call)?, "at call {call}");
    }
    Ok(())
}

/// Whether a keeper of rows without a layout is told to lack it.
fn lacks_a_layout(alloc: Global) -> Result<bool, NoMemory> {
    let mut adds = Listed::new(alloc);
    adds.push(changes(alloc, 0, "")?)?;
    let Some(rows) = stored(alloc, adds)? else {
        return Ok(false);
    };
    let mut keeper = MemKeeper::new(alloc, rows, failing_at(alloc, &[])?);
    match open_rows(alloc, &mut keeper, 7) {
        Err(OpenNo::BadRow(bad)) => Ok(
            bad.rule == 1
                && bad.table.as_str() == "ducklake_metadata"
                && bad.key.as_str() == "layout",
        ),
        _ => Ok(false),
    }
}

#[test]
fn a_bad_row_is_told(rt: HostRuntime) -> Result<(), Fail> {
    assert!(rt; lacks_a_layout(rt.alloc())?);
    Ok(())
}

/// Rows of a data file `a` of three bytes, and of its delete file `b` of two.
fn rows_of_files(alloc: Global) -> Result<Option<CatRows>, NoMemory> {
    let mut adds = Listed::new(alloc);
    adds.push(CatRow::DataFile(DataFileRow {
        data_file_id: 0,
        begin_snapshot: 1,
        end_snapshot: None,
        table_id: 1,
        path: Words::of(alloc, "a")?,
        record_count: 1,
        file_size_bytes: 3,
        row_id_start: None,
        weight: 17,
    }))?;
    adds.push(CatRow::DeleteFile(DeleteFileRow {
        delete_file_id: 1,
        begin_snapshot: 1,
        end_snapshot: None,
        table_id: 1,
        data_file_id: 0,
        path: Words::of(alloc, "b")?,
        delete_count: 1,
        file_size_bytes: 2,
    }))?;
    stored(alloc, adds)
}

/// What is told of the two files.
#[derive(Clone, Copy, Debug, PartialEq, Eq)]
enum Told {
    Held,
    /// The data file, or else the delete file, is missing.
    Missing { data: bool },
    /// So has another size.
    OtherSize { data: bool, want: u64, got: u64 },
    Fault,
    Else,
}

/// What is told by holding files.
fn told_by(answer: Result<HeldFiles<MemFile>, OpenNo>) -> Told {
    match answer {
        Ok(_) => Told::Held,
        Err(OpenNo::FileMissing { name }) => Told::Missing {
            data: name.as_str() == "a",
        },
        Err(OpenNo::FileSize { name, want, got }) => Told::OtherSize {
            data: name.as_str() == "a",
            want,
            got,
        },
        Err(OpenNo::DiskFault) => Told::Fault,
        Err(_) => Told::Else,
    }
}

/// A file that lies there with these bytes, or doesn't.
fn plant(
    alloc: Global,
    disk: &mut MemDisk,
    name: &str,
    bytes: Option<&'static str>,
) -> Result<(), NoMemory> {
    match bytes {
        Some(bytes) => disk.plant(alloc, &Words::of(alloc, name)?, bytes.as_bytes()),
        None => Ok(()),
    }
}

/// What two files are, at which call the disk fails, and what is told then.
#[derive(Clone, Copy)]
struct Case {
    data: Option<&'static str>,
    deletes: Option<&'static str>,
    fails: u64,
    told: Told,
}

/// Whether so is told.
fn is_told(alloc: Global, case: Case) -> Result<bool, NoMemory> {
    let Some(rows) = rows_of_files(alloc)? else {
        return Ok(false);
    };
    let mut disk = MemDisk::new(alloc, failing_at(alloc, &[case.fails])?);
    plant(alloc, &mut disk, "a", case.data)?;
    plant(alloc, &mut disk, "b", case.deletes)?;
    Ok(told_by(hold_files(alloc, &mut disk, &rows)) == case.told)
}

const CASES: [Case; 6] = [
    Case {
        data: Some("abc"),
        deletes: Some("de"),
        fails: 9,
        told: Told::Held,
    },
    Case {
        data: None,
        deletes: None,
        fails: 9,
        told: Told::Missing { data: true },
    },
    Case {
        data: Some("abc"),
        deletes: None,
        fails: 9,
        told: Told::Missing { data: false },
    },
    Case {
        data: Some("abcd"),
        deletes: None,
        fails: 9,
        told: Told::OtherSize {
            data: true,
            want: 3,
            got: 4,
        },
    },
    Case {
        data: Some("abc"),
        deletes: Some("d"),
        fails: 9,
        told: Told::OtherSize {
            data: false,
            want: 2,
            got: 1,
        },
    },
    Case {
        data: Some("abc"),
        deletes: Some("de"),
        fails: 2,
        told: Told::Fault,
    },
];

#[test]
fn files_that_are_not_as_said_are_told(rt: HostRuntime) -> Result<(), Fail> {
    for case in CASES {
        assert!(rt; is_told(rt.alloc(), case)?, "told {:?}", case.told);
    }
    Ok(())
}
