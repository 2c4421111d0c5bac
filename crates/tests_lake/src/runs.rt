use crate::trial::{bytes_end, ends_over, fails_at, new_disk, new_keeper, ran};
use file_disk::MemDisk;
use keeper::MemKeeper;
use lake_io::{MemSink, MemSource};
use lake_top::Status;
use lake_types::Words;
use std::alloc::{AllocError, Global};
use std::test::Fail;

const USAGE: &str =
    "! usage: lake [--inline 0..1000] [--target 1..1000000] [--gen SEED] [--count 0..20000]\n";

/// The name of the file of the number 1.
const FIRST_FILE: &str = "00000000-0000-0000-0000-000000000001.parquet";

/// A run over a new lake whose devices fail at these calls.
#[derive(Clone, Copy)]
struct Faulty {
    script: &'static str,
    reads: &'static [u64],
    writes: &'static [u64],
    keeps: &'static [u64],
    files: &'static [u64],
    ended: Status,
    written: &'static str,
}

const NEVER: &[u64] = &[];

const FAULTY: &[Faulty] = &[
    Faulty {
        script: "1 BEGIN\n",
        reads: &[1],
        writes: NEVER,
        keeps: NEVER,
        files: NEVER,
        ended: Status::ReadFault,
        written: "! read fault\n",
    },
    // the line that has begun is not answered
    Faulty {
        script: "1 BEGIN\n1 COM",
        reads: &[2],
        writes: NEVER,
        keeps: NEVER,
        files: NEVER,
        ended: Status::ReadFault,
        written: "1.1 ok 0\n! read fault\n",
    },
    Faulty {
        script: "1 BEGIN\n1 COMMIT\n",
        reads: NEVER,
        writes: &[1],
        keeps: NEVER,
        files: NEVER,
        ended: Status::WriteFault,
        written: "",
    },
    // each reply is a write of its own
    Faulty {
        script: "1 BEGIN\n1 COMMIT\n",
        reads: NEVER,
        writes: &[2],
        keeps: NEVER,
        files: NEVER,
        ended: Status::WriteFault,
        written: "1.1 ok 0\n",
    },
    // at opening: the barrier, the load and snapshot 0
    Faulty {
        script: "1 BEGIN\n",
        reads: NEVER,
        writes: NEVER,
        keeps: &[1],
        files: NEVER,
        ended: Status::KeeperFault,
        written: "! keeper\n",
    },
    Faulty {
        script: "1 BEGIN\n",
        reads: NEVER,
        writes: NEVER,
        keeps: &[2],
        files: NEVER,
        ended: Status::KeeperFault,
        written: "! keeper\n",
    },
    Faulty {
        script: "1 BEGIN\n",
        reads: NEVER,
        writes: &[1],
        keeps: &[3],
        files: NEVER,
        ended: Status::WriteFault,
        written: "",
    },
    // a commit that the keeper refuses: the transaction stays open, and others see nothing of it
    Faulty {
        script: "1 BEGIN\n1 CREATE TABLE t (a BIGINT)\n1 COMMIT\n1 BEGIN\n1 INSERT INTO t VALUES (1)\n1 COMMIT\n1 BEGIN\n2 BEGIN\n2 SELECT * FROM t\n1 COMMIT\n",
        reads: NEVER,
        writes: NEVER,
        keeps: &[5],
        files: NEVER,
        ended: Status::Good,
        written: "1.1 ok 0\n1.2 ok\n1.3 ok 1\n1.4 ok 1\n1.5 ok 1\n1.6 ! keeper\n1.7 in transaction\n2.1 ok 1\n2.2 ok 0\n1.8 ok 2\n",
    },
    // a file that can't be made, filled or made whole: the next commit stages anew
    Faulty {
        script: "1 BEGIN\n1 CREATE TABLE t (a BIGINT)\n1 INSERT INTO t VALUES (1)\n1 COMMIT\n1 COMMIT\n",
        reads: NEVER,
        writes: NEVER,
        keeps: NEVER,
        files: &[1],
        ended: Status::Good,
        written: "1.1 ok 0\n1.2 ok\n1.3 ok 1\n1.4 ! disk\n1.5 ok 1\n",
    },
    Faulty {
        script: "1 BEGIN\n1 CREATE TABLE t (a BIGINT)\n1 INSERT INTO t VALUES (1)\n1 COMMIT\n1 COMMIT\n",
        reads: NEVER,
        writes: NEVER,
        keeps: NEVER,
        files: &[2],
        ended: Status::Good,
        written: "1.1 ok 0\n1.2 ok\n1.3 ok 1\n1.4 ! disk\n1.5 ok 1\n",
    },
    Faulty {
        script: "1 BEGIN\n1 CREATE TABLE t (a BIGINT)\n1 INSERT INTO t VALUES (1)\n1 COMMIT\n1 ROLLBACK\n1 SNAPSHOTS\n",
        reads: NEVER,
        writes: NEVER,
        keeps: NEVER,
        files: &[3],
        ended: Status::Good,
        written: "1.1 ok 0\n1.2 ok\n1.3 ok 1\n1.4 ! disk\n1.5 ok\n1.6 row 0,created_schema:\"main\"\n1.6 ok 1\n",
    },
    // a file that can't be read once
    Faulty {
        script: "1 BEGIN\n1 CREATE TABLE t (a BIGINT)\n1 INSERT INTO t VALUES (1)\n1 COMMIT\n1 BEGIN\n1 SELECT * FROM t\n1 SELECT * FROM t\n",
        reads: NEVER,
        writes: NEVER,
        keeps: NEVER,
        files: &[4],
        ended: Status::Good,
        written: "1.1 ok 0\n1.2 ok\n1.3 ok 1\n1.4 ok 1\n1.5 ok 1\n1.6 ! disk\n1.7 row 1\n1.7 ok 1\n",
    },
    // the table is named by a conflict though the disk was asked before
    Faulty {
        script: "1 BEGIN\n1 CREATE TABLE t (a BIGINT)\n1 COMMIT\n1 BEGIN\n2 BEGIN\n1 INSERT INTO t VALUES (1)\n2 DROP TABLE t\n2 COMMIT\n1 COMMIT\n1 COMMIT\n",
        reads: NEVER,
        writes: NEVER,
        keeps: NEVER,
        files: &[1],
        ended: Status::Good,
        written: "1.1 ok 0\n1.2 ok\n1.3 ok 1\n1.4 ok 1\n2.1 ok 1\n1.5 ok 1\n2.2 ok\n2.3 ok 2\n1.6 ! disk\n1.7 conflict 2 inserted_into_table:1 with dropped_table:1\n",
    },
];

/// These as a list of which proofs know nothing.
fn cases() -> &'static [Faulty] {
    FAULTY
}

fn is_as_told(alloc: Global, case: &Faulty) -> Result<bool, AllocError> {
    let mut input = MemSource::new(
        case.script.as_bytes().to_vec(alloc)?,
        fails_at(alloc, case.reads)?,
    );
    let mut output = MemSink::with_room(alloc, 4096, fails_at(alloc, case.writes)?)?;
    let keeper = new_keeper(alloc, case.keeps)?;
    let mut disk = new_disk(alloc, case.files)?;
    let (status, _keeper) = ran(alloc, 1, &mut input, &mut output, keeper, &mut disk)?;
    Ok(status == case.ended && output.bytes() == case.written.as_bytes())
}

#[test]
fn faults_are_told(rt: HostRuntime) -> Result<(), Fail> {
    for case in cases() {
        assert!(rt; is_as_told(rt.alloc(), case)?, "{}", case.written);
    }
    Ok(())
}

/// Whether so many words, over devices that fail at once, are answered so.
fn refuses(
    alloc: Global,
    words: usize,
    writes: &[u64],
    ended: Status,
    written: &str,
) -> Result<bool, AllocError> {
    let mut input = MemSource::new(b"1 BEGIN\n".to_vec(alloc)?, fails_at(alloc, &[1])?);
    let mut output = MemSink::with_room(alloc, 4096, fails_at(alloc, writes)?)?;
    let keeper = new_keeper(alloc, &[1])?;
    let mut disk = new_disk(alloc, &[1])?;
    let (status, keeper) = ran(alloc, words, &mut input, &mut output, keeper, &mut disk)?;
    let untouched = input.faults() == 0 && keeper.faults() == 0 && disk.faults() == 0;
    Ok(untouched && status == ended && output.bytes() == written.as_bytes())
}

#[test]
fn other_words_are_refused(rt: HostRuntime) -> Result<(), Fail> {
    let alloc = rt.alloc();
    assert!(rt; refuses(alloc, 2, &[], Status::Usage, USAGE)?);
    assert!(rt; refuses(alloc, 0, &[1], Status::WriteFault, "")?);
    Ok(())
}

/// The keeper of a lake with one table of two rows, whose file lies on this disk.
fn with_a_file(alloc: Global, disk: &mut MemDisk) -> Result<MemKeeper, AllocError> {
    let script =
        b"1 BEGIN\n1 CREATE TABLE t (a BIGINT)\n1 INSERT INTO t VALUES (7), (NULL)\n1 COMMIT\n";
    let mut input = MemSource::new(script.to_vec(alloc)?, fails_at(alloc, &[])?);
    let mut output = MemSink::with_room(alloc, 4096, fails_at(alloc, &[])?)?;
    let keeper = new_keeper(alloc, &[])?;
    Ok(ran(alloc, 1, &mut input, &mut output, keeper, disk)?.1)
}

/// Whether a lake is opened again, and its rows are there.
fn outlives_a_run(alloc: Global) -> Result<bool, AllocError> {
    let mut disk = new_disk(alloc, &[])?;
    let keeper = with_a_file(alloc, &mut disk)?;
    let script = "1 BEGIN\n1 SELECT rowid, a FROM t\n";
    let written = "1.1 ok 1\n1.2 row 0,7\n1.2 row 1,NULL\n1.2 ok 2\n";
    Ok(ends_over(alloc, keeper, &mut disk, script, Status::Good, written)?.0)
}

/// Whether the next run draws the name of the file that is there, and then another.
fn takes_another_name(alloc: Global) -> Result<bool, AllocError> {
    let mut disk = new_disk(alloc, &[])?;
    let keeper = with_a_file(alloc, &mut disk)?;
    let script = "1 BEGIN\n1 INSERT INTO t VALUES (8)\n1 COMMIT\n1 COMMIT\n";
    let written =
        "1.1 ok 1\n1.2 ok 1\n1.3 name taken 00000000-0000-0000-0000-000000000001.parquet\n1.4 ok 2\n";
    Ok(ends_over(alloc, keeper, &mut disk, script, Status::Good, written)?.0)
}

/// Whether a lake isn't opened, at the fourth call of its disk.
fn finds_a_disk_fault(alloc: Global) -> Result<bool, AllocError> {
    let mut disk = new_disk(alloc, &[4])?;
    let keeper = with_a_file(alloc, &mut disk)?;
    let script = "1 BEGIN\n";
    let (told, keeper) = ends_over(
        alloc,
        keeper,
        &mut disk,
        script,
        Status::DiskFault,
        "! disk\n",
    )?;
    let opens = ends_over(alloc, keeper, &mut disk, script, Status::Good, "1.1 ok 1\n")?.0;
    Ok(told && opens)
}

/// Whether a lake whose file is on another disk isn't opened.
fn misses_its_file(alloc: Global) -> Result<bool, AllocError> {
    let keeper = with_a_file(alloc, &mut new_disk(alloc, &[])?)?;
    let mut disk = new_disk(alloc, &[])?;
    let line = "! damaged missing 00000000-0000-0000-0000-000000000001.parquet\n";
    Ok(ends_over(alloc, keeper, &mut disk, "", Status::Damaged, line)?.0)
}

/// Whether this is written, by a run that ends so, over a lake whose file of 107 bytes was changed to so many others.
fn finds_other_bytes(
    alloc: Global,
    count: usize,
    ended: Status,
    written: &str,
) -> Result<bool, AllocError> {
    let mut disk = new_disk(alloc, &[])?;
    let keeper = with_a_file(alloc, &mut disk)?;
    let bytes = vec![in alloc; b'x'; count]?;
    disk.plant(alloc, &Words::of(alloc, FIRST_FILE)?, bytes.as_slice())?;
    let script = "1 BEGIN\n1 SELECT * FROM t\n";
    Ok(ends_over(alloc, keeper, &mut disk, script, ended, written)?.0)
}

#[test]
fn lakes_are_opened_again(rt: HostRuntime) -> Result<(), Fail> {
    let alloc = rt.alloc();
    assert!(rt; outlives_a_run(alloc)?);
    assert!(rt; takes_another_name(alloc)?);
    assert!(rt; finds_a_disk_fault(alloc)?);
    assert!(rt; misses_its_file(alloc)?);
    Ok(())
}

#[test]
fn damage_is_told(rt: HostRuntime) -> Result<(), Fail> {
    let alloc = rt.alloc();
    let size = "! damaged size 00000000-0000-0000-0000-000000000001.parquet 107 106\n";
    assert!(rt; finds_other_bytes(alloc, 106, Status::Damaged, size)?);
    let read = "1.1 ok 1\n1.2 damaged 00000000-0000-0000-0000-000000000001.parquet\n";
    assert!(rt; finds_other_bytes(alloc, 107, Status::Good, read)?);
    Ok(())
}

/// Whether sixteen transactions stand open side by side, and each commits.
fn sixteen_commit(alloc: Global) -> Result<bool, AllocError> {
    let mut script = String::new(alloc);
    let mut written = String::new(alloc);
    for session in 1..=16u8 {
        script.push_str(format!(in alloc; "{session} BEGIN\n")?.as_str())?;
        written.push_str(format!(in alloc; "{session}.1 ok 0\n")?.as_str())?;
    }
    for session in 1..=16u8 {
        script.push_str(format!(in alloc; "{session} CREATE SCHEMA s{session}\n")?.as_str())?;
        written.push_str(format!(in alloc; "{session}.2 ok\n")?.as_str())?;
    }
    for session in 1..=16u8 {
        script.push_str(format!(in alloc; "{session} COMMIT\n")?.as_str())?;
        written.push_str(format!(in alloc; "{session}.3 ok {session}\n")?.as_str())?;
    }
    bytes_end(
        alloc,
        script.as_bytes().to_vec(alloc)?,
        Status::Good,
        written.as_str(),
    )
}

#[test]
fn sixteen_sessions_stand_side_by_side(rt: HostRuntime) -> Result<(), Fail> {
    assert!(rt; sixteen_commit(rt.alloc())?);
    Ok(())
}

/// A text with so many further bytes behind it, and then an end.
fn padded(
    alloc: Global,
    front: &str,
    byte: u8,
    more: usize,
    end: &str,
) -> Result<Vec<u8>, AllocError> {
    let mut bytes = front.as_bytes().to_vec(alloc)?;
    bytes.extend_from_slice(vec![in alloc; byte; more]?.as_slice())?;
    bytes.extend_from_slice(end.as_bytes())?;
    Ok(bytes)
}

/// A script that makes a table of so many columns.
fn wide_table(alloc: Global, columns: usize) -> Result<Vec<u8>, AllocError> {
    let mut script = String::from_str(alloc, "1 BEGIN\n1 CREATE TABLE t (c BIGINT")?;
    for number in 1..columns {
        script.push_str(format!(in alloc; ", c{number} BIGINT")?.as_str())?;
    }
    script.push_str(")\n")?;
    script.as_bytes().to_vec(alloc)
}

#[test]
fn a_script_has_the_most_bytes(rt: HostRuntime) -> Result<(), Fail> {
    let alloc = rt.alloc();
    let script = padded(alloc, "1 BEGIN\n#", b'x', 67_108_855, "")?;
    assert!(rt; bytes_end(alloc, script, Status::Good, "1.1 ok 0\n")?);
    Ok(())
}

#[test]
fn a_script_has_one_byte_more(rt: HostRuntime) -> Result<(), Fail> {
    let alloc = rt.alloc();
    let script = padded(alloc, "1 BEGIN\n#", b'x', 67_108_856, "")?;
    assert!(rt; bytes_end(alloc, script, Status::TooLong, "1.1 ok 0\n! too long\n")?);
    Ok(())
}

#[test]
fn lines_have_a_limit(rt: HostRuntime) -> Result<(), Fail> {
    let alloc = rt.alloc();
    // 25 bytes of the line stand before the text, and 2 behind it
    let front = "1 BEGIN\n1 INSERT INTO t VALUES ('";
    let line = padded(alloc, front, b'x', 1_048_549, "')\n")?;
    assert!(rt;
        bytes_end(
            alloc,
            line,
            Status::Good,
            "1.1 ok 0\n1.2 no table \"main\".\"t\"\n"
        )?
    );
    let line = padded(alloc, front, b'x', 1_048_550, "')\n")?;
    assert!(rt; bytes_end(alloc, line, Status::Good, "1.1 ok 0\n1.2 line too long\n")?);
    Ok(())
}

/// A script whose transaction inserts 67 rows that weigh 1,000,020 each, and then one more.
fn heavy_rows(alloc: Global) -> Result<Vec<u8>, AllocError> {
    let front = "1 BEGIN\n1 CREATE TABLE t (a VARCHAR DEFAULT '";
    let mut script = padded(alloc, front, b'x', 1_000_000, "')\n")?;
    script.extend_from_slice(b"1 INSERT INTO t VALUES (DEFAULT)")?;
    for _ in 1..67u8 {
        script.extend_from_slice(b", (DEFAULT)")?;
    }
    script.extend_from_slice(b"\n1 INSERT INTO t VALUES (DEFAULT)\n")?;
    Ok(script)
}

#[test]
fn a_transaction_has_a_weight(rt: HostRuntime) -> Result<(), Fail> {
    let alloc = rt.alloc();
    let script = heavy_rows(alloc)?;
    assert!(rt;
        bytes_end(
            alloc,
            script,
            Status::Good,
            "1.1 ok 0\n1.2 ok\n1.3 ok 67\n1.4 too large\n"
        )?
    );
    Ok(())
}

#[test]
fn tables_and_names_have_limits(rt: HostRuntime) -> Result<(), Fail> {
    let alloc = rt.alloc();
    let table = wide_table(alloc, 100)?;
    assert!(rt; bytes_end(alloc, table, Status::Good, "1.1 ok 0\n1.2 ok\n")?);
    let table = wide_table(alloc, 101)?;
    assert!(rt; bytes_end(alloc, table, Status::Good, "1.1 ok 0\n1.2 many columns\n")?);
    let table = padded(alloc, "1 BEGIN\n1 DROP SCHEMA ", b'a', 256, "\n")?;
    assert!(rt; bytes_end(alloc, table, Status::Good, "1.1 ok 0\n1.2 syntax at 14\n")?);
    Ok(())
}
