//! Runs over a keeper and a disk in memory.

use cat_rows::CatRows;
use file_disk::MemDisk;
use keeper::MemKeeper;
use lake_io::{CountNames, FailList, FixedClock, MemSink, MemSource, Source};
use lake_top::{Status, run};
use std::alloc::{AllocError, Global};

/// The calls of a device that fail.
pub fn fails_at(alloc: Global, calls: &[u64]) -> Result<FailList, AllocError> {
    Ok(FailList {
        calls: calls.to_vec(alloc)?,
        from: None,
    })
}

/// A keeper of nothing.
pub fn new_keeper(alloc: Global, fails: &[u64]) -> Result<MemKeeper, AllocError> {
    Ok(MemKeeper::new(alloc, CatRows::empty(alloc), fails_at(alloc, fails)?))
}

/// A disk of no files.
pub fn new_disk(alloc: Global, fails: &[u64]) -> Result<MemDisk, AllocError> {
    Ok(MemDisk::new(alloc, fails_at(alloc, fails)?))
}

/// Runs with so many words, and gives the keeper back.
pub fn ran<S: Source>(
    alloc: Global,
    words: usize,
    input: &mut S,
    output: &mut MemSink,
    keeper: MemKeeper,
    disk: &mut MemDisk,
) -> Result<(Status, MemKeeper), AllocError> {
    let mut told = Vec::new(alloc);
    for _ in 0..words {
        told.push(String::from_str(alloc, "lake")?)?;
    }
    let mut names = CountNames::new(1);
    let mut clock = FixedClock::new(0);
    Ok(run(
        alloc,
        told.as_slice(),
        input,
        output,
        keeper,
        disk,
        &mut names,
        &mut clock,
    ))
}

/// Whether a run over a lake that is there ends so and writes this, with the keeper that it gives back.
pub fn ends_over(
    alloc: Global,
    keeper: MemKeeper,
    disk: &mut MemDisk,
    script: &str,
    ended: Status,
    written: &str,
) -> Result<(bool, MemKeeper), AllocError> {
    let mut input = MemSource::new(script.as_bytes().to_vec(alloc)?, fails_at(alloc, &[])?);
    let mut output = MemSink::with_room(alloc, 4096, fails_at(alloc, &[])?)?;
    let (status, keeper) = ran(alloc, 1, &mut input, &mut output, keeper, disk)?;
    Ok((
        status == ended && output.bytes() == written.as_bytes(),
        keeper,
    ))
}

/// Whether a script over a new lake ends so and is answered so.
pub fn ends<S: Source>(
    alloc: Global,
    input: &mut S,
    ended: Status,
    written: &str,
) -> Result<bool, AllocError> {
    let mut output = MemSink::with_room(alloc, 4096, fails_at(alloc, &[])?)?;
    let keeper = new_keeper(alloc, &[])?;
    let mut disk = new_disk(alloc, &[])?;
    let (status, _keeper) = ran(alloc, 1, input, &mut output, keeper, &mut disk)?;
    Ok(status == ended && output.bytes() == written.as_bytes())
}

/// The same of bytes that come in large pieces.
pub fn bytes_end(
    alloc: Global,
    script: Vec<u8>,
    ended: Status,
    written: &str,
) -> Result<bool, AllocError> {
    let mut input = MemSource::new(script, fails_at(alloc, &[])?);
    ends(alloc, &mut input, ended, written)
}
