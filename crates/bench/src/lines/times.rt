//! The reading of many lines, timed beside a copy of their bytes into new memory.

use crate::lines::ROWS;
use crate::lines::script::{Script, count_said, count_tokens};
use crate::times::nanos_since;
use anyhow::Result;
use std::alloc::Global;
use std::rt::Clock;
use std::time::Instant;

/// Lines of the script, and how often it is read.
const LINES: u32 = 100_000;

const TRIES: u32 = 5;

/// The time, and how many lines were read.
fn reading_time(rt: &impl Clock, alloc: Global, script: &Script) -> Result<(u64, usize)> {
    let start = Instant::now(rt)?;
    let said = count_said(alloc, script);
    Ok((nanos_since(rt, &start)?, said))
}

fn cutting_time(rt: &impl Clock, alloc: Global, script: &Script) -> Result<u64> {
    let start = Instant::now(rt)?;
    let _tokens = count_tokens(alloc, script)?;
    nanos_since(rt, &start)
}

fn copy_time(rt: &impl Clock, alloc: Global, bytes: &[u8]) -> Result<u64> {
    let start = Instant::now(rt)?;
    let _copy = Vec::from_slice(alloc, bytes)?;
    nanos_since(rt, &start)
}

/// Prints the least times and their ratio, and how many lines were read at least.
pub fn print_times(rt: &(impl Print + Clock), alloc: Global) -> Result<()> {
    let script = Script::new(alloc, LINES, ROWS)?;
    let bytes = script.bytes.as_str().as_bytes();
    let mut reading = u64::MAX;
    let mut said = usize::MAX;
    let mut cutting = u64::MAX;
    let mut copy = u64::MAX;
    for _ in 0..TRIES {
        let (time, count) = reading_time(rt, alloc, &script)?;
        reading = reading.min(time);
        said = said.min(count);
        cutting = cutting.min(cutting_time(rt, alloc, &script)?);
        copy = copy.min(copy_time(rt, alloc, bytes)?);
    }
    let ratio = reading.saturating_mul(10) / copy.max(1);
    let each = reading / u64::from(LINES);
    println!(rt;
        "{said} of {LINES} lines are read, {} bytes: {} us, of which cutting into tokens takes {} us; copy {} us, ratio {}.{}, {each} ns a line",
        bytes.len(),
        reading / 1_000,
        cutting / 1_000,
        copy / 1_000,
        ratio / 10,
        ratio % 10
    )?;
    Ok(())
}
