//! The insertion of many rows in one transaction, a line each, timed beside the reading of the lines.

use crate::inserts::{insert_all, statements};
use crate::lines::Script;
use crate::times::nanos_since;
use anyhow::Result;
use std::alloc::Global;
use std::rt::Clock;
use std::time::Instant;

/// Lines of the two scripts: ten times as many take ten times as long, where a line costs the same behind any number.
const COUNTS: [u32; 2] = [10_000, 100_000];

const TRIES: u32 = 5;

/// The times of reading a script and of inserting its rows, and how many rows there are.
fn try_script(rt: &impl Clock, alloc: Global, script: &Script) -> Result<(u64, u64, u64)> {
    let start = Instant::now(rt)?;
    let statements = statements(alloc, script)?;
    let reading = nanos_since(rt, &start)?;
    let start = Instant::now(rt)?;
    let rows = insert_all(alloc, statements.as_slice())?;
    Ok((reading, nanos_since(rt, &start)?, rows))
}

fn print_count(rt: &(impl Print + Clock), alloc: Global, lines: u32) -> Result<()> {
    let script = Script::new(alloc, lines, 1)?;
    let mut reading = u64::MAX;
    let mut inserting = u64::MAX;
    let mut rows = u64::MAX;
    for _ in 0..TRIES {
        let (read, inserted, count) = try_script(rt, alloc, &script)?;
        reading = reading.min(read);
        inserting = inserting.min(inserted);
        rows = rows.min(count);
    }
    let ratio = inserting.saturating_mul(100) / reading.max(1);
    println!(rt;
        "{lines} lines insert {rows} rows: reading {} ns a line, inserting {} ns, ratio {}.{:02}",
        reading / u64::from(lines.max(1)),
        inserting / u64::from(lines.max(1)),
        ratio / 100,
        ratio % 100
    )?;
    Ok(())
}

/// Prints the least times for a line, and their ratio.
pub fn print_times(rt: &(impl Print + Clock), alloc: Global) -> Result<()> {
    for lines in COUNTS {
        print_count(rt, alloc, lines)?;
    }
    Ok(())
}
