//! Large columns, timed beside a copy of their values: into new memory, and block by block into warm memory.

use crate::encodings::columns::{indices, packed_run, pattern};
use crate::times::nanos_since;
use anyhow::Result;
use pq_encodings::{Physical, Plain, decode_indices, decode_levels, decode_plain};
use std::alloc::Global;
use std::rt::Clock;
use std::time::Instant;

/// Groups of eight values in a column, and how often it is decoded.
const COLUMN: (u32, u32) = (1_250_000, 7);
/// The same of a block.
const BLOCK: (u32, u32) = (1_024, 2_000);

/// How long a decoder takes, and a copy of its values into a new Vec, in nanoseconds.
#[derive(Clone, Copy)]
struct Times {
    decoding: u64,
    copy: u64,
}

impl Times {
    const LONGEST: Times = Times {
        decoding: u64::MAX,
        copy: u64::MAX,
    };

    fn least(self, other: Times) -> Times {
        Times {
            decoding: self.decoding.min(other.decoding),
            copy: self.copy.min(other.copy),
        }
    }

    fn print(self, rt: &impl Print, name: &str, groups: u32) -> Result<()> {
        let ratio = self.decoding.saturating_mul(100) / self.copy.max(1);
        let each = self.decoding.saturating_mul(100) / (8 * u64::from(groups)).max(1);
        println!(rt;
            "{name}: {} us, copy {} us, ratio {}.{:02}, {}.{:02} ns a value",
            self.decoding / 1_000,
            self.copy / 1_000,
            ratio / 100,
            ratio % 100,
            each / 100,
            each % 100
        )?;
        Ok(())
    }
}

/// How long a copy takes.
fn copy_time<T: Copy>(rt: &impl Clock, alloc: Global, values: &[T]) -> Result<u64> {
    let start = Instant::now(rt)?;
    let _copy = Vec::from_slice(alloc, values)?;
    nanos_since(rt, &start)
}

fn plain_times(rt: &impl Clock, alloc: Global, bytes: &[u8], groups: u32) -> Result<Times> {
    let start = Instant::now(rt)?;
    let values = decode_plain(alloc, Physical::Int64, 8 * u64::from(groups), bytes)?;
    let decoding = nanos_since(rt, &start)?;
    let copy = match &values {
        Plain::I64s(values) => copy_time(rt, alloc, values)?,
        _ => u64::MAX,
    };
    Ok(Times { decoding, copy })
}

fn level_times(rt: &impl Clock, alloc: Global, bytes: &[u8], groups: u32) -> Result<Times> {
    let start = Instant::now(rt)?;
    let values = decode_levels(alloc, bytes, 1, 8 * u64::from(groups))?;
    let decoding = nanos_since(rt, &start)?;
    let copy = copy_time(rt, alloc, &values)?;
    Ok(Times { decoding, copy })
}

fn index_times(rt: &impl Clock, alloc: Global, bytes: &[u8], groups: u32) -> Result<Times> {
    let start = Instant::now(rt)?;
    let values = decode_indices(alloc, bytes, 8 * u64::from(groups), 4_096)?;
    let decoding = nanos_since(rt, &start)?;
    let copy = copy_time(rt, alloc, &values)?;
    Ok(Times { decoding, copy })
}

fn print_plain(
    rt: &(impl Print + Clock),
    alloc: Global,
    (groups, tries): (u32, u32),
) -> Result<()> {
    let bytes = pattern(alloc, 64 * groups as usize)?;
    let mut times = Times::LONGEST;
    for _ in 0..tries {
        times = times.least(plain_times(rt, alloc, &bytes, groups)?);
    }
    times.print(rt, "plain INT64", groups)
}

fn print_levels(
    rt: &(impl Print + Clock),
    alloc: Global,
    (groups, tries): (u32, u32),
) -> Result<()> {
    let bytes = packed_run(alloc, 1, groups)?;
    let mut times = Times::LONGEST;
    for _ in 0..tries {
        times = times.least(level_times(rt, alloc, &bytes, groups)?);
    }
    times.print(rt, "levels of width 1", groups)
}

fn print_indices(
    rt: &(impl Print + Clock),
    alloc: Global,
    (groups, tries): (u32, u32),
) -> Result<()> {
    let bytes = indices(alloc, 12, groups)?;
    let mut times = Times::LONGEST;
    for _ in 0..tries {
        times = times.least(index_times(rt, alloc, &bytes, groups)?);
    }
    times.print(rt, "indices of width 12", groups)
}

fn print_kinds(rt: &(impl Print + Clock), alloc: Global, size: (u32, u32)) -> Result<()> {
    print_plain(rt, alloc, size)?;
    print_levels(rt, alloc, size)?;
    print_indices(rt, alloc, size)
}

/// Prints the least times of each decoder and of a copy, for large columns and for blocks.
pub fn print_times(rt: &(impl Print + Clock), alloc: Global) -> Result<()> {
    println!(rt; "10,000,000 values, into new memory")?;
    print_kinds(rt, alloc, COLUMN)?;
    println!(rt; "8,192 values, into warm memory")?;
    print_kinds(rt, alloc, BLOCK)
}
