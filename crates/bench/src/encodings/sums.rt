//! Small columns, with an answer that is the same at each run.

use crate::encodings::columns::{indices, packed_run, pattern};
use anyhow::Result;
use pq_encodings::{Physical, Plain, decode_indices, decode_levels, decode_plain};
use std::alloc::Global;

/// Values in a block.
const COUNT: u32 = 8_192;

fn sum_of(numbers: &[u32]) -> u64 {
    let mut sum = 0u64;
    for number in numbers {
        sum = sum.wrapping_add(u64::from(*number));
    }
    sum
}

fn signed_sum_of(numbers: &[i64]) -> i64 {
    let mut sum = 0i64;
    for number in numbers {
        sum = sum.wrapping_add(*number);
    }
    sum
}

fn plain_sum(rt: &impl Print, alloc: Global) -> Result<()> {
    let bytes = pattern(alloc, 8 * COUNT as usize)?;
    if let Plain::I64s(values) = decode_plain(alloc, Physical::Int64, u64::from(COUNT), &bytes)? {
        println!(rt;
            "plain INT64: {} values, sum {}",
            values.len(),
            signed_sum_of(&values)
        )?;
    }
    Ok(())
}

fn level_sum(rt: &impl Print, alloc: Global) -> Result<()> {
    let bytes = packed_run(alloc, 1, COUNT / 8)?;
    let values = decode_levels(alloc, &bytes, 1, u64::from(COUNT))?;
    println!(rt; "levels: {} values, sum {}", values.len(), sum_of(&values))?;
    Ok(())
}

fn index_sum(rt: &impl Print, alloc: Global) -> Result<()> {
    let bytes = indices(alloc, 12, COUNT / 8)?;
    let values = decode_indices(alloc, &bytes, u64::from(COUNT), 4_096)?;
    println!(rt; "indices: {} values, sum {}", values.len(), sum_of(&values))?;
    Ok(())
}

/// Prints the count and the sum of each column's values.
pub fn print_small(rt: &impl Print, alloc: Global) -> Result<()> {
    plain_sum(rt, alloc)?;
    level_sum(rt, alloc)?;
    index_sum(rt, alloc)
}
