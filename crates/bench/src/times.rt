//! What the benches measure with.

use anyhow::Result;
use std::rt::Clock;
use std::time::Instant;

/// The nanoseconds since a moment.
pub fn nanos_since(rt: &impl Clock, start: &Instant) -> Result<u64> {
    let nanos = start.elapsed(rt)?.as_nanos();
    Ok(u64::try_from(nanos).unwrap_or(u64::MAX))
}

/// Mixes a number, so that what is made of numbers in a row comes in no order.
pub fn mixed(number: u64) -> u64 {
    let once = (number ^ (number >> 30)).wrapping_mul(0xbf58_476d_1ce4_e5b9);
    once ^ (once >> 27)
}
