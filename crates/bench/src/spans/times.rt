//! The times of `first_past` over 100,000 spans.

use crate::spans::rows::{names, spans};
use crate::times::nanos_since;
use anyhow::Result;
use cat_spans::{Group, first_past};
use std::alloc::Global;
use std::rt::Clock;
use std::time::Instant;

/// Groups, of ten spans each, and how often they are looked at.
const GROUPS: u64 = 10_000;

const ROUNDS: u64 = 5;

/// How long a sort of rows with these names takes, by name and begin.
fn sort_time(rt: &impl Clock, alloc: Global, names: &[u8]) -> Result<u64> {
    let mut rows = Vec::new(alloc);
    for begin in 1u64..11 {
        for name in names.chunks(8) {
            let group = Group {
                first: 0,
                second: 0,
                text: name,
            };
            rows.push((group, begin))?;
        }
    }
    let start = Instant::now(rt)?;
    rows.sort_unstable();
    nanos_since(rt, &start)
}

/// How long `first_past` takes.
fn past_time(rt: &impl Clock, alloc: Global, names: &[u8], last_end: u64) -> Result<u64> {
    let spans = spans(alloc, names, last_end)?;
    let start = Instant::now(rt)?;
    let _found = first_past(alloc, 1, &spans)?;
    nanos_since(rt, &start)
}

fn print_line(rt: &impl Print, name: &str, time: u64, sort: u64) -> Result<()> {
    let ratio = time.saturating_mul(100) / sort.max(1);
    println!(rt;
        "{name}: {} us, sort {} us, ratio {}.{:02}",
        time / 1_000,
        sort / 1_000,
        ratio / 100,
        ratio % 100
    )?;
    Ok(())
}

pub fn print_times<R: Clock + Print>(rt: &R, alloc: Global) -> Result<()> {
    let names = names(alloc, GROUPS)?;
    let mut sort = u64::MAX;
    let mut none = u64::MAX;
    let mut last = u64::MAX;
    for _ in 0..ROUNDS {
        sort = sort.min(sort_time(rt, alloc, &names)?);
        none = none.min(past_time(rt, alloc, &names, 1)?);
        last = last.min(past_time(rt, alloc, &names, 2)?);
    }
    print_line(rt, "none of 100,001 spans is one too many", none, sort)?;
    print_line(rt, "the last of 100,001 spans is one too many", last, sort)?;
    Ok(())
}
