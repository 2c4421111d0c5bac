//! The times of `first_bad_row` over 99,904 rows of many tables, and over 99,612 rows of one table.

use crate::rules::altered::altered_rows;
use crate::rules::{catalogue, rows_of};
use crate::times::{mixed, nanos_since};
use anyhow::Result;
use cat_rows::{CatRowList, CatRows};
use cat_sane::first_bad_row;
use std::alloc::Global;
use std::rt::Clock;
use std::time::Instant;

/// Tables of the one catalogue.
const TABLES: u64 = 1_350;

/// The newest snapshot of the other, in which a column is altered at each.
const NEWEST: u64 = 16_601;

/// How often each is looked at.
const ROUNDS: u64 = 5;

/// How long a sort of so many rows by keys of three numbers takes.
fn sort_time(rt: &impl Clock, alloc: Global, count: u64) -> Result<u64> {
    let mut keys = Vec::new(alloc);
    for place in 0..count {
        keys.push([mixed(place), place, 0])?;
    }
    let start = Instant::now(rt)?;
    keys.sort_unstable();
    nanos_since(rt, &start)
}

/// How long `first_bad_row` takes.
fn rules_time(rt: &impl Clock, alloc: Global, rows: &CatRows) -> Result<u64> {
    let start = Instant::now(rt)?;
    let _found = first_bad_row(alloc, rows)?;
    nanos_since(rt, &start)
}

fn print_time<R: Clock + Print>(
    rt: &R,
    alloc: Global,
    of_what: &str,
    adds: CatRowList,
) -> Result<()> {
    let count = adds.len() as u64;
    let rows = catalogue(alloc, adds)?;
    let mut sort = u64::MAX;
    let mut rules = u64::MAX;
    for _ in 0..ROUNDS {
        sort = sort.min(sort_time(rt, alloc, count)?);
        rules = rules.min(rules_time(rt, alloc, &rows)?);
    }
    let ratio = rules / sort.max(1);
    println!(rt;
        "{count} rows of {of_what}: rules {} us, sort {} us, ratio {ratio}",
        rules / 1_000,
        sort / 1_000
    )?;
    Ok(())
}

pub fn print_times<R: Clock + Print>(rt: &R, alloc: Global) -> Result<()> {
    print_time(rt, alloc, "many tables", rows_of(alloc, TABLES)?)?;
    print_time(
        rt,
        alloc,
        "one column altered often",
        altered_rows(alloc, NEWEST)?,
    )
}
