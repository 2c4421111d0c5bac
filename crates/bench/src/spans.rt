//! `first_past` of `cat_spans` over a few spans, or over 100,001 beside a sort of the same rows.

mod rows;
mod times;

use anyhow::Result;
use cat_spans::first_past;
use rows::{names, spans};
use std::alloc::Global;
pub use times::print_times;

/// Spans of which none lies over another of its group, and the same with one more at the end that does.
pub fn print_small(rt: &impl Print, alloc: Global) -> Result<()> {
    let names = names(alloc, 1_000)?;
    for last_end in [1, 2] {
        let spans = spans(alloc, &names, last_end)?;
        match first_past(alloc, 1, &spans)? {
            Some(place) => println!(rt; "span {place} of {} is one too many", spans.len())?,
            None => println!(rt; "none of {} spans is one too many", spans.len())?,
        }
    }
    Ok(())
}
