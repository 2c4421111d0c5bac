//! INSERT lines of 10 rows of a number, a text and a date: a few, or 100,000 beside a copy of their bytes.

mod script;
mod times;

use anyhow::Result;
pub use script::Script;
use script::count_said;
use std::alloc::Global;
pub use times::print_times;

/// Lines in the small script.
const FEW: u32 = 20;

/// Rows of a line.
const ROWS: u32 = 10;

/// Prints how many of a few lines say something.
pub fn print_small(rt: &impl Print, alloc: Global) -> Result<()> {
    let script = Script::new(alloc, FEW, ROWS)?;
    let said = count_said(alloc, &script);
    println!(rt; "{said} of {FEW} lines are read")?;
    Ok(())
}
