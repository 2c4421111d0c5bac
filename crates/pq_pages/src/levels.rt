//! Which cells of a data page are values (Apache Parquet format, "Definition levels").

ghost use Rattle.std.specs.Prelude.{◌≡◌, ◌<◌, ◌≤◌, ◌^◌, Ok, Err, MatchResult, IfOk, length, map};
ghost use Rattle.std.specs.List.{count_by};
ghost use Rattle.pq_encodings.specs.Faults.{is_memory as is_values_memory};
ghost use Rattle.pq_encodings.specs.Runs.{levels_in};
ghost use Rattle.answers.specs.Answers.{Gives};
ghost use Rattle.pq_pages.specs.Answers.{is_memory};
ghost use Rattle.pq_pages.specs.Pages.{flags_in, flags_of, framed, is_one};
ghost use Rattle.pq_pages.specs.Pages as pages;

use crate::fault::PageFault;
use byteorder::{ByteOrder, LittleEndian};
use pq_encodings::{EncFault, decode_levels};
use std::alloc::{AllocError, Global};

/// The levels of a data page.
#[derive(Debug, Drop)]
pub enum Levels {
    /// So many cells, all of them values.
    All(u32),
    /// Whether each cell is a value.
    Given(Vec<bool>),
}

impl Levels {
    /// How many cells are values.
    #[tactic(auto, using(crate::proofs::PickLemmas::count_all))]
    pub fn present(&self) -> u64
        ensures count { result ≡ count_by (λ flag. flag) (flags_of self.now) }
        ensures small { result < 2 ^ 63 }
    {
        match self {
            Levels::All(count) => u64::from(*count),
            Levels::Given(flags) => flags.iter().filter(|flag| **flag).count() as u64,
        }
    }
}

/// Bytes behind their length, which is four bytes, and what follows them.
#[tactic(auto, unfolding(crate::specs::Pages::framed))]
pub fn split_framed(bytes: &[u8]) -> Result<(&[u8], &[u8]), PageFault>
    ensures { MatchResult result (λ x. framed bytes.now ≡ Ok (x.0.now, x.1.now)) (λ e. framed bytes.now ≡ Err e) }
{
    if bytes.len() < 4 {
        return Err(PageFault::Values(EncFault::Short { at: 0 }));
    }
    let size = LittleEndian::read_u32(bytes) as usize;
    let (_, rest) = bytes.split_at(4);
    if rest.len() < size {
        return Err(PageFault::Values(EncFault::Short { at: 0 }));
    }
    Ok(rest.split_at(size))
}

/// Numbers of width 1.
fn numbers_in(alloc: Global, count: u64, bytes: &[u8]) -> Result<Vec<u32>, EncFault>
    ensures { Gives is_values_memory (λ v. v.items) result (levels_in 1 bytes.now count) }
{
    decode_levels(alloc, bytes, 1, count)
}

fn as_flags(alloc: Global, numbers: &[u32]) -> Result<Vec<bool>, AllocError>
    ensures { IfOk result (λ v. v.items ≡ map is_one numbers.now) }
{
    numbers.iter().map(|number| *number == 1).collect(alloc)
}

/// So many flags from runs of width 1. A number other than 1 is no flag.
#[tactic(auto, unfolding(crate::specs::Pages::flags_in))]
pub fn read_flags(alloc: Global, count: u64, bytes: &[u8]) -> Result<Vec<bool>, PageFault>
    ensures { Gives is_memory (λ v. v.items) result (flags_in count bytes.now) }
{
    let numbers = numbers_in(alloc, count, bytes)?;
    Ok(as_flags(alloc, numbers.as_slice())?)
}

/// The levels of a data page, and its values behind them.
#[tactic(auto, unfolding(crate::specs::Pages::data_levels))]
pub fn data_levels(
    alloc: Global,
    optional: bool,
    count: u32,
    body: &[u8],
) -> Result<(Levels, &[u8]), PageFault>
    ensures { Gives is_memory (λ x. (flags_of x.0, x.1.now)) result (pages.data_levels optional count body.now) }
{
    if !optional {
        return Ok((Levels::All(count), body));
    }
    if count == 0 {
        return Ok((Levels::Given(Vec::new(alloc)), body));
    }
    match split_framed(body) {
        Ok((runs, bytes)) => {
            let flags = read_flags(alloc, u64::from(count), runs)?;
            Ok((Levels::Given(flags), bytes))
        }
        Err(fault) => Err(fault),
    }
}

/// The levels of a data page of the second form, whose header says how long they are, and its values behind them.
#[tactic(auto, unfolding(crate::specs::Pages::data_v2_levels))]
pub fn data_v2_levels(
    alloc: Global,
    optional: bool,
    count: u32,
    size: u32,
    body: &[u8],
) -> Result<(Levels, &[u8]), PageFault>
    requires { size ≤ length body.now }
    ensures { Gives is_memory (λ x. (flags_of x.0, x.1.now)) result (pages.data_v2_levels optional count size body.now) }
{
    let (runs, bytes) = body.split_at(size as usize);
    if !optional {
        return Ok((Levels::All(count), bytes));
    }
    let flags = read_flags(alloc, u64::from(count), runs)?;
    Ok((Levels::Given(flags), bytes))
}
