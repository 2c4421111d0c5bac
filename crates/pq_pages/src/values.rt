//! The values of a data page.

ghost use Rattle.std.specs.Prelude.{◌≡◌, ◌<◌, ◌^◌, All, Ok, Err, IfOk, option_map};
ghost use Rattle.pq_encodings.specs.Faults.{is_memory as is_values_memory};
ghost use Rattle.pq_encodings.specs.Indices.{indices_before, indices_in};
ghost use Rattle.pq_encodings.specs.Values.{Values, count_of, values_in, values_of};
ghost use Rattle.answers.specs.Answers.{Gives};
ghost use Rattle.pq_pages.specs.Answers.{fault_of, is_memory};
ghost use Rattle.pq_pages.specs.Pages as pages;

use crate::chunk::ChunkSpec;
use crate::fault::PageFault;
use crate::levels::{read_flags, split_framed};
use crate::picks::pick;
use crate::texts::are_texts;
use pq_encodings::{
    ByteLists, EncFault, Physical, Plain, decode_indices, decode_plain, indices_before_fault,
    strings_before_fault,
};
use std::alloc::{AllocError, Global};

pub fn no_values(alloc: Global, kind: Physical) -> Plain
    ensures { values_of result ≡ pages.no_values kind }
{
    match kind {
        Physical::Boolean => Plain::Bools(Vec::new(alloc)),
        Physical::Int32 => Plain::I32s(Vec::new(alloc)),
        Physical::Int64 => Plain::I64s(Vec::new(alloc)),
        Physical::ByteArray => Plain::Strings(ByteLists::from_vec(Vec::new(alloc))),
    }
}

/// Plain values, whether texts or not.
pub fn decoded_plain(
    alloc: Global,
    kind: Physical,
    count: u64,
    bytes: &[u8],
) -> Result<Plain, EncFault>
    ensures { Gives is_values_memory values_of result (values_in kind count bytes.now) }
{
    decode_plain(alloc, kind, count, bytes)
}

/// Of refused plain values, those before the fault, if they may be texts.
fn plain_before(
    alloc: Global,
    kind: Physical,
    count: u64,
    bytes: &[u8],
) -> Result<Plain, AllocError>
    ensures { IfOk result (λ p. values_of p ≡ pages.plain_before kind count bytes.now) }
{
    match kind {
        Physical::ByteArray => Ok(Plain::Strings(strings_before_fault(alloc, bytes, count)?)),
        other => Ok(no_values(alloc, other)),
    }
}

/// The fault of a page of values, where reading ended at a fault: that of an earlier value that is no text goes before.
fn first_fault(text: bool, place: u64, before: &Plain, fault: EncFault) -> PageFault
    requires { place < 2 ^ 63 }
    ensures { pages.judged text place (Err fault) (values_of before.now) ≡ Err result }
{
    match are_texts(text, place, before) {
        Ok(()) => PageFault::from(fault),
        Err(bad) => bad,
    }
}

/// Plain values, of which the first has the place among the chunk's values.
#[tactic(auto, unfolding(crate::specs::Pages::plain_values))]
pub fn plain_values(
    alloc: Global,
    kind: Physical,
    text: bool,
    place: u64,
    count: u64,
    bytes: &[u8],
) -> Result<Plain, PageFault>
    requires { place < 2 ^ 63 }
    ensures { Gives is_memory values_of result (pages.plain_values kind text place count bytes.now) }
{
    match decoded_plain(alloc, kind, count, bytes) {
        Ok(values) => match are_texts(text, place, &values) {
            Ok(()) => Ok(values),
            Err(bad) => Err(bad),
        },
        Err(EncFault::Memory) => Err(PageFault::Memory),
        Err(fault) => {
            let before = plain_before(alloc, kind, count, bytes)?;
            Err(first_fault(text, place, &before, fault))
        }
    }
}

/// Booleans as runs behind their length.
#[tactic(auto, unfolding(crate::specs::Pages::run_values))]
pub fn run_values(alloc: Global, count: u64, bytes: &[u8]) -> Result<Plain, PageFault>
    ensures { Gives is_memory values_of result (pages.run_values count bytes.now) }
{
    if count == 0 {
        return Ok(Plain::Bools(Vec::new(alloc)));
    }
    match split_framed(bytes) {
        Ok((runs, _)) => Ok(Plain::Bools(read_flags(alloc, count, runs)?)),
        Err(fault) => Err(fault),
    }
}

fn decoded_indices(alloc: Global, bytes: &[u8], count: u64, size: u64) -> Result<Vec<u32>, EncFault>
    ensures gives { Gives is_values_memory (λ v. v.items) result (indices_in bytes.now count size) }
    ensures below { IfOk result (λ v. All (λ x. x < size) v.items) }
{
    decode_indices(alloc, bytes, count, size)
}

/// How many values there are.
pub fn count_of(values: &Plain) -> u64
    ensures count { result ≡ count_of (values_of values.now) }
    ensures small { result < 2 ^ 63 }
{
    match values {
        Plain::Bools(values) => values.len() as u64,
        Plain::I32s(values) => values.len() as u64,
        Plain::I64s(values) => values.len() as u64,
        Plain::Strings(values) => values.as_slice().len() as u64,
    }
}

/// Entries of a dictionary by their numbers, of which the first has the place among the chunk's values.
#[tactic(auto, unfolding(crate::specs::Pages::entries_at))]
fn entries_at(
    alloc: Global,
    text: bool,
    place: u64,
    entries: &Plain,
    count: u64,
    bytes: &[u8],
) -> Result<Plain, PageFault>
    requires { place < 2 ^ 63 }
    ensures { Gives is_memory values_of result (pages.entries_at text place (values_of entries.now) count bytes.now) }
{
    let size = count_of(entries);
    match decoded_indices(alloc, bytes, count, size) {
        Ok(numbers) => {
            let values = pick(alloc, entries, numbers.as_slice())?;
            match are_texts(text, place, &values) {
                Ok(()) => Ok(values),
                Err(bad) => Err(bad),
            }
        }
        Err(EncFault::Memory) => Err(PageFault::Memory),
        Err(fault) => {
            let numbers = indices_before_fault(alloc, bytes, count, size)?;
            let before = pick(alloc, entries, numbers.as_slice())?;
            Err(first_fault(text, place, &before, fault))
        }
    }
}

/// Entries of the dictionary, if there is one; of no values none is needed.
#[tactic(auto, unfolding(crate::specs::Pages::indexed_values))]
pub fn indexed_values(
    alloc: Global,
    spec: &ChunkSpec,
    place: u64,
    dictionary: &Option<Plain>,
    count: u64,
    bytes: &[u8],
) -> Result<Plain, PageFault>
    requires { place < 2 ^ 63 }
    ensures { Gives is_memory values_of result (pages.indexed_values spec.now.kind spec.now.text place (option_map values_of dictionary.now) count bytes.now) }
{
    if count == 0 {
        return Ok(no_values(alloc, spec.kind));
    }
    match dictionary {
        Some(entries) => entries_at(alloc, spec.text, place, entries, count, bytes),
        None => Err(PageFault::NoDictionary),
    }
}
