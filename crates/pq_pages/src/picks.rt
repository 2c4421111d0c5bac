//! Entries of a dictionary by their numbers (Apache Parquet format, "Dictionary Encoding").

ghost use Rattle.std.specs.Prelude.{◌≡◌, ◌<◌, All, IfOk, OnOk, length, map, slice_index_or, [], ◌++◌, ◌∷◌};
ghost use Rattle.pq_encodings.specs.Values.{count_of, values_of};
ghost use Rattle.pq_pages.specs.Pages.{picked};

use pq_encodings::{ByteLists, Plain};
use std::alloc::{AllocError, Global};

#[tactic(auto, using(crate::proofs::PickLemmas::map_more))]
fn pick_copied<T: Copy>(alloc: Global, entries: &[T], numbers: &[u32]) -> Result<Vec<T>, AllocError>
    requires { All (λ i. i < length entries.now) numbers.now }
    ensures { IfOk result (λ v. (d : T) → v.items ≡ map (λ i. slice_index_or entries.now i d) numbers.now) }
{
    let mut out = Vec::new(alloc);
    for number in numbers {
        out.push(entries[*number as usize])?;
    }
    Ok(out)
}

#[tactic(auto, using(crate::proofs::PickLemmas::map_more))]
fn pick_strings(
    alloc: Global,
    entries: &[Vec<u8>],
    numbers: &[u32],
) -> Result<Vec<Vec<u8>>, AllocError>
    requires { All (λ i. i < length entries.now) numbers.now }
    ensures { IfOk result (λ v. map (λ x. x.items) v.items ≡ map (λ i. slice_index_or (map (λ x. x.items) entries.now) i []) numbers.now) }
{
    let mut out = Vec::new(alloc);
    for number in numbers {
        let entry = Vec::from_slice(alloc, entries[*number as usize].as_slice())?;
        out.push(entry)?;
    }
    Ok(out)
}

/// The entries with these numbers, in their order.
pub fn pick(alloc: Global, entries: &Plain, numbers: &[u32]) -> Result<Plain, AllocError>
    requires { All (λ i. i < count_of (values_of entries.now)) numbers.now }
    ensures { IfOk result (λ p. values_of p ≡ picked (values_of entries.now) numbers.now) }
{
    match entries {
        Plain::Bools(entries) => Ok(Plain::Bools(pick_copied(alloc, entries.as_slice(), numbers)?)),
        Plain::I32s(entries) => Ok(Plain::I32s(pick_copied(alloc, entries.as_slice(), numbers)?)),
        Plain::I64s(entries) => Ok(Plain::I64s(pick_copied(alloc, entries.as_slice(), numbers)?)),
        Plain::Strings(entries) => {
            let found = pick_strings(alloc, entries.as_slice(), numbers)?;
            Ok(Plain::Strings(ByteLists::from_vec(found)))
        }
    }
}
