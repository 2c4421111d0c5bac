//! What stands before the first fault: the byte strings or the indices that a refused page still has.

ghost use Rattle.std.specs.Prelude.{◌≡◌, ◌≤◌, ◌<◌, ◌-◌, ◌++◌, All, length, map, IfOk, IfSome, IsErr, MatchOption, Ok, List, ℕ};
ghost use Rattle.pq_encodings.specs.Indices.{indices_before};
ghost use Rattle.pq_encodings.specs.Indices as indices;
ghost use Rattle.pq_encodings.specs.Plain as plain;
ghost use Rattle.pq_encodings.specs.Runs.{Reading, Reads};

use crate::fault::EncFault;
use crate::runs::read_runs;
use crate::strings::{ByteLists, string_at};
use std::alloc::{AllocError, Global};

/// The byte string at a place, if there is one, and where it ends.
fn text_at(alloc: Global, bytes: &[u8], at: usize) -> Result<Option<(Vec<u8>, usize)>, AllocError>
    requires { at ≤ length bytes.now }
    ensures text { IfOk result (λ o. MatchOption o (IsErr (plain.string_at bytes.now at)) (λ x. plain.string_at bytes.now at ≡ Ok (x.0.items, x.1))) }
    ensures within { IfOk result (λ o. IfSome o (λ x. x.1 ≤ length bytes.now)) }
{
    let found = string_at(alloc, bytes, at);
    if let Err(EncFault::Memory) = found {
        return Err(AllocError);
    }
    Ok(found.ok())
}

/// Of the first `count` byte strings, those before the first fault. Where there is no fault they are all of them.
pub fn strings_before_fault(
    alloc: Global,
    bytes: &[u8],
    count: u64,
) -> Result<ByteLists, AllocError>
    ensures { IfOk result (λ v. v ≡ plain.strings_before count bytes.now 0) }
{
    let mut out = Vec::new(alloc);
    let mut at = 0;
    for _turn in 0..count {
        let found = text_at(alloc, bytes, at)?;
        match found {
            Some((text, next)) => {
                out.push(text)?;
                at = next;
            }
            None => return Ok(ByteLists::from_vec(out)),
        }
    }
    Ok(ByteLists::from_vec(out))
}

/// The first indices, up to one that isn't below the size.
fn below(alloc: Global, numbers: &[u32], size: u64) -> Result<Vec<u32>, AllocError>
    ensures items { IfOk result (λ v. v.items ≡ indices.below size numbers.now) }
    ensures below { IfOk result (λ v. All (λ x. x < size) v.items) }
{
    let mut out = Vec::new(alloc);
    for index in numbers {
        if u64::from(*index) >= size {
            return Ok(out);
        }
        out.push(*index)?;
    }
    Ok(out)
}

/// The numbers that were read before a fault, up to one that isn't below the size.
fn below_of(
    alloc: Global,
    numbers: &[u32],
    read: Result<(), EncFault>,
    size: u64,
) -> Result<Vec<u32>, AllocError>
    ensures items { (r : Reading) → Reads numbers.now read r → IfOk result (λ v. v.items ≡ indices.below size r.values) }
    ensures below { IfOk result (λ v. All (λ x. x < size) v.items) }
{
    if let Err(EncFault::Memory) = read {
        return Err(AllocError);
    }
    below(alloc, numbers, size)
}

/// Of the first `count` indices below `size`, those before the first fault. Where there is no fault they are all of
/// them.
pub fn indices_before_fault(
    alloc: Global,
    bytes: &[u8],
    count: u64,
    size: u64,
) -> Result<Vec<u32>, AllocError>
    ensures items { IfOk result (λ v. v.items ≡ indices_before bytes.now count size) }
    ensures below { IfOk result (λ v. All (λ x. x < size) v.items) }
{
    let mut out = Vec::new(alloc);
    if count == 0 {
        return Ok(out);
    }
    if bytes.is_empty() {
        return Ok(out);
    }
    let width = u32::from(bytes[0]);
    if width > 32 {
        return Ok(out);
    }
    let (_, runs) = bytes.split_at(1);
    let read = read_runs(&mut out, runs, width, count, 1);
    below_of(alloc, out.as_slice(), read, size)
}
