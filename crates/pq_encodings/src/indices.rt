//! Indices into a dictionary (Apache Parquet format, "Dictionary Encoding").

ghost use Rattle.std.specs.Prelude.{◌≡◌, ◌<◌, ℕ, List, All, length, Ok, Err, Some, None, IfOk, IsOk, MatchResult};
ghost use Rattle.std.specs.Vec.{vec_len};
ghost use Rattle.answers.specs.Answers.{Gives};
ghost use Rattle.pq_encodings.specs.Faults.{is_memory};
ghost use Rattle.pq_encodings.specs.Grammar.{HoldsIndices};
ghost use Rattle.pq_encodings.specs.Indices.{bad_index, indices_in};
ghost use Rattle.pq_encodings.specs.Indices as spec;
ghost use Rattle.pq_encodings.specs.Runs.{Reading, Reads};

use crate::fault::EncFault;
use crate::runs::read_runs;
use std::alloc::Global;

/// The first index that isn't below the size.
fn check(indices: &[u32], size: u64) -> Result<(), EncFault>
    ensures { MatchResult result (λ _. bad_index size 0 indices.now ≡ None) (λ e. bad_index size 0 indices.now ≡ Some e) }
{
    for (at, index) in indices.iter().enumerate() {
        let index = u64::from(*index);
        if index >= size {
            return Err(EncFault::BadIndex {
                at: at as u64,
                index,
                size,
            });
        }
    }
    Ok(())
}

/// The indices, unless one isn't below the size or the reading ended at a fault.
fn checked(indices: Vec<u32>, read: Result<(), EncFault>, size: u64) -> Result<Vec<u32>, EncFault>
    ensures gives { (r : Reading) → Reads indices.items read r → Gives is_memory (λ v. v.items) result (spec.checked size r) }
    ensures same { IfOk result (λ v. IsOk read × (v.items ≡ indices.items)) }
{
    match check(&indices, size) {
        Ok(()) => match read {
            Ok(()) => Ok(indices),
            Err(e) => Err(e),
        },
        Err(e) => Err(e),
    }
}

/// The first `count` indices, or the first fault.
fn first_indices(alloc: Global, bytes: &[u8], count: u64, size: u64) -> Result<Vec<u32>, EncFault>
    ensures gives { Gives is_memory (λ v. v.items) result (indices_in bytes.now count size) }
    ensures count { IfOk result (λ v. vec_len v ≡ count) }
{
    let mut out = Vec::new(alloc);
    if count == 0 {
        return Ok(out);
    }
    if bytes.is_empty() {
        return Err(EncFault::Short { at: 0 });
    }
    let width = u32::from(bytes[0]);
    if width > 32 {
        return Err(EncFault::BadRun { at: 0 });
    }
    let (_, runs) = bytes.split_at(1);
    let read = read_runs(&mut out, runs, width, count, 1);
    checked(out, read, size)
}

/// The first `count` indices of the bytes, each below `size`: a byte of the width in bits, at most 32, then hybrid
/// runs. Bytes may follow. Where no index is wanted, no byte is read.
pub fn decode_indices(
    alloc: Global,
    bytes: &[u8],
    count: u64,
    size: u64,
) -> Result<Vec<u32>, EncFault>
    // What is answered is held, and what is held is answered, unless memory runs out.
    ensures held { IfOk result (λ v. HoldsIndices count size bytes.now v.items) }
    ensures only { (xs : List ℕ) → HoldsIndices count size bytes.now xs → Gives is_memory (λ v. v.items) result (Ok xs) }

    // Which fault it is, and its place.
    ensures gives { Gives is_memory (λ v. v.items) result (indices_in bytes.now count size) }
    ensures count { IfOk result (λ v. vec_len v ≡ count) }
    ensures below { IfOk result (λ v. All (λ x. x < size) v.items) }
{
    first_indices(alloc, bytes, count, size)
}
