//! The one spelling of definition levels.

ghost use Rattle.std.specs.Prelude.{◌≡◌, ◌≤◌, ◌<◌, ◌+◌, ◌*◌, ◌^◌, ◌++◌, [], ◌∷◌, length, drop, map, List, ℕ, OnOk, IfOk, IsTrue, slice_index_or, false};
ghost use Rattle.pq_encodings.specs.Grammar.{HoldsRuns};
ghost use Rattle.pq_encodings.specs.Levels as spec;
ghost use Rattle.pq_encodings.specs.Levels.{StartsOther};

use crate::varint::push_varint;
use std::alloc::{AllocError, Global};

/// Appends one run.
fn push_run(out: &mut Vec<u8>, value: bool, count: u64) -> Result<(), AllocError>
    requires { count < 2 ^ 63 }
    ensures { OnOk result (out.new.items ≡ out.old.items ++ spec.run_bytes (record { value = value; count = count })) }
{
    push_varint(out, 9, 2 * count)?;
    out.push(u8::from(value))?;
    Ok(())
}

/// Whether the run that has the value at a place ends there.
fn ends_run(levels: &[bool], at: usize) -> bool
    requires { at < length levels.now }
    ensures other { IsTrue result → StartsOther (slice_index_or levels.now at false) (drop (at + 1) levels.now) }
    ensures same { result ≡ false → (at + 1 < length levels.now) × (slice_index_or levels.now (at + 1) false ≡ slice_index_or levels.now at false) }
{
    match &levels[at + 1..] {
        [] => true,
        [next, ..] => *next != levels[at],
    }
}

/// The longest runs of equal levels.
fn longest_runs(alloc: Global, levels: &[bool]) -> Result<Vec<u8>, AllocError>
    ensures { IfOk result (λ v. v.items ≡ spec.level_bytes levels.now) }
{
    let mut out = Vec::new(alloc);
    let mut count = 0u64;
    for at in 0..levels.len() {
        count += 1;
        if ends_run(levels, at) {
            push_run(&mut out, levels[at], count)?;
            count = 0;
        }
    }
    Ok(out)
}

/// The levels as hybrid runs of width 1: the longest runs of equal values, each an even header and one byte.
pub fn encode_levels(alloc: Global, levels: &[bool]) -> Result<Vec<u8>, AllocError>
    ensures spelled { IfOk result (λ v. v.items ≡ spec.level_bytes levels.now) }

    // The bytes hold the levels, whatever follows.
    ensures held { IfOk result (λ v. (rest : List ℕ) → HoldsRuns 1 (length levels.now) (v.items ++ rest) (map spec.level_of levels.now)) }
{
    longest_runs(alloc, levels)
}
