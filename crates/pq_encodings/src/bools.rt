//! Plain BOOLEAN: a bit each, the low bit of a byte first.

ghost use Rattle.std.specs.Prelude.{◌≡◌, ◌≤◌, ◌+◌, ◌*◌, ◌<◌, length, IfOk};
ghost use Rattle.answers.specs.Answers.{Gives};
ghost use Rattle.pq_encodings.specs.Faults.{is_memory};
ghost use Rattle.pq_encodings.specs.Plain as spec;

use crate::fault::EncFault;
use std::alloc::{AllocError, Global};

/// Bit `k` of the bytes.
#[tactic(auto, using(crate::proofs::PlainLemmas::bit_rules))]
fn bool_at(bytes: &[u8], k: usize) -> bool
    requires { k < 8 * length bytes.now }
    ensures { result ≡ spec.bool_at bytes.now k }
{
    (bytes[k / 8] >> (k % 8) as u32) & 1 == 1
}

/// The first `count` bits.
#[tactic(auto, using(crate::proofs::PlainLemmas::plain_rules))]
fn first_bools(alloc: Global, bytes: &[u8], count: usize) -> Result<Vec<bool>, AllocError>
    requires { count ≤ 8 * length bytes.now }
    ensures { IfOk result (λ v. v.items ≡ spec.bools_of bytes.now count) }
{
    let mut out = Vec::new(alloc);
    out.reserve(count)?;
    for k in 0..count {
        out.push_reserved(bool_at(bytes, k));
    }
    Ok(out)
}

/// `count` booleans, or the place of the byte that is missing.
pub fn decode_bools(alloc: Global, bytes: &[u8], count: u64) -> Result<Vec<bool>, EncFault>
    ensures { Gives is_memory (λ v. v.items) result (spec.bools_in bytes.now count) }
{
    let len = bytes.len() as u64;
    if count.div_ceil(8) > len {
        return Err(EncFault::Short { at: len });
    }
    match first_bools(alloc, bytes, count as usize) {
        Ok(values) => Ok(values),
        Err(_) => Err(EncFault::Memory),
    }
}

/// The bit of boolean `k`, 0 past the end.
fn bool_bit(values: &[bool], k: usize) -> u8
    ensures bit { result ≡ spec.bool_bit values.now k }
    ensures small { result < 2 }
{
    match values.get(k) {
        Some(value) => u8::from(*value),
        None => 0,
    }
}

/// The byte of the eight booleans from place `first` on.
fn bool_byte(values: &[bool], first: usize) -> u8
    requires { first < length values.now }
    ensures { result ≡ spec.bool_byte values.now first }
{
    let mut byte = 0;
    for j in 0..8 {
        byte += bool_bit(values, first + j) << j as u32;
    }
    byte
}

/// The booleans as bits, in the fewest bytes that have room; the bits that are left over are 0.
#[tactic(auto, using(crate::proofs::PlainLemmas::plain_rules))]
pub fn bool_bytes(alloc: Global, values: &[bool]) -> Result<Vec<u8>, AllocError>
    ensures { IfOk result (λ v. v.items ≡ spec.bool_bytes values.now) }
{
    let mut out = Vec::new(alloc);
    let count = values.len().div_ceil(8);
    out.reserve(count)?;
    for k in 0..count {
        out.push_reserved(bool_byte(values, 8 * k));
    }
    Ok(out)
}
