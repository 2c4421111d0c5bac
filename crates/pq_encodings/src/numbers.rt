//! Plain INT32 and INT64: four or eight bytes each, the low byte first.

ghost use Rattle.std.specs.Prelude.{◌≡◌, ◌≤◌, ◌+◌, ◌*◌, length, IfOk};
ghost use Rattle.answers.specs.Answers.{Gives};
ghost use Rattle.pq_encodings.specs.Faults.{is_memory};
ghost use Rattle.pq_encodings.specs.Plain as spec;

use crate::fault::EncFault;
use byteorder::{ByteOrder, LittleEndian};
use std::alloc::{AllocError, Global};

/// Number `k` of four bytes.
fn i32_at(bytes: &[u8], k: usize) -> i32
    requires { 4 * k + 4 ≤ length bytes.now }
    ensures { result ≡ spec.i32_at bytes.now k }
{
    LittleEndian::read_u32(&bytes[4 * k..]).cast_signed()
}

/// Number `k` of eight bytes.
fn i64_at(bytes: &[u8], k: usize) -> i64
    requires { 8 * k + 8 ≤ length bytes.now }
    ensures { result ≡ spec.i64_at bytes.now k }
{
    LittleEndian::read_u64(&bytes[8 * k..]).cast_signed()
}

/// The first `count` numbers of four bytes.
#[tactic(auto, using(crate::proofs::PlainLemmas::plain_rules))]
fn first_i32s(alloc: Global, bytes: &[u8], count: usize) -> Result<Vec<i32>, AllocError>
    requires { 4 * count ≤ length bytes.now }
    ensures { IfOk result (λ v. v.items ≡ spec.i32s_of bytes.now count) }
{
    let mut out = Vec::new(alloc);
    out.reserve(count)?;
    for k in 0..count {
        out.push_reserved(i32_at(bytes, k));
    }
    Ok(out)
}

/// The first `count` numbers of eight bytes.
#[tactic(auto, using(crate::proofs::PlainLemmas::plain_rules))]
fn first_i64s(alloc: Global, bytes: &[u8], count: usize) -> Result<Vec<i64>, AllocError>
    requires { 8 * count ≤ length bytes.now }
    ensures { IfOk result (λ v. v.items ≡ spec.i64s_of bytes.now count) }
{
    let mut out = Vec::new(alloc);
    out.reserve(count)?;
    for k in 0..count {
        out.push_reserved(i64_at(bytes, k));
    }
    Ok(out)
}

/// `count` numbers of four bytes, or the place of the first that isn't whole.
pub fn decode_i32s(alloc: Global, bytes: &[u8], count: u64) -> Result<Vec<i32>, EncFault>
    ensures { Gives is_memory (λ v. v.items) result (spec.i32s_in bytes.now count) }
{
    let whole = (bytes.len() / 4) as u64;
    if whole < count {
        return Err(EncFault::Short { at: 4 * whole });
    }
    match first_i32s(alloc, bytes, count as usize) {
        Ok(values) => Ok(values),
        Err(_) => Err(EncFault::Memory),
    }
}

/// `count` numbers of eight bytes, or the place of the first that isn't whole.
pub fn decode_i64s(alloc: Global, bytes: &[u8], count: u64) -> Result<Vec<i64>, EncFault>
    ensures { Gives is_memory (λ v. v.items) result (spec.i64s_in bytes.now count) }
{
    let whole = (bytes.len() / 8) as u64;
    if whole < count {
        return Err(EncFault::Short { at: 8 * whole });
    }
    match first_i64s(alloc, bytes, count as usize) {
        Ok(values) => Ok(values),
        Err(_) => Err(EncFault::Memory),
    }
}

/// The bytes of numbers, four each.
pub fn i32_bytes(alloc: Global, values: &[i32]) -> Result<Vec<u8>, AllocError>
    ensures { IfOk result (λ v. v.items ≡ spec.i32_bytes values.now) }
{
    let mut out = vec![in alloc; 0u8; 4 * values.len()]?;
    LittleEndian::write_i32_into(values, &mut out);
    Ok(out)
}

/// The bytes of numbers, eight each.
pub fn i64_bytes(alloc: Global, values: &[i64]) -> Result<Vec<u8>, AllocError>
    ensures { IfOk result (λ v. v.items ≡ spec.i64_bytes values.now) }
{
    let mut out = vec![in alloc; 0u8; 8 * values.len()]?;
    LittleEndian::write_i64_into(values, &mut out);
    Ok(out)
}
