//! Hybrid runs: equal values, or packed groups of eight (Apache Parquet format, "RLE / Bit-Packing Hybrid").

ghost use Rattle.std.specs.Prelude.{◌≡◌, ◌≤◌, ◌<◌, ◌+◌, ◌^◌, ◌++◌, length, List, ℕ, Ok, OnOk, OnErr, IfOk};
ghost use Rattle.std.specs.Vec.{vec_len};
ghost use Rattle.byteorder.specs.Endian.{little_number};
ghost use Rattle.answers.specs.Answers.{Gives};
ghost use Rattle.pq_encodings.specs.Faults.{is_memory};
ghost use Rattle.pq_encodings.specs.Grammar.{HoldsRuns};
ghost use Rattle.pq_encodings.specs.Runs.{Appends, Reads, body_of, levels_in, packed_run, repeated_run, runs_from};
ghost use Rattle.pq_encodings.specs.Runs as spec;

use crate::bits::push_packed;
use crate::fault::EncFault;
use crate::varint::{Varint, varint_in};
use byteorder::{ByteOrder, LittleEndian};
use std::alloc::Global;

/// The number in the first bytes, at most four.
fn low_first(bytes: &[u8], size: usize) -> u32
    requires four { size ≤ 4 }
    requires held { size ≤ length bytes.now }
    ensures { result ≡ little_number size bytes.now }
{
    if size == 0 {
        return 0;
    }
    LittleEndian::read_uint(bytes, size) as u32
}

/// Appends a run of equal values, and answers how many bytes of its body it takes.
fn repeated(
    out: &mut Vec<u32>,
    body: &[u8],
    width: u32,
    need: u64,
    at: u64,
    count: u64,
) -> Result<usize, EncFault>
    requires width { width ≤ 32 }
    requires small { vec_len out.old + need < 2 ^ 64 }
    requires some { 0 < count }
    ensures run { Appends out.old.items out.new.items result (repeated_run width body.now need at count) }
    ensures more { OnOk result ((vec_len out.old < vec_len out.new) × (vec_len out.new ≤ vec_len out.old + need)) }
    ensures err { OnErr result (out.new.items ≡ out.old.items) }
    ensures within { IfOk result (λ used. used ≤ length body.now) }
{
    if need < count {
        return Err(EncFault::BadRun { at });
    }
    let size = ((width + 7) / 8) as usize;
    if body.len() < size {
        return Err(EncFault::Short { at });
    }
    let value = low_first(body, size);
    out.resize(out.len() + count as usize, value)?;
    Ok(size)
}

/// Appends the numbers of a packed run, and answers how many bytes of its body it takes. Memory is taken only for
/// numbers that are wanted and that the bytes hold.
fn packed(
    out: &mut Vec<u32>,
    body: &[u8],
    width: u32,
    need: u64,
    at: u64,
    groups: u64,
) -> Result<usize, EncFault>
    requires width { width ≤ 32 }
    requires small { vec_len out.old + need < 2 ^ 64 }
    requires need { 0 < need }
    requires some { 0 < groups }
    ensures run { Appends out.old.items out.new.items result (packed_run width body.now need at groups) }
    ensures more { OnOk result ((vec_len out.old < vec_len out.new) × (vec_len out.new ≤ vec_len out.old + need)) }
    ensures err { OnErr result (out.new.items ≡ out.old.items) }
    ensures within { IfOk result (λ used. used ≤ length body.now) }
{
    let Some(size) = groups.checked_mul(u64::from(width)) else {
        return Err(EncFault::Short { at });
    };
    if (body.len() as u64) < size {
        return Err(EncFault::Short { at });
    }
    let count = groups.saturating_mul(8).min(need) as usize;
    out.reserve(count)?;
    push_packed(out, body, width, count);
    Ok(size as usize)
}

/// Appends the values of a run behind its header, and answers how many bytes of its body it takes.
fn run_body(
    out: &mut Vec<u32>,
    body: &[u8],
    width: u32,
    need: u64,
    at: u64,
    header: u64,
) -> Result<usize, EncFault>
    requires width { width ≤ 32 }
    requires small { vec_len out.old + need < 2 ^ 64 }
    requires need { 0 < need }
    ensures run { Appends out.old.items out.new.items result (body_of width body.now need at header) }
    ensures more { OnOk result ((vec_len out.old < vec_len out.new) × (vec_len out.new ≤ vec_len out.old + need)) }
    ensures err { OnErr result (out.new.items ≡ out.old.items) }
    ensures within { IfOk result (λ used. used ≤ length body.now) }
{
    let half = header / 2;
    if half == 0 {
        return Err(EncFault::BadRun { at });
    }
    if header % 2 == 0 {
        return repeated(out, body, width, need, at, half);
    }
    packed(out, body, width, need, at, half)
}

/// Appends the values of the run at the front, which begins at place `at`, and answers how many bytes it takes.
#[tactic(auto, unfolding(crate::specs::Runs::run_at))]
fn run_at(
    out: &mut Vec<u32>,
    bytes: &[u8],
    width: u32,
    need: u64,
    at: u64,
) -> Result<usize, EncFault>
    requires width { width ≤ 32 }
    requires small { vec_len out.old + need < 2 ^ 64 }
    requires need { 0 < need }
    ensures run { Appends out.old.items out.new.items result (spec.run_at width bytes.now need at) }
    ensures more { OnOk result ((vec_len out.old < vec_len out.new) × (vec_len out.new ≤ vec_len out.old + need)) }
    ensures err { OnErr result (out.new.items ≡ out.old.items) }
    ensures within { IfOk result (λ used. used ≤ length bytes.now) }
{
    match varint_in(10, bytes) {
        Varint::Short => Err(EncFault::Short { at }),
        Varint::Wide => Err(EncFault::BadRun { at }),
        Varint::Is(header, len) => {
            let (_, body) = bytes.split_at(len);
            match run_body(out, body, width, need, at, header) {
                Ok(used) => Ok(len + used),
                Err(e) => Err(e),
            }
        }
    }
}

/// Appends the values of the runs at the front, up to a fault. The first byte stands at place `first`.
pub fn read_runs(
    out: &mut Vec<u32>,
    bytes: &[u8],
    width: u32,
    count: u64,
    first: u64,
) -> Result<(), EncFault>
    requires width { width ≤ 32 }
    requires first { first ≤ 1 }
    requires empty { vec_len out.old ≡ 0 }
    ensures runs { Reads out.new.items result (runs_from width bytes.now count first) }
    ensures count { OnOk result (vec_len out.new ≡ count) }
{
    let mut rest = bytes;
    let mut at = first;
    for _turn in 0..count {
        let need = count - out.len() as u64;
        if need == 0 {
            return Ok(());
        }
        let used = run_at(out, rest, width, need, at)?;
        rest = rest.split_at(used).1;
        at += used as u64;
    }
    Ok(())
}

/// The first `count` numbers of the runs at the front, or the first fault.
fn first_numbers(alloc: Global, bytes: &[u8], width: u32, count: u64) -> Result<Vec<u32>, EncFault>
    requires { width ≤ 32 }
    ensures gives { Gives is_memory (λ v. v.items) result (levels_in width bytes.now count) }
    ensures count { IfOk result (λ v. vec_len v ≡ count) }
{
    let mut out = Vec::new(alloc);
    match read_runs(&mut out, bytes, width, count, 0) {
        Ok(()) => Ok(out),
        Err(e) => Err(e),
    }
}

/// The first `count` numbers of `width` bits, at most 32, that stand as hybrid runs at the front of the bytes; bytes
/// may follow. A repeated value is taken whole as its bytes are, so it may pass the width.
///
/// Definition levels have width 1, and so have RLE booleans. Memory is taken for at most `count` numbers, and for
/// packed ones only where the bytes hold them.
pub fn decode_levels(
    alloc: Global,
    bytes: &[u8],
    width: u8,
    count: u64,
) -> Result<Vec<u32>, EncFault>
    requires { width ≤ 32 }

    // What is answered is held, and what is held is answered, unless memory runs out: so the bytes hold one list at
    // most, and a fault says that they hold none.
    ensures held { IfOk result (λ v. HoldsRuns width count bytes.now v.items) }
    ensures only { (xs : List ℕ) → HoldsRuns width count bytes.now xs → Gives is_memory (λ v. v.items) result (Ok xs) }

    // Which fault it is, and its place.
    ensures gives { Gives is_memory (λ v. v.items) result (levels_in width bytes.now count) }
    ensures count { IfOk result (λ v. vec_len v ≡ count) }
{
    first_numbers(alloc, bytes, u32::from(width), count)
}
