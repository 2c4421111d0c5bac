//! Numbers of any width among bits, the low bit first.

ghost use Rattle.std.specs.Prelude.{◌≡◌, ◌≤◌, ◌+◌, ◌*◌, ◌/◌, ◌%◌, ◌<◌, ◌++◌, ◌^◌, length, map, drop};
ghost use Rattle.std.specs.List.{range_with_len};
ghost use Rattle.std.specs.Vec.{vec_len, vec_capacity};
ghost use Rattle.byteorder.specs.Endian.{little_number};
ghost use Rattle.pq_encodings.specs.Bits.{packed_number, packed_numbers};

use byteorder::{ByteOrder, LittleEndian};
use std::mem;

/// So many bytes hold a word from the first bit of each number of a group on: the last begins within byte 28.
const WIDE_GROUP: usize = 36;

/// The eight bytes from a place on, with zeros past the end.
#[tactic(auto, using(crate::proofs::BitLemmas::word_rules))]
fn word_at(bytes: &[u8], at: usize) -> u64
    ensures { result ≡ little_number 8 (drop at bytes.now) }
{
    if at >= bytes.len() {
        return 0;
    }
    let rest = &bytes[at..];
    if rest.len() >= 8 {
        return LittleEndian::read_u64(rest);
    }
    let mut padded = [0u8; 8];
    padded[..rest.len()].copy_from_slice(rest);
    LittleEndian::read_u64(&padded)
}

/// The `width` bits from bit `shift` of a word on.
#[tactic(auto, using(crate::proofs::BitLemmas::power_rules))]
fn bits_of(word: u64, shift: u32, width: u32) -> u32
    requires width { width ≤ 32 }
    requires shift { shift < 64 }
    ensures { result ≡ word / 2 ^ shift % 2 ^ width }
{
    ((word >> shift) % (1u64 << width)) as u32
}

/// Number `k` of those that stand packed. Its place is found from that of its group of eight, so that no product
/// passes the bytes' length.
fn packed_at(bytes: &[u8], width: u32, k: usize) -> u32
    requires width { width ≤ 32 }
    requires held { k * width ≤ 8 * length bytes.now }
    ensures { result ≡ packed_number width bytes.now (k * width) }
{
    let group = (k / 8) * width as usize;
    let inner = (k % 8) as u32 * width;
    let word = word_at(bytes, group + (inner / 8) as usize);
    bits_of(word, inner % 8, width)
}

/// Appends a group of eight numbers that lie in one word together.
#[inline]
fn push_narrow(out: &mut Vec<u32>, group: &[u8], width: u32)
    requires width { width ≤ 8 }
    requires room { vec_len out.old + 8 ≤ vec_capacity out.old }
    ensures len { vec_len out.new ≡ vec_len out.old + 8 }
    ensures capacity { vec_capacity out.new ≡ vec_capacity out.old }
    ensures items { out.new.items ≡ out.old.items ++ packed_numbers width group.now 8 }
{
    let word = word_at(group, 0);
    for k in 0..8 {
        out.push_reserved(bits_of(word, k * width, width));
    }
}

/// Appends a group of eight numbers of which each lies in a word of its own, with no test for the bytes' end.
#[inline]
fn push_wide(out: &mut Vec<u32>, group: &[u8], width: u32)
    requires width { width ≤ 32 }
    requires words { WIDE_GROUP ≤ length group.now }
    requires room { vec_len out.old + 8 ≤ vec_capacity out.old }
    ensures len { vec_len out.new ≡ vec_len out.old + 8 }
    ensures capacity { vec_capacity out.new ≡ vec_capacity out.old }
    ensures items { out.new.items ≡ out.old.items ++ packed_numbers width group.now 8 }
{
    for k in 0..8 {
        let first = k * width;
        let (_, rest) = group.split_at((first / 8) as usize);
        out.push_reserved(bits_of(LittleEndian::read_u64(rest), first % 8, width));
    }
}

/// Appends a group of eight numbers one by one, up to the bytes' end.
fn push_last(out: &mut Vec<u32>, group: &[u8], width: u32)
    requires width { width ≤ 32 }
    requires held { width ≤ length group.now }
    requires room { vec_len out.old + 8 ≤ vec_capacity out.old }
    ensures len { vec_len out.new ≡ vec_len out.old + 8 }
    ensures capacity { vec_capacity out.new ≡ vec_capacity out.old }
    ensures items { out.new.items ≡ out.old.items ++ packed_numbers width group.now 8 }
{
    for k in 0..8 {
        out.push_reserved(packed_at(group, width, k));
    }
}

/// Appends the first group of eight numbers.
#[inline]
fn push_group(out: &mut Vec<u32>, group: &[u8], width: u32)
    requires width { width ≤ 32 }
    requires held { width ≤ length group.now }
    requires room { vec_len out.old + 8 ≤ vec_capacity out.old }
    ensures len { vec_len out.new ≡ vec_len out.old + 8 }
    ensures capacity { vec_capacity out.new ≡ vec_capacity out.old }
    ensures items { out.new.items ≡ out.old.items ++ packed_numbers width group.now 8 }
{
    if width <= 8 {
        push_narrow(out, group, width);
    } else if group.len() >= WIDE_GROUP {
        push_wide(out, group, width);
    } else {
        push_last(out, group, width);
    }
}

/// Appends the first `count` numbers that stand packed.
pub fn push_packed(out: &mut Vec<u32>, bytes: &[u8], width: u32, count: usize)
    requires width { width ≤ 32 }
    requires room { vec_len out.old + count ≤ vec_capacity out.old }
    requires held { count * width ≤ 8 * length bytes.now }
    ensures len { vec_len out.new ≡ vec_len out.old + count }
    ensures items { out.new.items ≡ out.old.items ++ packed_numbers width bytes.now count }
{
    // A Vec of the function's own stays in registers; one behind a reference is read and written for each number.
    let alloc = *out.allocator();
    let mut own = mem::replace(out, Vec::new(alloc));
    let groups = count / 8;
    for group in 0..groups {
        let (_, rest) = bytes.split_at(group * width as usize);
        push_group(&mut own, rest, width);
    }
    for k in 8 * groups..count {
        own.push_reserved(packed_at(bytes, width, k));
    }
    *out = own;
}
