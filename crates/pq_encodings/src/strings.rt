//! Plain BYTE_ARRAY: each byte string behind its length, four bytes, the low byte first.

ghost use Rattle.std.specs.Prelude.{◌≡◌, ◌≤◌, ◌+◌, ◌<◌, ◌++◌, length, map, All, IfOk, OnOk, List, ℕ};
ghost use Rattle.answers.specs.Answers.{Gives};
ghost use Rattle.pq_encodings.specs.Faults.{is_memory};
ghost use Rattle.pq_encodings.specs.Plain as spec;

use crate::fault::EncFault;
use byteorder::{ByteOrder, LittleEndian};
use std::alloc::{AllocError, Global};
use std::marker::Model;

/// The most bytes of one byte string.
pub const MAX_STRING: u32 = 16_777_216;

/// A list of byte strings.
#[derive(Debug, Drop)]
pub struct ByteLists {
    lists: Vec<Vec<u8>>,
}

impl Model for ByteLists {
    ghost use Rattle.std.specs.Prelude.{ℕ, List, map};

    ghost Value = { List (List ℕ) };

    ghost view = { λ b. map (λ list. list.items) b.lists.items };
}

impl ByteLists {
    pub fn from_vec(lists: Vec<Vec<u8>>) -> ByteLists
        ensures { result ≡ map (λ list. list.items) lists.items }
    {
        ByteLists { lists }
    }

    pub fn into_vec(self) -> Vec<Vec<u8>>
        ensures { map (λ list. list.items) result.items ≡ self }
    {
        let ByteLists { lists } = self;
        lists
    }

    pub fn as_slice(&self) -> &[Vec<u8>]
        ensures { map (λ list. list.items) result.now ≡ self.now }
    {
        self.lists.as_slice()
    }
}

/// The byte string at a place, and where it ends.
pub fn string_at(alloc: Global, bytes: &[u8], at: usize) -> Result<(Vec<u8>, usize), EncFault>
    requires { at ≤ length bytes.now }
    ensures string { Gives is_memory (λ x. (x.0.items, x.1)) result (spec.string_at bytes.now at) }
    ensures within { IfOk result (λ x. x.1 ≤ length bytes.now) }
{
    let (_, rest) = bytes.split_at(at);
    if rest.len() < 4 {
        return Err(EncFault::Short { at: at as u64 });
    }
    let size = LittleEndian::read_u32(rest);
    if size > MAX_STRING {
        return Err(EncFault::LongCell {
            at: at as u64,
            length: u64::from(size),
        });
    }
    let size = size as usize;
    if rest.len() - 4 < size {
        return Err(EncFault::Short { at: at as u64 });
    }
    let text = Vec::from_slice(alloc, &rest[4..4 + size])?;
    Ok((text, at + 4 + size))
}

/// The first `count` byte strings, or the first fault.
pub fn decode_strings(alloc: Global, bytes: &[u8], count: u64) -> Result<Vec<Vec<u8>>, EncFault>
    ensures { Gives is_memory (λ v. map (λ x. x.items) v.items) result (spec.strings_at count bytes.now 0) }
{
    let mut out = Vec::new(alloc);
    let mut at = 0;
    for _turn in 0..count {
        let (text, next) = string_at(alloc, bytes, at)?;
        out.push(text)?;
        at = next;
    }
    Ok(out)
}

/// Appends a byte string behind its length.
fn push_string(out: &mut Vec<u8>, string: &[u8]) -> Result<(), AllocError>
    requires { length string.now ≤ MAX_STRING }
    ensures { OnOk result (out.new.items ≡ out.old.items ++ spec.string_bytes string.now) }
{
    let mut size = [0u8; 4];
    LittleEndian::write_u32(&mut size, string.len() as u32);
    out.extend_from_slice(&size)?;
    out.extend_from_slice(string)?;
    Ok(())
}

/// The byte strings, each behind its length.
pub fn string_bytes(alloc: Global, strings: &[Vec<u8>]) -> Result<Vec<u8>, AllocError>
    requires { All (λ x. length x.items ≤ MAX_STRING) strings.now }
    ensures { IfOk result (λ v. v.items ≡ spec.strings_bytes (map (λ x. x.items) strings.now)) }
{
    let mut out = Vec::new(alloc);
    for string in strings {
        push_string(&mut out, string)?;
    }
    Ok(out)
}
