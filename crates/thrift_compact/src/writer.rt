ghost use Rattle.std.specs.Prelude.{◌≡◌, ℤ, ◌+◌, ◌^◌, ◌<◌, ◌≤◌, ◌<ℤ◌, ◌++◌, ◌∷◌, [], length, Some, None, OnOk, OnErr, vec_len, vec_capacity};
ghost use Rattle.thrift_compact.specs.Spelling.{IsSigned, IsBinary, IsListHeader, IsFieldHeader};
ghost use Rattle.thrift_compact.specs.Shortest.{unsigned_spelling, to_zigzag, signed_spelling, binary_spelling, field_spelling, list_spelling, Appends};

use crate::scalars::MAX_NUMBER_BYTES;
use std::alloc::{AllocError, Global};
use std::marker::Model;

/// The most bytes that a header takes.
const MAX_HEADER_BYTES: usize = 1 + MAX_NUMBER_BYTES;

/// Writes items one after the other, each in its shortest spelling.
///
/// Each call has two clauses on `Ok`. `shortest` says that the bytes gain a spelling of the item at
/// their end, and that no spelling of it is shorter. `exact` names those bytes. Where memory is
/// wanting, nothing is written.
#[derive(Debug, Drop)]
pub struct Writer {
    bytes: Vec<u8>,
}

impl Model for Writer {
    ghost use Rattle.std.specs.Prelude.{ℕ, List};

    ghost Value = { List ℕ };

    ghost view = { λ w. w.bytes.items };
}

fn to_zigzag(v: i64) -> u64
    ensures { result ≡ to_zigzag v }
{
    if v < 0 {
        2 * (-(v + 1)) as u64 + 1
    } else {
        2 * v as u64
    }
}

/// Appends a number in its shortest spelling, for which there is room.
#[tactic(auto, using(crate::proofs::WriterLemmas::number_turn))]
fn append_number(bytes: &mut Vec<u8>, n: u64)
    requires { vec_len bytes.old + 10 ≤ vec_capacity bytes.old }
    ensures items { bytes.new.items ≡ bytes.old.items ++ unsigned_spelling n }
    ensures room { vec_len bytes.new ≤ vec_len bytes.old + 10 }
    ensures capacity { vec_capacity bytes.new ≡ vec_capacity bytes.old }
{
    let mut left = n;
    for _turn in 0..MAX_NUMBER_BYTES {
        if left < 128 {
            bytes.push_reserved(left as u8);
            return;
        }
        bytes.push_reserved((128 + left % 128) as u8);
        left /= 128;
    }
}

/// Appends a field's header, for which there is room.
#[tactic(auto, unfolding(crate::specs::Shortest::field_spelling))]
fn append_field_header(bytes: &mut Vec<u8>, last: i16, id: i16, ty: u8)
    requires past { last <ℤ id }
    requires known { ty < 13 }
    requires room { vec_len bytes.old + 11 ≤ vec_capacity bytes.old }
    ensures { bytes.new.items ≡ bytes.old.items ++ field_spelling last id ty }
{
    let step = i32::from(id) - i32::from(last);
    if step < 16 {
        bytes.push_reserved(16 * step as u8 + ty);
    } else {
        bytes.push_reserved(ty);
        append_number(bytes, to_zigzag(i64::from(id)));
    }
}

/// Appends the header of a list or a set, for which there is room.
#[tactic(auto, unfolding(crate::specs::Shortest::list_spelling))]
fn append_list_header(bytes: &mut Vec<u8>, ty: u8, size: u32)
    requires known { ty < 13 }
    requires room { vec_len bytes.old + 11 ≤ vec_capacity bytes.old }
    ensures { bytes.new.items ≡ bytes.old.items ++ list_spelling ty size }
{
    if size < 15 {
        bytes.push_reserved(16 * size as u8 + ty);
    } else {
        bytes.push_reserved(240 + ty);
        append_number(bytes, u64::from(size));
    }
}

impl Writer {
    /// A writer that has written nothing.
    pub fn new(alloc: Global) -> Writer
        ensures { result ≡ [] }
    {
        Writer {
            bytes: Vec::new(alloc),
        }
    }

    /// Writes the header of a field: the step from the field `last` before it, or 0 at the first,
    /// if that is at most 15, else the id.
    #[tactic(auto, using(crate::proofs::WriterLemmas::appends_field))]
    pub fn put_header(&mut self, last: i16, id: i16, ty: u8) -> Result<(), AllocError>
        requires past { last <ℤ id }
        requires some { 0 < ty }
        requires known { ty < 13 }
        ensures shortest { OnOk result (Appends (IsFieldHeader last) self.old self.new (Some (id, ty))) }
        ensures exact { OnOk result (self.new ≡ self.old ++ field_spelling last id ty) }
        ensures err { OnErr result (self.new ≡ self.old) }
    {
        self.bytes.reserve(MAX_HEADER_BYTES)?;
        append_field_header(&mut self.bytes, last, id, ty);
        Ok(())
    }

    /// Writes a signed number of 16, 32 or 64 bits, all of which are spelled alike.
    #[tactic(auto, using(crate::proofs::WriterLemmas::appends_signed))]
    pub fn put_i64(&mut self, v: i64) -> Result<(), AllocError>
        ensures shortest { OnOk result (Appends (IsSigned (2 ^ 64)) self.old self.new v) }
        ensures exact { OnOk result (self.new ≡ self.old ++ signed_spelling v) }
        ensures err { OnErr result (self.new ≡ self.old) }
    {
        self.bytes.reserve(MAX_NUMBER_BYTES)?;
        append_number(&mut self.bytes, to_zigzag(v));
        Ok(())
    }

    /// Writes a byte string with its length.
    #[tactic(auto, using(crate::proofs::WriterLemmas::appends_binary))]
    pub fn put_binary(&mut self, bytes: &[u8]) -> Result<(), AllocError>
        requires { length bytes.now < 2 ^ 32 }
        ensures shortest { OnOk result (Appends IsBinary self.old self.new bytes.now) }
        ensures exact { OnOk result (self.new ≡ self.old ++ binary_spelling bytes.now) }
        ensures err { OnErr result (self.new ≡ self.old) }
    {
        self.bytes.reserve(MAX_NUMBER_BYTES + bytes.len())?;
        append_number(&mut self.bytes, bytes.len() as u64);
        self.bytes.extend_from_slice(bytes)?;
        Ok(())
    }

    /// Writes the header of a list or a set of so many elements of this type.
    #[tactic(auto, using(crate::proofs::WriterLemmas::appends_list))]
    pub fn put_list(&mut self, ty: u8, size: u32) -> Result<(), AllocError>
        requires some { 0 < ty }
        requires known { ty < 13 }
        ensures shortest { OnOk result (Appends IsListHeader self.old self.new (ty, size)) }
        ensures exact { OnOk result (self.new ≡ self.old ++ list_spelling ty size) }
        ensures err { OnErr result (self.new ≡ self.old) }
    {
        self.bytes.reserve(MAX_HEADER_BYTES)?;
        append_list_header(&mut self.bytes, ty, size);
        Ok(())
    }

    /// Writes the stop that ends a struct.
    #[tactic(auto, using(crate::proofs::WriterLemmas::appends_stop))]
    pub fn put_stop(&mut self) -> Result<(), AllocError>
        ensures shortest { (last : ℤ) → OnOk result (Appends (IsFieldHeader last) self.old self.new None) }
        ensures exact { OnOk result (self.new ≡ self.old ++ 0 ∷ []) }
        ensures err { OnErr result (self.new ≡ self.old) }
    {
        self.bytes.reserve(1)?;
        self.bytes.push_reserved(0);
        Ok(())
    }

    /// The bytes that were written.
    pub fn finish(self) -> Vec<u8>
        ensures { result.items ≡ self }
    {
        self.bytes
    }
}
