ghost use Rattle.std.specs.Prelude.{◌≡◌, ◌^◌, ◌≤◌, drop, length, take};
ghost use Rattle.thrift_compact.specs.Spelling.{IsSigned, IsByte, IsBinary, IsListHeader, IsFieldHeader};
ghost use Rattle.thrift_compact.specs.Trees.{IsValue};
ghost use Rattle.thrift_compact.specs.Reading.{signed_in, byte_in, binary_in, list_header_in, begins_list_of, count_in, field_header_in, after_value};
ghost use Rattle.thrift_compact.specs.Cursor.{Cursor, end_of, Finds, FindsSome, Reads, ReadsSlice, Skips};

use crate::fault::ThriftFault;
use crate::headers::{low_bits, parse_field_header, parse_list_header};
use crate::scalars::{
    parse_binary, parse_byte, parse_i32, parse_i64, parse_u32, parse_u64, start_of,
};
use crate::skipping::skip_value;
use std::marker::Model;

/// How many structs, lists, sets and maps a skipped value may have inside one another, itself
/// counted.
const MAX_DEPTH: u8 = 16;

/// Reads items from the front of borrowed bytes, and takes no memory.
///
/// Each call has two clauses. `item` says it by the spellings: what is read is the item at this
/// place and the reader moves past exactly it, and a fault means that no item stands here. `exact`
/// says it by a function of the bytes, which names the first fault in byte order too. After a fault
/// the reader stands where it stood.
#[derive(Debug, Drop)]
pub struct Reader<'a> {
    rest: &'a [u8],
    end: usize,
}

impl<'a> Model for Reader<'a> {
    ghost use Rattle.std.specs.Prelude.{◌-◌, ◌≤◌, length};
    ghost use Rattle.thrift_compact.specs.Cursor.{Cursor};

    ghost Value = { Cursor };

    ghost view = { λ r. record { at = r.end - length r.rest.now; rest = r.rest.now } };

    ghost invariant = { λ r. length r.rest.now ≤ r.end };
}

impl<'a> Reader<'a> {
    /// A reader at the first of these bytes.
    pub fn new(bytes: &'a [u8]) -> Reader<'a>
        ensures { result ≡ record { at = 0; rest = bytes.now } }
    {
        Reader {
            rest: bytes,
            end: bytes.len(),
        }
    }

    /// The offset of the next item in the bytes that the reader was made with.
    pub fn at(&self) -> u64
        ensures { result ≡ self.now.at }
    {
        start_of(self.end, self.rest)
    }

    /// How many bytes are left. A struct has no more fields than that, which bounds a loop over
    /// them.
    pub fn left(&self) -> usize
        ensures { result ≡ length self.now.rest }
    {
        self.rest.len()
    }

    /// Reads a field's header: its id and its type, or none at the struct's stop. `last` is the id
    /// of the field before it in its struct, and 0 at the first.
    #[tactic(auto, using(crate::proofs::ReaderLemmas::field_header_item), unfolding(crate::specs::Cursor::Finds))]
    pub fn read_header(&mut self, last: i16) -> Result<Option<(i16, u8)>, ThriftFault>
        ensures item { Finds (IsFieldHeader last) self.old self.new result }
        ensures exact { Reads self.old self.new result (field_header_in self.old.at last self.old.rest) }
    {
        let (header, rest) = parse_field_header(self.at(), last, self.rest)?;
        self.rest = rest;
        Ok(header)
    }

    /// Reads a signed number of 64 bits, also one that is not in its shortest spelling.
    #[tactic(auto, using(crate::proofs::ReaderLemmas::signed_item), unfolding(crate::specs::Cursor::Finds))]
    pub fn read_i64(&mut self) -> Result<i64, ThriftFault>
        ensures item { Finds (IsSigned (2 ^ 64)) self.old self.new result }
        ensures exact { Reads self.old self.new result (signed_in self.old.at (2 ^ 64) self.old.rest) }
    {
        let (value, rest) = parse_i64(self.at(), self.rest)?;
        self.rest = rest;
        Ok(value)
    }

    /// Reads a signed number of 32 bits, also one that is not in its shortest spelling.
    #[tactic(auto, using(crate::proofs::ReaderLemmas::signed_item), unfolding(crate::specs::Cursor::Finds))]
    pub fn read_i32(&mut self) -> Result<i32, ThriftFault>
        ensures item { Finds (IsSigned (2 ^ 32)) self.old self.new result }
        ensures exact { Reads self.old self.new result (signed_in self.old.at (2 ^ 32) self.old.rest) }
    {
        let (value, rest) = parse_i32(self.at(), self.rest)?;
        self.rest = rest;
        Ok(value)
    }

    /// Reads a number of 32 bits that counts something: a negative one is too wide.
    pub fn read_u32(&mut self) -> Result<u32, ThriftFault>
        ensures { Reads self.old self.new result (count_in self.old.at (2 ^ 32) self.old.rest) }
    {
        let (value, rest) = parse_u32(self.at(), self.rest)?;
        self.rest = rest;
        Ok(value)
    }

    /// Reads a number of 64 bits that counts something: a negative one is too wide.
    pub fn read_u64(&mut self) -> Result<u64, ThriftFault>
        ensures { Reads self.old self.new result (count_in self.old.at (2 ^ 64) self.old.rest) }
    {
        let (value, rest) = parse_u64(self.at(), self.rest)?;
        self.rest = rest;
        Ok(value)
    }

    /// Reads a signed byte.
    #[tactic(auto, using(crate::proofs::ReaderLemmas::byte_item), unfolding(crate::specs::Cursor::Finds))]
    pub fn read_byte(&mut self) -> Result<i8, ThriftFault>
        ensures item { Finds IsByte self.old self.new result }
        ensures exact { Reads self.old self.new result (byte_in self.old.at self.old.rest) }
    {
        let (value, rest) = parse_byte(self.at(), self.rest)?;
        self.rest = rest;
        Ok(value)
    }

    /// Reads a byte string with its length, as a slice of the bytes that the reader was made with.
    #[tactic(auto, using(crate::proofs::ReaderLemmas::binary_item), unfolding(crate::specs::Cursor::Finds))]
    pub fn read_binary(&mut self) -> Result<&'a [u8], ThriftFault>
        ensures item { Finds (λ bytes text. IsBinary bytes text.now) self.old self.new result }
        ensures exact { ReadsSlice self.old self.new result (binary_in self.old.at self.old.rest) }
    {
        let (text, rest) = parse_binary(self.at(), self.rest)?;
        self.rest = rest;
        Ok(text)
    }

    /// Reads the header of a list or a set: the elements' type, and how many they are.
    #[tactic(auto, using(crate::proofs::ReaderLemmas::list_header_item), unfolding(crate::specs::Cursor::Finds))]
    pub fn read_list(&mut self) -> Result<(u8, u32), ThriftFault>
        ensures item { Finds IsListHeader self.old self.new result }
        ensures exact { Reads self.old self.new result (list_header_in self.old.at self.old.rest) }
    {
        let (header, rest) = parse_list_header(self.at(), self.rest)?;
        self.rest = rest;
        Ok(header)
    }

    /// Whether the next byte names this type as that of a list's or a set's elements. A list of
    /// another type can then be skipped whole, and keeps its place for the depth.
    pub fn is_list_of(&self, ty: u8) -> bool
        ensures { result ≡ begins_list_of ty self.now.rest }
    {
        match self.rest {
            [] => false,
            [b, ..] => low_bits(*b) == ty,
        }
    }

    /// Passes over a value of this type, with at most 16 structs, lists, sets and maps inside one
    /// another. A boolean field takes no bytes, since its type is its value.
    ///
    /// The time is linear in the bytes passed, whatever sizes they state.
    #[tactic(auto, using(crate::proofs::ReaderLemmas::value_item), unfolding(crate::specs::Cursor::FindsSome))]
    pub fn skip(&mut self, ty: u8) -> Result<(), ThriftFault>
        ensures item { FindsSome (IsValue 16 ty) self.old self.new result }
        ensures exact { Skips self.old self.new result (after_value (end_of self.old) 16 ty self.old.rest) }
    {
        self.rest = skip_value(self.end, MAX_DEPTH, ty, self.rest)?;
        Ok(())
    }

    /// Passes over the next bytes, which are no items, and answers them.
    pub fn pass(&mut self, count: usize) -> &'a [u8]
        requires { count ≤ length self.old.rest }
        ensures passed { result.now ≡ take count self.old.rest }
        ensures left { self.new.rest ≡ drop count self.old.rest }
        ensures end { end_of self.new ≡ end_of self.old }
    {
        let (passed, rest) = self.rest.split_at(count);
        self.rest = rest;
        passed
    }
}
