ghost use Rattle.std.specs.Prelude.{◌≡◌, ℕ, ℤ, List, ◌+◌, ◌-◌, ◌<◌, ◌≤◌, length, pos};
ghost use Rattle.thrift_compact.specs.Cursor.{Cursor, end_of};
ghost use Rattle.thrift_compact.specs.Reading.{Read, start_of, field_header_in};
ghost use Rattle.thrift_compact.specs.Structs.{Fills, Obtains, row_in, struct_in, struct_of, structs_of};

use crate::fault::ThriftFault;
use crate::fields::{next_field, read_list};
use crate::kept::StructList;
use crate::reader::Reader;
use crate::struct_fault::StructFault;
use std::alloc::Global;

/// A draft of a struct: what was read of its fields.
pub trait Parts<'a>: Drop {
    /// The draft before the first field.
    ghost empty: { Self };

    /// What a field makes of a draft: of bytes that end at an offset, a field with this id and type, whose value
    /// begins the bytes.
    ghost part: { ℕ → Self → ℤ → ℕ → List ℕ → Read Self };

    fn new() -> Self
        ensures { result ≡ empty };

    fn take(
        &mut self,
        alloc: Global,
        reader: &mut Reader<'a>,
        id: i16,
        ty: u8,
    ) -> Result<(), StructFault>
        ensures { Fills reader.old reader.new result self.new (part (end_of reader.old) self.old id ty reader.old.rest) };
}

/// Reads the fields of a struct up to its stop into a draft.
#[tactic(auto, using(crate::proofs::StructLemmas::struct_step, crate::proofs::StructLemmas::struct_fails, crate::proofs::StructLemmas::struct_done))]
pub fn read_parts<'a, D: Parts<'a>>(
    alloc: Global,
    reader: &mut Reader<'a>,
    draft: &mut D,
) -> Result<(), StructFault>
    ensures { Fills reader.old reader.new result draft.new
        (struct_in (end_of reader.old) (D.part (end_of reader.old)) (length reader.old.rest) (pos 0) draft.old reader.old.rest) }
{
    let mut last = 0;
    for _turn in 0..reader.left() {
        let Some((id, ty)) = next_field(reader, last)? else {
            return Ok(());
        };
        draft.take(alloc, reader, id, ty)?;
        last = id;
    }
    Err(StructFault::Thrift(ThriftFault::Short { at: reader.at() }))
}

/// Reads a struct.
#[tactic(auto, unfolding(crate::specs::Structs::struct_of))]
pub fn read_struct<'a, D: Parts<'a>>(
    alloc: Global,
    reader: &mut Reader<'a>,
) -> Result<D, StructFault>
    ensures { Obtains reader.old reader.new result (struct_of D.part D.empty (end_of reader.old) reader.old.rest) }
{
    let mut draft = D::new();
    read_parts(alloc, reader, &mut draft)?;
    Ok(draft)
}

/// Reads so many structs, one after the other. Memory is taken for those that were read, and not for the count.
#[tactic(auto, using(crate::proofs::StructLemmas::row_goes_on, crate::proofs::StructLemmas::row_fails, crate::proofs::StructLemmas::row_ends))]
fn read_row<'a, D: Parts<'a>>(
    alloc: Global,
    reader: &mut Reader<'a>,
    count: u32,
) -> Result<StructList<D>, StructFault>
    ensures { Obtains reader.old reader.new result (row_in (struct_of D.part D.empty (end_of reader.old)) count reader.old.rest) }
{
    let mut structs = StructList::new(alloc);
    for _turn in 0..count {
        let next = read_struct::<D>(alloc, reader)?;
        structs.push(next)?;
    }
    Ok(structs)
}

/// Reads a list of structs. Whether the next list is one, [`Reader::is_list_of`] tells.
#[tactic(auto, unfolding(crate::specs::Structs::structs_of))]
pub fn read_structs<'a, D: Parts<'a>>(
    alloc: Global,
    reader: &mut Reader<'a>,
) -> Result<StructList<D>, StructFault>
    ensures { Obtains reader.old reader.new result (structs_of D.part D.empty (end_of reader.old) reader.old.rest) }
{
    let (_, count) = read_list(reader)?;
    read_row(alloc, reader, count)
}
