//! Which fields of a footer's structs are used, and what each adds to a draft.

ghost use Rattle.thrift_compact.specs.Reading.{byte_in};
ghost use Rattle.thrift_compact.specs.Cursor.{Reads};

use crate::drafts::{
    ChunkDraft, ChunkMetaDraft, ElementDraft, FooterDraft, GroupDraft, IntegerDraft, LogicalDraft,
    Member,
};
use std::alloc::Global;
use thrift_compact::types::{BINARY, BYTE, FALSE, I32, I64, LIST, STRUCT, TRUE};
use thrift_compact::{
    Parts, Reader, StructFault, ThriftFault, pass_field, read_count, read_int, read_long,
    read_long_count, read_struct, read_structs, read_text,
};

/// A signed byte.
fn read_byte(reader: &mut Reader) -> Result<i8, ThriftFault>
    ensures { Reads reader.old reader.new result (byte_in reader.old.at reader.old.rest) }
{
    reader.read_byte()
}

impl<'a> Parts<'a> for IntegerDraft {
    ghost use Rattle.pq_meta.specs.Drafts.{no_integer, integer_part};

    ghost empty = { no_integer };

    ghost part = { integer_part };

    fn new() -> IntegerDraft {
        IntegerDraft {
            bit_width: None,
            signed: None,
        }
    }

    #[tactic(auto, unfolding(crate::specs::Drafts::integer_part))]
    fn take(
        &mut self,
        _alloc: Global,
        reader: &mut Reader<'a>,
        id: i16,
        ty: u8,
    ) -> Result<(), StructFault> {
        match (id, ty) {
            (1, BYTE) => self.bit_width = Some(read_byte(reader)?),
            (2, TRUE) => self.signed = Some(true),
            (2, FALSE) => self.signed = Some(false),
            _ => pass_field(reader, ty)?,
        }
        Ok(())
    }
}

impl<'a> Parts<'a> for LogicalDraft {
    ghost use Rattle.pq_meta.specs.Drafts.{no_logical, logical_part};

    ghost empty = { no_logical };

    ghost part = { logical_part };

    fn new() -> LogicalDraft {
        LogicalDraft { member: None }
    }

    #[tactic(auto, unfolding(crate::specs::Drafts::logical_part))]
    fn take(
        &mut self,
        alloc: Global,
        reader: &mut Reader<'a>,
        id: i16,
        ty: u8,
    ) -> Result<(), StructFault> {
        match (id, ty) {
            (1, STRUCT) => {
                pass_field(reader, ty)?;
                self.member = Some(Member::Text);
            }
            (6, STRUCT) => {
                pass_field(reader, ty)?;
                self.member = Some(Member::Date);
            }
            (10, STRUCT) => self.member = Some(Member::Integer(read_struct(alloc, reader)?)),
            _ => {
                pass_field(reader, ty)?;
                self.member = Some(Member::Other);
            }
        }
        Ok(())
    }
}

impl<'a> Parts<'a> for ElementDraft<'a> {
    ghost use Rattle.pq_meta.specs.Drafts.{no_element, element_part};

    ghost empty = { no_element };

    ghost part = { element_part };

    fn new() -> ElementDraft<'a> {
        ElementDraft {
            physical: None,
            repetition: None,
            name: None,
            num_children: None,
            converted: None,
            field: None,
            logical: None,
        }
    }

    #[tactic(auto, unfolding(crate::specs::Drafts::element_part))]
    fn take(
        &mut self,
        alloc: Global,
        reader: &mut Reader<'a>,
        id: i16,
        ty: u8,
    ) -> Result<(), StructFault> {
        match (id, ty) {
            (1, I32) => self.physical = Some(read_int(reader)?),
            (3, I32) => self.repetition = Some(read_int(reader)?),
            (4, BINARY) => self.name = Some(read_text(reader)?),
            (5, I32) => self.num_children = Some(read_count(reader)?),
            (6, I32) => self.converted = Some(read_int(reader)?),
            (9, I32) => self.field = Some(read_int(reader)?),
            (10, STRUCT) => self.logical = Some(read_struct(alloc, reader)?),
            _ => pass_field(reader, ty)?,
        }
        Ok(())
    }
}

impl<'a> Parts<'a> for ChunkMetaDraft {
    ghost use Rattle.pq_meta.specs.Drafts.{no_chunk_meta, chunk_meta_part};

    ghost empty = { no_chunk_meta };

    ghost part = { chunk_meta_part };

    fn new() -> ChunkMetaDraft {
        ChunkMetaDraft {
            physical: None,
            codec: None,
            num_values: None,
            length: None,
            data_page: None,
            dictionary_page: None,
        }
    }

    #[tactic(auto, unfolding(crate::specs::Drafts::chunk_meta_part))]
    fn take(
        &mut self,
        _alloc: Global,
        reader: &mut Reader<'a>,
        id: i16,
        ty: u8,
    ) -> Result<(), StructFault> {
        match (id, ty) {
            (1, I32) => self.physical = Some(read_int(reader)?),
            (4, I32) => self.codec = Some(read_int(reader)?),
            (5, I64) => self.num_values = Some(read_long_count(reader)?),
            (7, I64) => self.length = Some(read_long_count(reader)?),
            (9, I64) => self.data_page = Some(read_long_count(reader)?),
            (11, I64) => self.dictionary_page = Some(read_long(reader)?),
            _ => pass_field(reader, ty)?,
        }
        Ok(())
    }
}

impl<'a> Parts<'a> for ChunkDraft {
    ghost use Rattle.pq_meta.specs.Drafts.{no_chunk, chunk_part};

    ghost empty = { no_chunk };

    ghost part = { chunk_part };

    fn new() -> ChunkDraft {
        ChunkDraft { meta: None }
    }

    #[tactic(auto, unfolding(crate::specs::Drafts::chunk_part))]
    fn take(
        &mut self,
        alloc: Global,
        reader: &mut Reader<'a>,
        id: i16,
        ty: u8,
    ) -> Result<(), StructFault> {
        match (id, ty) {
            (3, STRUCT) => self.meta = Some(read_struct(alloc, reader)?),
            _ => pass_field(reader, ty)?,
        }
        Ok(())
    }
}

impl<'a> Parts<'a> for GroupDraft {
    ghost use Rattle.pq_meta.specs.Drafts.{no_group, group_part};

    ghost empty = { no_group };

    ghost part = { group_part };

    fn new() -> GroupDraft {
        GroupDraft {
            chunks: None,
            rows: None,
        }
    }

    #[tactic(auto, unfolding(crate::specs::Drafts::group_part))]
    fn take(
        &mut self,
        alloc: Global,
        reader: &mut Reader<'a>,
        id: i16,
        ty: u8,
    ) -> Result<(), StructFault> {
        match (id, ty) {
            (1, LIST) if reader.is_list_of(STRUCT) => {
                self.chunks = Some(read_structs(alloc, reader)?);
            }
            (3, I64) => self.rows = Some(read_long_count(reader)?),
            _ => pass_field(reader, ty)?,
        }
        Ok(())
    }
}

impl<'a> Parts<'a> for FooterDraft<'a> {
    ghost use Rattle.pq_meta.specs.Drafts.{no_footer, footer_part};

    ghost empty = { no_footer };

    ghost part = { footer_part };

    fn new() -> FooterDraft<'a> {
        FooterDraft {
            version: None,
            schema: None,
            num_rows: None,
            groups: None,
        }
    }

    #[tactic(auto, unfolding(crate::specs::Drafts::footer_part))]
    fn take(
        &mut self,
        alloc: Global,
        reader: &mut Reader<'a>,
        id: i16,
        ty: u8,
    ) -> Result<(), StructFault> {
        match (id, ty) {
            (1, I32) => self.version = Some(read_int(reader)?),
            (2, LIST) if reader.is_list_of(STRUCT) => {
                self.schema = Some(read_structs(alloc, reader)?);
            }
            (3, I64) => self.num_rows = Some(read_long_count(reader)?),
            (4, LIST) if reader.is_list_of(STRUCT) => {
                self.groups = Some(read_structs(alloc, reader)?);
            }
            _ => pass_field(reader, ty)?,
        }
        Ok(())
    }
}
