//! The compact fields of page headers (Apache Parquet format, `parquet.thrift`: PageHeader and the headers inside it).

ghost use Rattle.thrift_compact.specs.Cursor.{end_of};
ghost use Rattle.thrift_compact.specs.Structs.{Fills};
ghost use Rattle.pq_pages.specs.Headers.{data_field, data_v2_field, dictionary_field, no_data, no_data_v2, no_dictionary, no_page, page_field};

use std::alloc::Global;
use thrift_compact::{Parts, Reader, StructFault, pass_field, read_count, read_int, read_struct};

/// What is read of a DataPageHeader.
#[derive(Clone, Copy, Debug, PartialEq, Eq)]
pub struct DataDraft {
    pub num_values: Option<u32>,
    pub encoding: Option<i32>,
    pub levels_encoding: Option<i32>,
}

/// What is read of a DataPageHeaderV2.
#[derive(Clone, Copy, Debug, PartialEq, Eq)]
pub struct DataV2Draft {
    pub num_values: Option<u32>,
    pub encoding: Option<i32>,
    pub levels_length: Option<u32>,
    pub repetition_length: Option<u32>,
}

/// What is read of a DictionaryPageHeader.
#[derive(Clone, Copy, Debug, PartialEq, Eq)]
pub struct DictionaryDraft {
    pub num_values: Option<u32>,
    pub encoding: Option<i32>,
}

/// What is read of a PageHeader.
#[derive(Clone, Copy, Debug, PartialEq, Eq)]
pub struct PageDraft {
    pub kind: Option<i32>,
    pub size: Option<u32>,
    pub data_page: Option<DataDraft>,
    pub dictionary_page: Option<DictionaryDraft>,
    pub data_page_v2: Option<DataV2Draft>,
}

#[tactic(auto, unfolding(crate::specs::Headers::data_field))]
fn take_data(reader: &mut Reader, draft: &mut DataDraft, id: i16, ty: u8) -> Result<(), StructFault>
    ensures { Fills reader.old reader.new result draft.new (data_field (end_of reader.old) draft.old id ty reader.old.rest) }
{
    match (id, ty) {
        (1, 5) => draft.num_values = Some(read_count(reader)?),
        (2, 5) => draft.encoding = Some(read_int(reader)?),
        (3, 5) => draft.levels_encoding = Some(read_int(reader)?),
        _ => pass_field(reader, ty)?,
    }
    Ok(())
}

impl<'a> Parts<'a> for DataDraft {
    ghost empty = { no_data };

    ghost part = { data_field };

    fn new() -> DataDraft {
        DataDraft {
            num_values: None,
            encoding: None,
            levels_encoding: None,
        }
    }

    fn take(
        &mut self,
        _alloc: Global,
        reader: &mut Reader<'a>,
        id: i16,
        ty: u8,
    ) -> Result<(), StructFault> {
        take_data(reader, self, id, ty)
    }
}

/// The number of rows is not used, but may not be negative.
#[tactic(auto, unfolding(crate::specs::Headers::data_v2_field))]
fn take_data_v2(
    reader: &mut Reader,
    draft: &mut DataV2Draft,
    id: i16,
    ty: u8,
) -> Result<(), StructFault>
    ensures { Fills reader.old reader.new result draft.new (data_v2_field (end_of reader.old) draft.old id ty reader.old.rest) }
{
    match (id, ty) {
        (1, 5) => draft.num_values = Some(read_count(reader)?),
        (3, 5) => {
            read_count(reader)?;
        }
        (4, 5) => draft.encoding = Some(read_int(reader)?),
        (5, 5) => draft.levels_length = Some(read_count(reader)?),
        (6, 5) => draft.repetition_length = Some(read_count(reader)?),
        _ => pass_field(reader, ty)?,
    }
    Ok(())
}

impl<'a> Parts<'a> for DataV2Draft {
    ghost empty = { no_data_v2 };

    ghost part = { data_v2_field };

    fn new() -> DataV2Draft {
        DataV2Draft {
            num_values: None,
            encoding: None,
            levels_length: None,
            repetition_length: None,
        }
    }

    fn take(
        &mut self,
        _alloc: Global,
        reader: &mut Reader<'a>,
        id: i16,
        ty: u8,
    ) -> Result<(), StructFault> {
        take_data_v2(reader, self, id, ty)
    }
}

#[tactic(auto, unfolding(crate::specs::Headers::dictionary_field))]
fn take_dictionary(
    reader: &mut Reader,
    draft: &mut DictionaryDraft,
    id: i16,
    ty: u8,
) -> Result<(), StructFault>
    ensures { Fills reader.old reader.new result draft.new (dictionary_field (end_of reader.old) draft.old id ty reader.old.rest) }
{
    match (id, ty) {
        (1, 5) => draft.num_values = Some(read_count(reader)?),
        (2, 5) => draft.encoding = Some(read_int(reader)?),
        _ => pass_field(reader, ty)?,
    }
    Ok(())
}

impl<'a> Parts<'a> for DictionaryDraft {
    ghost empty = { no_dictionary };

    ghost part = { dictionary_field };

    fn new() -> DictionaryDraft {
        DictionaryDraft {
            num_values: None,
            encoding: None,
        }
    }

    fn take(
        &mut self,
        _alloc: Global,
        reader: &mut Reader<'a>,
        id: i16,
        ty: u8,
    ) -> Result<(), StructFault> {
        take_dictionary(reader, self, id, ty)
    }
}

#[tactic(auto, unfolding(crate::specs::Headers::page_field))]
fn take_page<'a>(
    alloc: Global,
    reader: &mut Reader<'a>,
    draft: &mut PageDraft,
    id: i16,
    ty: u8,
) -> Result<(), StructFault>
    ensures { Fills reader.old reader.new result draft.new (page_field (end_of reader.old) draft.old id ty reader.old.rest) }
{
    match (id, ty) {
        (1, 5) => draft.kind = Some(read_int(reader)?),
        (3, 5) => draft.size = Some(read_count(reader)?),
        (5, 12) => draft.data_page = Some(read_struct::<DataDraft>(alloc, reader)?),
        (7, 12) => draft.dictionary_page = Some(read_struct::<DictionaryDraft>(alloc, reader)?),
        (8, 12) => draft.data_page_v2 = Some(read_struct::<DataV2Draft>(alloc, reader)?),
        _ => pass_field(reader, ty)?,
    }
    Ok(())
}

impl<'a> Parts<'a> for PageDraft {
    ghost empty = { no_page };

    ghost part = { page_field };

    fn new() -> PageDraft {
        PageDraft {
            kind: None,
            size: None,
            data_page: None,
            dictionary_page: None,
            data_page_v2: None,
        }
    }

    fn take(
        &mut self,
        alloc: Global,
        reader: &mut Reader<'a>,
        id: i16,
        ty: u8,
    ) -> Result<(), StructFault> {
        take_page(alloc, reader, self, id, ty)
    }
}
