//! Writing a footer: the fields of each struct by rising id, each in its shortest spelling.

ghost use Rattle.std.specs.Prelude.{◌≡◌, ◌+◌, ◌^◌, ◌<◌, ◌≤◌, ◌<ℤ◌, ◌++◌, pos, length};
ghost use Rattle.std.specs.Prelude.{All, IfOk, OnOk};
ghost use Rattle.lake_types.specs.declared.limits.TheConstants.{MAX_NAME_BYTES};
ghost use Rattle.pq_meta.specs.declared.limits.TheConstants.{MAX_FILE_COLUMNS};
ghost use Rattle.pq_meta.specs.Consistency.{IsFieldId, IsNamed};
ghost use Rattle.pq_meta.specs.Footers.{footer_of};
ghost use Rattle.pq_meta.specs.Spelling as spec;
ghost use Rattle.std.specs.List.{flat_map};
ghost use Rattle.pq_meta.specs.Spelling.{IsColumn, IsExtent, IsGroup, IsWritable};

use crate::codes::*;
use crate::laws::reads_back;
use crate::meta::{FileMeta, MetaChunk, MetaColumn, MetaGroup};
use lake_types::{ColType, NoMemory};
use std::alloc::Global;
use thrift_compact::Writer;
use thrift_compact::types::{BINARY, I32, I64, LIST, STRUCT};

/// The name of the schema's root.
const ROOT: &str = "schema";

/// The version of the format.
const VERSION: i32 = 1;

/// The encodings that a chunk may use, of values and of levels.
const PLAIN: i64 = 0;

const RLE: i64 = 3;

#[tactic(auto, using(crate::proofs::SpellingLemmas::pieces))]
fn put_int(writer: &mut Writer, last: i16, id: i16, number: i32) -> Result<(), NoMemory>
    requires { last <ℤ id }
    ensures { OnOk result (writer.new ≡ writer.old ++ spec.int_field last id number) }
{
    writer.put_header(last, id, I32)?;
    writer.put_i64(i64::from(number))
}

#[tactic(auto, using(crate::proofs::SpellingLemmas::pieces))]
fn put_long(writer: &mut Writer, last: i16, id: i16, number: u64) -> Result<(), NoMemory>
    requires past { last <ℤ id }
    requires fits { number < 2 ^ 63 }
    ensures { OnOk result (writer.new ≡ writer.old ++ spec.long_field last id number) }
{
    writer.put_header(last, id, I64)?;
    writer.put_i64(number as i64)
}

#[tactic(auto, using(crate::proofs::SpellingLemmas::pieces))]
fn put_text(writer: &mut Writer, last: i16, id: i16, text: &str) -> Result<(), NoMemory>
    requires past { last <ℤ id }
    requires fits { length text.now < 2 ^ 32 }
    ensures { OnOk result (writer.new ≡ writer.old ++ spec.text_field last id text.now) }
{
    writer.put_header(last, id, BINARY)?;
    writer.put_binary(text.as_bytes())
}

/// The header of a field that is a list, and the list's.
#[tactic(auto, using(crate::proofs::SpellingLemmas::pieces))]
fn put_list(writer: &mut Writer, last: i16, id: i16, ty: u8, size: u32) -> Result<(), NoMemory>
    requires past { last <ℤ id }
    requires some { 0 < ty }
    requires known { ty < 13 }
    ensures { OnOk result (writer.new ≡ writer.old ++ spec.list_field last id ty size) }
{
    writer.put_header(last, id, LIST)?;
    writer.put_list(ty, size)
}

fn physical_of(ty: ColType) -> i32
    ensures { result ≡ spec.physical_of ty }
{
    match ty {
        ColType::Bool => BOOLEAN,
        ColType::Int8 | ColType::Int16 | ColType::Int32 | ColType::Date => INT32,
        ColType::Int64 => INT64,
        ColType::Varchar | ColType::Blob => BYTE_ARRAY,
    }
}

/// The converted type, where one is needed.
fn converted_of(ty: ColType) -> Option<i32>
    ensures { result ≡ spec.converted_of ty }
{
    match ty {
        ColType::Int8 => Some(INT_8),
        ColType::Int16 => Some(INT_16),
        ColType::Varchar => Some(UTF8),
        ColType::Date => Some(DATE),
        ColType::Bool | ColType::Int32 | ColType::Int64 | ColType::Blob => None,
    }
}

fn repetition_of(optional: bool) -> i32
    ensures { result ≡ spec.repetition_of optional }
{
    if optional { OPTIONAL } else { REQUIRED }
}

/// The field id behind the field `last`, if there is one, and the stop.
#[tactic(auto, using(crate::proofs::SpellingLemmas::pieces))]
fn put_id(writer: &mut Writer, last: i16, field: Option<u32>) -> Result<(), NoMemory>
    requires past { last <ℤ pos 9 }
    requires fits { IsFieldId field }
    ensures { OnOk result (writer.new ≡ writer.old ++ spec.id_bytes last field) }
{
    if let Some(id) = field {
        put_int(writer, last, 9, id as i32)?;
    }
    writer.put_stop()
}

/// The converted type, if there is one, the field id, if there is one, and the stop.
#[tactic(auto, using(crate::proofs::SpellingLemmas::pieces))]
fn put_type(writer: &mut Writer, converted: Option<i32>, field: Option<u32>) -> Result<(), NoMemory>
    requires { IsFieldId field }
    ensures { OnOk result (writer.new ≡ writer.old ++ spec.type_bytes converted field) }
{
    match converted {
        Some(code) => {
            put_int(writer, 4, 6, code)?;
            put_id(writer, 6, field)
        }
        None => put_id(writer, 4, field),
    }
}

#[tactic(auto, using(crate::proofs::SpellingLemmas::pieces), unfolding(crate::specs::Spelling::column_bytes))]
fn put_column(writer: &mut Writer, column: &MetaColumn) -> Result<(), NoMemory>
    requires { IsColumn column.now }
    ensures bytes { OnOk result (writer.new ≡ writer.old ++ spec.column_bytes column.now) }
    ensures text { OnOk result (IsNamed column.now) }
{
    put_int(writer, 0, 1, physical_of(column.ty))?;
    put_int(writer, 1, 3, repetition_of(column.optional))?;
    put_text(writer, 3, 4, column.name.as_str())?;
    put_type(writer, converted_of(column.ty), column.field)
}

#[tactic(auto, using(crate::proofs::SpellingLemmas::pieces), unfolding(crate::specs::Spelling::root_bytes))]
fn put_root(writer: &mut Writer, columns: usize) -> Result<(), NoMemory>
    requires { columns ≤ MAX_FILE_COLUMNS }
    ensures { OnOk result (writer.new ≡ writer.old ++ spec.root_bytes columns) }
{
    put_text(writer, 0, 4, ROOT)?;
    put_int(writer, 4, 5, columns as i32)?;
    writer.put_stop()
}

/// The columns behind the root.
#[tactic(auto, using(crate::proofs::SpellingLemmas::rows))]
fn put_columns(writer: &mut Writer, columns: &[MetaColumn]) -> Result<(), NoMemory>
    requires { All IsColumn columns.now }
    ensures bytes { OnOk result (writer.new ≡ writer.old ++ flat_map spec.column_bytes columns.now) }
    ensures text { OnOk result (All IsNamed columns.now) }
{
    for column in columns {
        put_column(writer, column)?;
    }
    Ok(())
}

#[tactic(auto, using(crate::proofs::SpellingLemmas::pieces), unfolding(crate::specs::Spelling::encodings_bytes))]
fn put_encodings(writer: &mut Writer) -> Result<(), NoMemory>
    ensures { OnOk result (writer.new ≡ writer.old ++ spec.encodings_bytes) }
{
    put_list(writer, 1, 2, I32, 2)?;
    writer.put_i64(PLAIN)?;
    writer.put_i64(RLE)
}

/// The path of a column: its name.
#[tactic(auto, using(crate::proofs::SpellingLemmas::pieces), unfolding(crate::specs::Spelling::path_bytes))]
fn put_path(writer: &mut Writer, name: &str) -> Result<(), NoMemory>
    requires { length name.now ≤ MAX_NAME_BYTES }
    ensures { OnOk result (writer.new ≡ writer.old ++ spec.path_bytes name.now) }
{
    put_list(writer, 2, 3, BINARY, 1)?;
    writer.put_binary(name.as_bytes())
}

/// The numbers and offsets of a chunk, behind its codec, and the stop.
#[tactic(auto, using(crate::proofs::SpellingLemmas::pieces), unfolding(crate::specs::Spelling::extent_bytes))]
fn put_extent(writer: &mut Writer, chunk: &MetaChunk) -> Result<(), NoMemory>
    requires { IsExtent chunk.now }
    ensures { OnOk result (writer.new ≡ writer.old ++ spec.extent_bytes chunk.now) }
{
    put_long(writer, 4, 5, chunk.num_values)?;
    put_long(writer, 5, 6, chunk.length)?;
    put_long(writer, 6, 7, chunk.length)?;
    put_long(writer, 7, 9, chunk.first)?;
    writer.put_stop()
}

#[tactic(auto, using(crate::proofs::SpellingLemmas::pieces), unfolding(crate::specs::Spelling::chunk_meta_bytes))]
fn put_chunk_meta(
    writer: &mut Writer,
    column: &MetaColumn,
    chunk: &MetaChunk,
) -> Result<(), NoMemory>
    requires column { IsColumn column.now }
    requires extent { IsExtent chunk.now }
    ensures { OnOk result (writer.new ≡ writer.old ++ spec.chunk_meta_bytes column.now chunk.now) }
{
    put_int(writer, 0, 1, physical_of(column.ty))?;
    put_encodings(writer)?;
    put_path(writer, column.name.as_str())?;
    put_int(writer, 3, 4, chunk.codec)?;
    put_extent(writer, chunk)
}

#[tactic(auto, using(crate::proofs::SpellingLemmas::pieces), unfolding(crate::specs::Spelling::chunk_bytes))]
fn put_chunk(writer: &mut Writer, column: &MetaColumn, chunk: &MetaChunk) -> Result<(), NoMemory>
    requires column { IsColumn column.now }
    requires extent { IsExtent chunk.now }
    ensures { OnOk result (writer.new ≡ writer.old ++ spec.chunk_bytes column.now chunk.now) }
{
    put_long(writer, 0, 2, chunk.first)?;
    writer.put_header(2, 3, STRUCT)?;
    put_chunk_meta(writer, column, chunk)?;
    writer.put_stop()
}

/// A chunk for each column.
#[tactic(auto, using(crate::proofs::SpellingLemmas::rows))]
fn put_chunks(
    writer: &mut Writer,
    columns: &[MetaColumn],
    chunks: &[MetaChunk],
) -> Result<(), NoMemory>
    requires columns { All IsColumn columns.now }
    requires chunks { All IsExtent chunks.now }
    requires count { length chunks.now ≡ length columns.now }
    ensures { OnOk result (writer.new ≡ writer.old ++ spec.chunks_bytes columns.now chunks.now) }
{
    for i in 0..columns.len() {
        put_chunk(writer, &columns[i], &chunks[i])?;
    }
    Ok(())
}

/// The bytes of a group's chunks in the file.
fn total_of(chunks: &[MetaChunk]) -> u64
    requires { spec.total_of chunks.now < 2 ^ 63 }
    ensures { result ≡ spec.total_of chunks.now }
{
    chunks.iter().map(|chunk| chunk.length).sum()
}

#[tactic(auto, using(crate::proofs::SpellingLemmas::pieces), unfolding(crate::specs::Spelling::group_bytes))]
fn put_group(writer: &mut Writer, columns: &[MetaColumn], group: &MetaGroup) -> Result<(), NoMemory>
    requires columns { All IsColumn columns.now }
    requires few { length columns.now ≤ MAX_FILE_COLUMNS }
    requires group { IsGroup (length columns.now) group.now }
    ensures { OnOk result (writer.new ≡ writer.old ++ spec.group_bytes columns.now group.now) }
{
    let chunks = group.chunks.as_slice();
    put_list(writer, 0, 1, STRUCT, chunks.len() as u32)?;
    put_chunks(writer, columns, chunks)?;
    put_long(writer, 1, 2, total_of(chunks))?;
    put_long(writer, 2, 3, group.rows)?;
    writer.put_stop()
}

#[tactic(auto, using(crate::proofs::SpellingLemmas::rows))]
fn put_groups(
    writer: &mut Writer,
    columns: &[MetaColumn],
    groups: &[MetaGroup],
) -> Result<(), NoMemory>
    requires columns { All IsColumn columns.now }
    requires few { length columns.now ≤ MAX_FILE_COLUMNS }
    requires groups { All (IsGroup (length columns.now)) groups.now }
    ensures { OnOk result (writer.new ≡ writer.old ++ flat_map (spec.group_bytes columns.now) groups.now) }
{
    for group in groups {
        put_group(writer, columns, group)?;
    }
    Ok(())
}

/// The version and the schema.
#[tactic(auto, using(crate::proofs::SpellingLemmas::pieces), unfolding(crate::specs::Spelling::schema_bytes))]
fn put_schema(writer: &mut Writer, columns: &[MetaColumn]) -> Result<(), NoMemory>
    requires columns { All IsColumn columns.now }
    requires few { length columns.now ≤ MAX_FILE_COLUMNS }
    ensures bytes { OnOk result (writer.new ≡ writer.old ++ spec.schema_bytes columns.now) }
    ensures text { OnOk result (All IsNamed columns.now) }
{
    put_int(writer, 0, 1, VERSION)?;
    put_list(writer, 1, 2, STRUCT, columns.len() as u32 + 1)?;
    put_root(writer, columns.len())?;
    put_columns(writer, columns)
}

#[tactic(auto, using(crate::proofs::SpellingLemmas::pieces), unfolding(crate::specs::Spelling::footer_bytes))]
fn put_footer(writer: &mut Writer, meta: &FileMeta) -> Result<(), NoMemory>
    requires { IsWritable meta.now }
    ensures bytes { OnOk result (writer.new ≡ writer.old ++ spec.footer_bytes meta.now) }
    ensures text { OnOk result (All IsNamed meta.now.columns) }
{
    let columns = meta.columns.as_slice();
    let groups = meta.groups.as_slice();
    put_schema(writer, columns)?;
    put_long(writer, 2, 3, meta.num_rows)?;
    put_list(writer, 3, 4, STRUCT, groups.len() as u32)?;
    put_groups(writer, columns, groups)?;
    writer.put_stop()
}

/// Writes a footer in its one spelling. [`read_meta`](crate::read_meta) gives it back.
///
/// A footer that can be written has at most 101 columns with names of at most 255 bytes and with
/// field ids of at most 2,147,483,647, no two of them the same; fewer than 4,294,967,296 groups, each
/// with one uncompressed chunk for each column, of as many values as the group has rows; as many rows
/// as its groups have together; and no number and no sum of a group's lengths past 2^63 - 1.
pub fn write_meta(alloc: Global, meta: &FileMeta) -> Result<Vec<u8>, NoMemory>
    requires { IsWritable meta.now }
    ensures bytes { IfOk result (λ bytes. bytes.items ≡ spec.footer_bytes meta.now) }
    ensures back { IfOk result (λ bytes. footer_of bytes.items ≡ Ok meta.now) }
{
    // The law on which the last clause stands.
    reads_back();
    let mut writer = Writer::new(alloc);
    put_footer(&mut writer, meta)?;
    Ok(writer.finish())
}
