//! The chunks of a file's groups.

ghost use Rattle.std.specs.Prelude.{◌≡◌, IfOk, length, true};
ghost use Rattle.std.specs.Option.{option_copied};
ghost use Rattle.pq_encodings.specs.Values.{values_of};
ghost use Rattle.pq_pages.specs.Pages as pages;
ghost use Rattle.pq_pages.specs.Pages.{chunk_of};
ghost use Rattle.pq_pages.specs.Writing.{AreTexts};
ghost use Rattle.answers.specs.Answers.{Answers, Gives};
ghost use Rattle.pq_file.specs.Answers.{of_page, is_memory};
ghost use Rattle.pq_file.specs.Reading as spec;

use crate::cells::{cells_of, is_text, kind_of};
use crate::fault::{FileFault, page_fault};
use crate::parts::Part;
use lake_types::Listed;
use pq_meta::{MetaChunk, MetaColumn};
use pq_pages::{ChunkSpec, RawCells, read_chunk};
use std::alloc::Global;

/// Whether a column is read: all are, or those with one of these field ids.
pub fn is_wanted(fields: Option<&[u32]>, column: &MetaColumn) -> bool
    ensures { result ≡ spec.is_wanted (option_copied fields.entry) column.now }
{
    match (fields, column.field) {
        (None, _) => true,
        (Some(fields), Some(id)) => fields.contains(&id),
        (Some(_), None) => false,
    }
}

/// The bytes of a chunk.
#[tactic(auto, unfolding(crate::specs::Reading::span_of))]
fn span_of<'a>(
    bytes: &'a [u8],
    group: u64,
    place: u64,
    chunk: &MetaChunk,
) -> Result<&'a [u8], FileFault>
    ensures { Gives is_memory (λ span. span.now) result (spec.span_of bytes.now group place chunk.now) }
{
    let fault = FileFault::Span {
        group,
        column: place,
    };
    let Some(end) = chunk.first.checked_add(chunk.length) else {
        return Err(fault)
    };
    if (bytes.len() as u64) < end {
        return Err(fault);
    }
    Ok(&bytes[chunk.first as usize..end as usize])
}

/// The cells of a chunk, or its first fault.
fn raw_cells(
    alloc: Global,
    span: &[u8],
    group: u64,
    place: u64,
    spec: &ChunkSpec,
) -> Result<RawCells, FileFault>
    ensures exact { Gives is_memory pages.cells_of result (of_page group place (chunk_of spec.now span.now)) }
    ensures texts { IfOk result (λ raw. spec.now.text ≡ true → AreTexts (values_of raw.plain)) }
{
    match read_chunk(alloc, span, spec) {
        Ok(raw) => Ok(raw),
        Err(fault) => Err(page_fault(group, place, fault)),
    }
}

/// What a footer says of a chunk.
fn spec_of(column: &MetaColumn, chunk: &MetaChunk) -> ChunkSpec
    ensures { result ≡ spec.spec_of column.now chunk.now }
{
    ChunkSpec {
        codec: chunk.codec,
        kind: kind_of(column.ty),
        optional: column.optional,
        num_values: chunk.num_values,
        text: is_text(column.ty),
    }
}

/// The cells of the column number `place` in a group.
#[tactic(auto, using(answers::proofs::AnswerLemmas::handed_on), unfolding(crate::specs::Reading::part_of))]
fn part_of(
    alloc: Global,
    bytes: &[u8],
    group: u64,
    place: u64,
    column: &MetaColumn,
    chunk: &MetaChunk,
) -> Result<Part, FileFault>
    ensures { Answers is_memory result (spec.part_of bytes.now group place column.now chunk.now) }
{
    let span = match span_of(bytes, group, place, chunk) {
        Ok(span) => span,
        Err(fault) => return Err(fault),
    };
    let raw = match raw_cells(alloc, span, group, place, &spec_of(column, chunk)) {
        Ok(raw) => raw,
        Err(fault) => return Err(fault),
    };
    match cells_of(alloc, column.ty, raw) {
        Ok(cells) => Ok(Part {
            place,
            ty: column.ty,
            cells,
        }),
        Err(_) => Err(FileFault::Memory),
    }
}

/// The parts of a group that are wanted.
#[tactic(auto, using(crate::proofs::PartLemmas::parts_turn))]
pub fn parts_in(
    alloc: Global,
    bytes: &[u8],
    fields: Option<&[u32]>,
    number: u64,
    columns: &[MetaColumn],
    chunks: &[MetaChunk],
) -> Result<Listed<Part>, FileFault>
    requires { length chunks.now ≡ length columns.now }
    ensures { Answers is_memory result (spec.parts_in bytes.now (option_copied fields.entry) number 0 columns.now chunks.now) }
{
    let mut parts = Listed::new(alloc);
    for place in 0..columns.len() {
        let column = &columns[place];
        if !is_wanted(fields, column) {
            continue;
        }
        match part_of(alloc, bytes, number, place as u64, column, &chunks[place]) {
            Ok(part) => parts.push(part)?,
            Err(fault) => return Err(fault),
        }
    }
    Ok(parts)
}
