//! Pages, one after the other.

ghost use Rattle.std.specs.Prelude.{◌≡◌, ◌≤◌, ◌<◌, ◌+◌, ◌-◌, Ok, Err, MatchResult, IfOk, OnOk, drop, length, take};
ghost use Rattle.thrift_compact.specs.Cursor.{end_of};
ghost use Rattle.thrift_compact.specs.Structs.{struct_of};
ghost use Rattle.pq_encodings.specs.Values.{values_in, values_of};
ghost use Rattle.answers.specs.Answers.{Gives};
ghost use Rattle.pq_pages.specs.Answers.{Moves, Takes, Turns, of_fields, of_values};
ghost use Rattle.pq_pages.specs.Headers.{no_page, page_field};
ghost use Rattle.pq_pages.specs.Pages.{behind_header, cut_off, flags_of, page_in, pages_in};
ghost use Rattle.pq_pages.specs.Pages as pages;

use crate::chunk::ChunkSpec;
use crate::column::Column;
use crate::drafts::PageDraft;
use crate::fault::PageFault;
use crate::headers::{Coding, Page, PageHeader, coding_of, header_of, plain_coded, runs_coded};
use crate::levels::{Levels, data_levels, data_v2_levels};
use crate::values::decoded_plain;
use pq_encodings::{EncFault, Plain};
use std::alloc::Global;
use thrift_compact::{Reader, read_struct};

/// Whether a page has no more cells than the chunk still wants.
#[tactic(auto, unfolding(crate::specs::Pages::fits))]
fn fits(spec: &ChunkSpec, column: &Column, count: u32) -> Result<(), PageFault>
    ensures { result ≡ pages.fits spec.now column.now count }
{
    let got = column.len() + u64::from(count);
    if spec.num_values < got {
        return Err(PageFault::Count {
            want: spec.num_values,
            got,
        });
    }
    Ok(())
}

/// Adds the cells of a data page of which the levels were read.
#[tactic(auto, unfolding(crate::specs::Pages::with_cells))]
fn add_cells(
    alloc: Global,
    spec: &ChunkSpec,
    column: &mut Column,
    coding: Coding,
    levels: &Levels,
    bytes: &[u8],
) -> Result<(), PageFault>
    ensures { Turns result column.new (pages.with_cells spec.now column.old coding (flags_of levels.now) bytes.now) }
{
    let values = column.page_values(alloc, spec, coding, levels.present(), bytes)?;
    column.add_cells(alloc, levels, values)?;
    Ok(())
}

/// How the values of a data page stand, unless its header is refused.
#[tactic(auto, unfolding(crate::specs::Pages::data_coding))]
fn data_coding(
    spec: &ChunkSpec,
    column: &Column,
    count: u32,
    encoding: i32,
    levels: Option<i32>,
) -> Result<Coding, PageFault>
    ensures { result ≡ pages.data_coding spec.now column.now count encoding levels }
{
    if let Err(fault) = fits(spec, column, count) {
        return Err(fault);
    }
    match coding_of(spec.kind, encoding) {
        Ok(coding) => match runs_coded(levels) {
            Ok(()) => Ok(coding),
            Err(fault) => Err(fault),
        },
        Err(fault) => Err(fault),
    }
}

/// Reads the cells of a data page whose header was taken.
#[tactic(auto, unfolding(crate::specs::Pages::data_page))]
fn read_data(
    alloc: Global,
    spec: &ChunkSpec,
    column: &mut Column,
    count: u32,
    coding: Coding,
    body: &[u8],
) -> Result<(), PageFault>
    ensures { Turns result column.new (pages.data_page spec.now column.old count coding body.now) }
{
    let (levels, bytes) = data_levels(alloc, spec.optional, count, body)?;
    add_cells(alloc, spec, column, coding, &levels, bytes)
}

/// How the values of a data page of the second form stand, unless its header is refused.
#[tactic(auto, unfolding(crate::specs::Pages::data_v2_coding))]
fn data_v2_coding(
    spec: &ChunkSpec,
    column: &Column,
    count: u32,
    encoding: i32,
    size: u32,
    repetition: u32,
    body: &[u8],
) -> Result<Coding, PageFault>
    ensures exact { result ≡ pages.data_v2_coding spec.now column.now count encoding size repetition body.now }
    ensures within { IfOk result (λ _. size ≤ length body.now) }
{
    if let Err(fault) = fits(spec, column, count) {
        return Err(fault);
    }
    match coding_of(spec.kind, encoding) {
        Ok(coding) => match whole_levels(size, repetition, body) {
            Ok(()) => Ok(coding),
            Err(fault) => Err(fault),
        },
        Err(fault) => Err(fault),
    }
}

/// Whether the stated levels are whole in the page. There are to be no repetition levels.
#[tactic(auto, unfolding(crate::specs::Pages::whole_levels))]
fn whole_levels(size: u32, repetition: u32, body: &[u8]) -> Result<(), PageFault>
    ensures exact { result ≡ pages.whole_levels size repetition body.now }
    ensures within { OnOk result (size ≤ length body.now) }
{
    if body.len() < size as usize {
        return Err(PageFault::Values(EncFault::Short { at: 0 }));
    }
    if repetition > 0 {
        return Err(PageFault::Encoding { code: 3 });
    }
    Ok(())
}

/// Reads the cells of a data page of the second form whose header was taken.
#[tactic(auto, unfolding(crate::specs::Pages::data_v2_page))]
fn read_data_v2(
    alloc: Global,
    spec: &ChunkSpec,
    column: &mut Column,
    count: u32,
    size: u32,
    coding: Coding,
    body: &[u8],
) -> Result<(), PageFault>
    requires { size ≤ length body.now }
    ensures { Turns result column.new (pages.data_v2_page spec.now column.old count size coding body.now) }
{
    let (levels, bytes) = data_v2_levels(alloc, spec.optional, count, size, body)?;
    add_cells(alloc, spec, column, coding, &levels, bytes)
}

/// Reads the values of a dictionary page.
#[tactic(auto, unfolding(crate::specs::Pages::dictionary_page))]
fn read_dictionary(
    alloc: Global,
    spec: &ChunkSpec,
    column: &mut Column,
    count: u32,
    encoding: i32,
    body: &[u8],
) -> Result<(), PageFault>
    ensures { Turns result column.new (pages.dictionary_page spec.now column.old count encoding body.now) }
{
    if let Err(fault) = plain_coded(encoding) {
        return Err(fault);
    }
    let entries = decoded_plain(alloc, spec.kind, u64::from(count), body)?;
    column.set_dictionary(entries);
    Ok(())
}

/// Reads a page whose header was read.
fn read_page(
    alloc: Global,
    spec: &ChunkSpec,
    column: &mut Column,
    page: Page,
    body: &[u8],
) -> Result<(), PageFault>
    ensures { Turns result column.new (pages.in_page spec.now column.old page body.now) }
{
    match page {
        Page::Data {
            count,
            encoding,
            levels,
        } => match data_coding(spec, column, count, encoding, levels) {
            Ok(coding) => read_data(alloc, spec, column, count, coding, body),
            Err(fault) => Err(fault),
        },
        Page::DataV2 {
            count,
            encoding,
            levels,
            repetition,
        } => match data_v2_coding(spec, column, count, encoding, levels, repetition, body) {
            Ok(coding) => read_data_v2(alloc, spec, column, count, levels, coding, body),
            Err(fault) => Err(fault),
        },
        Page::Dictionary { count, encoding } => {
            read_dictionary(alloc, spec, column, count, encoding, body)
        }
        Page::Other => Ok(()),
    }
}

/// Reads a page behind its header.
#[tactic(auto, unfolding(crate::specs::Pages::behind_header))]
fn read_behind(
    alloc: Global,
    spec: &ChunkSpec,
    reader: &mut Reader,
    column: &mut Column,
    header: PageHeader,
) -> Result<(), PageFault>
    ensures { Moves reader.old reader.new result column.new (behind_header spec.now column.old header reader.old.rest) }
{
    let size = header.size as usize;
    if reader.left() < size {
        return Err(PageFault::Values(EncFault::Short { at: 0 }));
    }
    let body = reader.pass(size);
    read_page(alloc, spec, column, header.page, body)
}

/// Reads the compact fields of a page's header.
#[tactic(auto, using(crate::proofs::AnswerLemmas::fields_fail))]
fn read_draft(alloc: Global, reader: &mut Reader) -> Result<PageDraft, PageFault>
    ensures { Takes reader.old reader.new result (of_fields (struct_of page_field no_page (end_of reader.old) reader.old.rest)) }
{
    match read_struct::<PageDraft>(alloc, reader) {
        Ok(draft) => Ok(draft),
        Err(fault) => Err(PageFault::from(fault)),
    }
}

/// Reads the next page.
#[tactic(auto, unfolding(crate::specs::Pages::page_in))]
fn next_page(
    alloc: Global,
    spec: &ChunkSpec,
    reader: &mut Reader,
    column: &mut Column,
) -> Result<(), PageFault>
    ensures { Moves reader.old reader.new result column.new (page_in spec.now (end_of reader.old) column.old reader.old.rest) }
{
    let draft = read_draft(alloc, reader)?;
    match header_of(spec.optional, &draft) {
        Ok(header) => read_behind(alloc, spec, reader, column, header),
        Err(fault) => Err(fault),
    }
}

/// Whether all cells were had.
fn is_whole(spec: &ChunkSpec, column: &Column) -> bool
    ensures { result ≡ pages.is_whole spec.now column.now }
{
    column.len() == spec.num_values
}

/// The fault of a chunk whose pages are at an end, unless all cells were had.
fn whole(spec: &ChunkSpec, column: &Column) -> Result<(), PageFault>
    ensures { MatchResult result (λ u. pages.whole spec.now column.now ≡ Ok column.now) (λ e. pages.whole spec.now column.now ≡ Err e) }
{
    if is_whole(spec, column) {
        return Ok(());
    }
    Err(PageFault::Count {
        want: spec.num_values,
        got: column.len(),
    })
}

/// Reads page after page, until all cells were had or the bytes end.
#[tactic(auto, using(crate::proofs::PageLemmas::pages_step, crate::proofs::PageLemmas::pages_end, crate::proofs::PageLemmas::pages_done))]
pub fn read_pages(
    alloc: Global,
    spec: &ChunkSpec,
    reader: &mut Reader,
    column: &mut Column,
) -> Result<(), PageFault>
    ensures { Turns result column.new (pages_in spec.now (end_of reader.old) (length reader.old.rest) column.old reader.old.rest) }
{
    for _turn in 0..reader.left() {
        if is_whole(spec, column) || reader.left() == 0 {
            return whole(spec, column);
        }
        next_page(alloc, spec, reader, column)?;
    }
    whole(spec, column)
}
