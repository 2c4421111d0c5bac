//! What the drafts of a footer's groups say.

ghost use Rattle.std.specs.Prelude.{◌≡◌, ◌++◌, List, []};
ghost use Rattle.answers.specs.Answers.{Answers};
ghost use Rattle.pq_meta.specs.Checks.{each, is_memory};
ghost use Rattle.pq_meta.specs.Groups as spec;

use crate::checks::check_count;
use crate::drafts::{ChunkDraft, ChunkMetaDraft, GroupDraft};
use crate::fault::MetaFault;
use crate::meta::{MetaChunk, MetaGroup};
use lake_types::Listed;
use std::alloc::Global;

/// Where a chunk begins: with its dictionary page, where it has one before its first data page.
fn first_of(dictionary: Option<i64>, first: u64) -> u64
    ensures { result ≡ spec.first_of dictionary first }
{
    let Some(dictionary) = dictionary else {
        return first
    };
    if dictionary <= 0 {
        return first;
    }
    let dictionary = dictionary as u64;
    if dictionary < first {
        dictionary
    } else {
        first
    }
}

/// The metadata of a chunk in a group of so many rows.
#[tactic(auto, unfolding(crate::specs::Groups::described_of))]
fn described_of(rows: u64, meta: ChunkMetaDraft) -> Result<MetaChunk, MetaFault>
    ensures { result ≡ spec.described_of rows meta }
{
    if meta.physical.is_none() {
        return Err(MetaFault::MissingField { id: 1 });
    }
    let Some(codec) = meta.codec else {
        return Err(MetaFault::MissingField { id: 4 });
    };
    let Some(num_values) = meta.num_values else {
        return Err(MetaFault::MissingField { id: 5 });
    };
    let Some(length) = meta.length else {
        return Err(MetaFault::MissingField { id: 7 });
    };
    let Some(data_page) = meta.data_page else {
        return Err(MetaFault::MissingField { id: 9 });
    };
    match check_count(rows, num_values) {
        Ok(()) => Ok(MetaChunk {
            codec,
            num_values,
            first: first_of(meta.dictionary_page, data_page),
            length,
        }),
        Err(fault) => Err(fault),
    }
}

#[tactic(auto, unfolding(crate::specs::Groups::chunk_of))]
fn chunk_of(rows: u64, draft: ChunkDraft) -> Result<MetaChunk, MetaFault>
    ensures { result ≡ spec.chunk_of rows draft }
{
    match draft.meta {
        Some(meta) => described_of(rows, meta),
        None => Err(MetaFault::MissingField { id: 3 }),
    }
}

/// The chunks of a group of so many rows.
#[tactic(auto, using(crate::proofs::EachLemmas::turns))]
fn chunks_of(
    alloc: Global,
    rows: u64,
    drafts: &[ChunkDraft],
) -> Result<Listed<MetaChunk>, MetaFault>
    ensures { Answers is_memory result (each (spec.chunk_of rows) drafts.now) }
{
    let mut chunks = Listed::new(alloc);
    for draft in drafts {
        match chunk_of(rows, *draft) {
            Ok(chunk) => chunks.push(chunk)?,
            Err(fault) => return Err(fault),
        }
    }
    Ok(chunks)
}

/// A group of a file with so many columns.
#[tactic(auto, using(answers::proofs::AnswerLemmas::handed_on), unfolding(crate::specs::Groups::group_of))]
fn group_of(alloc: Global, columns: usize, draft: &GroupDraft) -> Result<MetaGroup, MetaFault>
    ensures { Answers is_memory result (spec.group_of columns draft.now) }
{
    let Some(chunks) = &draft.chunks else {
        return Err(MetaFault::MissingField { id: 1 });
    };
    let Some(rows) = draft.rows else {
        return Err(MetaFault::MissingField { id: 3 });
    };
    let drafts = chunks.as_slice();
    if columns != drafts.len() {
        return Err(MetaFault::Count {
            want: columns as u64,
            got: drafts.len() as u64,
        });
    }
    match chunks_of(alloc, rows, drafts) {
        Ok(chunks) => Ok(MetaGroup { rows, chunks }),
        Err(fault) => Err(fault),
    }
}

/// The groups of a file with so many columns.
#[tactic(auto, using(crate::proofs::EachLemmas::turns))]
pub fn groups_of(
    alloc: Global,
    columns: usize,
    drafts: &[GroupDraft],
) -> Result<Listed<MetaGroup>, MetaFault>
    ensures { Answers is_memory result (each (spec.group_of columns) drafts.now) }
{
    let mut groups = Listed::new(alloc);
    for draft in drafts {
        match group_of(alloc, columns, draft) {
            Ok(group) => groups.push(group)?,
            Err(fault) => return Err(fault),
        }
    }
    Ok(groups)
}

/// How many rows the groups have together. A sum past 64 bits is given as the greatest number of these.
pub fn rows_of(groups: &[MetaGroup]) -> u64
    ensures { result ≡ spec.rows_of groups.now }
{
    let mut rows: u64 = 0;
    for group in groups {
        rows = rows.saturating_add(group.rows);
    }
    rows
}
