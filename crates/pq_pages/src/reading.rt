//! A column chunk, read.

ghost use Rattle.std.specs.Prelude.{◌≡◌, ◌≢◌, pos, Result, Ok, Err, IfOk};
ghost use Rattle.answers.specs.Answers.{Gives};
ghost use Rattle.pq_pages.specs.Answers.{Turns, is_memory};
ghost use Rattle.pq_pages.specs.Fitting.{FitSpec};
ghost use Rattle.pq_pages.specs.Holding.{AnswersChunk};
ghost use Rattle.pq_pages.specs.Pages.{Chunk, cells_had, cells_of, chunk_of};
ghost use Rattle.pq_pages.specs.declared.fault.PageFault.{PageFault};
ghost use Rattle.pq_pages.specs.declared.fault.PageFault.TheVariants.{Compressed};

use crate::chunk::{ChunkSpec, RawCells};
use crate::column::Column;
use crate::fault::PageFault;
use crate::laws::{reads_as_said, reads_what_is_held};
use crate::pages::read_pages;
use std::alloc::Global;
use thrift_compact::Reader;

/// The cells that were had, unless the pages ended at a fault.
#[tactic(auto, using(answers::proofs::AnswerLemmas::handed_on))]
fn finished(column: Column, read: Result<(), PageFault>) -> Result<RawCells, PageFault>
    ensures { (pages : Result Chunk PageFault) → Turns read column pages → Gives is_memory cells_of result (cells_had pages) }
{
    match read {
        Ok(()) => Ok(column.into_cells()),
        Err(fault) => Err(fault),
    }
}

/// The chunk's cells, or the first fault.
#[tactic(auto, unfolding(crate::specs::Pages::chunk_of))]
fn chunk_cells(alloc: Global, bytes: &[u8], spec: &ChunkSpec) -> Result<RawCells, PageFault>
    ensures exact { Gives is_memory cells_of result (chunk_of spec.now bytes.now) }
    ensures compressed { spec.now.codec ≢ pos 0 → result ≡ Err (Compressed spec.now.codec) }
{
    if spec.codec != 0 {
        return Err(PageFault::Compressed { codec: spec.codec });
    }
    let mut reader = Reader::new(bytes);
    let mut column = Column::new(alloc, spec.kind);
    let read = read_pages(alloc, spec, &mut reader, &mut column);
    finished(column, read)
}

/// The cells of a column chunk, or the first fault in reading order.
///
/// Memory is taken for values and levels that the bytes hold, at most as many as the chunk is said to have.
pub fn read_chunk(alloc: Global, bytes: &[u8], spec: &ChunkSpec) -> Result<RawCells, PageFault>
    // The cells, exactly where the bytes have them; else the first fault, with its place.
    ensures exact { Gives is_memory cells_of result (chunk_of spec.now bytes.now) }

    // The cells that the chunk holds, and no others; or a fault, where it holds none.
    ensures holds { AnswersChunk spec.now bytes.now result }

    // A codec is refused before any byte is read.
    ensures compressed { spec.now.codec ≢ pos 0 → result ≡ Err (Compressed spec.now.codec) }

    // There are as many cells as the chunk is said to have, and a value of its type for each that is no NULL.
    ensures fit { IfOk result (λ cells. FitSpec spec.now (cells_of cells)) }
{
    // The laws on which two of the clauses stand.
    reads_as_said();
    reads_what_is_held();
    chunk_cells(alloc, bytes, spec)
}
