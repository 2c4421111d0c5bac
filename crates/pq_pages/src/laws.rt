//! What holds of chunks, read and written. Each function's contract is a law.

ghost use Rattle.std.specs.Prelude.{◌≡◌, ◌↔◌, ◌≤◌, ◌+◌, ◌*◌, ℕ, Bool, List, Ok, length, true};
ghost use Rattle.pq_encodings.specs.Values.{AreInRange, plain_size};
ghost use Rattle.pq_pages.specs.declared.chunk.ChunkSpec.{ChunkSpec};
ghost use Rattle.pq_pages.specs.Fitting.{FitSpec};
ghost use Rattle.pq_pages.specs.Holding.{IsChunk};
ghost use Rattle.pq_pages.specs.Pages.{Cells, chunk_of};
ghost use Rattle.pq_pages.specs.Writing.{AreTexts, AreWritable, body_bytes, chunk_bytes, spec_of};

/// What is written for cells is read as these cells.
pub fn reads_back()
    ensures { (text optional : Bool) (cells : Cells) → AreWritable optional cells → AreInRange cells.values → (text ≡ true → AreTexts cells.values)
        → chunk_of (spec_of text optional cells) (chunk_bytes optional cells) ≡ Ok cells }
{
    thrift_compact::reads_back();
    pq_encodings::reads_back();
}

/// What is read of a chunk fits what is said of it.
pub fn reads_as_said()
    ensures { (spec : ChunkSpec) (bytes : List ℕ) (cells : Cells) → chunk_of spec bytes ≡ Ok cells → FitSpec spec cells }
{
    pq_encodings::reads_as_asked();
}

/// Cells are read of a chunk exactly where the chunk holds them.
pub fn reads_what_is_held()
    ensures { (spec : ChunkSpec) (bytes : List ℕ) (cells : Cells) → (chunk_of spec bytes ≡ Ok cells) ↔ IsChunk spec bytes cells }
{
    pq_encodings::reads_as_asked();
}

/// How many bytes a written page has at most, behind its header.
pub fn body_size()
    ensures { (optional : Bool) (cells : Cells) → length (body_bytes optional cells) ≤ 4 + 11 * length cells.defined + plain_size cells.values }
{
    pq_encodings::sizes();
}
