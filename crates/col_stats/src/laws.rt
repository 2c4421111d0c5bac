//! What holds of statistics. Each function's contract is a law, and its body is empty.

ghost use Rattle.col_stats.specs.Stats.{CountsCells, MergesLists};

/// Merged statistics of two lists of cells of one type are those of both together, but for a bound that is absent
/// since a side that has values doesn't tell its own.
pub fn merges_lists()
    ensures { MergesLists }
{}

/// The number of NULLs of statistics, and the texts of their bounds, are those of a statistics row beside the cells.
pub fn counts_cells()
    ensures { CountsCells }
{}
