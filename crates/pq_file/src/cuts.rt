//! Where the groups of a sheet end.

ghost use Rattle.std.specs.Prelude.{◌≡◌, ◌≤◌, ◌<◌, ◌+◌, ◌∷◌, ◌^◌, ℕ, All, drop, length};
ghost use Rattle.pq_file.specs.Cuts as spec;
ghost use Rattle.pq_file.specs.Writable.{HasCells};

use lake_types::{SheetColumn, weight};

/// The most rows of a group.
const GROUP_ROWS: usize = 8_192;

/// A group of this weight has its last row.
const GROUP_WEIGHT: u64 = 67_108_864;

/// The weight of the cells of a row.
fn row_weight(columns: &[SheetColumn], row: usize) -> u64
    requires within { All (λ column. row < length column.cells) columns.now }
    requires light { spec.row_weight columns.now row < 2 ^ 63 }
    ensures { result ≡ spec.row_weight columns.now row }
{
    let mut total = 0u64;
    for column in columns {
        total += weight(&column.cells.as_slice()[row]);
    }
    total
}

/// Whether a group of so many rows and of this weight has its last row.
fn is_full(rows: usize, weight: u64) -> bool
    ensures { result ≡ spec.is_full rows weight }
{
    rows >= GROUP_ROWS || weight >= GROUP_WEIGHT
}

/// How many rows the group has that begins with the row `first`.
#[tactic(auto, using(crate::proofs::CutLemmas::cutting))]
pub fn group_rows(columns: &[SheetColumn], first: usize, rows: usize) -> usize
    requires some { first < rows }
    requires counts { All (HasCells rows) columns.now }
    requires light { (row : ℕ) → spec.row_weight columns.now row < 2 ^ 62 }
    ensures cut { spec.cuts (drop first (spec.row_weights columns.now rows))
        ≡ result ∷ spec.cuts (drop (first + result) (spec.row_weights columns.now rows)) }
    ensures some { 0 < result }
    ensures within { first + result ≤ rows }
{
    let mut weight = 0u64;
    for row in first..rows {
        weight += row_weight(columns, row);
        let count = row + 1 - first;
        if is_full(count, weight) {
            return count;
        }
    }
    rows - first
}
