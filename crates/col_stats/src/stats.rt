ghost use Rattle.std.specs.Prelude.{◌≡◌, ◌+◌, ◌<◌, ◌^◌, IfOk};
ghost use Rattle.std.specs.List.{All, count_by};
ghost use Rattle.col_stats.specs.Bounds.{cells};
ghost use Rattle.col_stats.specs.Stats as spec;

use crate::bounds::{Side, kept, outer, outermost, outermost_cell};
use lake_types::{Column, Copied, NoMemory, Row, RowList, Value, cell_at, is_null};
use std::alloc::Global;

/// The statistics of a column over some rows. A bound is absent where there is no value, and where its text in
/// the catalogue is longer than 64 bytes.
#[derive(Debug, Drop)]
pub struct ColStats {
    pub field: u32,
    pub rows: u64,
    /// How many of the rows have NULL there.
    pub nulls: u64,
    pub min: Option<Value>,
    pub max: Option<Value>,
}

impl Copied for ColStats {
    fn copy(&self, alloc: Global) -> Result<ColStats, NoMemory> {
        Ok(ColStats {
            field: self.field,
            rows: self.rows,
            nulls: self.nulls,
            min: self.min.copy(alloc)?,
            max: self.max.copy(alloc)?,
        })
    }
}

/// The statistics of a column over rows that each have a cell of it, in time linear in their cells.
pub fn stats_of(alloc: Global, column: &Column, rows: &RowList) -> Result<ColStats, NoMemory>
    requires { All (spec.HasCell column.now) rows.now }
    ensures field { IfOk result (λ stats. stats.field ≡ column.now.field) }
    ensures stats { IfOk result (λ stats. spec.AreStats (cells column.now.field rows.now) stats) }
{
    let least = outermost(Side::Least, column.field, rows.as_slice());
    let greatest = outermost(Side::Greatest, column.field, rows.as_slice());
    let min = kept(alloc, least)?;
    let max = kept(alloc, greatest)?;
    Ok(ColStats {
        field: column.field,
        rows: rows.len() as u64,
        nulls: nulls_of(column.field, rows.as_slice()),
        min,
        max,
    })
}

/// The statistics of a column over its cells, in time linear in them. Nothing is copied but the bounds, and each bound
/// has a text in the catalogue.
pub fn count_cells(alloc: Global, column: &Column, cells: &[Value]) -> Result<ColStats, NoMemory>
    requires { All (spec.Fits column.now.ty) cells.now }
    ensures field { IfOk result (λ stats. stats.field ≡ column.now.field) }
    ensures stats { IfOk result (λ stats. spec.AreStats cells.now stats) }
    ensures texts { IfOk result spec.HasTexts }
{
    let min = kept(alloc, outermost_cell(Side::Least, cells))?;
    let max = kept(alloc, outermost_cell(Side::Greatest, cells))?;
    Ok(ColStats {
        field: column.field,
        rows: cells.len() as u64,
        nulls: nulls_in(cells),
        min,
        max,
    })
}

fn nulls_in(cells: &[Value]) -> u64
    ensures { result ≡ count_by spec.is_null cells.now }
{
    let mut nulls = 0u64;
    for cell in cells {
        if is_null(Some(cell)) {
            nulls += 1;
        }
    }
    nulls
}

fn nulls_of(field: u32, rows: &[Row]) -> u64
    ensures { result ≡ count_by spec.is_null (cells field rows.now) }
{
    let mut nulls = 0u64;
    for row in rows {
        if is_null(cell_at(row.cells.as_slice(), field)) {
            nulls += 1;
        }
    }
    nulls
}

/// The statistics of two lists of rows together, from those of each. A bound is absent where a side that has
/// values has none: that side doesn't tell how far its values go.
pub fn merge_stats(alloc: Global, a: &ColStats, b: &ColStats) -> Result<ColStats, NoMemory>
    requires field { a.now.field ≡ b.now.field }
    requires rows { a.now.rows + b.now.rows < 2 ^ 64 }
    requires nulls { a.now.nulls + b.now.nulls < 2 ^ 64 }
    ensures { IfOk result (λ stats. spec.AreMerged a.now b.now stats) }
{
    let withheld_min = withholds(a, &a.min) || withholds(b, &b.min);
    let withheld_max = withholds(a, &a.max) || withholds(b, &b.max);
    let min = merged(alloc, Side::Least, withheld_min, &a.min, &b.min)?;
    let max = merged(alloc, Side::Greatest, withheld_max, &a.max, &b.max)?;
    Ok(ColStats {
        field: a.field,
        rows: a.rows + b.rows,
        nulls: a.nulls + b.nulls,
        min,
        max,
    })
}

/// Whether a side has values and doesn't tell this bound of them.
fn withholds(stats: &ColStats, bound: &Option<Value>) -> bool
    ensures { result ≡ spec.withholds stats.now bound.now }
{
    match bound {
        None => stats.nulls < stats.rows,
        Some(_) => false,
    }
}

fn merged(
    alloc: Global,
    side: Side,
    withheld: bool,
    a: &Option<Value>,
    b: &Option<Value>,
) -> Result<Option<Value>, NoMemory>
    ensures { IfOk result (λ bound. bound ≡ spec.merged side withheld a.now b.now) }
{
    if withheld {
        return Ok(None);
    }
    match outer(side, a.as_ref(), b.as_ref()) {
        Some(bound) => Ok(Some(bound.copy(alloc)?)),
        None => Ok(None),
    }
}
