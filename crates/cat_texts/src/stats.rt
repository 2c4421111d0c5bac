ghost use Rattle.std.specs.Prelude.{◌≡◌, Err, IfOk, IfSome};
ghost use Rattle.col_stats.specs.Bounds as bounds;
ghost use Rattle.col_stats.specs.Stats.{Fits, HasTexts};
ghost use Rattle.lake_types.specs.declared.value.ColType.{ColType};
ghost use Rattle.cat_texts.specs.Spelled.{IsBoundOf, IsStatsOf, TellsNone};
ghost use Rattle.cat_texts.specs.Written as spec;
ghost use Rattle.cat_texts.specs.declared.reading.ReadTextNo.TheVariants.{BadText};

use crate::reading::{ReadTextNo, read_bound};
use cat_rows::FileColumnStatsRow;
use col_stats::ColStats;
use lake_types::{ColType, NoMemory, Value, Words, text_of};
use std::alloc::Global;

/// The statistics that a row tells of a column of this type over so many rows. `BadText` where it tells none
/// whose field id has 32 bits.
pub fn read_stats(
    alloc: Global,
    ty: ColType,
    rows: u64,
    row: &FileColumnStatsRow,
) -> Result<ColStats, ReadTextNo>
    ensures ok { IfOk result (IsStatsOf ty rows row.now) }
    ensures bad { result ≡ Err BadText → TellsNone ty rows row.now }
{
    let Ok(field) = u32::try_from(row.column_id) else {
        return Err(ReadTextNo::BadText);
    };
    let min = match read_bound(alloc, ty, &row.min_value) {
        Ok(min) => min,
        Err(why) => return Err(why),
    };
    let max = match read_bound(alloc, ty, &row.max_value) {
        Ok(max) => max,
        Err(why) => return Err(why),
    };
    Ok(ColStats {
        field,
        rows,
        nulls: row.null_count,
        min,
        max,
    })
}

/// The row of a column's statistics in a file. Where the bounds are of a type, it tells these statistics of a
/// column of that type.
pub fn stats_row(alloc: Global, file: u64, stats: &ColStats) -> Result<FileColumnStatsRow, NoMemory>
    requires { HasTexts stats.now }
    ensures row { IfOk result (λ row. row ≡ spec.stats_row file stats.now) }
    ensures back { IfOk result (λ row. spec.TellsBack row stats.now) }
{
    Ok(FileColumnStatsRow {
        data_file_id: file,
        column_id: u64::from(stats.field),
        null_count: stats.nulls,
        min_value: bound_text(alloc, &stats.min)?,
        max_value: bound_text(alloc, &stats.max)?,
    })
}

/// The text of a bound; none where there is no bound.
fn bound_text(alloc: Global, bound: &Option<Value>) -> Result<Option<Words>, NoMemory>
    requires { IfSome bound.now bounds.HasText }
    ensures text { IfOk result (λ text. text ≡ bounds.bound_text bound.now) }
    ensures back { IfOk result (λ text. (ty : ColType) → IfSome bound.now (Fits ty) → IsBoundOf ty text bound.now) }
{
    match bound {
        Some(value) => Ok(Some(text_of(alloc, value)?)),
        None => Ok(None),
    }
}
