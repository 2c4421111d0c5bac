ghost use Rattle.std.specs.Prelude.{◌≡◌, ◌||◌, not};
ghost use Rattle.cat_rows.specs.Batches.{holds, tables_of};
ghost use Rattle.cat_rules.specs.TableStatsRule.{IsStatsBad, are_stats_large, stats_of};
ghost use Rattle.cat_rules.specs.First.{FirstBad};
ghost use Rattle.cat_rules.specs.Places as places;

use cat_rows::{CatRows, Key, TableRow, TableStatsRow};
use cat_rules::{MAX_COUNTER, MAX_FIELD_ID, RowRule, first_bad, sooner};

/// A table without a row of statistics is bad, and that row is what is missing.
#[derive(Drop)]
struct LacksStats<'a> {
    rows: &'a CatRows,
}

impl RowRule<TableRow> for LacksStats<'_> {
    ghost is_bad = { λ rule r. not (holds (tables_of rule.rows.now) (stats_of r)) };

    ghost name = { stats_of };

    fn judge(&self, row: &TableRow) -> Option<Key> {
        let key = Key::TableStats(row.table_id);
        if self.rows.holds(&key) {
            None
        } else {
            Some(key)
        }
    }
}

/// The statistics of a table with a counter past its last value are bad.
#[derive(Drop)]
struct LargeCounter<'a> {
    rows: &'a CatRows,
}

impl RowRule<TableStatsRow> for LargeCounter<'_> {
    ghost is_bad = { λ rule r. are_stats_large (tables_of rule.rows.now) r };

    ghost name = { places.of_table_stats };

    fn judge(&self, row: &TableStatsRow) -> Option<Key> {
        let is_large = row.record_count > MAX_COUNTER
            || row.next_row_id > MAX_COUNTER
            || row.next_field_id > MAX_FIELD_ID
            || row.file_size_bytes > MAX_COUNTER;
        if self.rows.holds(&Key::Table(row.table_id)) && is_large {
            Some(Key::TableStats(row.table_id))
        } else {
            None
        }
    }
}

/// The first bad row of the rule about statistics of tables: each table has its row, with counters up to
/// their last values.
pub fn first_bad_stats(rows: &CatRows) -> Option<Key>
    ensures { FirstBad (IsStatsBad (tables_of rows.now)) result }
{
    let missing = first_bad(&LacksStats { rows }, rows.table());
    let large = first_bad(&LargeCounter { rows }, rows.table_stats());
    sooner(missing, large)
}
