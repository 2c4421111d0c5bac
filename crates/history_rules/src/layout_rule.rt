ghost use Rattle.std.specs.Prelude.{◌≡◌, IfOk, find};
ghost use Rattle.std.specs.Option.{option_copied};
ghost use Rattle.cat_rows.specs.Batches.{tables_of};
ghost use Rattle.cat_rules.specs.First.{FirstBad};
ghost use Rattle.cat_rules.specs.LayoutRule.{IsLayoutBad, Misses, is_layout, is_other_entry};
ghost use Rattle.cat_rules.specs.Places.{of_metadata};
ghost use Rattle.cat_rules.specs.Rows.{NamesIf};
ghost use Rattle.cat_rows.specs.Keys.{metadata_key};
ghost use Rattle.cat_tables.specs.Table.{RisesByKey};

use cat_rows::{CatRows, Key, MetadataRow};
use cat_rules::sooner;
use lake_types::{Copied, NoMemory, Words};
use std::alloc::Global;

/// Whether an entry says that the layout is 1.
fn is_layout(row: &MetadataRow) -> bool
    ensures { result ≡ is_layout row.now }
{
    row.key.as_str() == "layout" && row.value.as_str() == "1"
}

fn other_entry(rows: &[MetadataRow]) -> Option<&MetadataRow>
    ensures { option_copied result ≡ find is_other_entry rows.now }
{
    rows.iter().find(|row| !is_layout(row))
}

/// The key of the first entry that is another one, or that says another layout.
fn first_other_entry(alloc: Global, rows: &[MetadataRow]) -> Result<Option<Key>, NoMemory>
    requires { RisesByKey metadata_key rows.now }
    ensures { IfOk result (FirstBad (NamesIf of_metadata is_other_entry rows.now)) }
{
    match other_entry(rows) {
        Some(row) => Ok(Some(Key::Metadata(row.key.copy(alloc)?))),
        None => Ok(None),
    }
}

/// The key, where there is no row of it.
fn missing(rows: &CatRows, key: Key) -> Option<Key>
    ensures { FirstBad (Misses (tables_of rows.now) key) result }
{
    if rows.holds(&key) { None } else { Some(key) }
}

/// The first bad row of the rule about the layout: `layout` is `1`, and there is no other entry.
pub fn first_bad_layout(alloc: Global, rows: &CatRows) -> Result<Option<Key>, NoMemory>
    ensures { IfOk result (FirstBad (IsLayoutBad (tables_of rows.now))) }
{
    let layout = Key::Metadata(Words::of(alloc, "layout")?);
    let other = first_other_entry(alloc, rows.metadata())?;
    Ok(sooner(other, missing(rows, layout)))
}
