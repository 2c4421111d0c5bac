ghost use Rattle.std.specs.Prelude.{◌≡◌, IfOk};
ghost use Rattle.cat_view.specs.Named.{ordered};
ghost use Rattle.scan_exec.specs.Picking.{id_of};

use lake_types::{NoMemory, RowList};

/// The rows rising by id; those of one id stay in their order.
pub fn in_order(rows: RowList) -> Result<RowList, NoMemory>
    ensures { IfOk result (λ sorted. sorted ≡ ordered id_of rows) }
{
    let mut items = rows.into_vec();
    items.sort_by_key(|row| row.id)?;
    Ok(RowList::from_vec(items))
}
