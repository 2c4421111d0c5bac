ghost use Rattle.std.specs.Prelude.{◌≡◌, true, IfOk};
ghost use Rattle.std.specs.Arc.{arc_value};
ghost use Rattle.cat_rows.specs.Batches.{tables_of};
ghost use Rattle.cat_core.specs.Shown as spec;
ghost use Rattle.cat_core.specs.Shown.{IsMade};
ghost use Rattle.door.specs.Opened.{opened_of};

use crate::readable::can_be_seen;
use crate::seen::Seen;
use crate::workable::is_workable;
use cat_rows::CatRows;
use cat_view::{HeldFiles, Version, View, version_at};
use file_disk::Held;
use lake_types::NoMemory;
use std::alloc::{AllocError, Global};
use std::sync::Arc;

/// A further holder of the version.
pub(crate) fn share<F: Held>(seen: &Seen<F>) -> Result<Seen<F>, NoMemory>
    ensures base { IfOk result (λ copy. copy.base ≡ seen.now.base) }
    ensures version { IfOk result (λ copy. arc_value copy.version ≡ arc_value seen.now.version) }
{
    Ok(Seen {
        base: seen.base,
        version: Arc::try_clone(&seen.version)?,
    })
}

/// A view of it.
pub(crate) fn view_of<F: Held>(seen: &Seen<F>, read_only: bool) -> Result<View<F>, NoMemory>
    ensures { IfOk result (λ view. opened_of F.name F.size F.bytes view
        ≡ spec.opened_by F.name F.size F.bytes read_only seen.now) }
{
    let version = Arc::try_clone(&seen.version)?;
    Ok(View::new(seen.base, read_only, version))
}

/// The version that a snapshot sees. Rows that no sane catalogue has, and files that aren't held, are no version, as
/// are columns that are past a limit.
pub(crate) fn make_seen<F: Held>(
    alloc: Global,
    rows: &CatRows,
    held: &HeldFiles<F>,
    snapshot: u64,
) -> Result<Seen<F>, NoMemory>
    ensures base { IfOk result (λ seen. seen.base ≡ snapshot) }
    ensures made { IfOk result (λ seen. IsMade (tables_of rows.now) (spec.held_at F.name F.size F.bytes held.now)
        (spec.opened_by F.name F.size F.bytes true seen)) }
{
    if !can_be_seen(alloc, rows, held, snapshot)? {
        return Err(AllocError);
    }
    let version = version_at(alloc, rows, held, snapshot)?;
    if !is_workable(&version) {
        return Err(AllocError);
    }
    Ok(Seen {
        base: snapshot,
        version: Arc::new(alloc, version)?,
    })
}
