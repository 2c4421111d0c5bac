ghost use Rattle.std.specs.Prelude.{◌≡◌, OnOk, OnErr};
ghost use Rattle.cat_rows.specs.Batches.{tables_of, applied, Covers, Fits};
ghost use Rattle.cat_rows.specs.Seen.{KeepsEarlier};

use crate::batch::Batch;
use crate::content::CatRows;
use lake_types::{Copied, NoMemory};
use std::alloc::Global;

/// Makes room for a batch's additions. The rows stay as they are, whatever the answer.
pub fn reserve_batch(rows: &mut CatRows, batch: &Batch) -> Result<(), NoMemory>
    ensures rows { tables_of rows.new ≡ tables_of rows.old }
    ensures room { OnOk result (Covers rows.new batch.now.adds) }
{
    rows.reserve(batch.adds.as_slice())
}

#[tactic(auto, using(crate::proofs::FitLemmas::fitting, crate::proofs::RoomLemmas::keeping))]
fn apply_in_room(rows: &mut CatRows, batch: Batch)
    requires fits { Fits (tables_of rows.old) batch }
    requires room { Covers rows.old batch.adds }
    ensures { tables_of rows.new ≡ applied batch (tables_of rows.old) }
{
    let Batch {
        removes,
        ends,
        adds,
    } = batch;
    rows.remove_all(removes.as_slice());
    rows.end_all(ends.as_slice());
    rows.add_all(adds.into_vec());
}

/// Applies a batch that fits: removals, then ends, then additions, in room that is there. It takes no memory.
/// A snapshot sees what it saw where the batch begins and ends rows past it, and takes away none that it sees.
pub fn apply_reserved(rows: &mut CatRows, batch: Batch)
    requires fits { Fits (tables_of rows.old) batch }
    requires room { Covers rows.old batch.adds }
    ensures rows { tables_of rows.new ≡ applied batch (tables_of rows.old) }
    ensures earlier { KeepsEarlier batch (tables_of rows.old) (tables_of rows.new) }
{
    apply_in_room(rows, batch);
}

/// Applies a batch that fits: removals, then ends, then additions. Want of memory changes no row.
pub fn apply_batch(alloc: Global, rows: &mut CatRows, batch: &Batch) -> Result<(), NoMemory>
    requires { Fits (tables_of rows.old) batch.now }
    ensures ok { OnOk result (tables_of rows.new ≡ applied batch.now (tables_of rows.old)) }
    ensures earlier { OnOk result (KeepsEarlier batch.now (tables_of rows.old) (tables_of rows.new)) }
    ensures err { OnErr result (tables_of rows.new ≡ tables_of rows.old) }
{
    let own = batch.copy(alloc)?;
    reserve_batch(rows, batch)?;
    apply_reserved(rows, own);
    Ok(())
}
