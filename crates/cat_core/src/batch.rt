ghost use Rattle.std.specs.Prelude.{◌≡◌, true, Some, IfErr, IfOk, option_map};
ghost use Rattle.cat_rows.specs.Batches.{Fits, tables_of};
ghost use Rattle.cat_rules.specs.Kept.{newest};
ghost use Rattle.cat_view.specs.StagedNames.{named_staged};
ghost use Rattle.cat_core.specs.Calls.{IsAsBefore};
ghost use Rattle.cat_core.specs.Commits as spec;
ghost use Rattle.cat_core.specs.Shown.{InOrder, IsMade, held_at, opened_by, shown};

use crate::catalogue::CatCore;
use crate::makeable::can_be_made;
use crate::names::are_new;
use crate::place::newest_in;
use crate::seen::Seen;
use cat_rows::{Batch, CatRows, fits_batch};
use cat_view::{HeldFiles, Staged};
use door::CommitNo;
use file_disk::Held;
use keeper::Keeper;
use lake_model::Txn;
use rebase::{BatchNo, make_batch};
use std::alloc::Global;

/// The batch over the newest snapshot's version, with the number of the next one.
#[tactic(auto, using(crate::proofs::PlaceLemmas::is_there))]
fn batch_over<F: Held>(
    alloc: Global,
    rows: &CatRows,
    held: &HeldFiles<F>,
    head: &Seen<F>,
    txn: &Txn,
    staged: &Staged<F>,
    time: i64,
) -> Result<(Batch, u64), CommitNo>
    requires newest { option_map (λ r. r.snapshot_id) (newest (tables_of rows.now).snapshot) ≡ Some head.now.base }
    requires made { IsMade (tables_of rows.now) (held_at F.name F.size F.bytes held.now) (opened_by F.name F.size F.bytes
        true head.now) }
    ensures next { IfOk result (λ next. spec.IsNext (tables_of rows.now) (held_at F.name F.size F.bytes held.now)
        txn.now.own (named_staged F.name F.size staged.now) time next.0) }
    ensures snapshot { IfOk result (λ next. spec.IsPastNewest (tables_of rows.now) next.1) }
    ensures fits { IfOk result (λ next. Fits (tables_of rows.now) next.0) }
    ensures refused { IfErr result (spec.IsUnmade (tables_of rows.now) txn.now.own (named_staged F.name F.size
        staged.now)) }
{
    let tables = staged.tables.as_slice();
    if !are_new(rows, held, tables) || !can_be_made(rows, txn.own.as_slice(), tables) {
        return Err(CommitNo::Memory);
    }
    let Some(snapshot) = head.base.checked_add(1) else {
        return Err(CommitNo::Memory);
    };
    let batch = match make_batch(alloc, rows, &head.version, txn, staged, time) {
        Ok(batch) => batch,
        Err(BatchNo::Spent { counter }) => return Err(CommitNo::Spent { counter }),
        Err(BatchNo::Memory) => return Err(CommitNo::Memory),
    };
    if !fits_batch(rows, &batch) {
        return Err(CommitNo::Memory);
    }
    Ok((batch, snapshot))
}

impl<K: Keeper, F: Held> CatCore<K, F> {
    /// The batch that a list and its staged files make at the newest snapshot, and the number of the next one. A batch
    /// that the rows don't allow is none: a staged name that isn't new, and a list that no statement makes.
    pub(crate) fn next_batch(
        &mut self,
        alloc: Global,
        txn: &Txn,
        staged: &Staged<F>,
        time: i64,
    ) -> Result<(Batch, u64), CommitNo>
        requires in_order { InOrder (K.content self.old.keeper) (shown F.name F.size F.bytes self.old) }
        ensures next { IfOk result (λ next. spec.IsNext (shown F.name F.size F.bytes self.old).rows (shown F.name
            F.size F.bytes self.old).held txn.now.own (named_staged F.name F.size staged.now) time next.0) }
        ensures snapshot { IfOk result (λ next. spec.IsPastNewest (shown F.name F.size F.bytes self.old).rows next.1) }
        ensures fits { IfOk result (λ next. Fits (shown F.name F.size F.bytes self.old).rows next.0) }
        ensures refused { IfErr result (spec.IsUnmade (shown F.name F.size F.bytes self.old).rows txn.now.own
            (named_staged F.name F.size staged.now)) }
        ensures rest { IsAsBefore (shown F.name F.size F.bytes self.old) (shown F.name F.size F.bytes self.new) }
        ensures keeper { self.new.keeper ≡ self.old.keeper }
        ensures in_order { InOrder (K.content self.new.keeper) (shown F.name F.size F.bytes self.new) }
    {
        let Some(newest) = newest_in(&self.rows) else {
            return Err(CommitNo::Memory);
        };
        let Ok(head) = self.seen_at(alloc, newest) else {
            return Err(CommitNo::Memory);
        };
        batch_over(alloc, &self.rows, &self.held, &head, txn, staged, time)
    }
}
