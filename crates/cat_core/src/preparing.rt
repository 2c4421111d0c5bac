ghost use Rattle.std.specs.Prelude.{◌≡◌, ◌≤◌, ◌<◌, true, length, vec_len, vec_capacity, IfErr, IfOk};
ghost use Rattle.lake_model.specs.Core.{is_session};
ghost use Rattle.cat_rows.specs.Batches.{Covers};
ghost use Rattle.cat_view.specs.Held.{held_in};
ghost use Rattle.cat_view.specs.StagedNames.{named_staged};
ghost use Rattle.door.specs.Opened.{IsOpenFor};
ghost use Rattle.cat_core.specs.Calls as spec;
ghost use Rattle.cat_core.specs.Shown.{InOrder, opened_in, shown};

use crate::catalogue::CatCore;
use crate::commit::Landing;
use cat_view::Staged;
use door::CommitNo;
use file_disk::Held;
use keeper::Keeper;
use lake_model::Txn;
use std::alloc::Global;

impl<K: Keeper, F: Held> CatCore<K, F> {
    /// All that a commit does before the keeper is asked, with room for what it adds.
    pub(crate) fn prepare(
        &mut self,
        alloc: Global,
        session: u8,
        txn: &Txn,
        staged: &Staged<F>,
        time: i64,
    ) -> Result<Landing, CommitNo>
        requires in_order { InOrder (K.content self.old.keeper) (shown F.name F.size F.bytes self.old) }
        requires session { is_session session ≡ true }
        requires open { IsOpenFor txn.now (opened_in (shown F.name F.size F.bytes self.old).opens session) }
        ensures can { IfOk result (spec.CanLand (shown F.name F.size F.bytes self.old) txn.now (opened_in (shown F.name
            F.size F.bytes self.old).opens session) (named_staged F.name F.size staged.now) time) }
        ensures rows { IfOk result (λ landing. Covers self.new.rows landing.batch.adds) }
        ensures held { IfOk result (λ _. length staged.now.tables.items ≤ (held_in
            self.new.held).room) }
        ensures kinds { IfOk result (λ _. vec_len self.new.kinds < vec_capacity self.new.kinds) }
        ensures refused { IfErr result (spec.IsUnprepared (shown F.name F.size F.bytes self.old) txn.now (opened_in (shown
            F.name F.size F.bytes self.old).opens session) (named_staged F.name F.size staged.now)) }
        ensures rest { spec.IsAsBefore (shown F.name F.size F.bytes self.old) (shown F.name F.size F.bytes self.new) }
        ensures keeper { self.new.keeper ≡ self.old.keeper }
        ensures in_order { InOrder (K.content self.new.keeper) (shown F.name F.size F.bytes self.new) }
    {
        let mine = match self.compare(alloc, session, txn) {
            Ok(mine) => mine,
            Err(no) => return Err(no),
        };
        let (batch, snapshot) = match self.next_batch(alloc, txn, staged, time) {
            Ok(next) => next,
            Err(no) => return Err(no),
        };
        match self.make_room(&batch, staged) {
            Ok(()) => Ok(Landing {
                mine,
                batch,
                snapshot,
            }),
            Err(_) => Err(CommitNo::Memory),
        }
    }
}
