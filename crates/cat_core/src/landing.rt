ghost use Rattle.std.specs.Prelude.{◌≡◌, ◌≤◌, ◌<◌, ◌-◌, true, length, vec_len, vec_capacity, IfErr, OnErr, OnOk};
ghost use Rattle.lake_io.specs.Causes.{Rose};
ghost use Rattle.lake_model.specs.Core.{is_session};
ghost use Rattle.cat_rows.specs.Batches.{Covers, Fits, tables_of};
ghost use Rattle.cat_view.specs.Held.{held_in};
ghost use Rattle.cat_view.specs.StagedNames.{named_staged};
ghost use Rattle.rebase.specs.Parts.{fresh_files};
ghost use Rattle.door.specs.Standing.{carried};
ghost use Rattle.cat_core.specs.Commits as spec;
ghost use Rattle.cat_core.specs.Shown.{InOrder, held_at, shown};

use crate::catalogue::CatCore;
use crate::holding::hold;
use crate::place::place_of;
use cat_rows::{Batch, apply_reserved, reserve_batch};
use cat_view::Staged;
use file_disk::Held;
use keeper::{KeepNo, Keeper};
use lake_types::{KindList, NoMemory};
use std::alloc::Global;

impl<K: Keeper, F: Held> CatCore<K, F> {
    /// Makes room for what a commit adds. All stays as it is, whatever the answer.
    pub(crate) fn make_room(&mut self, batch: &Batch, staged: &Staged<F>) -> Result<(), NoMemory>
        requires in_order { InOrder (K.content self.old.keeper) (shown F.name F.size F.bytes self.old) }
        ensures rows { OnOk result (Covers self.new.rows batch.now.adds) }
        ensures held { OnOk result (length staged.now.tables.items ≤ (held_in self.new.held).room) }
        ensures kinds { OnOk result (vec_len self.new.kinds < vec_capacity self.new.kinds) }
        ensures shown { shown F.name F.size F.bytes self.new ≡ shown F.name F.size F.bytes self.old }
        ensures keeper { self.new.keeper ≡ self.old.keeper }
    {
        reserve_batch(&mut self.rows, batch)?;
        self.held.reserve(staged.tables.len())?;
        self.kinds.reserve(1)
    }

    /// Has a batch kept, and takes over what it changes. It takes no memory once the keeper has answered Ok. The files
    /// come back with a refusal, after which all is as before.
    pub(crate) fn land(
        &mut self,
        alloc: Global,
        session: u8,
        batch: Batch,
        mine: KindList,
        staged: Staged<F>,
    ) -> Result<(), (KeepNo, Staged<F>)>
        requires in_order { InOrder (K.content self.old.keeper) (shown F.name F.size F.bytes self.old) }
        requires session { is_session session ≡ true }
        requires fits { Fits (tables_of self.old.rows) batch }
        requires rows { Covers self.old.rows batch.adds }
        requires held { length staged.tables.items ≤ (held_in self.old.held).room }
        requires kinds { vec_len self.old.kinds < vec_capacity self.old.kinds }
        requires names { spec.AreNew (tables_of self.old.rows) (held_at F.name F.size F.bytes self.old.held)
            (fresh_files (named_staged F.name F.size staged)) }
        ensures landed { OnOk result (spec.HasLanded batch mine (session - 1) (carried F.name F.size F.bytes staged)
            (shown F.name F.size F.bytes self.old) (shown F.name F.size F.bytes self.new)) }
        ensures same { OnErr result (shown F.name F.size F.bytes self.new ≡ shown F.name F.size F.bytes self.old) }
        ensures back { IfErr result (λ why. why.1 ≡ staged) }
        ensures later { K.faults self.old.keeper ≤ K.faults self.new.keeper }
        ensures fault { IfErr result (λ why. why.0 ≡ KeepNo.Failed → Rose (K.faults self.old.keeper) (K.faults self.new.keeper)) }
        ensures in_order { InOrder (K.content self.new.keeper) (shown F.name F.size F.bytes self.new) }
    {
        match self.keeper.apply(alloc, &batch) {
            Ok(()) => {}
            Err(no) => return Err((no, staged)),
        }
        apply_reserved(&mut self.rows, batch);
        hold(&mut self.held, staged);
        let _pushed = self.kinds.push(mine).is_ok();
        self.made = None;
        self.slots[place_of(session)] = None;
        Ok(())
    }
}
