ghost use Rattle.std.specs.Prelude.{◌≡◌, ◌≢◌, ◌≤◌, ℕ, true, length, IfErr};
ghost use Rattle.std.specs.List.{AllByRecursion};
ghost use Rattle.lake_io.specs.Causes.{Rose};
ghost use Rattle.lake_model.specs.Calls.{Ground};
ghost use Rattle.lake_model.specs.Core.{is_session, open_at};
ghost use Rattle.lake_model.specs.Growth.{IsGrowth};
ghost use Rattle.lake_model.specs.History.{Committed, Enters, FitsOpen};
ghost use Rattle.lake_model.specs.declared.call.Call.TheVariants as call;
ghost use Rattle.cat_view.specs.Files.{Files};
ghost use Rattle.cat_view.specs.StagedNames.{named_staged};
ghost use Rattle.rebase.specs.Parts.{fresh_files};
ghost use Rattle.door.specs.Opened as spec;
ghost use Rattle.door.specs.Standing.{AreStaged, HasStood, carried, kinds_at, nothing_more};
ghost use Rattle.door.specs.declared.no.CommitNo.TheVariants as commit_no;
ghost use Rattle.cat_core.specs.Laws.{agrees-opened, stands-more};
ghost use Rattle.cat_core.specs.Shown.{InOrder, opened_in, shown};
ghost use Rattle.cat_core.specs.Stands.{Stands};

use crate::catalogue::CatCore;
use crate::commit::Landing;
use crate::place::{first_in, newest_in};
use cat_view::{Staged, View};
use door::{BeginNo, CommitNo, Door, ListNo, SpentNo};
use file_disk::Held;
use keeper::{KeepNo, Keeper};
use lake_model::{SnapRows, Txn};
use std::alloc::Global;

impl<K: Keeper, F: Held> Door<F> for CatCore<K, F> {
    ghost serves = { λ c. is_session };

    ghost opened = { λ c. opened_in (shown F.name F.size F.bytes c).opens };

    ghost keeper_faults = { λ c. K.faults c.keeper };

    ghost in_order = { λ c. InOrder (K.content c.keeper) (shown F.name F.size F.bytes c) };

    ghost stands = { λ c. Stands (shown F.name F.size F.bytes c) };

    ghost agrees = { λ c. agrees-opened (shown F.name F.size F.bytes c) };

    ghost more_files = { λ c files more g extends h. stands-more (shown F.name F.size F.bytes c) files more g extends h };

    #[tactic(auto, using(crate::proofs::CallLemmas::has_begun, crate::proofs::CallLemmas::wants_memory, crate::proofs::OpenLemmas::opened_same, crate::proofs::OpenLemmas::opened_other))]
    fn begin(&mut self, alloc: Global, session: u8) -> Result<View<F>, BeginNo> {
        let Some(newest) = newest_in(&self.rows) else {
            return Err(BeginNo::Memory);
        };
        match self.open(alloc, session, newest, false) {
            Ok(view) => Ok(view),
            Err(_) => Err(BeginNo::Memory),
        }
    }

    #[tactic(auto, using(crate::proofs::CallLemmas::has_begun_at, crate::proofs::CallLemmas::is_not_kept, crate::proofs::CallLemmas::wants_memory, crate::proofs::OpenLemmas::opened_same, crate::proofs::OpenLemmas::opened_other))]
    fn begin_at(&mut self, alloc: Global, session: u8, n: u64) -> Result<View<F>, BeginNo> {
        let Some(first) = first_in(&self.rows) else {
            return Err(BeginNo::Memory);
        };
        let Some(head) = newest_in(&self.rows) else {
            return Err(BeginNo::Memory);
        };
        if n < first || head < n {
            return Err(BeginNo::NotKept { first, head });
        }
        match self.open(alloc, session, n, true) {
            Ok(view) => Ok(view),
            Err(_) => Err(BeginNo::Memory),
        }
    }

    fn commit(
        &mut self,
        alloc: Global,
        session: u8,
        txn: Txn,
        staged: Staged<F>,
        time: i64,
    ) -> Result<u64, (CommitNo, Txn, Staged<F>)>
        requires in_order { InOrder (K.content self.old.keeper) (shown F.name F.size F.bytes self.old) }
        requires served { is_session session ≡ true }
        requires open { spec.IsOpenFor txn (opened_in (shown F.name F.size F.bytes self.old).opens session) }
        requires grows { AllByRecursion IsGrowth txn.own }
        ensures opened { opened_in (shown F.name F.size F.bytes self.new).opens session
            ≡ spec.open_after_commit result (opened_in (shown F.name F.size F.bytes self.old).opens session) }
        ensures others { (other : ℕ) → is_session other ≡ true → other ≢ session →
            opened_in (shown F.name F.size F.bytes self.new).opens other
            ≡ opened_in (shown F.name F.size F.bytes self.old).opens other }
        ensures in_order { InOrder (K.content self.new.keeper) (shown F.name F.size F.bytes self.new) }
        ensures serves { is_session ≡ is_session }
        ensures later { K.faults self.old.keeper ≤ K.faults self.new.keeper }
        ensures fault { IfErr result (λ why. why.0 ≡ commit_no.KeeperFault →
            Rose (K.faults self.old.keeper) (K.faults self.new.keeper)) }
        ensures back { IfErr result (λ why. (why.1 ≡ txn) × (why.2 ≡ staged)) }
        ensures enters { (files : Files) (g : Ground) → Stands (shown F.name F.size F.bytes self.old) files g →
            FitsOpen g.core txn.own (open_at g.core session) →
            AreStaged files g.core txn.own (named_staged F.name F.size staged)
            (carried F.name F.size F.bytes staged)
            (opened_in (shown F.name F.size F.bytes self.old).opens session) →
            Enters is_session session
            (call.Commit txn.own (length (fresh_files (named_staged F.name F.size staged))))
            (spec.commit_reply result)
            (Committed (kinds_at txn.own (opened_in (shown F.name F.size F.bytes self.old).opens session))
            (carried F.name F.size F.bytes staged))
            (HasStood (Stands (shown F.name F.size F.bytes self.new)) files nothing_more) g }
    {
        if txn.own.is_empty() {
            self.put(session, None);
            return Ok(txn.base);
        }
        let landing = match self.prepare(alloc, session, &txn, &staged, time) {
            Ok(landing) => landing,
            Err(no) => {
                self.after_refusal(session, &no);
                return Err((no, txn, staged));
            }
        };
        let Landing {
            mine,
            batch,
            snapshot,
        } = landing;
        match self.land(alloc, session, batch, mine, staged) {
            Ok(()) => Ok(snapshot),
            Err((KeepNo::Failed, staged)) => Err((CommitNo::KeeperFault, txn, staged)),
            Err((KeepNo::Memory, staged)) => Err((CommitNo::Memory, txn, staged)),
        }
    }

    #[tactic(auto, using(crate::proofs::CallLemmas::has_ended, crate::proofs::OpenLemmas::opened_same, crate::proofs::OpenLemmas::opened_other))]
    fn rollback(&mut self, _alloc: Global, session: u8) -> Result<(), SpentNo> {
        self.put(session, None);
        Ok(())
    }

    fn list(&mut self, alloc: Global) -> Result<SnapRows, ListNo> {
        match self.snapshots(alloc) {
            Ok(rows) => Ok(rows),
            Err(_) => Err(ListNo::Memory),
        }
    }
}
