ghost use Rattle.std.specs.Prelude.{◌≡◌, ◌≢◌, ◌≤◌, [], ℕ, List, None, Some, true, false, IfNone};
ghost use Rattle.lake_io.specs.Causes.{Rose};
ghost use Rattle.lake_types.specs.declared.stmt.Stmt.TheVariants as stmt;
ghost use Rattle.file_disk.specs.Folder.{Changes};
ghost use Rattle.lake_model.specs.Calls.{Ground};
ghost use Rattle.lake_model.specs.declared.answer.Answer.TheVariants as answer;
ghost use Rattle.cat_view.specs.Files.{Files};
ghost use Rattle.row_files.specs.Folders.{files_of};
ghost use Rattle.row_files.specs.Stages.{EndsAtTaken};
ghost use Rattle.txn_buf.specs.Keeping.{txn_of};
ghost use Rattle.door.specs.Opened.{commit_refusal, open_after_refusal, opened_of};
ghost use Rattle.session.specs.Held.{AreGood, IsGood, IsGoodIn, IsReady, number_of, open_of, opened_in, own_of};
ghost use Rattle.session.specs.Line.{Answers};
ghost use Rattle.session.specs.Staging.{MayCommit};
ghost use Rattle.session.specs.Turns.{answered, is_disk_fault, own_after};

use crate::replies::only;
use crate::session::Session;
use crate::staging::{stage_refusal, staged_for};
use cat_view::{Staged, View};
use door::{CommitNo, Door};
use file_disk::{FileDisk, Held};
use lake_io::{Clock, Names};
use lake_model::{Answer, Reply, Txn};
use std::alloc::Global;
use txn_buf::{Tally, TxnBuf};

/// The answer that a refusal of a commit is.
fn refusal(why: CommitNo) -> Answer
    ensures { result ≡ (answered (commit_refusal why)).last }
{
    match why {
        CommitNo::Clash(clash) => Answer::Conflict(clash),
        CommitNo::Spent { counter } => Answer::Spent { counter },
        CommitNo::KeeperFault => Answer::Keeper,
        CommitNo::Memory => Answer::Memory,
    }
}

impl<F: Held> Session<F> {
    /// Answers a commit that was refused. A clash ends the transaction; after all else it is open as before.
    fn after_refusal(
        &mut self,
        alloc: Global,
        view: View<F>,
        txn: Txn,
        tally: Tally,
        why: CommitNo,
    ) -> Reply
        requires closed { open_of self.old ≡ None }
        requires good { AreGood F.name view txn tally }
        ensures reply { result ≡ answered (commit_refusal why) }
        ensures holds { opened_in F.name F.size F.bytes (open_of self.new)
            ≡ open_after_refusal why (Some (opened_of F.name F.size F.bytes view)) }
        ensures good { IsGoodIn F.name (open_of self.new) }
        ensures own { own_of self.new ≡ own_after (commit_refusal why) [] txn.own }
        ensures number { number_of self.new ≡ number_of self.old }
    {
        if !matches!(why, CommitNo::Clash(_)) {
            self.open_txn = Some(TxnBuf::from_parts(view, txn, tally));
        }
        only(alloc, refusal(why))
    }

    /// Commits a transaction that was open, with what is staged for it.
    fn land<R: Door<F>>(
        &mut self,
        alloc: Global,
        door: &mut R,
        buf: TxnBuf<F>,
        staged: Staged<F>,
        time: i64,
    ) -> Reply
        requires in_order { R.in_order door.old }
        requires served { R.serves door.old (number_of self.old) ≡ true }
        requires closed { open_of self.old ≡ None }
        requires holds { opened_in F.name F.size F.bytes (Some buf) ≡ R.opened door.old (number_of self.old) }
        requires good { IsGood F.name buf }
        ensures number { number_of self.new ≡ number_of self.old }
        ensures in_order { R.in_order door.new }
        ensures serves { R.serves door.new ≡ R.serves door.old }
        ensures ready { IsReady F.name F.size F.bytes self.new (R.opened door.new (number_of self.old)) }
        ensures others { (other : ℕ) → R.serves door.old other ≡ true → other ≢ number_of self.old →
            R.opened door.new other ≡ R.opened door.old other }
        ensures later { R.keeper_faults door.old ≤ R.keeper_faults door.new }
        ensures keeper { result.last ≡ answer.Keeper → Rose (R.keeper_faults door.old) (R.keeper_faults door.new) }
        ensures spares { is_disk_fault result.last ≡ false }
        ensures line { (files : Files) (g : Ground) → R.stands door.old files g →
            MayCommit F.name F.size F.bytes files buf staged →
            Answers (R.serves door.old) (number_of self.old) stmt.Commit result
            (txn_of buf).own (own_of self.new) (R.stands door.new files) g }
    {
        let (view, txn, tally) = buf.into_parts();
        match door.commit(alloc, self.number, txn, staged, time) {
            Ok(n) => only(alloc, Answer::Number { n }),
            Err((why, txn, _)) => self.after_refusal(alloc, view, txn, tally, why),
        }
    }

    /// COMMIT.
    pub(crate) fn commit<R: Door<F>, D: FileDisk<File = F>, N: Names, C: Clock>(
        &mut self,
        alloc: Global,
        door: &mut R,
        disk: &mut D,
        names: &mut N,
        clock: &mut C,
    ) -> Reply
        requires in_order { R.in_order door.old }
        requires served { R.serves door.old (number_of self.old) ≡ true }
        requires ready { IsReady F.name F.size F.bytes self.old (R.opened door.old (number_of self.old)) }
        ensures number { number_of self.new ≡ number_of self.old }
        ensures in_order { R.in_order door.new }
        ensures serves { R.serves door.new ≡ R.serves door.old }
        ensures ready { IsReady F.name F.size F.bytes self.new (R.opened door.new (number_of self.old)) }
        ensures others { (other : ℕ) → R.serves door.old other ≡ true → other ≢ number_of self.old →
            R.opened door.new other ≡ R.opened door.old other }
        ensures later { R.keeper_faults door.old ≤ R.keeper_faults door.new }
        ensures keeper { result.last ≡ answer.Keeper → Rose (R.keeper_faults door.old) (R.keeper_faults door.new) }
        ensures disk_later { D.faults disk.old ≤ D.faults disk.new }
        ensures disk { result.last ≡ answer.Disk → Rose (D.faults disk.old) (D.faults disk.new) }
        ensures whole { (name : List ℕ) → result.last ≢ answer.Damaged name }
        ensures taken { (name : List ℕ) → result.last ≡ answer.NameTaken name →
            EndsAtTaken (N.drawn names.old) (N.drawn names.new) (D.files disk.old) (D.files disk.new) name }
        ensures taken_untold { (name : List ℕ) → result.last ≡ answer.NameTaken name →
            IfNone (D.files disk.old) (Rose (D.faults disk.old) (D.faults disk.new)) }
        ensures opens { D.opens disk.new ≡ D.opens disk.old }
        ensures part { D.part disk.new ≡ D.part disk.old }
        ensures line { Changes (λ folder folder'. (g : Ground) → R.stands door.old (files_of folder) g →
            Answers (R.serves door.old) (number_of self.old) stmt.Commit result
            (own_of self.old) (own_of self.new) (R.stands door.new (files_of folder')) g)
            (D.files disk.old) (D.files disk.new) }
    {
        let Some(buf) = self.open_txn.take() else {
            return only(alloc, Answer::NoTransaction);
        };
        match staged_for(alloc, disk, names, &buf) {
            Ok(staged) => self.land(alloc, door, buf, staged, clock.now()),
            Err(why) => {
                self.open_txn = Some(buf);
                only(alloc, stage_refusal(why))
            }
        }
    }
}
