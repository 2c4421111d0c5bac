ghost use Rattle.std.specs.Prelude.{◌≡◌, ◌≢◌, ◌≤◌, ℕ, Bool, true, None, IfErr, IfOk, Option, is_some, length};
ghost use Rattle.std.specs.List.{AllByRecursion};
ghost use Rattle.lake_io.specs.Causes.{Rose};
ghost use Rattle.lake_model.specs.Calls.{Ground};
ghost use Rattle.lake_model.specs.Core.{open_at};
ghost use Rattle.lake_model.specs.Growth.{IsGrowth};
ghost use Rattle.lake_model.specs.History.{Committed, Enters, FitsOpen, Nothing};
ghost use Rattle.lake_model.specs.declared.call.Call.TheVariants as call;
ghost use Rattle.cat_view.specs.Files.{Extends, Files};
ghost use Rattle.cat_view.specs.StagedNames.{named_staged};
ghost use Rattle.cat_view.specs.Views.{named_view};
ghost use Rattle.cat_view.specs.Workable.{IsWorkable};
ghost use Rattle.rebase.specs.Parts.{fresh_files};
ghost use Rattle.door.specs.Opened as spec;
ghost use Rattle.door.specs.Opened.{AgreesOn, Opened};
ghost use Rattle.door.specs.Standing.{AreStaged, HasStood, carried, kinds_at, nothing_more};
ghost use Rattle.door.specs.declared.no.CommitNo.TheVariants as commit_no;

use crate::no::{BeginNo, CommitNo, ListNo, SpentNo};
use cat_view::{Staged, View};
use file_disk::Held;
use lake_model::{SnapRows, Txn};
use std::alloc::Global;

/// The calls by which sessions reach the catalogue. Each takes effect at one moment, as one entry of a
/// legal history.
pub trait Door<F: Held> {
    /// Which sessions may call.
    ghost serves: { Self → ℕ → Bool };

    /// What each session has open.
    ghost opened: { Self → ℕ → Option Opened };

    /// How often the keeper failed, which never falls.
    ghost keeper_faults: { Self → ℕ };

    /// What holds of it between two calls.
    ghost in_order: { Self → Type 0 };

    /// With these files it stands for this lake.
    ghost stands: { Self → Files → Ground → Type 0 };

    /// Opens a transaction on the newest version.
    fn begin(&mut self, alloc: Global, session: u8) -> Result<View<F>, BeginNo>
        requires in_order { in_order self.old }
        requires served { serves self.old session ≡ true }
        requires closed { opened self.old session ≡ None }
        ensures workable { IfOk result (λ view. IsWorkable (named_view F.name view)) }
        ensures opened { opened self.new session ≡
            spec.open_after_begin (spec.opened_of F.name F.size F.bytes) result (opened self.old session) }
        ensures others { (other : ℕ) → serves self.old other ≡ true → other ≢ session →
            opened self.new other ≡ opened self.old other }
        ensures in_order { in_order self.new }
        ensures serves { serves self.new ≡ serves self.old }
        ensures later { keeper_faults self.old ≤ keeper_faults self.new }
        ensures enters { (files : Files) (g : Ground) → stands self.old files g →
            Enters (serves self.old) session call.Begin (spec.begin_reply result) Nothing
            (HasStood (stands self.new) files nothing_more) g };

    /// Opens a transaction that only reads, on the version of a snapshot.
    fn begin_at(&mut self, alloc: Global, session: u8, n: u64) -> Result<View<F>, BeginNo>
        requires in_order { in_order self.old }
        requires served { serves self.old session ≡ true }
        requires closed { opened self.old session ≡ None }
        ensures workable { IfOk result (λ view. IsWorkable (named_view F.name view)) }
        ensures opened { opened self.new session ≡
            spec.open_after_begin (spec.opened_of F.name F.size F.bytes) result (opened self.old session) }
        ensures others { (other : ℕ) → serves self.old other ≡ true → other ≢ session →
            opened self.new other ≡ opened self.old other }
        ensures in_order { in_order self.new }
        ensures serves { serves self.new ≡ serves self.old }
        ensures later { keeper_faults self.old ≤ keeper_faults self.new }
        ensures enters { (files : Files) (g : Ground) → stands self.old files g →
            Enters (serves self.old) session (call.BeginAt n) (spec.begin_reply result) Nothing
            (HasStood (stands self.new) files nothing_more) g };

    /// Commits a transaction's list with the files that were staged for it, at a time in milliseconds since
    /// the beginning of 1970, UTC. The answer is the snapshot that it made, and its base where the list is
    /// empty.
    ///
    /// The list creates, drops and inserts alone. Transaction and files come back with every refusal.
    fn commit(
        &mut self,
        alloc: Global,
        session: u8,
        txn: Txn,
        staged: Staged<F>,
        time: i64,
    ) -> Result<u64, (CommitNo, Txn, Staged<F>)>
        requires in_order { in_order self.old }
        requires served { serves self.old session ≡ true }
        requires open { spec.IsOpenFor txn (opened self.old session) }
        requires grows { AllByRecursion IsGrowth txn.own }
        ensures opened { opened self.new session ≡ spec.open_after_commit result (opened self.old session) }
        ensures others { (other : ℕ) → serves self.old other ≡ true → other ≢ session →
            opened self.new other ≡ opened self.old other }
        ensures in_order { in_order self.new }
        ensures serves { serves self.new ≡ serves self.old }
        ensures later { keeper_faults self.old ≤ keeper_faults self.new }
        ensures fault { IfErr result (λ why. why.0 ≡ commit_no.KeeperFault →
            Rose (keeper_faults self.old) (keeper_faults self.new)) }
        ensures back { IfErr result (λ why. (why.1 ≡ txn) × (why.2 ≡ staged)) }
        ensures enters { (files : Files) (g : Ground) → stands self.old files g →
            FitsOpen g.core txn.own (open_at g.core session) →
            AreStaged files g.core txn.own (named_staged F.name F.size staged)
            (carried F.name F.size F.bytes staged) (opened self.old session) →
            Enters (serves self.old) session
            (call.Commit txn.own (length (fresh_files (named_staged F.name F.size staged))))
            (spec.commit_reply result)
            (Committed (kinds_at txn.own (opened self.old session))
            (carried F.name F.size F.bytes staged))
            (HasStood (stands self.new) files nothing_more) g };

    /// Ends a transaction, and nothing else changes.
    fn rollback(&mut self, alloc: Global, session: u8) -> Result<(), SpentNo>
        requires in_order { in_order self.old }
        requires served { serves self.old session ≡ true }
        requires open { is_some (opened self.old session) ≡ true }
        ensures opened { opened self.new session ≡ spec.open_after_rollback result (opened self.old session) }
        ensures others { (other : ℕ) → serves self.old other ≡ true → other ≢ session →
            opened self.new other ≡ opened self.old other }
        ensures in_order { in_order self.new }
        ensures serves { serves self.new ≡ serves self.old }
        ensures later { keeper_faults self.old ≤ keeper_faults self.new }
        ensures enters { (files : Files) (g : Ground) → stands self.old files g →
            Enters (serves self.old) session call.Rollback (spec.rollback_reply result) Nothing
            (HasStood (stands self.new) files nothing_more) g };

    /// Each kept snapshot, rising, with the text of what it changed. The call is one of any session that is
    /// served.
    fn list(&mut self, alloc: Global) -> Result<SnapRows, ListNo>
        requires in_order { in_order self.old }
        ensures opened { (session : ℕ) → serves self.old session ≡ true →
            opened self.new session ≡ opened self.old session }
        ensures in_order { in_order self.new }
        ensures serves { serves self.new ≡ serves self.old }
        ensures later { keeper_faults self.old ≤ keeper_faults self.new }
        ensures enters { (files : Files) (g : Ground) (session : ℕ) → stands self.old files g →
            serves self.old session ≡ true →
            Enters (serves self.old) session call.List (spec.list_reply result) Nothing
            (HasStood (stands self.new) files nothing_more) g };

    /// What its sessions have open is what the lake says that it stands for.
    ghost agrees: { (door : Self) (files : Files) (g : Ground) → stands door files g →
        AgreesOn (serves door) files g.core (opened door) };

    /// More files leave what it stands for.
    ghost more_files: { (door : Self) (files more : Files) (g : Ground) → Extends files more →
        stands door files g → stands door more g };
}
