ghost use Rattle.std.specs.Prelude.{◌≡◌, ◌≢◌, ◌≤◌, ℕ, List, false, true, IfNone};
ghost use Rattle.lake_io.specs.Causes.{Rose};
ghost use Rattle.lake_model.specs.Calls.{Ground};
ghost use Rattle.lake_model.specs.declared.answer.Answer.TheVariants as answer;
ghost use Rattle.file_disk.specs.Folder.{Changes};
ghost use Rattle.cat_view.specs.Files.{Files};
ghost use Rattle.row_files.specs.Folders.{files_of};
ghost use Rattle.row_files.specs.Stages.{EndsAtTaken};
ghost use Rattle.txn_buf.specs.Sizes.{IsSizedStmt};
ghost use Rattle.session.specs.Held.{IsReady, number_of, open_of, own_of};
ghost use Rattle.session.specs.Line.{Answers};
ghost use Rattle.session.specs.Select.{AreReadFor, IsDamagedFor, ReadsFor};
ghost use Rattle.session.specs.Turns.{is_fault, uses_files};

use crate::replies::only;
use crate::session::Session;
use door::Door;
use file_disk::{FileDisk, Held};
use lake_io::{Clock, Names};
use lake_model::{Answer, Reply};
use lake_types::Stmt;
use std::alloc::Global;

impl<F: Held> Session<F> {
    /// Answers a statement that neither reads nor writes files.
    fn answer_without_files<R: Door<F>>(
        &mut self,
        alloc: Global,
        door: &mut R,
        stmt: &Stmt,
    ) -> Reply
        requires fileless { uses_files stmt.now ≡ false }
        requires in_order { R.in_order door.old }
        requires served { R.serves door.old (number_of self.old) ≡ true }
        requires ready { IsReady F.name F.size F.bytes self.old (R.opened door.old (number_of self.old)) }
        requires sized { IsSizedStmt stmt.now }
        ensures number { number_of self.new ≡ number_of self.old }
        ensures in_order { R.in_order door.new }
        ensures serves { R.serves door.new ≡ R.serves door.old }
        ensures ready { IsReady F.name F.size F.bytes self.new (R.opened door.new (number_of self.old)) }
        ensures others { (other : ℕ) → R.serves door.old other ≡ true → other ≢ number_of self.old →
            R.opened door.new other ≡ R.opened door.old other }
        ensures later { R.keeper_faults door.old ≤ R.keeper_faults door.new }
        ensures spares { is_fault result.last ≡ false }
        ensures line { (files : Files) (g : Ground) → R.stands door.old files g →
            Answers (R.serves door.old) (number_of self.old) stmt.now result
            (own_of self.old) (own_of self.new) (R.stands door.new files) g }
    {
        match stmt {
            Stmt::Begin => self.begin(alloc, door),
            Stmt::BeginAt { n } => self.begin_at(alloc, door, *n),
            Stmt::Rollback => self.rollback(alloc, door),
            Stmt::Snapshots => self.snapshots(alloc, door),
            Stmt::CreateSchema { .. }
            | Stmt::DropSchema { .. }
            | Stmt::CreateTable { .. }
            | Stmt::DropTable { .. }
            | Stmt::Insert { .. } => self.write(alloc, stmt),
            _ => only(alloc, Answer::NotBuilt),
        }
    }

    /// Answers a statement.
    pub fn answer<R: Door<F>, D: FileDisk<File = F>, N: Names, C: Clock>(
        &mut self,
        alloc: Global,
        door: &mut R,
        disk: &mut D,
        names: &mut N,
        clock: &mut C,
        stmt: &Stmt,
    ) -> Reply
        requires in_order { R.in_order door.old }
        requires served { R.serves door.old (number_of self.old) ≡ true }
        requires ready { IsReady F.name F.size F.bytes self.old (R.opened door.old (number_of self.old)) }
        requires sized { IsSizedStmt stmt.now }
        ensures number { number_of self.new ≡ number_of self.old }
        ensures in_order { R.in_order door.new }
        ensures serves { R.serves door.new ≡ R.serves door.old }
        ensures ready { IsReady F.name F.size F.bytes self.new (R.opened door.new (number_of self.old)) }
        ensures others { (other : ℕ) → R.serves door.old other ≡ true → other ≢ number_of self.old →
            R.opened door.new other ≡ R.opened door.old other }
        ensures later { R.keeper_faults door.old ≤ R.keeper_faults door.new }
        ensures keeper { result.last ≡ answer.Keeper → Rose (R.keeper_faults door.old) (R.keeper_faults door.new) }
        ensures disk_later { D.faults disk.old ≤ D.faults disk.new }
        ensures disk { result.last ≡ answer.Disk → Rose (D.faults disk.old) (D.faults disk.new) }
        ensures damaged { (name : List ℕ) → result.last ≡ answer.Damaged name →
            IsDamagedFor F.name F.part F.bytes (D.part disk.old) (D.files disk.old)
            (open_of self.old) stmt.now name }
        ensures whole { (n : ℕ) → result.last ≡ answer.Number n →
            AreReadFor F.name F.part F.bytes (D.part disk.old) (D.files disk.old)
            (open_of self.old) stmt.now }
        ensures reads { ReadsFor F.name (open_of self.old) stmt.now result.last (D.opens disk.old) (D.opens disk.new) }
        ensures taken { (name : List ℕ) → result.last ≡ answer.NameTaken name →
            EndsAtTaken (N.drawn names.old) (N.drawn names.new) (D.files disk.old) (D.files disk.new) name }
        ensures taken_untold { (name : List ℕ) → result.last ≡ answer.NameTaken name →
            IfNone (D.files disk.old) (Rose (D.faults disk.old) (D.faults disk.new)) }
        ensures part { D.part disk.new ≡ D.part disk.old }
        ensures line { Changes (λ folder folder'. (g : Ground) → R.stands door.old (files_of folder) g →
            Answers (R.serves door.old) (number_of self.old) stmt.now result
            (own_of self.old) (own_of self.new) (R.stands door.new (files_of folder')) g)
            (D.files disk.old) (D.files disk.new) }
    {
        match stmt {
            Stmt::Commit => self.commit(alloc, door, disk, names, clock),
            Stmt::Select { table, items, pred } => {
                self.select(alloc, disk, table, items.as_slice(), pred.as_ref())
            }
            _ => self.answer_without_files(alloc, door, stmt),
        }
    }
}
