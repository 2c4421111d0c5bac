ghost use Rattle.std.specs.Prelude.{◌≡◌, ◌≢◌, ◌≤◌, ℕ, false, true};
ghost use Rattle.lake_types.specs.declared.stmt.Stmt.TheVariants as stmt;
ghost use Rattle.lake_model.specs.Calls.{Ground};
ghost use Rattle.cat_view.specs.Files.{Files};
ghost use Rattle.session.specs.Held.{IsReady, number_of, own_of};
ghost use Rattle.session.specs.Line.{Answers};
ghost use Rattle.session.specs.Turns.{is_fault};

use crate::replies::only;
use crate::session::Session;
use door::Door;
use file_disk::Held;
use lake_model::{Answer, Reply};
use std::alloc::Global;

impl<F: Held> Session<F> {
    /// BEGIN AT.
    pub(crate) fn begin_at<R: Door<F>>(&mut self, alloc: Global, door: &mut R, n: u64) -> Reply
        requires in_order { R.in_order door.old }
        requires served { R.serves door.old (number_of self.old) ≡ true }
        requires ready { IsReady F.name F.size F.bytes self.old (R.opened door.old (number_of self.old)) }
        ensures number { number_of self.new ≡ number_of self.old }
        ensures in_order { R.in_order door.new }
        ensures serves { R.serves door.new ≡ R.serves door.old }
        ensures ready { IsReady F.name F.size F.bytes self.new (R.opened door.new (number_of self.old)) }
        ensures others { (other : ℕ) → R.serves door.old other ≡ true → other ≢ number_of self.old →
            R.opened door.new other ≡ R.opened door.old other }
        ensures later { R.keeper_faults door.old ≤ R.keeper_faults door.new }
        ensures spares { is_fault result.last ≡ false }
        ensures line { (files : Files) (g : Ground) → R.stands door.old files g →
            Answers (R.serves door.old) (number_of self.old) (stmt.BeginAt n) result
            (own_of self.old) (own_of self.new) (R.stands door.new files) g }
    {
        if self.open_txn.is_some() {
            return only(alloc, Answer::InTransaction);
        }
        let got = door.begin_at(alloc, self.number, n);
        self.take_view(alloc, got)
    }
}
