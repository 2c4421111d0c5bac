ghost use Rattle.std.specs.Prelude.{◌≡◌, ◌≢◌, ◌≤◌, [], ℕ, None, false, true, IfOk};
ghost use Rattle.lake_types.specs.declared.stmt.Stmt.TheVariants as stmt;
ghost use Rattle.lake_model.specs.Calls.{Ground};
ghost use Rattle.cat_view.specs.Files.{Files};
ghost use Rattle.cat_view.specs.Views.{named_view};
ghost use Rattle.cat_view.specs.Workable.{IsWorkable};
ghost use Rattle.door.specs.Opened.{begin_reply, open_after_begin, opened_of};
ghost use Rattle.session.specs.Held.{IsGoodIn, IsReady, number_of, open_of, opened_in, own_of};
ghost use Rattle.session.specs.Line.{Answers};
ghost use Rattle.session.specs.Turns.{answered, is_fault};

use crate::replies::only;
use crate::session::Session;
use cat_view::View;
use door::{BeginNo, Door};
use file_disk::Held;
use lake_model::{Answer, Reply};
use std::alloc::Global;
use txn_buf::TxnBuf;

impl<F: Held> Session<F> {
    /// Opens a transaction on the view that a door gave, or says why it gave none.
    pub(crate) fn take_view(&mut self, alloc: Global, got: Result<View<F>, BeginNo>) -> Reply
        requires closed { open_of self.old ≡ None }
        requires workable { IfOk got (λ view. IsWorkable (named_view F.name view)) }
        ensures reply { result ≡ answered (begin_reply got) }
        ensures spares { is_fault result.last ≡ false }
        ensures holds { opened_in F.name F.size F.bytes (open_of self.new)
            ≡ open_after_begin (opened_of F.name F.size F.bytes) got None }
        ensures good { IsGoodIn F.name (open_of self.new) }
        ensures own { own_of self.new ≡ [] }
        ensures number { number_of self.new ≡ number_of self.old }
    {
        match got {
            Ok(view) => {
                let n = view.base();
                self.open_txn = Some(TxnBuf::new(alloc, view));
                only(alloc, Answer::Number { n })
            }
            Err(BeginNo::NotKept { first, head }) => only(alloc, Answer::NotKept { first, head }),
            Err(BeginNo::Spent { counter }) => only(alloc, Answer::Spent { counter }),
            Err(BeginNo::Memory) => only(alloc, Answer::Memory),
        }
    }

    /// BEGIN.
    pub(crate) fn begin<R: Door<F>>(&mut self, alloc: Global, door: &mut R) -> Reply
        requires in_order { R.in_order door.old }
        requires served { R.serves door.old (number_of self.old) ≡ true }
        requires ready { IsReady F.name F.size F.bytes self.old (R.opened door.old (number_of self.old)) }
        ensures number { number_of self.new ≡ number_of self.old }
        ensures in_order { R.in_order door.new }
        ensures serves { R.serves door.new ≡ R.serves door.old }
        ensures ready { IsReady F.name F.size F.bytes self.new (R.opened door.new (number_of self.old)) }
        ensures others { (other : ℕ) → R.serves door.old other ≡ true → other ≢ number_of self.old →
            R.opened door.new other ≡ R.opened door.old other }
        ensures later { R.keeper_faults door.old ≤ R.keeper_faults door.new }
        ensures spares { is_fault result.last ≡ false }
        ensures line { (files : Files) (g : Ground) → R.stands door.old files g →
            Answers (R.serves door.old) (number_of self.old) stmt.Begin result
            (own_of self.old) (own_of self.new) (R.stands door.new files) g }
    {
        if self.open_txn.is_some() {
            return only(alloc, Answer::InTransaction);
        }
        let got = door.begin(alloc, self.number);
        self.take_view(alloc, got)
    }
}
