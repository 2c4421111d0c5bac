ghost use Rattle.std.specs.Prelude.{◌≡◌, ◌≢◌, false, [], None, IfErr, IfOk, OnErr, OnOk};
ghost use Rattle.lake_types.specs.declared.stmt.Stmt.{Stmt};
ghost use Rattle.lake_model.specs.Step.{compacts};
ghost use Rattle.cat_view.specs.Views.{base_of, named_view, only_reads};
ghost use Rattle.cat_view.specs.Workable.{AreSized};
ghost use Rattle.txn_buf.specs.Keeping.{IsReady, Keeps, txn_of, tally_of, view_of};
ghost use Rattle.txn_buf.specs.Turns.{IsRefused};
ghost use Rattle.txn_buf.specs.declared.no.TxnNo.TheVariants.{Memory};

use crate::no::TxnNo;
use crate::seen::{Seen, seen_in};
use crate::tally::Tally;
use cat_view::View;
use file_disk::Held;
use lake_model::{ChangeList, Txn};
use std::alloc::Global;

/// An open transaction: what it began with, its own changes since, and what is kept of them.
#[derive(Drop)]
pub struct TxnBuf<F> {
    pub(crate) view: View<F>,
    pub(crate) txn: Txn,
    pub(crate) tally: Tally,
}

impl<F: Held> TxnBuf<F> {
    /// A transaction on a view, without changes. The names and defaults of the view's columns are small. It takes no
    /// memory.
    pub fn new(alloc: Global, view: View<F>) -> TxnBuf<F>
        requires sized { AreSized (named_view F.name view).tables }
        ensures view { view_of result ≡ view }
        ensures txn { txn_of result ≡ record { base = base_of view; read_only = only_reads view; own = [] } }
        ensures keeps { Keeps (named_view F.name view) (txn_of result).own (tally_of result) }
    {
        let txn = Txn {
            base: view.base(),
            read_only: view.read_only(),
            own: ChangeList::new(alloc),
        };
        let tally = Tally {
            weight: 0,
            compacts: false,
            seen: None,
        };
        TxnBuf { view, txn, tally }
    }

    /// The transaction, with its own list.
    pub fn txn(&self) -> &Txn
        ensures { result.now ≡ txn_of self.now }
    {
        &self.txn
    }

    /// What it began with.
    pub fn view(&self) -> &View<F>
        ensures { result.now ≡ view_of self.now }
    {
        &self.view
    }

    /// Its parts. It takes no memory.
    pub fn into_parts(self) -> (View<F>, Txn, Tally)
        ensures view { result.0 ≡ view_of self }
        ensures txn { result.1 ≡ txn_of self }
        ensures tally { result.2 ≡ tally_of self }
    {
        let TxnBuf { view, txn, tally } = self;
        (view, txn, tally)
    }

    /// The transaction of these parts. It takes no memory.
    pub fn from_parts(view: View<F>, txn: Txn, tally: Tally) -> TxnBuf<F>
        requires keeps { Keeps (named_view F.name view) txn.own tally }
        ensures view { view_of result ≡ view }
        ensures txn { txn_of result ≡ txn }
        ensures tally { tally_of result ≡ tally }
    {
        TxnBuf { view, txn, tally }
    }

    /// Takes out what the transaction sees, for a statement that may add a change. It refuses where none may.
    #[tactic(auto, using(crate::proofs::KeepLemmas::ready_kept, crate::proofs::KeepLemmas::ready_begun, crate::proofs::KeepLemmas::only_reads, crate::proofs::KeepLemmas::is_mixed))]
    pub(crate) fn begin(&mut self, alloc: Global) -> Result<Seen, TxnNo>
        requires keeps { Keeps (named_view F.name (view_of self.old)) (txn_of self.old).own (tally_of self.old) }
        ensures ready { IfOk result (λ seen. IsReady (named_view F.name (view_of self.old)) (txn_of self.old) seen) }
        ensures refused { IfErr result (λ why. why ≢ Memory → (x : Stmt) → compacts x ≡ false →
            IsRefused (named_view F.name (view_of self.old)) (txn_of self.old) x why) }
        ensures view { view_of self.new ≡ view_of self.old }
        ensures txn { txn_of self.new ≡ txn_of self.old }
        ensures taken { OnOk result (tally_of self.new ≡ record (tally_of self.old) { seen = None }) }
        ensures same { OnErr result (tally_of self.new ≡ tally_of self.old) }
    {
        if self.txn.read_only {
            return Err(TxnNo::ReadOnly);
        }
        if self.tally.compacts {
            return Err(TxnNo::Mixed);
        }
        match self.tally.seen.take() {
            Some(seen) => Ok(seen),
            None => match seen_in(alloc, &self.view) {
                Ok(seen) => Ok(seen),
                Err(_) => Err(TxnNo::Memory),
            },
        }
    }
}
