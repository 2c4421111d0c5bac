ghost use Rattle.std.specs.Prelude.{◌≡◌, ◌-◌, true, None, IfOk, IfSome, OnErr, option_map, slice_set};
ghost use Rattle.lake_types.specs.declared.kind.Clash.{Clash};
ghost use Rattle.lake_model.specs.Core.{is_session};
ghost use Rattle.cat_view.specs.Views.{named_view};
ghost use Rattle.cat_view.specs.Workable.{IsWorkable};
ghost use Rattle.door.specs.Opened.{opened_of};
ghost use Rattle.door.specs.declared.no.CommitNo.TheVariants as commit_no;
ghost use Rattle.cat_core.specs.Calls.{HasClosed, HasOpened, IsAsBefore};
ghost use Rattle.cat_core.specs.Shown as spec;
ghost use Rattle.cat_core.specs.Shown.{InOrder, IsMade};

use crate::catalogue::CatCore;
use crate::place::{newest_in, place_of};
use crate::seen::{Seen, Slot};
use crate::sight::{make_seen, share, view_of};
use cat_view::View;
use door::CommitNo;
use file_disk::Held;
use keeper::Keeper;
use lake_types::NoMemory;
use std::alloc::Global;

impl<K: Keeper, F: Held> CatCore<K, F> {
    /// Puts what a session has open.
    #[tactic(auto, using(crate::proofs::PlaceLemmas::set_told))]
    pub(crate) fn put(&mut self, session: u8, slot: Option<Slot<F>>)
        requires in_order { InOrder (K.content self.old.keeper) (spec.shown F.name F.size F.bytes self.old) }
        requires session { is_session session ≡ true }
        ensures opens { spec.shown F.name F.size F.bytes self.new ≡ record (spec.shown F.name F.size F.bytes self.old) {
          opens = slice_set (spec.shown F.name F.size F.bytes self.old).opens (session - 1) (option_map (spec.opened_slot F.name F.size F.bytes) slot);
        } }
        ensures keeper { self.new.keeper ≡ self.old.keeper }
        ensures in_order { InOrder (K.content self.new.keeper) (spec.shown F.name F.size F.bytes self.new) }
    {
        self.slots[place_of(session)] = slot;
    }

    /// The version that was made last, where it is of this snapshot.
    #[tactic(auto, using(crate::proofs::SeenLemmas::share_made, crate::proofs::SeenLemmas::made_is))]
    fn kept(&self, snapshot: u64) -> Result<Option<Seen<F>>, NoMemory>
        requires in_order { InOrder (K.content self.now.keeper) (spec.shown F.name F.size F.bytes self.now) }
        ensures base { IfOk result (λ found. IfSome found (λ seen. seen.base ≡ snapshot)) }
        ensures made { IfOk result (λ found. IfSome found (λ seen. IsMade (spec.shown F.name F.size F.bytes self.now).rows
            (spec.shown F.name F.size F.bytes self.now).held (spec.opened_by F.name F.size F.bytes true seen))) }
    {
        match &self.made {
            Some(made) => {
                if made.base == snapshot {
                    let copy = share(made)?;
                    return Ok(Some(copy));
                }
                Ok(None)
            }
            None => Ok(None),
        }
    }

    /// Keeps a version for those who ask again.
    #[tactic(auto, using(crate::proofs::SeenLemmas::share_made))]
    fn keep(&mut self, seen: &Seen<F>) -> Result<(), NoMemory>
        requires in_order { InOrder (K.content self.old.keeper) (spec.shown F.name F.size F.bytes self.old) }
        requires made { IsMade (spec.shown F.name F.size F.bytes self.old).rows (spec.shown F.name F.size F.bytes
            self.old).held (spec.opened_by F.name F.size F.bytes true seen.now) }
        ensures rest { IsAsBefore (spec.shown F.name F.size F.bytes self.old) (spec.shown F.name F.size F.bytes self.new) }
        ensures keeper { self.new.keeper ≡ self.old.keeper }
        ensures in_order { InOrder (K.content self.new.keeper) (spec.shown F.name F.size F.bytes self.new) }
    {
        let copy = share(seen)?;
        self.made = Some(copy);
        Ok(())
    }

    /// The version of a snapshot. That of the newest one is made once, and kept for those who ask again.
    pub(crate) fn seen_at(&mut self, alloc: Global, snapshot: u64) -> Result<Seen<F>, NoMemory>
        requires in_order { InOrder (K.content self.old.keeper) (spec.shown F.name F.size F.bytes self.old) }
        ensures base { IfOk result (λ seen. seen.base ≡ snapshot) }
        ensures made { IfOk result (λ seen. IsMade (spec.shown F.name F.size F.bytes self.old).rows
            (spec.shown F.name F.size F.bytes self.old).held (spec.opened_by F.name F.size F.bytes true seen)) }
        ensures rest { IsAsBefore (spec.shown F.name F.size F.bytes self.old) (spec.shown F.name F.size F.bytes self.new) }
        ensures keeper { self.new.keeper ≡ self.old.keeper }
        ensures in_order { InOrder (K.content self.new.keeper) (spec.shown F.name F.size F.bytes self.new) }
    {
        if let Some(seen) = self.kept(snapshot)? {
            return Ok(seen);
        }
        let seen = make_seen(alloc, &self.rows, &self.held, snapshot)?;
        if newest_in(&self.rows) == Some(snapshot) {
            self.keep(&seen)?;
        }
        Ok(seen)
    }
}

impl<K: Keeper, F: Held> CatCore<K, F> {
    /// Opens a transaction on the version of a snapshot.
    pub(crate) fn open(
        &mut self,
        alloc: Global,
        session: u8,
        snapshot: u64,
        read_only: bool,
    ) -> Result<View<F>, NoMemory>
        requires in_order { InOrder (K.content self.old.keeper) (spec.shown F.name F.size F.bytes self.old) }
        requires session { is_session session ≡ true }
        ensures workable { IfOk result (λ view. IsWorkable (named_view F.name view)) }
        ensures opened { IfOk result (λ view. HasOpened session snapshot read_only (opened_of F.name F.size F.bytes view)
            (spec.shown F.name F.size F.bytes self.old) (spec.shown F.name F.size F.bytes self.new)) }
        ensures same { OnErr result (IsAsBefore (spec.shown F.name F.size F.bytes self.old) (spec.shown F.name F.size
            F.bytes self.new)) }
        ensures keeper { self.new.keeper ≡ self.old.keeper }
        ensures in_order { InOrder (K.content self.new.keeper) (spec.shown F.name F.size F.bytes self.new) }
    {
        let seen = self.seen_at(alloc, snapshot)?;
        let view = view_of(&seen, read_only)?;
        self.put(session, Some(Slot { read_only, seen }));
        Ok(view)
    }

    /// Ends the transaction of a commit that was refused for a pair, and of no other.
    pub(crate) fn after_refusal(&mut self, session: u8, no: &CommitNo)
        requires in_order { InOrder (K.content self.old.keeper) (spec.shown F.name F.size F.bytes self.old) }
        requires session { is_session session ≡ true }
        ensures closed { (clash : Clash) → no.now ≡ commit_no.Clash clash → HasClosed session (spec.shown F.name F.size
            F.bytes self.old) (spec.shown F.name F.size F.bytes self.new) }
        ensures same { ((clash : Clash) → no.now ≡ commit_no.Clash clash → ⊥) → spec.shown F.name F.size F.bytes
            self.new ≡ spec.shown F.name F.size F.bytes self.old }
        ensures keeper { self.new.keeper ≡ self.old.keeper }
        ensures in_order { InOrder (K.content self.new.keeper) (spec.shown F.name F.size F.bytes self.new) }
    {
        match no {
            CommitNo::Clash(_) => self.put(session, None),
            _ => {}
        }
    }
}
