ghost use Rattle.std.specs.Prelude.{◌≡◌, ◌<◌, ◌+◌, ◌-◌, ◌^◌, false, true, None, drop, length, option_map, IfErr, IfOk, IfSome, OnOk};
ghost use Rattle.lake_types.specs.Kinds.{AreInOrder};
ghost use Rattle.lake_model.specs.Core.{is_session};
ghost use Rattle.conflicts.specs.Shown.{shown as shown_clash};
ghost use Rattle.door.specs.Opened.{IsOpenFor};
ghost use Rattle.door.specs.Standing.{kinds_at};
ghost use Rattle.cat_core.specs.Commits as spec;
ghost use Rattle.cat_core.specs.Shown.{InOrder, opened_in, shown};

use crate::catalogue::CatCore;
use crate::place::place_of;
use conflicts::{ClashRef, first_clash, own_clash};
use door::CommitNo;
use file_disk::Held;
use keeper::Keeper;
use lake_model::{Txn, kinds_of};
use lake_types::KindList;
use std::alloc::Global;

/// The first pair with snapshots of these kinds, the first of which has a number.
fn first_in<'a>(mine: &'a KindList, from: u64, kinds: &'a [KindList]) -> Option<ClashRef<'a>>
    requires order { AreInOrder mine.now }
    requires small { from + length kinds.now < 2 ^ 64 }
    ensures { option_map shown_clash result ≡ spec.first_in mine.now from kinds.now }
{
    let mut snapshot = from;
    let mut rest = kinds;
    while let [theirs, more @ ..] = rest {
        let found = first_clash(mine, snapshot, theirs);
        if let Some(_) = &found {
            return found;
        }
        snapshot += 1;
        rest = more;
    }
    None
}

impl<K: Keeper, F: Held> CatCore<K, F> {
    /// The kinds of snapshots past a base that may be a transaction's, with the number of the first of them.
    fn since(&self, base: u64) -> Option<(u64, &[KindList])>
        ensures kinds { IfSome result (λ past. past.1.now ≡ drop (base - self.now.start) self.now.kinds.items) }
        ensures from { IfSome result (λ past. past.0 ≡ base + 1) }
        ensures small { IfSome result (λ past. past.0 + length past.1.now < 2 ^ 64) }
    {
        let kinds = self.kinds.as_slice();
        let from = base.checked_add(1)?;
        let _end = from.checked_add(kinds.len() as u64)?;
        let skipped = usize::try_from(base.saturating_sub(self.start)).ok()?;
        Some((from, kinds.get(skipped..).unwrap_or(&[])))
    }

    /// The kinds of a transaction's list, where it conflicts with no snapshot past its base.
    #[tactic(auto, using(rebase::proofs::BatchLemmas::in_order))]
    pub(crate) fn compare(
        &self,
        alloc: Global,
        session: u8,
        txn: &Txn,
    ) -> Result<KindList, CommitNo>
        requires in_order { InOrder (K.content self.now.keeper) (shown F.name F.size F.bytes self.now) }
        requires session { is_session session ≡ true }
        requires open { IsOpenFor txn.now (opened_in (shown F.name F.size F.bytes self.now).opens session) }
        ensures writes { OnOk result (txn.now.read_only ≡ false) }
        ensures mine { IfOk result (λ mine. mine ≡ kinds_at txn.now.own (opened_in (shown F.name F.size F.bytes
            self.now).opens session)) }
        ensures free { IfOk result (λ mine. spec.first_since (shown F.name F.size F.bytes self.now) txn.now.base
            mine ≡ None) }
        ensures refused { IfErr result (spec.IsCompared (shown F.name F.size F.bytes self.now) txn.now
            (kinds_at txn.now.own (opened_in (shown F.name F.size F.bytes self.now).opens session))) }
    {
        let Some(slot) = &self.slots[place_of(session)] else {
            return Err(CommitNo::Memory);
        };
        if txn.read_only {
            return Err(CommitNo::Memory);
        }
        let Ok(mine) = kinds_of(alloc, &slot.seen.version.schemas, &txn.own) else {
            return Err(CommitNo::Memory);
        };
        let Some((from, past)) = self.since(txn.base) else {
            return Err(CommitNo::Memory);
        };
        match first_in(&mine, from, past) {
            Some(clash) => match own_clash(alloc, clash) {
                Ok(clash) => Err(CommitNo::Clash(clash)),
                Err(_) => Err(CommitNo::Memory),
            },
            None => Ok(mine),
        }
    }
}
