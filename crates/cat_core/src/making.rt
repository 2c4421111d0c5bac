ghost use Rattle.std.specs.Prelude.{◌≡◌, ℕ, List, None, IfErr, IfOk, IfSome, IsSome, replicate};
ghost use Rattle.std.specs.List.{AllByRecursion};
ghost use Rattle.lake_types.specs.declared.limits.TheConstants.{MAX_SESSIONS};
ghost use Rattle.lake_model.specs.Core.{Version};
ghost use Rattle.cat_rows.specs.Batches.{tables_of};
ghost use Rattle.cat_rules.specs.Kept.{newest};
ghost use Rattle.cat_view.specs.Files.{Files};
ghost use Rattle.cat_stands.specs.Stands.{IsSound};
ghost use Rattle.commit_rules.specs.Laws.{AreRising};
ghost use Rattle.cat_core.specs.Shown.{InOrder, held_at, opened_in, shown};
ghost use Rattle.cat_core.specs.Stands.{AreHeldIn, Stands, begun_with, paths_of};

use crate::catalogue::CatCore;
use crate::place::newest_in;
use crate::seen::Slot;
use cat_rows::CatRows;
use cat_view::HeldFiles;
use file_disk::Held;
use keeper::Keeper;
use lake_types::NoMemory;
use std::alloc::{AllocError, Global};

/// What rises by key in the catalogue's rows.
fn note_order(rows: &CatRows)
    ensures { AreRising (tables_of rows.now) }
{
    let _schema = rows.schema();
    let _table = rows.table();
    let _column = rows.column();
    let _data_file = rows.data_file();
    let _delete_file = rows.delete_file();
    let _inlined_row = rows.inlined_row();
}

/// Sixteen sessions, none of which has anything open.
fn no_slots<F: Held>(alloc: Global) -> Result<Vec<Option<Slot<F>>>, NoMemory>
    ensures { IfOk result (λ slots. slots.items ≡ replicate MAX_SESSIONS None) }
{
    let slots = vec![in alloc;
        None, None, None, None, None, None, None, None, None, None, None, None, None, None, None,
        None,
    ]?;
    Ok(slots)
}

impl<K: Keeper, F: Held> CatCore<K, F> {
    /// The core of a keeper, with the rows that it keeps and the files that these name. Nothing is open.
    pub fn new(
        alloc: Global,
        keeper: K,
        rows: CatRows,
        held: HeldFiles<F>,
    ) -> Result<CatCore<K, F>, (NoMemory, K)>
        requires content { IfSome (K.content keeper) (λ told. told ≡ tables_of rows) }
        ensures in_order { IfOk result (λ c. InOrder (K.content c.keeper) (shown F.name F.size F.bytes c)) }
        ensures keeper { IfOk result (λ c. c.keeper ≡ keeper) }
        ensures back { IfErr result (λ why. why.1 ≡ keeper) }
        ensures closed { IfOk result (λ c. (session : ℕ) →
            opened_in (shown F.name F.size F.bytes c).opens session ≡ None) }
        ensures stands { IfOk result (λ c. (files : Files) (first : ℕ) (versions : List Version)
            (sound : IsSound (tables_of rows) files first versions) →
            AreHeldIn files (held_at F.name F.size F.bytes held) →
            AllByRecursion (λ path. IsSome (held_at F.name F.size F.bytes held path)) (paths_of (tables_of rows)) →
            Stands (shown F.name F.size F.bytes c) files (begun_with first versions sound.newest.next_file_id)) }
    {
        let Some(start) = newest_in(&rows) else {
            return Err((AllocError, keeper));
        };
        note_order(&rows);
        let Ok(slots) = no_slots(alloc) else {
            return Err((AllocError, keeper));
        };
        Ok(CatCore {
            keeper,
            rows,
            held,
            start,
            kinds: Vec::new(alloc),
            made: None,
            slots,
        })
    }

    /// The keeper. What is open is let go.
    pub fn into_keeper(self) -> K
        ensures { result ≡ self.keeper }
    {
        self.keeper
    }
}
