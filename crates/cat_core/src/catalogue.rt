use crate::seen::{Seen, Slot};
use cat_rows::CatRows;
use cat_view::HeldFiles;
use file_disk::Held;
use keeper::Keeper;
use lake_types::KindList;

/// The catalogue of one process: a keeper, the rows that it keeps, the files that these name, and what each of sixteen
/// sessions has open.
#[derive(Drop)]
pub struct CatCore<K: Keeper, F: Held> {
    pub(crate) keeper: K,
    pub(crate) rows: CatRows,
    pub(crate) held: HeldFiles<F>,
    /// The newest snapshot when the core was made.
    pub(crate) start: u64,
    /// The kinds of each snapshot since.
    pub(crate) kinds: Vec<KindList>,
    /// The newest version that was asked for.
    pub(crate) made: Option<Seen<F>>,
    pub(crate) slots: Vec<Option<Slot<F>>>,
}
