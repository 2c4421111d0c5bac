use cat_rows::Batch;
use lake_types::KindList;

/// What a commit is about to make: the kinds of its list, its batch, and the number of its snapshot.
#[derive(Drop)]
pub struct Landing {
    pub mine: KindList,
    pub batch: Batch,
    pub snapshot: u64,
}
