use lake_model::RowRef;
use lake_types::RowList;

/// The chosen rows of a table, rising by id.
#[derive(Drop)]
pub struct Scan {
    /// Each with the cells of the named columns alone.
    pub rows: RowList,
    /// The references of the rows, in their order.
    pub refs: Vec<RowRef>,
    /// How many data files the table has in the version.
    pub files_seen: u64,
    /// How many of them were not read.
    pub files_skipped: u64,
}
