use crate::live::StatsList;
use lake_model::Ref;
use lake_types::RowList;

/// A data file that a transaction wrote.
#[derive(Drop)]
pub struct StagedFile<F> {
    pub file: F,
    pub rows: u64,
    /// The sum over its rows of 16 and the weights of their cells, without row ids.
    pub weight: u64,
    /// Those of its columns in their order, without the column of row ids.
    pub stats: StatsList,
}

/// A delete file that a transaction wrote.
#[derive(Drop)]
pub struct StagedDelete<F> {
    /// The id of the data file whose rows it takes away.
    pub of_file: u64,
    pub file: F,
    /// How many places it lists.
    pub count: u64,
}

/// What a transaction has for one table.
#[derive(Drop)]
pub struct StagedTable<F> {
    pub table: Ref,
    /// New rows, which get their ids at the commit.
    pub fresh: Option<StagedFile<F>>,
    /// The new images of updated rows, with their ids.
    pub updated: Option<StagedFile<F>>,
    /// Live rows of the files that end and of flushed rows, with their ids.
    pub merged: Vec<StagedFile<F>>,
    /// The ids of the data files that the merged ones take the place of.
    pub ended_files: Vec<u64>,
    /// Rows for the catalogue itself: new images, and behind them new rows.
    pub inlined: RowList,
    /// How many of them, the last ones, are new rows, which get their ids at the commit.
    pub inlined_fresh: u64,
    /// The ids of the rows in the catalogue that are deleted, updated or flushed.
    pub ended_rows: Vec<u64>,
    pub deletes: Vec<StagedDelete<F>>,
}

/// What a transaction has written for its commit, by table.
#[derive(Drop)]
pub struct Staged<F> {
    pub tables: Vec<StagedTable<F>>,
}
