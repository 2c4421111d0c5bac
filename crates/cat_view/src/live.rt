use col_stats::ColStats;
use lake_types::{ColumnList, Copied, Listed, Row, Words};
use std::alloc::{AllocError, Global};
use std::sync::Arc;

/// The statistics of some columns of a file.
pub type StatsList = Listed<ColStats>;

/// The delete file of a data file.
#[derive(Drop)]
pub struct LiveDelete<F> {
    pub id: u64,
    pub file: F,
    /// How many places it lists.
    pub count: u64,
}

/// A data file that a version sees.
#[derive(Drop)]
pub struct LiveFile<F> {
    pub id: u64,
    pub file: F,
    pub rows: u64,
    /// The sum over its rows of 16 and the weights of their cells.
    pub weight: u64,
    /// The id of its first row; none where the file has a column of row ids.
    pub first_row: Option<u64>,
    pub deletes: Option<LiveDelete<F>>,
    /// The statistics of those of its columns that the version sees.
    pub stats: StatsList,
}

/// A table's id, the id of its schema, and its name.
#[derive(Debug, Drop)]
pub struct TableHead {
    pub id: u64,
    pub schema: u64,
    pub name: Words,
}

impl Copied for TableHead {
    fn copy(&self, alloc: Global) -> Result<TableHead, AllocError> {
        Ok(TableHead {
            id: self.id,
            schema: self.schema,
            name: self.name.copy(alloc)?,
        })
    }
}

/// A table that a version sees. What it holds is shared with the versions that see it alike.
#[derive(Drop)]
pub struct TableView<F> {
    pub head: TableHead,
    /// In the columns' order.
    pub columns: ColumnList,
    /// Rising by id.
    pub files: Vec<Arc<LiveFile<F>>>,
    /// The rows that lie in the catalogue, rising by id.
    pub inlined: Vec<Arc<Row>>,
    pub next_row: u64,
    pub next_field: u32,
}
