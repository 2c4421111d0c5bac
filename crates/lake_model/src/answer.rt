use lake_types::{Clash, Copied, Listed, TableName, Words};
use std::alloc::{AllocError, Global};

/// A number of the lake that only grows.
#[derive(Clone, Copy, Debug, PartialEq, Eq)]
pub enum Counter {
    Row { table: u64 },
    Field { table: u64 },
    Catalog,
    File,
    Snapshot,
    History,
}

impl Copied for Counter {
    fn copy(&self, _alloc: Global) -> Result<Counter, AllocError> {
        Ok(*self)
    }
}

/// What a statement answers, after its rows.
#[derive(Debug, Drop)]
pub enum Answer {
    Done,
    Number { n: u64 },
    TooLong,
    /// The statement is one of the grammar, and this program doesn't do it yet.
    NotBuilt,
    Syntax { at: u64 },
    InTransaction,
    NoTransaction,
    ReadOnly,
    Mixed,
    NoSchema { name: Words },
    NoTable { table: TableName },
    NoColumn { name: Words },
    NameUsed { name: Words },
    NotEmpty { name: Words },
    NotNull { name: Words },
    WrongType { name: Words },
    NoPromotion { name: Words },
    LastColumn,
    Arity { want: u64, got: u64 },
    ManyColumns,
    TooLarge,
    Spent { counter: Counter },
    Conflict(Clash),
    Pinned { base: u64 },
    NotKept { first: u64, head: u64 },
    Disk,
    Keeper,
    Damaged { name: Words },
    NameTaken { name: Words },
    Memory,
}

impl Copied for Answer {
    fn copy(&self, alloc: Global) -> Result<Answer, AllocError> {
        match self {
            Answer::Done => Ok(Answer::Done),
            Answer::Number { n } => Ok(Answer::Number { n: *n }),
            Answer::TooLong => Ok(Answer::TooLong),
            Answer::NotBuilt => Ok(Answer::NotBuilt),
            Answer::Syntax { at } => Ok(Answer::Syntax { at: *at }),
            Answer::InTransaction => Ok(Answer::InTransaction),
            Answer::NoTransaction => Ok(Answer::NoTransaction),
            Answer::ReadOnly => Ok(Answer::ReadOnly),
            Answer::Mixed => Ok(Answer::Mixed),
            Answer::NoSchema { name } => Ok(Answer::NoSchema {
                name: name.copy(alloc)?,
            }),
            Answer::NoTable { table } => Ok(Answer::NoTable {
                table: table.copy(alloc)?,
            }),
            Answer::NoColumn { name } => Ok(Answer::NoColumn {
                name: name.copy(alloc)?,
            }),
            Answer::NameUsed { name } => Ok(Answer::NameUsed {
                name: name.copy(alloc)?,
            }),
            Answer::NotEmpty { name } => Ok(Answer::NotEmpty {
                name: name.copy(alloc)?,
            }),
            Answer::NotNull { name } => Ok(Answer::NotNull {
                name: name.copy(alloc)?,
            }),
            Answer::WrongType { name } => Ok(Answer::WrongType {
                name: name.copy(alloc)?,
            }),
            Answer::NoPromotion { name } => Ok(Answer::NoPromotion {
                name: name.copy(alloc)?,
            }),
            Answer::LastColumn => Ok(Answer::LastColumn),
            Answer::Arity { want, got } => Ok(Answer::Arity {
                want: *want,
                got: *got,
            }),
            Answer::ManyColumns => Ok(Answer::ManyColumns),
            Answer::TooLarge => Ok(Answer::TooLarge),
            Answer::Spent { counter } => Ok(Answer::Spent { counter: *counter }),
            Answer::Conflict(clash) => Ok(Answer::Conflict(clash.copy(alloc)?)),
            Answer::Pinned { base } => Ok(Answer::Pinned { base: *base }),
            Answer::NotKept { first, head } => Ok(Answer::NotKept {
                first: *first,
                head: *head,
            }),
            Answer::Disk => Ok(Answer::Disk),
            Answer::Keeper => Ok(Answer::Keeper),
            Answer::Damaged { name } => Ok(Answer::Damaged {
                name: name.copy(alloc)?,
            }),
            Answer::NameTaken { name } => Ok(Answer::NameTaken {
                name: name.copy(alloc)?,
            }),
            Answer::Memory => Ok(Answer::Memory),
        }
    }
}

pub type WordsList = Listed<Words>;

/// The rows of a reply, each the text of its cells, and the answer that comes last.
#[derive(Debug, Drop)]
pub struct Reply {
    pub rows: WordsList,
    pub last: Answer,
}

impl Copied for Reply {
    fn copy(&self, alloc: Global) -> Result<Reply, AllocError> {
        Ok(Reply {
            rows: self.rows.copy(alloc)?,
            last: self.last.copy(alloc)?,
        })
    }
}
