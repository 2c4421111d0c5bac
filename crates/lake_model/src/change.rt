use lake_types::{CellValues, ColType, Column, ColumnList, Copied, Listed, Value, Words};
use std::alloc::{AllocError, Global};

/// A schema or a table: an old one by its id, or one that the list of changes creates, by its place from 0 among the
/// list's creations of that sort.
#[derive(Clone, Copy, Debug, PartialEq, Eq, Hash)]
pub enum Ref {
    Old(u64),
    New(u64),
}

impl Copied for Ref {
    fn copy(&self, _alloc: Global) -> Result<Ref, AllocError> {
        Ok(*self)
    }
}

/// A row of a table: an old one by its id, or one that the list of changes inserts, by its place from 0 among the rows
/// that the list inserts into the table. A fresh row that is deleted keeps its place.
#[derive(Clone, Copy, Debug, PartialEq, Eq)]
pub enum RowRef {
    Old(u64),
    Fresh(u64),
}

impl Copied for RowRef {
    fn copy(&self, _alloc: Global) -> Result<RowRef, AllocError> {
        Ok(*self)
    }
}

pub type RowRefs = Listed<RowRef>;

/// A change that a transaction collects.
#[derive(Debug, Drop)]
pub enum Change {
    CreateSchema {
        name: Words,
    },
    DropSchema {
        schema: Ref,
    },
    /// The columns' field ids are 1, 2, .. in their order, whatever they say.
    CreateTable {
        schema: Ref,
        name: Words,
        columns: ColumnList,
    },
    DropTable {
        table: Ref,
    },
    AddColumn {
        table: Ref,
        column: Column,
    },
    DropColumn {
        table: Ref,
        field: u32,
    },
    RenameColumn {
        table: Ref,
        field: u32,
        name: Words,
    },
    PromoteColumn {
        table: Ref,
        field: u32,
        ty: ColType,
    },
    SetDefault {
        table: Ref,
        field: u32,
        value: Value,
    },
    Insert {
        table: Ref,
        rows: Listed<CellValues>,
    },
    Delete {
        table: Ref,
        rows: RowRefs,
    },
    Update {
        table: Ref,
        rows: RowRefs,
        cells: CellValues,
    },
    Compact {
        table: Ref,
    },
    Flush {
        table: Ref,
    },
}

impl Copied for Change {
    fn copy(&self, alloc: Global) -> Result<Change, AllocError> {
        match self {
            Change::CreateSchema { name } => Ok(Change::CreateSchema {
                name: name.copy(alloc)?,
            }),
            Change::DropSchema { schema } => Ok(Change::DropSchema { schema: *schema }),
            Change::CreateTable {
                schema,
                name,
                columns,
            } => Ok(Change::CreateTable {
                schema: *schema,
                name: name.copy(alloc)?,
                columns: columns.copy(alloc)?,
            }),
            Change::DropTable { table } => Ok(Change::DropTable { table: *table }),
            Change::AddColumn { table, column } => Ok(Change::AddColumn {
                table: *table,
                column: column.copy(alloc)?,
            }),
            Change::DropColumn { table, field } => Ok(Change::DropColumn {
                table: *table,
                field: *field,
            }),
            Change::RenameColumn { table, field, name } => Ok(Change::RenameColumn {
                table: *table,
                field: *field,
                name: name.copy(alloc)?,
            }),
            Change::PromoteColumn { table, field, ty } => Ok(Change::PromoteColumn {
                table: *table,
                field: *field,
                ty: *ty,
            }),
            Change::SetDefault {
                table,
                field,
                value,
            } => Ok(Change::SetDefault {
                table: *table,
                field: *field,
                value: value.copy(alloc)?,
            }),
            Change::Insert { table, rows } => Ok(Change::Insert {
                table: *table,
                rows: rows.copy(alloc)?,
            }),
            Change::Delete { table, rows } => Ok(Change::Delete {
                table: *table,
                rows: rows.copy(alloc)?,
            }),
            Change::Update { table, rows, cells } => Ok(Change::Update {
                table: *table,
                rows: rows.copy(alloc)?,
                cells: cells.copy(alloc)?,
            }),
            Change::Compact { table } => Ok(Change::Compact { table: *table }),
            Change::Flush { table } => Ok(Change::Flush { table: *table }),
        }
    }
}

pub type ChangeList = Listed<Change>;

/// An open transaction: the version that it began with, and its own changes since.
#[derive(Debug, Drop)]
pub struct Txn {
    pub base: u64,
    pub read_only: bool,
    pub own: ChangeList,
}

impl Copied for Txn {
    fn copy(&self, alloc: Global) -> Result<Txn, AllocError> {
        Ok(Txn {
            base: self.base,
            read_only: self.read_only,
            own: self.own.copy(alloc)?,
        })
    }
}
