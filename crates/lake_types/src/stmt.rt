ghost use Rattle.std.specs.Prelude.{◌≡◌, IfOk};

use crate::lists::{Copied, Listed};
use crate::pred::Pred;
use crate::value::{ColType, Value};
use crate::words::Words;
use std::alloc::{AllocError, Global};

/// A table's name, with that of its schema.
#[derive(Debug, Drop)]
pub struct TableName {
    pub schema: Words,
    pub table: Words,
}

impl Copied for TableName {
    fn copy(&self, alloc: Global) -> Result<TableName, AllocError> {
        Ok(TableName {
            schema: self.schema.copy(alloc)?,
            table: self.table.copy(alloc)?,
        })
    }
}

/// A column as a statement defines it.
#[derive(Debug, Drop)]
pub struct ColumnDef {
    pub name: Words,
    pub ty: ColType,
    /// Whether a cell may be NULL.
    pub nulls: bool,
    pub default_value: Option<Value>,
}

impl Copied for ColumnDef {
    fn copy(&self, alloc: Global) -> Result<ColumnDef, AllocError> {
        Ok(ColumnDef {
            name: self.name.copy(alloc)?,
            ty: self.ty,
            nulls: self.nulls,
            default_value: self.default_value.copy(alloc)?,
        })
    }
}

pub type ColumnDefs = Listed<ColumnDef>;

/// A cell of a row that is inserted.
#[derive(Debug, Drop)]
pub enum Cell {
    Given(Value),
    Default,
}

impl Copied for Cell {
    fn copy(&self, alloc: Global) -> Result<Cell, AllocError> {
        match self {
            Cell::Given(value) => Ok(Cell::Given(value.copy(alloc)?)),
            Cell::Default => Ok(Cell::Default),
        }
    }
}

pub type CellList = Listed<Cell>;

/// Rows of an INSERT.
pub type CellRows = Listed<CellList>;

/// What a SELECT shows.
#[derive(Debug, Drop)]
pub enum Item {
    Column { name: Words },
    RowId,
}

impl Copied for Item {
    fn copy(&self, alloc: Global) -> Result<Item, AllocError> {
        match self {
            Item::Column { name } => Ok(Item::Column {
                name: name.copy(alloc)?,
            }),
            Item::RowId => Ok(Item::RowId),
        }
    }
}

pub type ItemList = Listed<Item>;

impl Copied for (Words, Value) {
    fn copy(&self, alloc: Global) -> Result<(Words, Value), AllocError> {
        Ok((self.0.copy(alloc)?, self.1.copy(alloc)?))
    }
}

/// The assignments of an UPDATE.
pub type Assignments = Listed<(Words, Value)>;

/// A change of a table's columns.
#[derive(Debug, Drop)]
pub enum Alter {
    Add(ColumnDef),
    Remove { name: Words },
    Rename { name: Words, to: Words },
    Promote { name: Words, ty: ColType },
    SetDefault { name: Words, value: Value },
}

impl Copied for Alter {
    fn copy(&self, alloc: Global) -> Result<Alter, AllocError> {
        match self {
            Alter::Add(column) => Ok(Alter::Add(column.copy(alloc)?)),
            Alter::Remove { name } => Ok(Alter::Remove {
                name: name.copy(alloc)?,
            }),
            Alter::Rename { name, to } => Ok(Alter::Rename {
                name: name.copy(alloc)?,
                to: to.copy(alloc)?,
            }),
            Alter::Promote { name, ty } => Ok(Alter::Promote {
                name: name.copy(alloc)?,
                ty: *ty,
            }),
            Alter::SetDefault { name, value } => Ok(Alter::SetDefault {
                name: name.copy(alloc)?,
                value: value.copy(alloc)?,
            }),
        }
    }
}

/// A statement. A SELECT without items shows all columns.
#[derive(Debug, Drop)]
pub enum Stmt {
    Begin,
    BeginAt {
        n: u64,
    },
    Commit,
    Rollback,
    CreateSchema {
        name: Words,
    },
    DropSchema {
        name: Words,
    },
    CreateTable {
        table: TableName,
        columns: ColumnDefs,
    },
    DropTable {
        table: TableName,
    },
    Change {
        table: TableName,
        change: Alter,
    },
    Insert {
        table: TableName,
        rows: CellRows,
    },
    Delete {
        table: TableName,
        pred: Option<Pred>,
    },
    Update {
        table: TableName,
        set: Assignments,
        pred: Option<Pred>,
    },
    Select {
        table: TableName,
        items: ItemList,
        pred: Option<Pred>,
    },
    Compact {
        table: TableName,
    },
    Flush {
        table: TableName,
    },
    Expire {
        n: u64,
    },
    Clean,
    Snapshots,
}

fn copy_pred(alloc: Global, pred: &Option<Pred>) -> Result<Option<Pred>, AllocError>
    ensures { IfOk result (λ copy. copy ≡ pred.now) }
{
    match pred {
        Some(pred) => Ok(Some(pred.copy(alloc)?)),
        None => Ok(None),
    }
}

impl Copied for Stmt {
    fn copy(&self, alloc: Global) -> Result<Stmt, AllocError> {
        match self {
            Stmt::Begin => Ok(Stmt::Begin),
            Stmt::BeginAt { n } => Ok(Stmt::BeginAt { n: *n }),
            Stmt::Commit => Ok(Stmt::Commit),
            Stmt::Rollback => Ok(Stmt::Rollback),
            Stmt::CreateSchema { name } => Ok(Stmt::CreateSchema {
                name: name.copy(alloc)?,
            }),
            Stmt::DropSchema { name } => Ok(Stmt::DropSchema {
                name: name.copy(alloc)?,
            }),
            Stmt::CreateTable { table, columns } => Ok(Stmt::CreateTable {
                table: table.copy(alloc)?,
                columns: columns.copy(alloc)?,
            }),
            Stmt::DropTable { table } => Ok(Stmt::DropTable {
                table: table.copy(alloc)?,
            }),
            Stmt::Change { table, change } => Ok(Stmt::Change {
                table: table.copy(alloc)?,
                change: change.copy(alloc)?,
            }),
            Stmt::Insert { table, rows } => Ok(Stmt::Insert {
                table: table.copy(alloc)?,
                rows: rows.copy(alloc)?,
            }),
            Stmt::Delete { table, pred } => Ok(Stmt::Delete {
                table: table.copy(alloc)?,
                pred: copy_pred(alloc, pred)?,
            }),
            Stmt::Update { table, set, pred } => Ok(Stmt::Update {
                table: table.copy(alloc)?,
                set: set.copy(alloc)?,
                pred: copy_pred(alloc, pred)?,
            }),
            Stmt::Select { table, items, pred } => Ok(Stmt::Select {
                table: table.copy(alloc)?,
                items: items.copy(alloc)?,
                pred: copy_pred(alloc, pred)?,
            }),
            Stmt::Compact { table } => Ok(Stmt::Compact {
                table: table.copy(alloc)?,
            }),
            Stmt::Flush { table } => Ok(Stmt::Flush {
                table: table.copy(alloc)?,
            }),
            Stmt::Expire { n } => Ok(Stmt::Expire { n: *n }),
            Stmt::Clean => Ok(Stmt::Clean),
            Stmt::Snapshots => Ok(Stmt::Snapshots),
        }
    }
}
