use crate::lists::{Copied, Listed};
use crate::words::{Blob, Words};
use std::alloc::{AllocError, Global};

/// The type of a column.
#[derive(Clone, Copy, Debug, PartialEq, Eq)]
pub enum ColType {
    Bool,
    Int8,
    Int16,
    Int32,
    Int64,
    Varchar,
    Blob,
    Date,
}

impl Copied for ColType {
    fn copy(&self, _alloc: Global) -> Result<ColType, AllocError> {
        Ok(*self)
    }
}

/// What a cell holds. A date is days since 1970-01-01, from -719162 (0001-01-01) to 2932896 (9999-12-31).
#[derive(Debug, Drop)]
pub enum Value {
    Null,
    Bool(bool),
    Int(i64),
    Text(Words),
    Bytes(Blob),
    Date(i32),
}

impl Copied for Value {
    fn copy(&self, alloc: Global) -> Result<Value, AllocError> {
        match self {
            Value::Null => Ok(Value::Null),
            Value::Bool(truth) => Ok(Value::Bool(*truth)),
            Value::Int(number) => Ok(Value::Int(*number)),
            Value::Text(text) => Ok(Value::Text(text.copy(alloc)?)),
            Value::Bytes(bytes) => Ok(Value::Bytes(bytes.copy(alloc)?)),
            Value::Date(days) => Ok(Value::Date(*days)),
        }
    }
}

pub type ValueList = Listed<Value>;

/// A column of a table, known by its field id.
#[derive(Debug, Drop)]
pub struct Column {
    pub field: u32,
    pub name: Words,
    pub ty: ColType,
    /// What a row that was made before the column reads as.
    pub initial: Value,
    /// What `DEFAULT` stands for in a new row.
    pub default_value: Value,
    /// Whether a cell may be NULL.
    pub nulls: bool,
}

impl Copied for Column {
    fn copy(&self, alloc: Global) -> Result<Column, AllocError> {
        Ok(Column {
            field: self.field,
            name: self.name.copy(alloc)?,
            ty: self.ty,
            initial: self.initial.copy(alloc)?,
            default_value: self.default_value.copy(alloc)?,
            nulls: self.nulls,
        })
    }
}

pub type ColumnList = Listed<Column>;

impl Copied for (u32, Value) {
    fn copy(&self, alloc: Global) -> Result<(u32, Value), AllocError> {
        Ok((self.0, self.1.copy(alloc)?))
    }
}

/// Cells by their columns' field ids.
pub type CellValues = Listed<(u32, Value)>;

/// A row: its id, and its cells by rising field id.
#[derive(Debug, Drop)]
pub struct Row {
    pub id: u64,
    pub cells: CellValues,
}

impl Copied for Row {
    fn copy(&self, alloc: Global) -> Result<Row, AllocError> {
        Ok(Row {
            id: self.id,
            cells: self.cells.copy(alloc)?,
        })
    }
}

pub type RowList = Listed<Row>;
