use crate::lists::{Copied, Listed};
use crate::value::{ColType, ValueList};
use crate::words::Words;
use std::alloc::{AllocError, Global};

/// A column of a file with its cells.
#[derive(Debug, Drop)]
pub struct SheetColumn {
    pub field: Option<u32>,
    pub name: Words,
    pub ty: ColType,
    /// Whether a cell may be NULL.
    pub optional: bool,
    pub cells: ValueList,
}

impl Copied for SheetColumn {
    fn copy(&self, alloc: Global) -> Result<SheetColumn, AllocError> {
        Ok(SheetColumn {
            field: self.field,
            name: self.name.copy(alloc)?,
            ty: self.ty,
            optional: self.optional,
            cells: self.cells.copy(alloc)?,
        })
    }
}

pub type SheetColumns = Listed<SheetColumn>;

/// What a file holds: columns with as many cells each as there are rows.
#[derive(Debug, Drop)]
pub struct Sheet {
    pub columns: SheetColumns,
    pub rows: u64,
}

impl Copied for Sheet {
    fn copy(&self, alloc: Global) -> Result<Sheet, AllocError> {
        Ok(Sheet {
            columns: self.columns.copy(alloc)?,
            rows: self.rows,
        })
    }
}
