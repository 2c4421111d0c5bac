//! Plain data of the lake: texts, values, columns, rows, tests of rows, statements and kinds of change.
//! Contracts see each of these types as the plain record or list that it stands for.
#![tactic(auto)]

mod cells;
mod dates;
mod kind;
pub mod laws;
pub mod limits;
mod lists;
mod pred;
mod ranges;
mod sheet;
mod stmt;
mod texts;
mod truth;
mod value;
mod weights;
mod words;

pub use cells::{cell_at, cell_named, chooses, column_named, test_row};
pub use kind::{Clash, Kind, KindList, SchemaName, SchemaNames};
pub use lists::{Copied, Listed};
pub use pred::{Op, Pred, PredList};
pub use ranges::{fits, is_day, promotes};
pub use sheet::{Sheet, SheetColumn, SheetColumns};
pub use stmt::{
    Alter, Assignments, Cell, CellList, CellRows, ColumnDef, ColumnDefs, Item, ItemList, Stmt,
    TableName,
};
pub use texts::{BadValue, literal_of, text_of, value_of};
pub use truth::{Truth, compare, compared, is_null, order_of};
pub use value::{CellValues, ColType, Column, ColumnList, Row, RowList, Value, ValueList};
pub use weights::{row_weight, weight};
pub use words::{Blob, NoMemory, Words};
