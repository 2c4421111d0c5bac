use lake_types::{ColType, ValueList};

/// The cells of a column in one group.
#[derive(Debug, Drop)]
pub struct Part {
    /// The column's place among all columns of the file.
    pub place: u64,
    pub ty: ColType,
    pub cells: ValueList,
}

/// A cell that does not fit its column's type.
#[derive(Clone, Copy, Debug)]
pub struct Misfit {
    /// The column's place among all columns of the file.
    pub column: u64,
    /// The row, counted in the whole file.
    pub row: u64,
}
