//! What holds of what is staged, and of the states that it is staged on. Each function's contract is a law, and its body
//! is empty.

ghost use Rattle.row_files.specs.Laws.{StagesGrowth, StatesHaveTables};

/// Of a list that only creates, drops and inserts: a table is staged as the list asks, where the one file that is
/// staged for it holds the fresh rows that are left to it, or where none are left and nothing is staged.
pub fn stages_growth()
    ensures { StagesGrowth }
{}

/// The plain state that a version is, whatever files lie there, has its tables with their columns. So a list that fits it
/// may be staged.
pub fn states_have_tables()
    ensures { StatesHaveTables }
{}
