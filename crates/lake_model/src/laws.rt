//! What holds of the plain lake. Each function's contract is a law, and its body is empty.

ghost use Rattle.lake_model.specs.Laws.{CatalogIdsRise, CellsStand, FieldIdsRise, FitsKnown, GoesByTable, GrowsByTable, HasCatalogIds, KindsAreInOrder, KindsAreSpelled, LaysOnce, LossesHaveTexts, LostLinesAreShown, NewIdsRise, RowIdsRise, SchemasStay, StepsLoseNothing, TextsAreReplays, VersionsHaveKinds};
ghost use Rattle.lake_model.specs.State.{empty_state};

/// The text of a replay shows which of its lines were lost, so that nothing of it is chosen.
pub fn lost_lines_are_shown()
    ensures shown { LostLinesAreShown }
    ensures replays { TextsAreReplays }
    ensures texts { LossesHaveTexts }
    ensures apart { StepsLoseNothing }
{}

/// What a list does to one table depends on the list and on that table alone: after it stand the old tables that it doesn't
/// drop, each changed by itself, and then those that it makes.
pub fn apply_goes_by_table()
    ensures { GoesByTable }
{}

/// A row that was laid into a table's columns is laid into later ones as it was before: a dropped column's cell goes, and
/// an added column reads as its initial default.
pub fn rows_are_laid_once()
    ensures { LaysOnce }
{}

/// The kinds of a list stand in the order of a changes text, each once.
pub fn kinds_stand_in_order()
    ensures { KindsAreInOrder }
{}

/// The ids of a table's rows rise and lie below its next one, and a list keeps that.
pub fn row_ids_rise()
    ensures { RowIdsRise }
{}

/// The ids of schemas rise, and so do those of tables. All lie below the next one, and no schema and table have one id. So it
/// is of the new lake, and a list keeps it.
pub fn catalog_ids_rise()
    ensures new { HasCatalogIds empty_state }
    ensures kept { CatalogIdsRise }
{}

/// A schema of a state keeps its id and its name until a list drops it.
pub fn schemas_stay()
    ensures { SchemasStay }
{}

/// Each row of a table has exactly the cells of its columns, in their order, and a list keeps that.
pub fn cells_stand()
    ensures { CellsStand }
{}

/// The field ids of each table's columns rise, from 1 at the least, and lie below its next one. A list that a transaction
/// may have keeps that, where no two tables have one id.
pub fn field_ids_rise()
    ensures { FieldIdsRise }
{}

/// A version that a list makes has the kinds that its text spells, where the list drops and changes only what is known:
/// ids are numbers of 64 bits, and a dropped schema has a name. What a list of a transaction names is known in its base.
pub fn kinds_are_spelled()
    ensures spelled { KindsAreSpelled }
    ensures versions { VersionsHaveKinds }
    ensures fits { FitsKnown }
{}

/// A list that only creates, drops and inserts leaves the old schemas and tables that it doesn't drop, with its rows behind
/// those of each table, and then come the created ones that it leaves. Their ids rise from the next catalogue id on.
pub fn lists_grow_tables()
    ensures state { GrowsByTable }
    ensures ids { NewIdsRise }
{}
