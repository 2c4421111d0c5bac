//! What holds of the tables after a batch. Each function's contract is a law, and its body is empty.

ghost use Rattle.cat_rows.specs.ByTable.{AppliesByTable};
ghost use Rattle.cat_rows.specs.Parts.{AppliesParts, SeesParts};

/// Each table after a batch is the table before with its own part of the batch.
pub fn applies_by_table()
    ensures { AppliesByTable }
{}

/// The tables after a batch that is made of parts.
pub fn applies_parts()
    ensures { AppliesParts }
{}

/// What the snapshot of such a batch sees: the rows that end there are gone, and the new ones stand behind the others.
pub fn sees_parts()
    ensures { SeesParts }
{}
