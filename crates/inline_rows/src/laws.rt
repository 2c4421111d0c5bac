//! What holds of the cells that bytes spell. Each function's contract is a law, and its body is empty.

ghost use Rattle.inline_rows.specs.Laws.{ReadsBack, SpellsOne};

/// What is spelled reads back.
pub fn reads_back()
    ensures { ReadsBack }
{}

/// Bytes spell one list of cells at most.
pub fn spells_one()
    ensures { SpellsOne }
{}
