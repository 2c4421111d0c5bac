//! What holds of the catalogue's texts. Each function's contract is a law, and its body is empty.

ghost use Rattle.cat_texts.specs.Laws.{BoundsHaveTexts, HasTypeText, HaveOwnTexts, ReadsStatsBack, ReadsType};
ghost use Rattle.cat_texts.specs.Laws.{SpellsOneColumn, TellsOneStats};

/// A type has one text, by which it is read, and a text is that of one type.
pub fn types_have_texts()
    ensures reads { ReadsType }
    ensures is { HasTypeText }
    ensures own { HaveOwnTexts }
{}

/// A row spells one column at most, and tells one column's statistics at most: what is read is what was
/// written.
pub fn rows_spell_one()
    ensures column { SpellsOneColumn }
    ensures stats { TellsOneStats }
{}

/// The row that is written for statistics tells them, where their bounds have texts in the column's type; and
/// the bounds of cells that have texts have them.
pub fn stats_read_back()
    ensures back { ReadsStatsBack }
    ensures counted { BoundsHaveTexts }
{}
