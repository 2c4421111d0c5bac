//! What holds of bound tests. Each function's contract is a law, and its body is empty.

ghost use Rattle.pred.specs.Laws.{ChoosesAlike, KeepsUnknownUnderNot, NullCellsAreUnknown, NullLiteralsAreUnknown};

/// A comparison of a NULL cell, or with NULL, is unknown, and so is its negation. So neither chooses the row.
pub fn null_is_unknown()
    ensures cells { NullCellsAreUnknown }
    ensures literals { NullLiteralsAreUnknown }
    ensures negated { KeepsUnknownUnderNot }
{}

/// A bound test chooses the rows that the test chooses for which it was bound.
pub fn bound_tests_choose_alike()
    ensures { ChoosesAlike }
{}
