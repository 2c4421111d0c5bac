//! What holds of the first conflict. Each function's contract is a law, and its body is empty.

ghost use Rattle.conflicts.specs.Laws.{NoneWhereNoPairStands, SomeIsFirstPair};

/// There is no first conflict exactly where no kind of mine conflicts with one of theirs. Some pair is the first
/// conflict exactly where its two kinds stand in the lists and conflict, none of mine conflicts with an earlier
/// one of theirs, and no earlier one of mine conflicts with this one.
pub fn none_where_no_pair_stands()
    ensures none { NoneWhereNoPairStands }
    ensures some { SomeIsFirstPair }
{}
