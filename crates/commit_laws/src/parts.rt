//! The batch that a list of creations, drops and inserts makes at any head is a lawful commit. Each function's contract is
//! a law, and its body is empty.

ghost use Rattle.commit_laws.specs.Example.{OneCommitFits};
ghost use Rattle.commit_laws.specs.Laws.{AreLawful, HeadsAre, PartsAre, RulesHoldAfter};

/// The newest snapshot is the head, and the batch is made of parts on top of it: new rows begin at the next snapshot with
/// keys past all, and the rows that end are those of what the list drops.
pub fn parts_are()
    ensures head { HeadsAre }
    ensures parts { PartsAre }
{}

/// The batch has all that the rules ask of a commit.
pub fn commits_are_lawful()
    ensures { AreLawful }
{}

/// So no rule is broken after it.
pub fn rules_hold_after()
    ensures { RulesHoldAfter }
{}

/// What a commit starts from is met: by one on the new lake, of a list that creates a schema and a table in it.
pub fn one_commit_fits()
    ensures { OneCommitFits }
{}
