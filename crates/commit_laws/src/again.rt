//! What a commit leaves for the next one. Each function's contract is a law, and its body is empty.

ghost use Rattle.commit_laws.specs.AgainLaws.{BatchesFit, RowsRiseAfter, SoundStatesAreTidy};

/// The rows of each table rise by key after a commit too.
pub fn rows_rise_after()
    ensures { RowsRiseAfter }
{}

/// The batch of a commit fits the rows that it is made on: no key stands twice in one of its lists, what it removes is
/// there, what it ends is there without an end, and what it adds isn't there.
pub fn batches_fit()
    ensures { BatchesFit }
{}

/// Where the rows of a catalogue with its files stand for versions of a lake, each version's state is tidy: everything in it
/// has its place and its own name.
pub fn sound_states_are_tidy()
    ensures { SoundStatesAreTidy }
{}
