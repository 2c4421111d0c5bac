//! What holds of the states that a version stands for, and of the lists on them. Each function's contract is a law, and
//! its body is empty.

ghost use Rattle.txn_buf.specs.Laws.{KeptListsFit, SizedAppendsSized, StatesAreBases};

/// The plain state that a version is, whatever files lie there, is among those that the promises of a buffer are made
/// over.
pub fn states_are_bases()
    ensures { StatesAreBases }
{}

/// The list that a buffer keeps creates, drops and inserts alone, and fits the plain state that its version is, whatever
/// files lie there. So it may be staged and committed.
pub fn kept_lists_fit()
    ensures { KeptListsFit }
{}

/// What a small statement appends is small, where the base's columns are and the changes before it fit.
pub fn sized_appends_sized()
    ensures { SizedAppendsSized }
{}
