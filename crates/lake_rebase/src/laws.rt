//! What holds of a list of changes at a state that came after its base. Each function's contract is a law, and its body is
//! empty.

ghost use Rattle.lake_model.specs.State.{empty_state};
ghost use Rattle.lake_rebase.specs.Laws.{ColumnsAtHead, KindsAtHead, TellsAtOnce, TellsMore, TidyAtHead, TidyStays};
ghost use Rattle.lake_rebase.specs.Tidy.{IsTidy};

/// The new lake is tidy: one schema of a name, each table in its schema under its own name, with tidy columns. A list that a
/// transaction may have, if it only creates, drops and inserts, leaves its base tidy.
pub fn tidy_stays()
    ensures new { IsTidy empty_state }
    ensures kept { TidyStays }
{}

/// Nothing has to be told of a state itself. What was told of a head since some older state, and then the kinds of a list
/// that conflicts with nothing between its own base and the head, tell together what becomes of the older one.
pub fn kinds_tell()
    ensures none { TellsAtOnce }
    ensures more { TellsMore }
{}

/// A list conflicts with nothing that is told between its base and a head. Then it leaves the head tidy, it has the same
/// kinds there, and each table that it inserts into stands there with the columns of the base.
pub fn free_lists_rebase()
    ensures tidy { TidyAtHead }
    ensures kinds { KindsAtHead }
    ensures columns { ColumnsAtHead }
{}
