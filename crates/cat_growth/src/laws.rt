//! What holds of a version that a list of changes makes. Each function's contract is a law, and its body is empty.

ghost use Rattle.cat_growth.specs.Example.{GrowsState, GrowsVersion, IsReadyToGrow, IsStagedToGrow};
ghost use Rattle.cat_growth.specs.Laws.{FreeTablesStay, MadeFilesHold, StagedFilesHold, StagedVersionsApply, VersionsApply, VersionsGrow};

/// A version whose new files hold the rows of a list that only creates, drops and inserts is the plain state after that
/// list: over the files before it was the state before, and the new rows have the next row ids.
pub fn versions_grow()
    ensures grown { VersionsGrow }
    ensures applied { VersionsApply }
{}

/// Files that are staged for such a list hold its rows, also at a later head, whatever ids the files and their first rows
/// get there. So the head with these files is the plain state after the list.
pub fn staged_files_hold()
    ensures old { StagedFilesHold }
    ensures made { MadeFilesHold }
    ensures applied { StagedVersionsApply }
{}

/// A list conflicts with nothing that is told between its base and a head. Then each table of the head that it leaves has
/// the base's columns, where it inserts.
pub fn free_tables_stay()
    ensures { FreeTablesStay }
{}

/// An example: a list that inserts into a table, creates two of which it drops one, creates a schema and drops another.
/// Its files are what the laws ask for.
pub fn a_version_grows()
    ensures version { GrowsVersion }
    ensures state { GrowsState }
    ensures ready { IsReadyToGrow }
    ensures staged { IsStagedToGrow }
{}
