//! What the rows stand for after a commit. Each function's contract is a law, and its body is empty.

ghost use Rattle.commit_laws.specs.Free.{FreeCommitsStand};
ghost use Rattle.commit_laws.specs.StandLaws.{CommitsStand, CountersGoOn, CountsGoOn, FilesGoOn};
ghost use Rattle.commit_laws.specs.StandLaws.{HeadIsCounted, NextIsPlain, NextIsSeen, VersionsGoOn};

/// The head's rows, with the counters of its tables, are one version, whose plain state is the head's.
pub fn head_is_counted()
    ensures { HeadIsCounted }
{}

/// The snapshot of a commit sees the head's version with what the list makes of it, where each table's new file is the one
/// that was staged for it. So it is the plain state that the list makes of the head's.
pub fn next_is_seen()
    ensures version { NextIsSeen }
    ensures plain { NextIsPlain }
{}

/// The versions of the snapshots after a commit are those before it, and the one that the list makes of the last.
pub fn versions_go_on()
    ensures { VersionsGoOn }
{}

/// The counters of the new snapshot and of its tables are those of the new state, and the statistics of each table count
/// the rows and bytes that it has at the last snapshot that sees it.
pub fn counts_go_on()
    ensures counters { CountersGoOn }
    ensures counts { CountsGoOn }
{}

/// After a commit each file is there as its row says, the old ones and the new.
pub fn files_go_on()
    ensures { FilesGoOn }
{}

/// The rows after a commit, which break no rule, stand for the lake with one version more.
pub fn commits_stand()
    ensures { CommitsStand }
{}

/// A list that conflicts with nothing since its base, with its rows staged in new files, is committed at the head: the rows
/// and files go on standing for the lake, which has the version more that the list makes of the last.
pub fn free_commits_stand()
    ensures { FreeCommitsStand }
{}
