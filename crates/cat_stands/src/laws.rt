//! What holds of a content that stands for a lake. Each function's contract is a law, and its body is empty.

ghost use Rattle.cat_stands.specs.Laws.{EarlierStatesStay, EarlierVersionsStay, KeptVersionsStay};
ghost use Rattle.cat_stands.specs.Laws.{EmptyStands, MoreFilesStand, NewLakeStands, SaneRowsCanBeSeen};
ghost use Rattle.cat_stands.specs.Laws.{StandsForOne, WhatRestsIsSeenAlike};

use file_disk::Held;

/// The empty content stands for the new lake, and so does that of snapshot 0, over any files.
pub fn new_lake_stands()
    ensures empty { EmptyStands }
    ensures new { NewLakeStands }
{}

/// More files on the disk leave what a content stands for.
pub fn more_files_stand()
    ensures { MoreFilesStand }
{}

/// A content stands for one lake at most, up to counters below the newest version, which no answer there uses.
pub fn one_lake()
    ensures { StandsForOne }
{}

/// A batch that is past a snapshot leaves the version and the plain state that this one sees.
pub fn earlier_versions_stay()
    ensures versions { EarlierVersionsStay }
    ensures states { EarlierStatesStay }
    ensures kept { KeptVersionsStay }
{}

/// Rows that neither begin nor end at the snapshots past one are seen alike at the last of these.
pub fn what_rests_is_seen_alike()
    ensures { WhatRestsIsSeenAlike }
{}

/// What `version_at` asks for holds at each kept snapshot of a sane content, where its files are held.
pub fn sane_rows_can_be_seen<F: Held>()
    ensures { SaneRowsCanBeSeen F.name }
{}
