//! Examples of what the definitions say: scripts with their replies, and lists of changes with what they make. Each is a
//! clause that follows by computing, of a function that does nothing.

ghost use Rattle.lake_model.specs.Examples.{CompactionAfterDelete, DropAfterInsert, DroppedTableHasOneKind, FieldIdsAndDefaults, FreshRowKeepsItsPlace, FreshRowsUpdated, InsertAfterAlteration, LowestSnapshot, RenameStillConflicts, TwoDeletesClash, TwoInsertsRenumber, UpdateInsertsAndDeletes, UpdateKeepsTheId, WhatGoesAgainHasNoKind};

/// What two sessions commit side by side goes together or conflicts, by the kinds of their changes.
pub fn conflicts()
    ensures two_inserts_renumber { TwoInsertsRenumber }
    ensures rename_still_conflicts { RenameStillConflicts }
    ensures two_deletes_clash { TwoDeletesClash }
    ensures drop_after_insert { DropAfterInsert }
    ensures insert_after_alteration { InsertAfterAlteration }
    ensures compaction_after_delete { CompactionAfterDelete }
    ensures lowest_snapshot { LowestSnapshot }
{}

/// Rows and columns keep their ids, and fresh ones get theirs at the commit.
pub fn ids()
    ensures update_keeps_the_id { UpdateKeepsTheId }
    ensures field_ids_and_defaults { FieldIdsAndDefaults }
    ensures fresh_rows_updated { FreshRowsUpdated }
    ensures fresh_row_keeps_its_place { FreshRowKeepsItsPlace }
{}

/// The kinds of a list.
pub fn kinds()
    ensures update_inserts_and_deletes { UpdateInsertsAndDeletes }
    ensures what_goes_again_has_no_kind { WhatGoesAgainHasNoKind }
    ensures dropped_table_has_one_kind { DroppedTableHasOneKind }
{}
