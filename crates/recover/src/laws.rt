//! What holds of rows that were opened, and of files that are held. Each function's contract is a law, and its body is
//! empty.

ghost use Rattle.recover.specs.Laws.{HeldFilesAreThere, NamedPathsAreHeld, OpenedRowsStand};

use file_disk::Held;

/// Rows that are opened of a content stand for the lake that it stands for, which of an empty one is the new lake.
pub fn opened_rows_stand()
    ensures { OpenedRowsStand }
{}

/// Where the files that rows name are held, so is each path that a data file or a delete file has.
pub fn named_paths_are_held<F: Held>()
    ensures { NamedPathsAreHeld F.name F.size F.bytes }
{}

/// What is held of a folder lies in its files, under the name that it is held by.
pub fn held_files_are_there<F: Held>()
    ensures { HeldFilesAreThere F.name F.size F.bytes }
{}
