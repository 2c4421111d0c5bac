//! What holds of the names of data and delete files. Each function's contract is a law, and its body is
//! empty.

ghost use Rattle.new_files.specs.Laws.{AreOwn, Differ};

/// Each name of a number has the own form. That a name of this form is that of a number is what the form
/// means.
pub fn names_of_numbers_are_own()
    ensures { AreOwn }
{}

/// Different numbers have different names, and a data file's name is never a delete file's.
pub fn names_differ()
    ensures { Differ }
{}
