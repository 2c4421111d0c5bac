//! What a sheet that is read says of its file. Each function's contract is a law.

ghost use Rattle.std.specs.Prelude.{◌≡◌, ◌↔◌, ℕ, List, None, Ok, Option, Some};
ghost use Rattle.lake_types.specs.declared.sheet.Sheet.{Sheet};
ghost use Rattle.pq_file.specs.Holding.{IsReading, named};
ghost use Rattle.pq_file.specs.Reading.{file_of};

/// A sheet is read of a file exactly where the file holds it.
pub fn reads_what_is_held()
    ensures { (fields : Option (List ℕ)) (bytes : List ℕ) (sheet : Sheet) → (file_of fields bytes ≡ Ok sheet) ↔ IsReading fields bytes sheet }
{
    pq_meta::reads_consistent();
    pq_meta::reads_what_is_held();
    pq_pages::reads_what_is_held();
}

/// A file that holds a sheet of all its columns holds, of those with some field ids, that sheet without the others.
pub fn reads_named()
    ensures { (fields : List ℕ) (bytes : List ℕ) (whole : Sheet) → IsReading None bytes whole → IsReading (Some fields) bytes (named fields whole) }
{}
