//! What holds of each sheet that is read. The function's contract is a law.

ghost use Rattle.std.specs.Prelude.{◌≡◌, ℕ, List, Ok, Option};
ghost use Rattle.lake_types.specs.declared.sheet.Sheet.{Sheet};
ghost use Rattle.pq_file.specs.Reading.{file_of};
ghost use Rattle.pq_file.specs.Sheets.{IsSound};

/// What is read of a file is a sound sheet.
pub fn reads_sound()
    ensures { (fields : Option (List ℕ)) (bytes : List ℕ) (sheet : Sheet) → file_of fields bytes ≡ Ok sheet → IsSound sheet }
{
    pq_pages::reads_as_said();
    pq_meta::reads_consistent();
}
