//! What holds of written files. The function's contract is a law.

ghost use Rattle.std.specs.Prelude.{◌≡◌, ◌<◌, ◌+◌, ◌^◌, None, Ok, length};
ghost use Rattle.lake_types.specs.declared.sheet.Sheet.{Sheet};
ghost use Rattle.pq_meta.specs.Spelling.{footer_bytes};
ghost use Rattle.pq_file.specs.Canonical.{canonical, cuts_of, groups_bytes, meta_of};
ghost use Rattle.pq_file.specs.Frame.{mark};
ghost use Rattle.pq_file.specs.Reading.{file_of};
ghost use Rattle.pq_file.specs.Writable.{HasTexts, IsWritable};

/// The canonical file of a sheet whose texts are UTF-8 reads back as the sheet.
///
/// The first bound holds of all bytes that a memory can hold, the second of a footer whose length four bytes can state.
pub fn reads_back()
    ensures { (sheet : Sheet) → IsWritable sheet → HasTexts sheet
        → length mark + length (groups_bytes sheet.columns 0 (cuts_of sheet)) < 2 ^ 63 → length (footer_bytes (meta_of sheet)) < 2 ^ 32
        → file_of None (canonical sheet) ≡ Ok sheet }
{
    pq_pages::reads_back();
    pq_pages::body_size();
    pq_meta::reads_back();
}
