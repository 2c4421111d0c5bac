//! What holds of footers. Each function's contract is a law.

ghost use Rattle.std.specs.Prelude.{◌≡◌, ◌↔◌, ℕ, All, List, Ok};
ghost use Rattle.pq_meta.specs.declared.meta.FileMeta.{FileMeta};
ghost use Rattle.pq_meta.specs.Consistency.{IsConsistent, IsNamed};
ghost use Rattle.pq_meta.specs.Footers.{footer_of};
ghost use Rattle.pq_meta.specs.Holding.{IsFooter};
ghost use Rattle.pq_meta.specs.Spelling.{IsWritable, footer_bytes};

/// What is written of a footer whose names are texts reads back as that footer.
pub fn reads_back()
    ensures { (meta : FileMeta) → IsWritable meta → All IsNamed meta.columns
        → footer_of (footer_bytes meta) ≡ Ok meta }
{
    thrift_compact::reads_back();
}

/// The parts of a footer that is read fit together.
pub fn reads_consistent()
    ensures { (bytes : List ℕ) (meta : FileMeta) → footer_of bytes ≡ Ok meta → IsConsistent meta }
{}

/// A footer is read of bytes exactly where they begin with it.
pub fn reads_what_is_held()
    ensures { (bytes : List ℕ) (meta : FileMeta) → (footer_of bytes ≡ Ok meta) ↔ IsFooter bytes meta }
{}
