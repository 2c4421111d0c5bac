ghost use Rattle.std.specs.Prelude.{◌≡◌, List, ℕ};
ghost use Rattle.cat_tables.specs.Table.{key_cmp};

use std::cmp::Ordering;

/// A row that is known by a key.
pub trait Keyed: Drop {
    type Key;

    /// What a key is compared by: the numbers of its columns in order, or the bytes of a text.
    ghost parts: { Self.Key → List ℕ };

    /// The same of a row's own key.
    ghost key: { Self → List ℕ };

    /// How the row's key stands to another.
    fn compare_key(&self, other: &Self::Key) -> Ordering
        ensures { result ≡ key_cmp (key self.now) (parts other.now) };

    /// How the row's key stands to that of another row.
    fn compare_row(&self, other: &Self) -> Ordering
        ensures { result ≡ key_cmp (key self.now) (key other.now) };
}
