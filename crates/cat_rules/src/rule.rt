ghost use Rattle.std.specs.Prelude.{◌≡◌, Bool};
ghost use Rattle.cat_rules.specs.First.{FirstBad, told};
ghost use Rattle.cat_rules.specs.Rows.{NamesIf};
ghost use Rattle.cat_rows.specs.declared.batch.Key.{Key};

use crate::order::sooner;
use cat_rows::Key;

/// A test of single rows.
pub trait RowRule<R> {
    /// Whether a row is bad.
    ghost is_bad: { Self → R → Bool };

    /// The key that a bad row names.
    ghost name: { R → Key };

    /// What a row names, if it is bad.
    fn judge(&self, row: &R) -> Option<Key>
        ensures { result ≡ told name (is_bad self.now) row.now };
}

/// The first of the keys that bad rows name.
pub fn first_bad<R, T: RowRule<R>>(rule: &T, rows: &[R]) -> Option<Key>
    ensures { FirstBad (NamesIf T.name (T.is_bad rule.now) rows.now) result }
{
    let mut first = None;
    for row in rows {
        first = sooner(first, rule.judge(row));
    }
    first
}
