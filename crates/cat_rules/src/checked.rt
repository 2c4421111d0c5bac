ghost use Rattle.std.specs.Prelude.{◌≡◌, true, IfOk};
ghost use Rattle.cat_tables.specs.Table.{IsAscending};
ghost use Rattle.cat_rows.specs.declared.batch.Key.{Key};
ghost use Rattle.cat_rules.specs.First.{FirstBad, Judges};
ghost use Rattle.cat_rules.specs.Places.{is_sooner};
ghost use Rattle.cat_rules.specs.Rows.{Names};

use cat_rows::Key;
use lake_types::NoMemory;
use std::alloc::Global;

/// A test of single rows that takes memory.
pub trait CheckedRule<R> {
    /// Which rows are bad.
    ghost Bad: { Self → R → Type 0 };

    /// The key that a bad row names.
    ghost name: { R → Key };

    /// What a row names, if it is bad.
    fn judge(&self, alloc: Global, row: &R) -> Result<Option<Key>, NoMemory>
        ensures { IfOk result (Judges (Bad self.now row.now) (name row.now)) };
}

/// The first of the keys that bad rows name. Rows stand in the order of these keys.
pub fn first_checked<R, T: CheckedRule<R>>(
    alloc: Global,
    rule: &T,
    rows: &[R],
) -> Result<Option<Key>, NoMemory>
    requires { IsAscending (λ a b. is_sooner (T.name a) (T.name b) ≡ true) rows.now }
    ensures { IfOk result (FirstBad (Names T.name (T.Bad rule.now) rows.now)) }
{
    for row in rows {
        let told = rule.judge(alloc, row)?;
        if told.is_some() {
            return Ok(told);
        }
    }
    Ok(None)
}
