ghost use Rattle.std.specs.Prelude.{◌≡◌};
ghost use Rattle.cat_rules.specs.First as spec;
ghost use Rattle.cat_rules.specs.Places as places;

use cat_rows::Key;

fn is_sooner(key: &Key, other: &Key) -> bool
    ensures { result ≡ places.is_sooner key.now other.now }
{
    key.compare(other).is_lt()
}

/// The one that stands before the other.
pub fn sooner(first: Option<Key>, second: Option<Key>) -> Option<Key>
    ensures { result ≡ spec.sooner first second }
{
    match (first, second) {
        (Some(first), Some(second)) => {
            if is_sooner(&second, &first) {
                Some(second)
            } else {
                Some(first)
            }
        }
        (Some(first), None) => Some(first),
        (None, second) => second,
    }
}
