ghost use Rattle.std.specs.Prelude.{◌≡◌, ◌↔◌, ◌++◌, ◌∷◌, [], IsTrue};
ghost use Rattle.lake_types.specs.Kinds as spec;

use lake_types::Kind;

/// Whether a kind may stand behind these, which are in order.
pub fn may_follow(kinds: &[Kind], next: &Kind) -> bool
    requires { spec.AreInOrder kinds.now }
    ensures { IsTrue result ↔ spec.AreInOrder (kinds.now ++ next.now ∷ []) }
{
    match kinds.last() {
        Some(last) => last.compare(next).is_lt(),
        None => true,
    }
}
