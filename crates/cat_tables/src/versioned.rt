ghost use Rattle.std.specs.Prelude.{◌≡◌, is_some};
ghost use Rattle.cat_tables.specs.Validity.{Validity, IsValidity, ended_at};

use crate::keyed::Keyed;

/// A row with a validity interval: valid from one snapshot until another, or for good.
pub trait Versioned: Keyed {
    ghost validity: { Validity Self };

    fn has_end(&self) -> bool
        ensures { result ≡ is_some (validity.end self.now) };

    /// Ends the row at a snapshot, if it has no end.
    fn end_at(&mut self, snapshot: u64)
        ensures { self.new ≡ ended_at validity snapshot self.old };

    ghost laws: { IsValidity validity Self.key };
}
